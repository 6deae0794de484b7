//! What one replica leaves.
use crate::answers::Replies;
use mu_knowledge::{Commits, Log};
use mu_model::End;

/// What one replica leaves.
#[derive(Drop)]
pub struct NodeResult {
    /// What it applied.
    pub log: Log,
    /// What it committed.
    pub commits: Commits,
    /// The replies of its own store to the commands that it applied, in order.
    pub replies: Replies,
    /// How it ended, if it did.
    pub end: Option<End>,
}
