//! What a replica commits, event by event.
ghost use Rattle.std.specs.Prelude.{length, vec_capacity, ◌≡◌, ◌≤◌};
ghost use Rattle.mu_model.specs.Knowledge.{grown};
ghost use Rattle.mu_course.specs.Committing.{commit_by};

use mu_knowledge::Commit;
use mu_model::{Event, Verb};

/// The commit that an event makes, which teaches a value or doesn't.
pub(crate) fn commit_in(event: &Event, taught: Option<u16>) -> Option<Commit>
    ensures { result ≡ commit_by event.now.verb taught }
{
    match (event.verb, taught) {
        (Verb::PutSlot(_, position, _, _), Some(value)) => Some(Commit { position, value }),
        _ => None,
    }
}

/// Adds a commit, if there is one and if there is room: there is, for each position.
pub(crate) fn push_commit(commits: &mut Vec<Commit>, commit: Option<Commit>)
    ensures items { length (grown commits.old.items commit) ≤ vec_capacity commits.old
        → commits.new.items ≡ grown commits.old.items commit }
    ensures room { vec_capacity commits.new ≡ vec_capacity commits.old }
{
    if let Some(commit) = commit {
        if commits.len() < commits.capacity() {
            commits.push_reserved(commit);
        }
    }
}
