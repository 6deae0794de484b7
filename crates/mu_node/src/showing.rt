//! What a replica shows of itself while it runs, also between the halves of a step.
ghost use Rattle.std.specs.Prelude.{drop, length, map, ◌≡◌};
ghost use Rattle.mu_model.specs.Knowledge.{applied, commits};
ghost use Rattle.mu_model.specs.Scores.{leader as leader_of};
ghost use Rattle.mu_knowledge.specs.Commits.{pair_of};
ghost use Rattle.mu_knowledge.specs.Telling.{Tells};
ghost use Rattle.mu_lead.specs.Beside.{leads_at};
ghost use Rattle.mu_node.specs.Node.{HoldsBeside};

use crate::node::Node;
use mu_knowledge::Commit;

impl Node {
    /// How many steps it has taken.
    pub fn steps(&self) -> u32
        ensures { Tells HoldsBeside self.now (λ c r mine. length mine) result }
    {
        self.follow.steps()
    }

    /// The replica that its scores name leader.
    pub fn leader(&self) -> u8
        ensures { Tells HoldsBeside self.now leader_of result }
    {
        self.watch.leader()
    }

    /// Whether it leads: a leadership was confirmed, and isn't over or given up.
    pub fn leads(&self) -> bool
        ensures { result ≡ leads_at self.now.lead.place }
    {
        self.lead.is_leading()
    }

    /// What it committed, in order.
    pub fn commits(&self) -> &[Commit]
        ensures { Tells HoldsBeside self.now commits (map pair_of result.now) }
    {
        self.follow.commits()
    }

    /// The entries that it has applied and not handed on to its store yet, in order.
    pub fn entries_ready(&self) -> &[u16]
        ensures { Tells HoldsBeside self.now
            (λ c r mine. drop self.now.follow.progress.handed (applied c r mine)) result.now }
    {
        self.follow.entries_to_hand_on()
    }
}
