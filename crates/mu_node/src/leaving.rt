//! What a replica leaves at its end.
ghost use Rattle.mu_node.specs.Keeping.{Ends, HasEvents, Leaves};
ghost use Rattle.mu_node.specs.Turns.{IsLeft, TellsEnd};

use crate::answers::apply_ready;
use crate::ending::{end_of_going, is_stop};
use crate::node::Node;
use crate::result::NodeResult;
use mu_knowledge::first_values;
use mu_model::{End, Sequence};

impl Node {
    /// The end of its events, if they have one: by the script, by the budget, because it was
    /// outrun, or because all is applied.
    #[inline(always)]
    pub fn end(&self) -> Option<End>
        ensures { Ends TellsEnd self.now result }
    {
        let steps = self.follow.steps();
        if is_stop(self.stops.as_slice(), self.id, steps) {
            Some(End::Stopped)
        } else if steps == self.budget {
            Some(End::Budget)
        } else {
            end_of_going(&self.follow, &self.watch, self.id, self.replicas)
        }
    }

    /// What the replica leaves. Takes no memory.
    pub fn into_result(self) -> NodeResult
        requires stands { HasEvents self }
        ensures left { Leaves self (λ c r mine. IsLeft c r mine result) }
        ensures end { Ends TellsEnd self result.end }
    {
        let end = self.end();
        let Node {
            id: _,
            replicas: _,
            zeal: _,
            budget: _,
            stops: _,
            grants: _,
            watch: _,
            lead: _,
            mut follow,
            mut log,
            mut commits,
            mut answers,
        } = self;
        apply_ready(&mut follow, &mut answers);
        // Room for all was taken before, so no memory is wanted.
        log.extend_from_slice(first_values(follow.known(), follow.applied_count()))
            .unwrap();
        commits.extend_from_slice(follow.commits()).unwrap();
        NodeResult {
            log: Sequence::from_vec(log),
            commits: Sequence::from_vec(commits),
            replies: answers.into_replies(),
            end,
        }
    }
}
