//! What replicas that ran in threads leave.
ghost use Rattle.std.specs.Prelude.{true, List, ◌≡◌};
ghost use Rattle.mu_model.specs.declared.event.Event.{Event};
ghost use Rattle.mu_model.specs.Contents.{IsConfig};
ghost use Rattle.mu_model.specs.Legal.{IsLegal};
ghost use Rattle.mu_model.specs.Parts.{HasParts};
ghost use Rattle.mu_cluster.specs.Branches.{AreLeft};
ghost use Rattle.mu_cluster.specs.Fair.{AppliesAllIfFair};
ghost use Rattle.mu_cluster.specs.Lists.{HasRoom, HoldsLists, IsOutcomeRoom};
ghost use Rattle.mu_follow.specs.Groups.{AreSpelled};
ghost use Rattle.mu_cluster.specs.Paces.{AreDiligentBy, AreEager};
ghost use Rattle.mu_outcome.specs.Runs.{IsThreadRun};

use crate::lists::{Lists, OutcomeRoom, printed};
use mu_input::Job;
use mu_model::Sequence;
use mu_node::Node;
use mu_outcome::Outcome;
use shared_fabric::Gathered;

/// What a run of threads leaves if every replica has an end. Takes no memory.
pub(crate) fn gathered_outcome(
    room: OutcomeRoom,
    job: Job,
    gathered: Gathered,
    nodes: Vec<Node>,
) -> Outcome
    requires good { IsConfig job.config }
    requires spelled { AreSpelled job.config job.commands }
    requires room { IsOutcomeRoom job.config room }
    requires config { gathered.config ≡ job.config }
    requires left { AreLeft job.config job.script gathered.parts nodes.items }
    ensures job { result.job ≡ job }
    ensures run { IsThreadRun result }
    ensures diligent { AreDiligentBy true result }
    ensures eager { AreEager result }
    ensures applies { AppliesAllIfFair result }
{
    let OutcomeRoom {
        lists,
        printed: room,
    } = room;
    gathered.are_of_one_list();
    let lists = left_by(lists, &job, &gathered, nodes);
    let printed = printed(room, &lists);
    let Lists {
        logs,
        commits,
        replies,
        ends,
    } = lists;
    Outcome {
        job,
        logs: Sequence::from_vec(logs),
        commits: Sequence::from_vec(commits),
        replies: printed,
        own_replies: Sequence::from_vec(replies),
        ends: Sequence::from_vec(ends),
        order: None,
        gathered: Some(gathered),
    }
}

/// The lists with what each replica leaves. The job and what was gathered are only for the clauses.
fn left_by(mut lists: Lists, _job: &Job, _gathered: &Gathered, nodes: Vec<Node>) -> Lists
    requires good { IsConfig _job.now.config }
    requires room { HasRoom _job.now.config.replicas 0 lists }
    requires list { (events : List Event)
        × (IsLegal _job.now.config events
        × HasParts _job.now.config events _gathered.now.parts) }
    requires left { AreLeft _job.now.config _job.now.script _gathered.now.parts nodes.items }
    ensures { (events : List Event) → IsLegal _job.now.config events
        → HasParts _job.now.config events _gathered.now.parts
        → HoldsLists true _job.now.config _job.now.script events _job.now.config.replicas
        result }
{
    for node in nodes {
        lists.add(node.into_result());
    }
    lists
}
