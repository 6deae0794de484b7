//! `libmu`: the calls for C, with the contracts of those that they make; `c/mu.h` tells of each.
//! Those on a live engine stand in `engines`.
#![tactic(auto)]

ghost use Rattle.std.specs.Prelude.{◌≡◌, ⊤, None};
ghost use Rattle.mu_drawing.specs.Words.{asked_steps};
ghost use Rattle.mu_library.specs.Calls.{asked_after, asked_at, Answers, CanTake, Draws, OpensJudge, SaysOfJudge, TakesLine};
ghost use Rattle.libmu.specs.Operations.{IsOperation};
ghost use Rattle.lone_words.specs.Memory.{Own};
ghost use Rattle.mu_library.specs.Replicas.{Appends, AsksNext, AsksReplica, Five, MayTakeAt, OfReplica, OpensReplica, RepliesTo, Shows, StandsAt, TakesFound, TakesNextFound, TellsEvent, none_asked, three};
ghost use Rattle.mu_library.specs.declared.replicas.Asked.{Asked as SomeAsked};
ghost use Rattle.mu_library.specs.declared.shown.Show.{Show as SomeShow};
ghost use Rattle.mu_model.specs.declared.config.Config.{Config};
ghost use Rattle.mu_library.specs.Engines.{IsUntold};

mod engines;
mod rests;
mod servers;

use mu_handle::Handle;
use mu_library::{
    Asked, Show, answer, append_line, draw, judge_answer, last_event, let_go, next_access,
    open_judge, open_replica, own_reply, show, show_numbers, take_line, take_word,
    take_word_and_next,
};
use std::alloc::Global;

/// What the program says of an input, and the status that it ends with. The first bytes of the text
/// go to `out`, and `taken` is how many bytes it has.
#[unsafe(no_mangle)]
pub extern "C" fn mu_answer(
    alloc: Global,
    task: u32,
    input: &[u8],
    out: &mut [u8],
    taken: &mut usize,
) -> u32
    ensures { Answers (asked_at task input.now) input.now out.old out.new result taken.new }
{
    let answered = answer(alloc, task, input, out);
    *taken = answered.taken;
    u32::from(answered.status)
}

/// What `mu show` says of the first events of a trace, and the status that it ends with.
#[unsafe(no_mangle)]
pub extern "C" fn mu_show_answer(
    alloc: Global,
    events: u32,
    input: &[u8],
    out: &mut [u8],
    taken: &mut usize,
) -> u32
    ensures { Answers (asked_after events) input.now out.old out.new result taken.new }
{
    let answered = show(alloc, events, input, out);
    *taken = answered.taken;
    u32::from(answered.status)
}

/// What `mu_draw FIRST LAST` says of an input, and the status that it ends with.
#[unsafe(no_mangle)]
pub extern "C" fn mu_draw_answer(
    alloc: Global,
    first: u32,
    last: u32,
    input: &[u8],
    out: &mut [u8],
    taken: &mut usize,
) -> u32
    ensures { Draws (asked_steps first last) input.now out.old out.new result taken.new }
{
    let answered = draw(alloc, first, last, input, out);
    *taken = answered.taken;
    u32::from(answered.status)
}

/// Makes a judge of the job that the bytes spell, in place of what the handle has; or says why there
/// is none. `mu_judge_new` of `c/new.c` is this for a handle that has nothing.
#[unsafe(no_mangle)]
pub extern "C" fn mu_judge_renew(
    alloc: Global,
    judge: &mut Handle,
    job: &[u8],
    out: &mut [u8],
    taken: &mut usize,
) -> u32
    ensures { OpensJudge job.now judge.old.held judge.new.held out.old out.new result taken.new }
{
    let answered = open_judge(alloc, judge, job, out);
    *taken = answered.taken;
    u32::from(answered.status)
}

/// Takes the next line of events, without its line feed: 0 if the list is legal so far, 7 once an
/// event broke it, 2 if the line is no event, and then it isn't taken; 1 if there is no judge.
#[unsafe(no_mangle)]
pub extern "C" fn mu_judge_take(alloc: Global, judge: &mut Handle, line: &[u8]) -> u32
    requires { CanTake judge.old.held }
    ensures { TakesLine judge.old.held line.now judge.new.held result }
{
    u32::from(take_line(alloc, judge, line))
}

/// What is said of the lines that the judge took, and its status: 0 or 7; nothing with the status 1
/// if there is no judge.
#[unsafe(no_mangle)]
pub extern "C" fn mu_judge_why(
    alloc: Global,
    judge: &mut Handle,
    out: &mut [u8],
    taken: &mut usize,
) -> u32
    ensures says { SaysOfJudge judge.old.held out.old out.new result taken.new }
    ensures kept { judge.new.held ≡ judge.old.held }
{
    let answered = judge_answer(alloc, judge, out);
    *taken = answered.taken;
    u32::from(answered.status)
}

/// Lets the judge go, if there is one.
#[unsafe(no_mangle)]
pub extern "C" fn mu_judge_free(alloc: Global, judge: &mut Handle)
    ensures { judge.new.held ≡ None }
{
    let_go(alloc, judge);
}

/// An access to one word.
#[repr(C)]
#[derive(Drop)]
pub struct Operation {
    /// What is stored, or done with.
    pub value: u64,
    /// What is expected.
    pub expected: u64,
    /// What is done.
    pub kind: u32,
    /// The host.
    pub host: u32,
    /// The place among its words.
    pub place: u32,
    /// Nothing: 0.
    pub reserved: u32,
}

impl Operation {
    /// The operation of what is asked.
    fn of(asked: &Asked) -> Operation
        ensures { IsOperation asked.now result }
    {
        Operation {
            value: asked.value,
            expected: asked.expected,
            kind: u32::from(asked.kind),
            host: u32::from(asked.host),
            place: asked.place,
            reserved: 0,
        }
    }
}

/// Makes one replica of the job that the bytes spell, in place of what the handle has; or there is none.
/// `mu_replica_new` of `c/new.c` is this for a handle that has nothing.
#[unsafe(no_mangle)]
pub extern "C" fn mu_replica_renew(
    alloc: Global,
    replica: &mut Handle,
    job: &[u8],
    id: u32,
    eager: u32,
    room: u32,
) -> u32
    ensures { OpensReplica job.now id room replica.old.held replica.new.held result }
{
    u32::from(open_replica(alloc, replica, job, id, eager != 0, room))
}

/// How many hosts there are, and how many words each has.
#[unsafe(no_mangle)]
pub extern "C" fn mu_replica_shape(
    alloc: Global,
    replica: &mut Handle,
    hosts: &mut u32,
    words: &mut u32,
) -> u32
    ensures { (each : Five) × (hosts.new ≡ each.first) × (words.new ≡ each.second)
        × OfReplica (each ≡ three 0 0 0) (AsksReplica (Shows SomeShow.Shape each))
        replica.old.held replica.new.held result }
{
    let shown = show_numbers(alloc, replica, Show::Shape);
    *hosts = shown.first;
    *words = shown.second;
    u32::from(shown.status)
}

/// What the replica wants to do now.
#[unsafe(no_mangle)]
pub extern "C" fn mu_replica_next(
    alloc: Global,
    replica: &mut Handle,
    operation: &mut Operation,
) -> u32
    ghost at: { Config × Own }
    requires { StandsAt at.0 at.1 replica.old.held }
    ensures { (asked : SomeAsked) × IsOperation asked operation.new
        × OfReplica (asked ≡ none_asked 1) (AsksNext at.0 at.1 asked)
        replica.old.held replica.new.held result }
{
    let asked = next_access(alloc, replica);
    *operation = Operation::of(&asked);
    u32::from(asked.status)
}

/// Gives the replica the word that its access found.
#[unsafe(no_mangle)]
pub extern "C" fn mu_replica_take(alloc: Global, replica: &mut Handle, found: u64) -> u32
    ghost at: { Config × Own }
    requires { StandsAt at.0 at.1 replica.old.held }
    ensures { OfReplica ⊤ (TakesFound at.0 at.1 found) replica.old.held replica.new.held
        result }
{
    u32::from(take_word(alloc, replica, found))
}

/// Gives the replica the word that its access found, and tells what it wants to do next.
#[unsafe(no_mangle)]
pub extern "C" fn mu_replica_take_next(
    alloc: Global,
    replica: &mut Handle,
    found: u64,
    operation: &mut Operation,
) -> u32
    ghost at: { Config × Own }
    requires stands { StandsAt at.0 at.1 replica.old.held }
    requires found { MayTakeAt at.0 at.1 found replica.old.held }
    ensures { (asked : SomeAsked) × IsOperation asked operation.new
        × OfReplica (asked ≡ none_asked 1) (TakesNextFound at.0 at.1 found asked)
        replica.old.held replica.new.held result }
{
    let asked = take_word_and_next(alloc, replica, found);
    *operation = Operation::of(&asked);
    u32::from(asked.status)
}

/// Whether the replica has an end, and which; of one that was outrun also region and position.
#[unsafe(no_mangle)]
pub extern "C" fn mu_replica_end(
    alloc: Global,
    replica: &mut Handle,
    how: &mut u32,
    region: &mut u32,
    position: &mut u32,
) -> u32
    ensures { (each : Five) × (how.new ≡ each.first) × (region.new ≡ each.second)
        × (position.new ≡ each.third)
        × OfReplica (each ≡ three 0 0 0) (AsksReplica (Shows SomeShow.End each))
        replica.old.held replica.new.held result }
{
    let shown = show_numbers(alloc, replica, Show::End);
    *how = shown.first;
    *region = shown.second;
    *position = shown.third;
    u32::from(shown.status)
}

/// Where the replica stands.
#[unsafe(no_mangle)]
pub extern "C" fn mu_replica_state(
    alloc: Global,
    replica: &mut Handle,
    steps: &mut u32,
    leader: &mut u32,
    leads: &mut u32,
    applied: &mut u32,
    commits: &mut u32,
) -> u32
    ensures { (each : Five) × (steps.new ≡ each.first) × (leader.new ≡ each.second)
        × (leads.new ≡ each.third) × (applied.new ≡ each.fourth) × (commits.new ≡ each.fifth)
        × OfReplica (each ≡ three 0 0 0) (AsksReplica (Shows SomeShow.State each))
        replica.old.held replica.new.held result }
{
    let shown = show_numbers(alloc, replica, Show::State);
    *steps = shown.first;
    *leader = shown.second;
    *leads = shown.third;
    *applied = shown.fourth;
    *commits = shown.fifth;
    u32::from(shown.status)
}

/// An entry that the replica handed on to its store.
#[unsafe(no_mangle)]
pub extern "C" fn mu_replica_applied(
    alloc: Global,
    replica: &mut Handle,
    at: u32,
    value: &mut u32,
) -> u32
    ensures { (each : Five) × (value.new ≡ each.first)
        × OfReplica (each ≡ three 0 0 0) (AsksReplica (Shows (SomeShow.Applied at) each))
        replica.old.held replica.new.held result }
{
    let shown = show_numbers(alloc, replica, Show::Applied(at));
    *value = shown.first;
    u32::from(shown.status)
}

/// An entry that the replica committed.
#[unsafe(no_mangle)]
pub extern "C" fn mu_replica_commit(
    alloc: Global,
    replica: &mut Handle,
    at: u32,
    position: &mut u32,
    value: &mut u32,
) -> u32
    ensures { (each : Five) × (position.new ≡ each.first) × (value.new ≡ each.second)
        × OfReplica (each ≡ three 0 0 0) (AsksReplica (Shows (SomeShow.Commit at) each))
        replica.old.held replica.new.held result }
{
    let shown = show_numbers(alloc, replica, Show::Commit(at));
    *position = shown.first;
    *value = shown.second;
    u32::from(shown.status)
}

/// The reply of the replica's store to the command of a row, if it is there.
#[unsafe(no_mangle)]
pub extern "C" fn mu_replica_reply(
    alloc: Global,
    replica: &mut Handle,
    row: u32,
    reply: &mut u32,
    out: &mut [u8],
    taken: &mut usize,
) -> u32
    ensures { OfReplica (IsUntold reply.new out.old out.new taken.new)
        (AsksReplica (RepliesTo row reply.new out.old out.new taken.new))
        replica.old.held replica.new.held result }
{
    let told = own_reply(alloc, replica, row, out);
    *reply = u32::from(told.reply);
    *taken = told.taken;
    u32::from(told.status)
}

/// Takes the next command of a client, which the line spells.
#[unsafe(no_mangle)]
pub extern "C" fn mu_replica_append(
    alloc: Global,
    replica: &mut Handle,
    client: u32,
    line: &[u8],
    row: &mut u32,
) -> u32
    ghost at: { Config × Own }
    requires { StandsAt at.0 at.1 replica.old.held }
    ensures { OfReplica (row.new ≡ 0) (Appends at.0 at.1 client line.now row.new)
        replica.old.held replica.new.held result }
{
    let submitted = append_line(alloc, replica, client, line);
    *row = u32::from(submitted.row);
    u32::from(submitted.status)
}

/// The line of the replica's newest event.
#[unsafe(no_mangle)]
pub extern "C" fn mu_replica_event(
    alloc: Global,
    replica: &mut Handle,
    out: &mut [u8],
    taken: &mut usize,
) -> u32
    ensures { OfReplica ((taken.new ≡ 0) × (out.new ≡ out.old))
        (AsksReplica (TellsEvent out.old out.new taken.new))
        replica.old.held replica.new.held result }
{
    let told = last_event(alloc, replica, out);
    *taken = told.taken;
    u32::from(told.status)
}

/// Lets the replica go, if there is one.
#[unsafe(no_mangle)]
pub extern "C" fn mu_replica_free(alloc: Global, replica: &mut Handle)
    ensures { replica.new.held ≡ None }
{
    let_go(alloc, replica);
}
