//! What one replica shows a C program. It stays as it is.
ghost use Rattle.std.specs.Prelude.{option_map, ◌<◌, ◌^◌, ◌≡◌};
ghost use Rattle.mu_library.specs.Engines.{IsUntold};
ghost use Rattle.mu_library.specs.Replicas.{AsksReplica, OfReplica, OfReplicaIn, RepliesTo, Shows, ShowsApplied, ShowsCommit, ShowsEnd, ShowsShape, ShowsState, TellsEvent, TellsNumbers, end_told, five_of, three};

use crate::front::put_bytes;
use crate::handles::taken_out;
use crate::replies::{Replied, put_reply, untold};
use lone_replica::Replica;
use mu_events::event_line;
use mu_handle::{Handle, Held};
use mu_input::MOST_COMMANDS;
use mu_model::End;
use mu_outcome::Status;
use std::alloc::Global;

/// Numbers that a replica shows, and a status: 1 if there is no replica, or no such place.
#[derive(Clone, Copy)]
pub struct Numbers {
    /// The status.
    pub status: u8,
    /// The numbers; those that are not asked for are 0.
    pub first: u32,
    pub second: u32,
    pub third: u32,
    pub fourth: u32,
    pub fifth: u32,
}

/// Which numbers are asked for.
#[derive(Clone, Copy)]
pub enum Show {
    /// How many hosts there are, and how many words each has.
    Shape,
    /// Its steps, whom it names leader, whether it leads, how many entries it applied, and how many
    /// it committed.
    State,
    /// Its end: 1 stopped, 2 its budget is spent, 3 outrun, with the region and the position at
    /// which it was, 4 finished.
    End,
    /// The payload number of an applied entry.
    Applied(u32),
    /// The position and the payload number of an entry that it committed.
    Commit(u32),
}

/// No numbers.
fn status_alone(status: u8) -> Numbers
    ensures status { result.status ≡ status }
    ensures each { five_of result ≡ three 0 0 0 }
{
    Numbers {
        status,
        first: 0,
        second: 0,
        third: 0,
        fourth: 0,
        fifth: 0,
    }
}

/// These three, and 0.
fn three_numbers(first: u32, second: u32, third: u32) -> Numbers
    ensures status { result.status ≡ 0 }
    ensures each { five_of result ≡ three first second third }
{
    Numbers {
        status: Status::Done.code(),
        first,
        second,
        third,
        fourth: 0,
        fifth: 0,
    }
}

/// The numbers that are asked for.
pub fn show_numbers(alloc: Global, handle: &mut Handle, show: Show) -> Numbers
    ensures { OfReplica (five_of result ≡ three 0 0 0)
        (AsksReplica (Shows show (five_of result)))
        handle.old.held handle.new.held result.status }
{
    match taken_out(alloc, handle) {
        Some(held) => {
            let shown = shown_by(&held, show);
            *handle = Handle::of(held);
            shown
        }
        None => status_alone(Status::Usage.code()),
    }
}

fn shown_by(held: &Held, show: Show) -> Numbers
    ensures { OfReplicaIn (five_of result ≡ three 0 0 0)
        (AsksReplica (Shows show (five_of result)))
        held.now held.now result.status }
{
    match held {
        Held::Replica(replica) => shown_of(replica, show),
        Held::Judge(_) | Held::Engine(_) => status_alone(Status::Usage.code()),
    }
}

fn shown_of(replica: &Replica, show: Show) -> Numbers
    ensures { Shows show (five_of result) replica.now result.status }
{
    match show {
        Show::Shape => shape_of(replica),
        Show::State => state_of(replica),
        Show::End => end_of(replica),
        Show::Applied(at) => applied_at(replica, at),
        Show::Commit(at) => commit_at(replica, at),
    }
}

fn shape_of(replica: &Replica) -> Numbers
    ensures { ShowsShape replica.now (five_of result) result.status }
{
    let shape = replica.shape();
    three_numbers(u32::from(shape.replicas), shape.words(), 0)
}

fn state_of(replica: &Replica) -> Numbers
    ensures { ShowsState replica.now (five_of result) result.status }
{
    let state = replica.state();
    Numbers {
        status: Status::Done.code(),
        first: state.steps,
        second: u32::from(state.leader),
        third: u32::from(state.leads),
        fourth: told_count(replica.entries_handed_on().len()),
        fifth: told_count(replica.commits().len()),
    }
}

/// A count as a caller in C gets it. None is so large that it doesn't fit.
fn told_count(count: usize) -> u32
    ensures { count < 2 ^ 32 → result ≡ count }
{
    if count < u32::MAX as usize {
        count as u32
    } else {
        u32::MAX
    }
}

fn end_of(replica: &Replica) -> Numbers
    ensures { ShowsEnd replica.now (five_of result) result.status }
{
    told_end(replica.end())
}

/// An end, if there is one.
fn told_end(end: Option<End>) -> Numbers
    ensures { TellsNumbers 3 (option_map end_told end) (five_of result) result.status }
{
    match end {
        None => status_alone(Status::Unfinished.code()),
        Some(End::Stopped) => three_numbers(1, 0, 0),
        Some(End::Budget) => three_numbers(2, 0, 0),
        Some(End::Outrun { replica, position }) => {
            three_numbers(3, u32::from(replica), u32::from(position))
        }
        Some(End::Finished { heads: _ }) => three_numbers(4, 0, 0),
    }
}

fn applied_at(replica: &Replica, at: u32) -> Numbers
    ensures { ShowsApplied at replica.now (five_of result) result.status }
{
    match replica.entries_handed_on().get(at as usize) {
        Some(value) => three_numbers(u32::from(*value), 0, 0),
        None => status_alone(Status::Usage.code()),
    }
}

fn commit_at(replica: &Replica, at: u32) -> Numbers
    ensures { ShowsCommit at replica.now (five_of result) result.status }
{
    match replica.commits().get(at as usize) {
        Some(commit) => { three_numbers(u32::from(commit.position), u32::from(commit.value), 0) }
        None => status_alone(Status::Usage.code()),
    }
}

/// The reply of its store to the command of a row, once it is handed on.
pub fn own_reply(alloc: Global, handle: &mut Handle, row: u32, out: &mut [u8]) -> Replied
    ensures { OfReplica (IsUntold result.reply out.old out.new result.taken)
        (AsksReplica (RepliesTo row result.reply out.old out.new result.taken))
        handle.old.held handle.new.held result.status }
{
    match taken_out(alloc, handle) {
        Some(held) => {
            let replied = reply_in(&held, row, out);
            *handle = Handle::of(held);
            replied
        }
        None => untold(Status::Usage.code()),
    }
}

fn reply_in(held: &Held, row: u32, out: &mut [u8]) -> Replied
    ensures { OfReplicaIn (IsUntold result.reply out.old out.new result.taken)
        (AsksReplica (RepliesTo row result.reply out.old out.new result.taken))
        held.now held.now result.status }
{
    match held {
        Held::Replica(replica) => reply_of(replica, row, out),
        Held::Judge(_) | Held::Engine(_) => untold(Status::Usage.code()),
    }
}

fn reply_of(replica: &Replica, row: u32, out: &mut [u8]) -> Replied
    ensures { RepliesTo row result.reply out.old out.new result.taken replica.now
        result.status }
{
    if row >= MOST_COMMANDS as u32 || row as usize >= replica.config().rows.len() {
        return untold(Status::Usage.code());
    }
    match replica.reply_to(row as u16) {
        Some(reply) => put_reply(&reply, out),
        None => untold(Status::Unfinished.code()),
    }
}

/// The line of its newest event, without its line feed. The status is 3 if it has none.
pub fn last_event(alloc: Global, handle: &mut Handle, out: &mut [u8]) -> Replied
    ensures { OfReplica ((result.taken ≡ 0) × (out.new ≡ out.old))
        (AsksReplica (TellsEvent out.old out.new result.taken))
        handle.old.held handle.new.held result.status }
{
    match taken_out(alloc, handle) {
        Some(held) => {
            let told = event_in(&held, out);
            *handle = Handle::of(held);
            told
        }
        None => untold(Status::Usage.code()),
    }
}

fn event_in(held: &Held, out: &mut [u8]) -> Replied
    ensures { OfReplicaIn ((result.taken ≡ 0) × (out.new ≡ out.old))
        (AsksReplica (TellsEvent out.old out.new result.taken)) held.now held.now
        result.status }
{
    match held {
        Held::Replica(replica) => event_of(replica, out),
        Held::Judge(_) | Held::Engine(_) => untold(Status::Usage.code()),
    }
}

fn event_of(replica: &Replica, out: &mut [u8]) -> Replied
    ensures { TellsEvent out.old out.new result.taken replica.now result.status }
{
    match replica.last() {
        Some(event) => Replied {
            status: Status::Done.code(),
            reply: 0,
            taken: put_bytes(event_line(&event).as_slice(), out),
        },
        None => untold(Status::Unfinished.code()),
    }
}
