//! One replica in the hands of a C program: how it is made, its accesses, and commands that come.

ghost use Rattle.std.specs.Prelude.{IfOk, Ok, ⊤, ◌<◌, ◌≡◌, ◌≤◌};
ghost use Rattle.kv_store.specs.Commands.{HasShortTexts};
ghost use Rattle.mu_model.specs.Contents.{IsConfig, row_count};
ghost use Rattle.mu_model.specs.declared.config.Config.{Config as SomeConfig};
ghost use Rattle.lone_replica.specs.Standing.{MayTake, StandsForReplica, judged_for};
ghost use Rattle.lone_words.specs.Memory.{Own};
ghost use Rattle.mu_library.specs.Replicas.{Appends, AppendsOp, AsksNext, IsMade, MayTakeAt, MayTakeIn, OfReplica, OfReplicaIn, OpensOf, OpensReplica, StandsAt, StandsIn, TakesFound, TakesNextFound, asked_for, expected_told, kind_told, none_asked, value_told};

use crate::codes::{ENDED, FULL, STRAY};
use crate::engines::wanting;
use crate::handles::{let_go, taken_out};
use kv_store::Op;
use lone_replica::{Next, Refusal, Replica, Untaken};
use lone_words::Access;
use mu_handle::{Handle, Held};
use mu_input::{Job, MOST_CLIENTS, MOST_COMMANDS, operation, read};
use mu_model::NoMemory;
use mu_node::Zeal;
use mu_outcome::Status;
use mu_text::Words;
use mu_top::INPUT_LIMIT;
use mu_words::Move;
use std::alloc::Global;

/// What became of a command that one replica was to get.
#[derive(Clone, Copy, Debug)]
pub struct Submitted {
    /// 0 if it was taken; 1 if there is no such client, 2 if the line is no operation, 9 if there
    /// may be no more, 6 for want of memory.
    pub status: u8,
    /// Its row, or 0 if it wasn't taken.
    pub row: u16,
}

impl Submitted {
    /// It wasn't taken.
    fn refused(status: u8) -> Submitted
        ensures status { result.status ≡ status }
        ensures row { result.row ≡ 0 }
    {
        Submitted { status, row: 0 }
    }
}

/// An access as a C program gets it.
#[derive(Clone, Copy)]
pub struct Asked {
    /// 0 if there is one; 12 if the replica is halted, 1 if there is no replica.
    pub status: u8,
    /// What is done: 0 load, 1 store, 2 raise, 3 add 1, 4 set bits, 5 compare and exchange, 6 swap.
    pub kind: u8,
    /// The host.
    pub host: u8,
    /// The place among its words.
    pub place: u32,
    /// The word that is stored, or what is done with.
    pub value: u64,
    /// The word that is expected.
    pub expected: u64,
}

impl Asked {
    /// None is told.
    fn nothing(status: u8) -> Asked
        ensures { result ≡ none_asked status }
    {
        Asked {
            status,
            kind: 0,
            host: 0,
            place: 0,
            value: 0,
            expected: 0,
        }
    }

    /// This one.
    fn of(access: Access) -> Asked
        ensures { result ≡ asked_for access }
    {
        Asked {
            status: Status::Done.code(),
            kind: kind_of(access.step),
            host: access.spot.host,
            place: access.spot.place,
            value: value_of(access.step),
            expected: expected_of(access.step),
        }
    }
}

/// The number by which the kind of a move is told.
fn kind_of(step: Move) -> u8
    ensures { result ≡ kind_told step }
{
    match step {
        Move::Load => 0,
        Move::Store(_) => 1,
        Move::Raise(_) => 2,
        Move::Add => 3,
        Move::SetBits(_) => 4,
        Move::Exchange(_, _) => 5,
        Move::Swap(_) => 6,
    }
}

/// The word that a move makes, or what it is made with.
fn value_of(step: Move) -> u64
    ensures { result ≡ value_told step }
{
    match step {
        Move::Load => 0,
        Move::Add => 1,
        Move::Store(new) | Move::Exchange(_, new) | Move::Swap(new) => new,
        Move::Raise(least) => least,
        Move::SetBits(bits) => bits,
    }
}

/// The word that a move expects, 0 if it is no exchange.
fn expected_of(step: Move) -> u64
    ensures { result ≡ expected_told step }
{
    match step {
        Move::Exchange(old, _) => old,
        _ => 0,
    }
}

/// Makes the replica `id` of the job that the bytes spell, with room for `rows` rows in the words
/// of each host, or for just those of the job if that is more.
pub fn open_replica(
    alloc: Global,
    handle: &mut Handle,
    job: &[u8],
    id: u32,
    eager: bool,
    rows: u32,
) -> u8
    ensures { OpensReplica job.now id rows handle.old.held handle.new.held result }
{
    if job.len() > INPUT_LIMIT {
        return Status::TooLong.code();
    }
    match read(alloc, job) {
        Ok(job) => open_of(alloc, handle, &job, id, zeal_of(eager), rows),
        Err(end) => match end {
            mu_input::InputEnd::Refused { line: _, cause: _ } => Status::Refused.code(),
            mu_input::InputEnd::NoMemory => Status::NoMemory.code(),
        },
    }
}

fn zeal_of(eager: bool) -> Zeal {
    if eager { Zeal::Eager } else { Zeal::Plain }
}

/// Makes it of this job.
fn open_of(alloc: Global, handle: &mut Handle, job: &Job, id: u32, zeal: Zeal, rows: u32) -> u8
    requires config { IsConfig job.now.config }
    ensures { OpensOf job.now id rows handle.old.held handle.new.held result }
{
    if id >= u32::from(job.config.replicas) || rows > MOST_COMMANDS as u32 {
        return Status::Usage.code();
    }
    let least = job.config.rows.len() as u32;
    let room = rows.max(least) as u16;
    match made(alloc, job, id as u8, zeal, room) {
        Ok(held) => {
            let_go(alloc, handle);
            *handle = Handle::of(held);
            Status::Done.code()
        }
        Err(refusal) => wanting(refusal),
    }
}

/// A replica of the job, to be held.
fn made(alloc: Global, job: &Job, id: u8, zeal: Zeal, rows: u16) -> Result<Box<Held>, NoMemory>
    requires config { IsConfig job.now.config }
    requires inside { id < job.now.config.replicas }
    requires rows { row_count job.now.config ≤ rows }
    requires few { rows ≤ 1500 }
    ensures { IfOk result (λ held. IsMade job.now id held.value) }
{
    let replica = Replica::new(alloc, job, id, zeal, rows)?;
    Ok(Box::new(alloc, Held::Replica(replica))?)
}

/// What the replica wants to do now.
pub fn next_access(alloc: Global, handle: &mut Handle) -> Asked
    ghost at: { SomeConfig × Own }
    requires { StandsAt at.0 at.1 handle.old.held }
    ensures { OfReplica (result ≡ none_asked 1) (AsksNext at.0 at.1 result)
        handle.old.held handle.new.held result.status }
{
    match taken_out(alloc, handle) {
        Some(mut held) => {
            let asked = asked_by(&mut held);
            *handle = Handle::of(held);
            asked
        }
        None => Asked::nothing(Status::Usage.code()),
    }
}

fn asked_by(held: &mut Held) -> Asked
    ghost at: { SomeConfig × Own }
    requires { StandsIn at.0 at.1 held.old }
    ensures { OfReplicaIn (result ≡ none_asked 1) (AsksNext at.0 at.1 result)
        held.old held.new result.status }
{
    match held {
        Held::Replica(replica) => asked_of(replica),
        Held::Judge(_) | Held::Engine(_) => Asked::nothing(Status::Usage.code()),
    }
}

fn asked_of(replica: &mut Replica) -> Asked
    ghost at: { SomeConfig × Own }
    requires { StandsForReplica at.0 replica.old.id at.1 replica.old }
    ensures { AsksNext at.0 at.1 result replica.old replica.new result.status }
{
    match replica.next() {
        Next::Access(access) => Asked::of(access),
        Next::Halted(_) => Asked::nothing(ENDED),
    }
}

/// Gives the replica the word that its access found. The status is 1 if none is under way, and 13 if
/// no legal list leaves the word there; then the replica is as it was.
pub fn take_word(alloc: Global, handle: &mut Handle, word: u64) -> u8
    ghost at: { SomeConfig × Own }
    requires { StandsAt at.0 at.1 handle.old.held }
    ensures { OfReplica ⊤ (TakesFound at.0 at.1 word) handle.old.held handle.new.held result }
{
    match taken_out(alloc, handle) {
        Some(mut held) => {
            let status = taken_by(&mut held, word);
            *handle = Handle::of(held);
            status
        }
        None => Status::Usage.code(),
    }
}

fn taken_by(held: &mut Held, word: u64) -> u8
    ghost at: { SomeConfig × Own }
    requires { StandsIn at.0 at.1 held.old }
    ensures { OfReplicaIn ⊤ (TakesFound at.0 at.1 word) held.old held.new result }
{
    match held {
        Held::Replica(replica) => take_for(replica, word),
        Held::Judge(_) | Held::Engine(_) => Status::Usage.code(),
    }
}

fn take_for(replica: &mut Replica, word: u64) -> u8
    ghost at: { SomeConfig × Own }
    requires { StandsForReplica at.0 replica.old.id at.1 replica.old }
    ensures { TakesFound at.0 at.1 word replica.old replica.new result }
{
    match replica.take(word) {
        Ok(()) => Status::Done.code(),
        Err(Untaken::NotDue) => Status::Usage.code(),
        Err(Untaken::Stray) => STRAY,
    }
}

/// Gives the replica the word that its access found, and tells what it wants to do next: status 12 if
/// it is halted then. Else the status is 1 if no access is under way, and 13 if no legal list leaves
/// the word there; then the replica is as it was.
pub fn take_word_and_next(alloc: Global, handle: &mut Handle, word: u64) -> Asked
    ghost at: { SomeConfig × Own }
    requires stands { StandsAt at.0 at.1 handle.old.held }
    requires found { MayTakeAt at.0 at.1 word handle.old.held }
    ensures { OfReplica (result ≡ none_asked 1) (TakesNextFound at.0 at.1 word result)
        handle.old.held handle.new.held result.status }
{
    match taken_out(alloc, handle) {
        Some(mut held) => {
            let asked = asked_after(&mut held, word);
            *handle = Handle::of(held);
            asked
        }
        None => Asked::nothing(Status::Usage.code()),
    }
}

fn asked_after(held: &mut Held, word: u64) -> Asked
    ghost at: { SomeConfig × Own }
    requires stands { StandsIn at.0 at.1 held.old }
    requires found { MayTakeIn at.0 at.1 word held.old }
    ensures { OfReplicaIn (result ≡ none_asked 1) (TakesNextFound at.0 at.1 word result)
        held.old held.new result.status }
{
    match held {
        Held::Replica(replica) => next_after(replica, word),
        Held::Judge(_) | Held::Engine(_) => Asked::nothing(Status::Usage.code()),
    }
}

fn next_after(replica: &mut Replica, word: u64) -> Asked
    ghost at: { SomeConfig × Own }
    requires stands { StandsForReplica at.0 replica.old.id at.1 replica.old }
    requires found { judged_for at.0 replica.old.id at.1 replica.old.due word ≡ Ok tt
        → MayTake at.0 replica.old.id at.1 replica.old.due word }
    ensures { TakesNextFound at.0 at.1 word result replica.old replica.new result.status }
{
    match replica.take_and_next(word) {
        Ok(Next::Access(access)) => Asked::of(access),
        Ok(Next::Halted(_)) => Asked::nothing(ENDED),
        Err(Untaken::NotDue) => Asked::nothing(Status::Usage.code()),
        Err(Untaken::Stray) => Asked::nothing(STRAY),
    }
}

/// Appends the next command of a client, which the line spells.
pub fn append_line(alloc: Global, handle: &mut Handle, client: u32, line: &[u8]) -> Submitted
    ghost at: { SomeConfig × Own }
    requires { StandsAt at.0 at.1 handle.old.held }
    ensures { OfReplica (result.row ≡ 0) (Appends at.0 at.1 client line.now result.row)
        handle.old.held handle.new.held result.status }
{
    match taken_out(alloc, handle) {
        Some(mut held) => {
            let submitted = appended_to(&mut held, client, line);
            *handle = Handle::of(held);
            submitted
        }
        None => Submitted::refused(Status::Usage.code()),
    }
}

fn appended_to(held: &mut Held, client: u32, line: &[u8]) -> Submitted
    ghost at: { SomeConfig × Own }
    requires { StandsIn at.0 at.1 held.old }
    ensures { OfReplicaIn (result.row ≡ 0) (Appends at.0 at.1 client line.now result.row)
        held.old held.new result.status }
{
    match held {
        Held::Replica(replica) => append_words(replica, client, line),
        Held::Judge(_) | Held::Engine(_) => Submitted::refused(Status::Usage.code()),
    }
}

fn append_words(replica: &mut Replica, client: u32, line: &[u8]) -> Submitted
    ghost at: { SomeConfig × Own }
    requires { StandsForReplica at.0 replica.old.id at.1 replica.old }
    ensures { Appends at.0 at.1 client line.now result.row replica.old replica.new
        result.status }
{
    if client >= u32::from(MOST_CLIENTS) {
        return Submitted::refused(Status::Usage.code());
    }
    match operation(Words::of(line).as_slice()) {
        Ok(op) => append_op(replica, client as u8, op),
        Err(_) => Submitted::refused(Status::Refused.code()),
    }
}

fn append_op(replica: &mut Replica, client: u8, op: Op) -> Submitted
    ghost at: { SomeConfig × Own }
    requires client { client ≤ 15 }
    requires texts { HasShortTexts op }
    requires stands { StandsForReplica at.0 replica.old.id at.1 replica.old }
    ensures { AppendsOp at.0 at.1 client op result.row replica.old replica.new result.status }
{
    match replica.append(client, op) {
        Ok(row) => Submitted {
            status: Status::Done.code(),
            row,
        },
        Err(Refusal::Full) => Submitted::refused(FULL),
        Err(Refusal::NoMemory) => Submitted::refused(Status::NoMemory.code()),
    }
}
