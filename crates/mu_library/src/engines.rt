//! A live engine without an end in the hands of a C program: how it is started, and its commands.
ghost use Rattle.std.specs.Prelude.{IfOk, IsTrue, Some, ◌↔◌, ◌≡◌, ◌≤◌, ◌⊎◌};
ghost use Rattle.std.specs.Option.{MatchOption};
ghost use Rattle.kv_store.specs.Commands.{HasShortTexts};
ghost use Rattle.mu_engine.specs.Shapes.{HasLimits};
ghost use Rattle.mu_library.specs.Engines.{HasNewEngine, IsWithinLimits, OfHandle, OfHeld, OpensEngine, Submits, SubmitsOp};

use crate::codes::{BEYOND, EMPTY, FULL, NO_CLIENT};
use crate::handles::{let_go, taken_out};
use kv_store::Op;
use mu_engine::Shape;
use mu_eras::{Eras, Refusal};
use mu_handle::{Handle, Held};
use mu_input::{MOST_CLIENTS, MOST_COMMANDS, MOST_REPLICAS, MOST_RING, operation};
use mu_model::NoMemory;
use mu_outcome::Status;
use mu_text::Words;
use std::alloc::Global;

/// What became of a command.
#[derive(Clone, Copy, Debug)]
pub struct Numbered {
    /// 0 if it was taken; 16 if there is no such client, 2 if the line is no operation, 9 if the era
    /// has no room, 6 for want of memory, 20 if there is no engine.
    pub status: u8,
    /// Its row over all eras, or 0 if it wasn't taken.
    pub row: u64,
}

impl Numbered {
    /// It wasn't taken.
    fn refused(status: u8) -> Numbered
        ensures status { result.status ≡ status }
        ensures row { result.row ≡ 0 }
    {
        Numbered { status, row: 0 }
    }
}

/// Starts an engine with this many replicas, and of each era slots of a log, steps of a replica and
/// commands. With status 0 the handle has it, and what it had is let go. Else the handle is as it
/// was: 15 if a number is out of its limits, 6 for want of memory.
pub fn open_engine(
    alloc: Global,
    handle: &mut Handle,
    replicas: u32,
    ring: u32,
    budget: u32,
    room: u32,
) -> u8
    ensures { OpensEngine
        (record { replicas = replicas; ring = ring; budget = budget; room = room })
        handle.old.held handle.new.held result }
{
    match shape_of(replicas, ring, budget, room) {
        Some(shape) => open_shape(alloc, handle, shape),
        None => BEYOND,
    }
}

/// The shape of these numbers, if each is within its limits.
fn shape_of(replicas: u32, ring: u32, budget: u32, room: u32) -> Option<Shape>
    ensures { MatchOption result
        (IsWithinLimits (record { replicas = replicas; ring = ring; budget = budget; room = room })
        → ⊥)
        (λ shape. IsWithinLimits shape × (shape
        ≡ record { replicas = replicas; ring = ring; budget = budget; room = room })) }
{
    if replicas > u32::from(MOST_REPLICAS) || ring > u32::from(MOST_RING) {
        return None;
    }
    if room > MOST_COMMANDS as u32 {
        return None;
    }
    let shape = Shape {
        replicas: replicas as u8,
        ring: ring as u16,
        budget,
        room: room as u16,
    };
    if shape.is_allowed() && never_wraps(&shape) {
        Some(shape)
    } else {
        None
    }
}

/// Whether an era takes commands, and its logs have a slot for each, and two for each replica.
fn never_wraps(shape: &Shape) -> bool
    requires { HasLimits shape.now }
    ensures { IsTrue result ↔ IsWithinLimits shape.now }
{
    let slots = u32::from(shape.room) + 2 * u32::from(shape.replicas);
    1 <= shape.room && slots <= u32::from(shape.ring)
}

/// Starts an engine of this shape.
fn open_shape(alloc: Global, handle: &mut Handle, shape: Shape) -> u8
    requires { HasLimits shape }
    ensures { ((result ≡ 0) × HasNewEngine shape handle.new.held)
        ⊎ ((result ≡ 6) × (handle.new.held ≡ handle.old.held)) }
{
    match started(alloc, shape) {
        Ok(held) => {
            let_go(alloc, handle);
            *handle = Handle::of(held);
            Status::Done.code()
        }
        Err(refusal) => wanting(refusal),
    }
}

/// An engine of this shape, to be held.
fn started(alloc: Global, shape: Shape) -> Result<Box<Held>, NoMemory>
    requires { HasLimits shape }
    ensures { IfOk result (λ held. HasNewEngine shape (Some held.value)) }
{
    let eras = Eras::start(alloc, shape)?;
    Ok(Box::new(alloc, Held::Engine(eras))?)
}

/// The status that there was no memory, as an allocator told.
pub(crate) fn wanting(_refusal: NoMemory) -> u8
    ensures { result ≡ 6 }
{
    Status::NoMemory.code()
}

/// Takes the next command of a client, which the line spells without its line feed.
pub fn submit_line(alloc: Global, handle: &mut Handle, client: u32, line: &[u8]) -> Numbered
    ensures { OfHandle (result.row ≡ 0) (Submits client line.now result.row)
        handle.old.held handle.new.held result.status }
{
    match taken_out(alloc, handle) {
        Some(mut held) => {
            let submitted = submitted_to(&mut held, client, line);
            *handle = Handle::of(held);
            submitted
        }
        None => Numbered::refused(EMPTY),
    }
}

fn submitted_to(held: &mut Held, client: u32, line: &[u8]) -> Numbered
    ensures { OfHeld (result.row ≡ 0) (Submits client line.now result.row) held.old held.new
        result.status }
{
    match held {
        Held::Engine(eras) => submit_words(eras, client, line),
        Held::Judge(_) | Held::Replica(_) => Numbered::refused(EMPTY),
    }
}

/// Submits what the line spells.
fn submit_words(eras: &mut Eras, client: u32, line: &[u8]) -> Numbered
    ensures { Submits client line.now result.row eras.old eras.new result.status }
{
    if client >= u32::from(MOST_CLIENTS) {
        return Numbered::refused(NO_CLIENT);
    }
    match operation(Words::of(line).as_slice()) {
        Ok(op) => submit_op(eras, client as u8, op),
        Err(_) => Numbered::refused(Status::Refused.code()),
    }
}

/// Submits an operation.
fn submit_op(eras: &mut Eras, client: u8, op: Op) -> Numbered
    requires client { client ≤ 15 }
    requires texts { HasShortTexts op }
    ensures { SubmitsOp client op result.row eras.old eras.new result.status }
{
    match eras.submit(client, op) {
        Ok(row) => Numbered {
            status: Status::Done.code(),
            row,
        },
        Err(Refusal::Full) => Numbered::refused(FULL),
        Err(Refusal::NoMemory) => Numbered::refused(Status::NoMemory.code()),
    }
}
