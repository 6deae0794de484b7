//! How a server begins and ends.
ghost use Rattle.std.specs.Prelude.{◌≡◌, ◌⊎◌, IfOk, None, Some};
ghost use Rattle.std.specs.Option.{MatchOption};
ghost use Rattle.mu_engine.specs.Shapes.{HasLimits};
ghost use Rattle.held_server.specs.Servers.{IsFresh, OpensServer};
ghost use Rattle.held_server.specs.declared.holding.Held.{Held as SomeHeld};

use crate::codes::MOST_REPLICAS;
use crate::handle::Handle;
use crate::holding::Held;
use kv_store::NoMemory;
use mu_engine::Shape;
use mu_outcome::Status;
use mu_server::Server;
use ordered_eras::OrderedEras;
use std::alloc::Global;
use std::mem::replace;

/// How many commands an era has.
const ERA_COMMANDS: u16 = 100;

/// How many places a log has: one for each command of an era, and two for each replica; no fewer,
/// so that none is used twice in an era.
const RING: u16 = 128;

/// How many steps a replica may take in an era. The next one begins after half as many rounds.
const STEPS: u32 = 65_536;

/// Starts a server of this many replicas. With status 0 the handle has it, and what it had is let
/// go. Else the handle is as it was: 1 if there can't be so many, 6 for want of memory.
pub fn open_server(alloc: Global, handle: &mut Handle, replicas: u32) -> u8
    ensures { OpensServer replicas handle.old.held handle.new.held result }
{
    if replicas == 0 || replicas > MOST_REPLICAS {
        return Status::Usage.code();
    }
    let shape = Shape {
        replicas: replicas as u8,
        ring: RING,
        budget: STEPS,
        room: ERA_COMMANDS,
    };
    open_shape(alloc, handle, shape)
}

/// Starts a server of this shape.
fn open_shape(alloc: Global, handle: &mut Handle, shape: Shape) -> u8
    requires { HasLimits shape }
    ensures { ((result ≡ 0) × (held : SomeHeld) × (handle.new.held ≡ Some held) × IsFresh held)
        ⊎ ((result ≡ 6) × (handle.new.held ≡ handle.old.held)) }
{
    match started(alloc, shape) {
        Ok(held) => {
            let_go(alloc, handle);
            *handle = Handle::of(held);
            Status::Done.code()
        }
        Err(refusal) => wanting(refusal),
    }
}

/// A server of this shape, to be held.
fn started(alloc: Global, shape: Shape) -> Result<Box<Held>, NoMemory>
    requires { HasLimits shape }
    ensures { IfOk result (λ held. IsFresh held.value) }
{
    let store = OrderedEras::start(alloc, shape)?;
    let server = Server::new(alloc, store);
    Ok(Box::new(alloc, Held { server })?)
}

/// The status that there was no memory, as an allocator told.
fn wanting(_refusal: NoMemory) -> u8
    ensures { result ≡ 6 }
{
    Status::NoMemory.code()
}

/// What the handle holds, if it holds something. The handle has nothing then.
pub(crate) fn taken_out(alloc: Global, handle: &mut Handle) -> Option<Box<Held>>
    ensures held { MatchOption result (handle.old.held ≡ None)
        (λ held. handle.old.held ≡ Some held.value) }
    ensures left { handle.new.held ≡ None }
{
    replace(handle, Handle::none(alloc)).into_box()
}

/// Lets a server go, and its memory. The handle has nothing then.
pub fn let_go(alloc: Global, handle: &mut Handle)
    ensures { handle.new.held ≡ None }
{
    drop(taken_out(alloc, handle));
}
