//! An engine without an end: eras of a live engine, one after the other. Each replica's store goes
//! on over all of them, and so do the numbers of commands.
#![tactic(auto)]

ghost use Rattle.mu_eras.specs.Eras.{ErasAreLinear, ErasGoFurther};

mod applied;
mod counting;
mod ending;
mod eras;
mod following;
mod keeping;
mod present;
mod renewing;
mod submitting;
mod succession;

pub use counting::free_replicas;
pub use eras::Eras;
pub use mu_engine::Refusal;

/// Over all eras the replies are those of one store, which began empty: it takes the commands one
/// by one, each client's in order and once, and a command that came after another's reply was told
/// stands behind that other.
pub fn eras_are_linear()
    ensures { ErasAreLinear }
{}

/// Of three moments of an engine without an end the last goes on from the first.
pub fn eras_go_further()
    ensures { ErasGoFurther }
{}
