//! What a run is given.
ghost use Rattle.std.specs.Prelude.{◌≡◌};
ghost use Rattle.mu_input.specs.declared.job.InputEnd.TheVariants.{Refused, NoMemory};

use kv_store::Command;
use mu_model::{Config, Script, Sequence};
use std::alloc::{AllocError, AllocFailed};

/// The commands of a job, in the order of the file.
pub type Commands = Sequence<Command>;

/// What a run is given.
#[derive(Drop)]
pub struct Job {
    /// What all replicas know; its rows are the encodings of the commands.
    pub config: Config,
    /// The commands, in the order of the file: 0 to 1,500.
    pub commands: Commands,
    /// What befalls the replicas.
    pub script: Script,
}

/// Why no job was read.
#[derive(Clone, Copy, Debug, PartialEq, Eq)]
pub enum InputEnd {
    /// The bytes aren't in the grammar.
    Refused {
        /// The first line that leaves it, counted from 1; a missing line is the one after the last.
        line: u32,
        /// What is wrong there.
        cause: u8,
    },
    /// Want of memory.
    NoMemory,
}

impl InputEnd {
    /// The refusal of this line for this cause.
    pub fn at(line: u32, cause: u8) -> InputEnd
        ensures { result ≡ Refused line cause }
    {
        InputEnd::Refused { line, cause }
    }
}

impl From<AllocError> for InputEnd {
    ghost from_gives = { λ _ end. end ≡ NoMemory };

    fn from(_failed: AllocError) -> InputEnd {
        InputEnd::NoMemory
    }
}

impl<T: Drop> From<AllocFailed<T>> for InputEnd {
    ghost from_gives = { λ _ end. end ≡ NoMemory };

    fn from(_failed: AllocFailed<T>) -> InputEnd {
        InputEnd::NoMemory
    }
}
