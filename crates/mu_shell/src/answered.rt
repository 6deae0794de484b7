//! What a program answers at its end.
ghost use Rattle.std.specs.Prelude.{◌≡◌};
ghost use Rattle.std.specs.Process.{exit_status};

use std::process::ExitCode;

/// What a program answers at its end.
#[derive(Drop)]
pub struct Answered<T> {
    /// The status that it ends with: 0 done or legal, 1 usage, 2 refused, 3 unfinished, 4 read
    /// fault, 5 write fault, 6 want of memory, 7 illegal, 8 too long.
    pub status: u8,
    /// What was to be said.
    pub said: T,
    /// How many bytes of its text were written: all of them unless the status is 5.
    pub taken: usize,
}

impl<T: Drop> Answered<T> {
    /// The exit code of the program. What was to be said is dropped.
    pub fn into_exit_code(self) -> ExitCode
        ensures { exit_status result ≡ self.status }
    {
        ExitCode::from(self.status)
    }
}
