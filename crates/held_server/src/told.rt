//! What a call tells.
ghost use Rattle.std.specs.Prelude.{◌≡◌};

use mu_outcome::Status;

/// What became of a call, and the number that it tells.
#[derive(Clone, Copy, Debug)]
pub struct Told {
    /// 0 if it was done; 1 if there is no server, 6 for want of memory, 9 if there are as many
    /// connections as may be.
    pub status: u8,
    /// The number, or 0 if it wasn't done.
    pub number: u32,
}

impl Told {
    /// Nothing is told.
    pub(crate) fn nothing(status: u8) -> Told
        ensures { result ≡ record { status = status; number = 0 } }
    {
        Told { status, number: 0 }
    }

    /// It was done, and this number is told.
    pub(crate) fn of(number: u32) -> Told
        ensures { result ≡ record { status = 0; number = number } }
    {
        Told {
            status: Status::Done.code(),
            number,
        }
    }
}

/// What became of bytes.
#[derive(Clone, Copy, Debug)]
pub struct Moved {
    /// 0 if they were moved; 1 if there is no server, 6 for want of memory.
    pub status: u8,
    /// How many were.
    pub count: usize,
}

impl Moved {
    /// None was.
    pub(crate) fn nothing(status: u8) -> Moved
        ensures { result ≡ record { status = status; count = 0 } }
    {
        Moved { status, count: 0 }
    }

    /// So many were.
    pub(crate) fn of(count: usize) -> Moved
        ensures { result ≡ record { status = 0; count = count } }
    {
        Moved {
            status: Status::Done.code(),
            count,
        }
    }
}
