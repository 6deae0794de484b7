//! How the programs end.
ghost use Rattle.std.specs.Prelude.{◌≡◌};
ghost use Rattle.mu_outcome.specs.Statuses.{code_of};

/// The status that a program ends with.
#[derive(Clone, Copy, Debug, PartialEq, Eq)]
pub enum Status {
    /// All commands of the job are in the longest log, or all that was judged is legal.
    Done = 0,
    /// The words of the command line ask for nothing.
    Usage = 1,
    /// The input isn't in the grammar.
    Refused = 2,
    /// Some command of the job isn't in the longest log.
    Unfinished = 3,
    /// The input couldn't be read.
    ReadFault = 4,
    /// The output couldn't be written.
    WriteFault = 5,
    /// Want of memory.
    NoMemory = 6,
    /// A list of events isn't legal.
    Illegal = 7,
    /// The input has too many bytes.
    TooLong = 8,
}

impl Status {
    /// The number that it stands for: 0 to 8.
    pub fn code(self) -> u8
        ensures { result ≡ code_of self }
    {
        self as u8
    }
}
