//! What a get saw.
ghost use Rattle.std.specs.Prelude.{◌≡◌};

use kv_store::Text;
use std::marker::Model;

/// What the store held for a key after the first published commands. Only `SnapReader::get` makes
/// it. Contracts see what the key held, and after how many commands.
#[derive(Clone, Copy, Debug, PartialEq, Eq)]
pub struct Seen {
    pub(crate) value: Option<Text>,
    pub(crate) upto: u16,
}

impl Model for Seen {
    ghost use Rattle.snap_reads.specs.Seats.{Found};

    ghost Value = { Found };

    ghost view = { λ s. record { value = s.value; upto = s.upto } };

    ghost inverse = { λ f. record { value = f.value; upto = f.upto } };
}

impl Seen {
    /// The text that the key had, if any.
    pub fn value(&self) -> Option<Text>
        ensures { result ≡ self.now.value }
    {
        self.value
    }

    /// The number of commands after which the key had it.
    pub fn upto(&self) -> u16
        ensures { result ≡ self.now.upto }
    {
        self.upto
    }
}
