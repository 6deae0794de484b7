//! Where a word stands, and what an access does to it.
ghost use Rattle.std.specs.Prelude.{◌<◌, ◌≡◌, ◌≤◌};
ghost use Rattle.mu_model.specs.Contents.{row_count};
ghost use Rattle.mu_words.specs.Places.{IsName};
ghost use Rattle.lone_words.specs.Spots.{IsShapeOf, first_row, host_words, layout_of, spot_of};

use mu_model::Config;
use mu_words::{Move, Name};

/// A word: the host in whose memory it stands, and its place there.
#[derive(Clone, Copy, Debug, PartialEq, Eq)]
pub struct Spot {
    /// The host: a replica.
    pub host: u8,
    /// The place among the words of the host.
    pub place: u32,
}

/// One access to one word.
#[derive(Clone, Copy)]
pub struct Access {
    /// The word.
    pub spot: Spot,
    /// What is done to it.
    pub step: Move,
}

/// How the words of each host are laid out: its region, then the rows that it writes.
#[derive(Clone, Copy)]
pub struct Shape {
    /// How many replicas there are.
    pub replicas: u8,
    /// How many slots the log of a region has.
    pub ring: u16,
    /// For how many rows of each replica there is room.
    pub rows: u16,
}

impl Shape {
    /// The shape of a configuration, with room for this many rows.
    pub fn new(config: &Config, rows: u16) -> Shape
        requires { row_count config.now ≤ rows }
        ensures shape { IsShapeOf config.now result }
        ensures rows { result.rows ≡ rows }
    {
        Shape {
            replicas: config.replicas,
            ring: config.ring,
            rows,
        }
    }

    /// The place at which the rows begin.
    #[inline(always)]
    fn first_row(&self) -> u32
        ensures place { result ≡ first_row self.now }
        ensures few { result < 70000 }
    {
        5 + u32::from(self.replicas) + u32::from(self.ring)
    }

    /// How many words a host has.
    pub fn words(&self) -> u32
        ensures { result ≡ host_words self.now }
    {
        self.first_row() + u32::from(self.rows) * 12
    }

    /// Where the word of this name stands.
    #[inline(always)]
    pub fn spot_of(&self, name: Name) -> Spot
        requires { IsName (layout_of self.now) name }
        ensures { result ≡ spot_of self.now name }
    {
        match name {
            Name::Fence(host) => Spot { host, place: 0 },
            Name::Min(host) => Spot { host, place: 1 },
            Name::Fuo(host) => Spot { host, place: 2 },
            Name::Head(host) => Spot { host, place: 3 },
            Name::Beat(host) => Spot { host, place: 4 },
            Name::Ask(host, w) => Spot {
                host,
                place: 5 + u32::from(w),
            },
            Name::Slot(host, slot) => Spot {
                host,
                place: 5 + u32::from(self.replicas) + u32::from(slot),
            },
            Name::Row(host, row, word) => Spot {
                host,
                place: self.first_row() + u32::from(row) * 12 + u32::from(word),
            },
        }
    }
}
