//! The places of all words.
ghost use Rattle.std.specs.Prelude.{◌%◌, ◌*◌, ◌/◌, ◌<◌, ◌≡◌, ◌≤◌};
ghost use Rattle.mu_model.specs.Contents.{row_count};
ghost use Rattle.mu_words.specs.Places.{IsLayoutOf, IsName, place_of, region_start, rows_start, word_count};
ghost use Rattle.mu_words.specs.declared.layout.Name.{Name};

use mu_model::Config;

/// A word by what it holds.
#[derive(Clone, Copy)]
pub enum Name {
    /// The fence of a region.
    Fence(u8),
    /// The minimum of a region.
    Min(u8),
    /// The first undecided offset (FUO) of a region.
    Fuo(u8),
    /// The head of a replica.
    Head(u8),
    /// How often a replica has beaten.
    Beat(u8),
    /// How often a region was asked for by a replica: the region, and the replica.
    Ask(u8, u8),
    /// A slot in the ring of a region: the region, and the place.
    Slot(u8, u16),
    /// A word of a row of a replica: the replica, the row and the word.
    Row(u8, u16, u8),
}

/// The places of the words of a configuration in one list: the regions in order, then the rows.
/// There may be room for rows that the configuration doesn't have yet.
#[derive(Clone, Copy)]
pub struct Layout {
    /// How many replicas there are.
    pub(crate) replicas: u8,
    /// How many slots the log of a region has.
    pub(crate) ring: u16,
    /// For how many rows a replica has room.
    pub(crate) rows: u16,
}

impl Layout {
    /// The layout of a configuration, with room for just its rows.
    pub fn new(config: &Config) -> Layout
        requires { row_count config.now ≤ 4096 }
        ensures laid_out { IsLayoutOf config.now result }
        ensures rows { result.rows ≡ row_count config.now }
    {
        Layout::with_rows(config, config.rows.len() as u16)
    }

    /// The layout of a configuration, with room for `rows` rows of each replica.
    pub fn with_rows(config: &Config, rows: u16) -> Layout
        requires { row_count config.now ≤ rows }
        ensures laid_out { IsLayoutOf config.now result }
        ensures rows { result.rows ≡ rows }
    {
        Layout {
            replicas: config.replicas,
            ring: config.ring,
            rows,
        }
    }

    /// How many words there are.
    pub fn words(&self) -> usize
        ensures { result ≡ word_count self.now }
    {
        self.rows_start() + usize::from(self.replicas) * usize::from(self.rows) * 12
    }

    /// The place of a fence.
    pub fn fence_of(&self, p: u8) -> usize
        requires { p < self.now.replicas }
        ensures { result ≡ place_of self.now (Name.Fence p) }
    {
        self.region_start(p)
    }

    /// The place of a minimum.
    pub fn min_of(&self, p: u8) -> usize
        requires { p < self.now.replicas }
        ensures { result ≡ place_of self.now (Name.Min p) }
    {
        self.region_start(p) + 1
    }

    /// The place of a FUO.
    pub fn fuo_of(&self, p: u8) -> usize
        requires { p < self.now.replicas }
        ensures { result ≡ place_of self.now (Name.Fuo p) }
    {
        self.region_start(p) + 2
    }

    /// The place of a head.
    pub fn head_of(&self, p: u8) -> usize
        requires { p < self.now.replicas }
        ensures { result ≡ place_of self.now (Name.Head p) }
    {
        self.region_start(p) + 3
    }

    /// The place of a count of beats.
    pub fn beat_of(&self, p: u8) -> usize
        requires { p < self.now.replicas }
        ensures { result ≡ place_of self.now (Name.Beat p) }
    {
        self.region_start(p) + 4
    }

    /// The place of the word by which `w` asks for the region `p`.
    pub fn ask_of(&self, p: u8, w: u8) -> usize
        requires { IsName self.now (Name.Ask p w) }
        ensures { result ≡ place_of self.now (Name.Ask p w) }
    {
        self.region_start(p) + 5 + usize::from(w)
    }

    /// The place of the slot of a position: positions that differ by a multiple of the ring share
    /// it.
    pub fn slot_place(&self, p: u8, position: u16) -> usize
        requires region { p < self.now.replicas }
        requires ring { 0 < self.now.ring }
        ensures { result ≡ place_of self.now (Name.Slot p (position % self.now.ring)) }
    {
        self.place_in_ring(p, position % self.ring)
    }

    /// The place of a word of the row of a payload number.
    pub fn row_of(&self, payload: u16, word: u8) -> usize
        requires { IsName self.now (Name.Row (payload / 4096) (payload % 4096) word) }
        ensures { result ≡ place_of self.now (Name.Row (payload / 4096) (payload % 4096) word) }
    {
        self.place_in_row((payload / 4_096) as u8, payload % 4_096, word)
    }

    /// The place of a word by its name.
    #[inline(always)]
    pub fn place_of(&self, name: Name) -> usize
        requires { IsName self.now name }
        ensures { result ≡ place_of self.now name }
    {
        match name {
            Name::Fence(p) => self.fence_of(p),
            Name::Min(p) => self.min_of(p),
            Name::Fuo(p) => self.fuo_of(p),
            Name::Head(p) => self.head_of(p),
            Name::Beat(p) => self.beat_of(p),
            Name::Ask(p, w) => self.ask_of(p, w),
            Name::Slot(p, place) => self.place_in_ring(p, place),
            Name::Row(r, row, word) => self.place_in_row(r, row, word),
        }
    }

    /// The place at which a region begins.
    fn region_start(&self, p: u8) -> usize
        requires { p ≤ self.now.replicas }
        ensures start { result ≡ region_start self.now p }
        ensures small { result ≤ 255 * 65795 }
    {
        usize::from(p) * (5 + usize::from(self.replicas) + usize::from(self.ring))
    }

    /// The place at which the rows begin.
    fn rows_start(&self) -> usize
        ensures start { result ≡ rows_start self.now }
        ensures small { result ≤ 255 * 65795 }
    {
        self.region_start(self.replicas)
    }

    /// The place of a slot by its place in the ring.
    fn place_in_ring(&self, p: u8, place: u16) -> usize
        requires { p < self.now.replicas }
        ensures { result ≡ place_of self.now (Name.Slot p place) }
    {
        let layout = *self;
        layout.region_start(p) + 5 + usize::from(layout.replicas) + usize::from(place)
    }

    /// The place of a word of a row of a replica.
    fn place_in_row(&self, r: u8, row: u16, word: u8) -> usize
        requires { IsName self.now (Name.Row r row word) }
        ensures { result ≡ place_of self.now (Name.Row r row word) }
    {
        self.rows_start()
            + (usize::from(r) * usize::from(self.rows) + usize::from(row)) * 12
            + usize::from(word)
    }
}
