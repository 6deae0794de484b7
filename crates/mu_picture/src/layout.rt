//! Where things stand in a drawing: lanes side by side, time downwards.
ghost use Rattle.std.specs.Prelude.{◌≡◌, ◌+◌, ◌-◌, ◌<◌, ◌≤◌, ◌^◌, false, true, nat_lt};
ghost use Rattle.mu_picture.specs.Layout.{after, bottom_of, has_titles, lane_of, row_of, stretch_of, stretch_top_of, top};

/// Where the lane of replica 0 stands.
const LEFT: u64 = 72;

/// From one lane to the next.
const LANE: u64 = 160;

/// Where the first step stands.
pub const TOP: u64 = 92;

/// The most steps of a stretch that isn't folded.
const MOST_SHOWN: u64 = 31;

/// The height of a folded stretch, and of titles.
pub const FOLD: u64 = 16;

/// The height of a row.
const ROW: u64 = 12;

/// After this many rows the titles stand again.
const ROWS_BETWEEN_TITLES: u64 = 48;

/// No row begins below this.
const LOWEST_ROW: u64 = 32_500;

/// Where the lane of a replica stands.
pub fn lane(r: u64) -> u64
    requires { r < 2 ^ 16 }
    ensures is { result ≡ lane_of r }
    ensures low { result < 2 ^ 32 }
    ensures left { 72 ≤ result }
{
    LEFT + LANE * r
}

/// Whether a stretch of this many steps without a mark is folded.
pub fn is_folded(steps: u64) -> bool
    ensures { result ≡ nat_lt 31 steps }
{
    steps > MOST_SHOWN
}

/// The height of a stretch of this many steps without a mark.
pub fn stretch(steps: u64) -> u64
    ensures is { result ≡ stretch_of steps }
    ensures low { result ≤ 31 }
{
    if is_folded(steps) { FOLD } else { steps }
}

/// Where the next row of a drawing goes.
#[derive(Clone, Copy)]
pub struct Cursor {
    /// The first step that isn't drawn yet.
    pub at: u64,
    /// Where it stands.
    pub y: u64,
    /// How many rows are above it.
    pub rows: u64,
}

/// Above all rows of a picture that begins with this step.
pub fn top_of(first: u64) -> Cursor
    ensures { result ≡ top first }
{
    Cursor {
        at: first,
        y: TOP,
        rows: 0,
    }
}

impl Cursor {
    /// Whether no row begins here, since it would be too low.
    pub fn is_full(self) -> bool
        ensures full { result ≡ true → 32500 < self.y }
        ensures room { result ≡ false → self.y ≤ 32500 }
    {
        self.y > LOWEST_ROW
    }

    /// Whether the titles stand above the next row.
    pub fn has_titles(self) -> bool
        ensures { result ≡ has_titles self }
    {
        self.rows != 0 && self.rows % ROWS_BETWEEN_TITLES == 0
    }

    /// How many steps there are before this one that aren't drawn yet.
    pub fn hidden_before(self, step: u64) -> u64
        ensures { result ≡ step - self.at }
    {
        step.saturating_sub(self.at)
    }

    /// Where the stretch before the next row stands.
    pub fn stretch_top(self) -> u64
        requires { self.y < 2 ^ 60 }
        ensures is { result ≡ stretch_top_of self }
        ensures low { result ≤ self.y + 16 }
    {
        if self.has_titles() {
            self.y + FOLD
        } else {
            self.y
        }
    }

    /// Where the row of a step stands.
    pub fn row(self, step: u64) -> u64
        requires { self.y < 2 ^ 60 }
        ensures is { result ≡ row_of self step }
        ensures low { result ≤ self.y + 47 }
    {
        self.stretch_top() + stretch(self.hidden_before(step))
    }

    /// Where the row after that of a step goes.
    pub fn after(self, step: u32) -> Cursor
        requires low { self.y < 2 ^ 60 }
        requires few { self.rows < 2 ^ 60 }
        ensures is { result ≡ after self step }
        ensures low { result.y ≤ self.y + 59 }
        ensures rows { result.rows ≡ self.rows + 1 }
    {
        let step = u64::from(step);
        Cursor {
            at: step + 1,
            y: self.row(step) + ROW,
            rows: self.rows + 1,
        }
    }

    /// Where the steps before `end` end.
    pub fn bottom(self, end: u64) -> u64
        requires { self.y < 2 ^ 60 }
        ensures is { result ≡ bottom_of end self }
        ensures low { result ≤ self.y + 31 }
    {
        self.y + stretch(self.hidden_before(end))
    }
}
