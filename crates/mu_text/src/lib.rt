//! A text as lines, words and decimal numbers.
#![tactic(auto)]

ghost use Rattle.std.specs.Prelude.{◌≡◌};

mod line_reader;
mod line_text;
mod line_words;
mod lines;
mod numbers;

pub use line_reader::LineReader;
pub use line_text::{LINE_BYTES, Line};
pub use line_words::{Words, is_alone, is_first, is_word, split_words};
pub use lines::{split_word, two_words};
pub use numbers::{number, number_within, of_8, of_16, of_32, of_64};

/// The byte that ends a line.
pub const LINE_FEED: u8 = b'\n';

/// The byte between two words of a line.
pub const SPACE: u8 = b' ';

/// The least decimal digit.
pub const ZERO: u8 = b'0';

/// The greatest decimal digit.
pub const NINE: u8 = b'9';

/// The most digits of a number of a job.
pub const MOST_DIGITS: usize = 7;

/// The most digits of a number of an event.
pub const MOST_WIDE_DIGITS: usize = 20;

/// One more than the most words of a line of a job or of an event list.
pub const MANY_WORDS: usize = 14;

/// Each byte and each limit is the number that is stated here.
pub fn limits_are_stated()
    ensures bytes { (LINE_FEED ≡ 10) × (SPACE ≡ 32) × (ZERO ≡ 48) × (NINE ≡ 57) }
    ensures limits { (MOST_DIGITS ≡ 7) × (MOST_WIDE_DIGITS ≡ 20) × (MANY_WORDS ≡ 14)
        × (LINE_BYTES ≡ 192) }
{}
