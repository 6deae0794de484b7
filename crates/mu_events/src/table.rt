//! Verbs by a table: how the line of each reads. A new verb is a row of it.
ghost use Rattle.std.specs.Prelude.{◌≡◌, option_map, IfSome};
ghost use Rattle.mu_events.specs.Table.{IsShort, passed, row_named, row_numbered};

use self::Field::{First, Second, Small, Target, Wide, Word};
use mu_text::is_word;

/// What a word of a verb's line tells, as a part of the `VerbFields` of the verb.
#[derive(Clone, Copy)]
pub enum Field {
    /// The number of 8 bits.
    Small,
    /// The first number of 16 bits.
    First,
    /// The second number of 16 bits.
    Second,
    /// The verb's own word, which has 32 bits.
    Wide,
    /// The verb's own word.
    Word,
    /// What a writer is about to write, in all words that are left: the last field.
    Target,
}

/// The number of a verb, its name, its fields in the order in which a line has them, and how the
/// line of an event reads behind the name, with letters for the fields.
pub type VerbRow = (u8, &'static [u8], &'static [Field], &'static [u8]);

/// A row for each verb, in the order in which they are told.
pub const VERBS: [VerbRow; 20] = [
    (0, b"ask", &[Small], b" P = done"),
    (
        1,
        b"fence",
        &[Small],
        b" P = fence OWNER GRANT STATE TARGET, as fence 0 1 closing place 3",
    ),
    (2, b"min", &[Small], b" P = NUMBER"),
    (
        3,
        b"enter",
        &[Small, Target],
        b" P min, or enter P place S, = entered, or = lost OWNER GRANT STATE TARGET",
    ),
    (4, b"putmin", &[Small, Wide], b" P B = done, or = missed"),
    (
        5,
        b"look",
        &[Small, First],
        b" P I = empty, = past, or = entry B V",
    ),
    (
        6,
        b"putslot",
        &[Small, First, Wide, Second],
        b" P I B V = done, or = missed",
    ),
    (7, b"fuo", &[Small], b" P = NUMBER"),
    (8, b"raisefuo", &[Small, First], b" P U = done"),
    (9, b"head", &[Small], b" P = NUMBER"),
    (10, b"readbeat", &[Small], b" Q = NUMBER"),
    (11, b"writerow", &[First, Small, Word], b" J K X = done"),
    (12, b"readrow", &[First, Small], b" V K = NUMBER"),
    (13, b"raisehead", &[First], b" H = done"),
    (14, b"beat", &[], b" = done"),
    (15, b"readask", &[Small], b" W = NUMBER"),
    (
        16,
        b"close",
        &[],
        b" = fence OWNER GRANT STATE TARGET, as fence none 0 open none",
    ),
    (17, b"looktarget", &[], b" = done"),
    (18, b"drain", &[], b" = done"),
    (19, b"grant", &[Small], b" W = done"),
];

/// The row of the verb with this name, if there is one.
pub fn row_named(name: &[u8]) -> Option<VerbRow>
    ensures row { option_map passed result ≡ row_named name.now }
    ensures short { IfSome result (λ row. IsShort (passed row)) }
{
    VERBS.iter().find(|row| is_word(name, row.1)).copied()
}

/// The row of the verb with this number, if there is one.
pub(crate) fn row_numbered(number: u8) -> Option<VerbRow>
    ensures row { option_map passed result ≡ row_numbered number }
    ensures short { IfSome result (λ row. IsShort (passed row)) }
{
    VERBS.iter().find(|row| row.0 == number).copied()
}
