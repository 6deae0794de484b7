//! Rows against words that were spelled by hand.
use crate::spelled::command;
use mu_model::Row;
use mu_rows::{decode, encode};
use std::process::Abort;

/// Client, number and line of a command, how many rows of its batch follow, and the words of its
/// row.
type Spelling = (u8, u16, &'static str, u8, [u64; 12]);

const SPELLINGS: [Spelling; 4] = [
    (
        0,
        1,
        "put a 5",
        0,
        [1_103_806_660_609, 97, 0, 0, 53, 0, 0, 0, 0, 0, 0, 0],
    ),
    (
        1,
        7,
        "get key",
        1,
        [
            72_057_606_923_288_834,
            7_955_819,
            0,
            0,
            0,
            0,
            0,
            0,
            0,
            0,
            0,
            0,
        ],
    ),
    (
        3,
        1500,
        "cas account-17 nine-bytes 0123456789abcdef",
        2,
        [
            148_629_825_867_481_861,
            3_275_364_279_664_206_689,
            14_129,
            0,
            8_392_847_327_696_415_086,
            29_541,
            0,
            0,
            3_978_425_819_141_910_832,
            7_378_413_942_531_504_440,
            0,
            0,
        ],
    ),
    (
        15,
        2,
        "swap abcdefghijklmnopqrstuvwx !\"#$%&'()*+,-./0123456789:;<=>?@ABCDEFGHIJKLMNOPQRSTUVWXYZ[\\]^_`",
        3,
        [
            216_243_253_937_311_492,
            7_523_094_288_207_667_809,
            8_101_815_670_912_281_193,
            8_680_537_053_616_894_577,
            2_893_323_226_570_760_737,
            3_472_044_609_275_374_121,
            4_050_765_991_979_987_505,
            4_629_487_374_684_600_889,
            5_208_208_757_389_214_273,
            5_786_930_140_093_827_657,
            6_365_651_522_798_441_041,
            6_944_372_905_503_054_425,
        ],
    ),
];

/// Whether the row of the command has these words, and they give it back.
fn is_spelled(spelling: &Spelling) -> bool {
    let (client, number, line, rest, words) = *spelling;
    let Some(command) = command(client, number, line) else {
        return false;
    };
    rest <= 3
        && encode(&command, rest).words == words
        && decode(&Row { words }) == Some((command, rest))
}

#[test]
fn spells_commands(rt: HostRuntime) {
    for spelling in SPELLINGS {
        assert!(rt; is_spelled(&spelling), "{}", spelling.2);
    }
}

/// The head and the last word of a row of `put a 5`, and how many rows follow if it is one.
const READ: [(u64, u64, Option<u8>); 4] = [
    (1_103_806_660_609, 0, Some(0)),
    (1_103_806_660_609, 1, None),
    (216_173_885_920_444_417, 0, Some(3)),
    (288_231_479_958_372_353, 0, None),
];

/// Checks what is read of a row: `put a 5` of client 0, and how many rows follow, or none.
fn check_read(rt: &impl Abort, words: [u64; 12], rest: Option<u8>) {
    let put = command(0, 1, "put a 5");
    let found = decode(&Row { words });
    assert_eq!(rt; found, put.zip(rest), "{words:?}");
}

#[test]
fn reads_rows(rt: HostRuntime) {
    for (head, last, rest) in READ {
        check_read(&rt, [head, 97, 0, 0, 53, 0, 0, 0, 0, 0, 0, last], rest);
    }
    check_read(&rt, [0; 12], None);
}
