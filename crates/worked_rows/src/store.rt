//! The bounds of each kind of value, and looks at a store.
use crate::spelled::{command, key, op, text};
use kv_store::{Command, Key, Store, Text};
use std::test::Fail;

/// Commands for which a store takes about 600 MB. No machine of today's size has room for many
/// times that, so the test fails if a store takes more than it was asked for.
const MANY_COMMANDS: usize = 8_000_000;

#[test]
fn takes_no_more_room_than_asked(rt: HostRuntime) -> Result<(), Fail> {
    let name = key("a").ok_or("no key")?;
    let store = Store::with_room(rt.alloc(), MANY_COMMANDS)?;
    assert_eq!(rt; store.look(&name), None);
    Ok(())
}

/// Lengths of words, and whether there are keys and texts of them.
const LENGTHS: [(usize, bool, bool); 6] = [
    (0, false, false),
    (1, true, true),
    (24, true, true),
    (25, false, true),
    (64, false, true),
    (65, false, false),
];

#[test]
fn words_have_bounds(rt: HostRuntime) {
    let long = [b'x'; 65];
    for (len, is_key, is_text) in LENGTHS {
        assert!(rt; len <= long.len());
        let word = &long[..len];
        let made = (Key::new(word).is_some(), Text::new(word).is_some());
        assert_eq!(rt; made, (is_key, is_text), "{len} bytes");
    }
    for (byte, allowed) in [(32, false), (33, true), (126, true), (127, false)] {
        let made = (
            Key::new(&[b'x', byte]).is_some(),
            Text::new(&[byte, b'x']).is_some(),
        );
        assert_eq!(rt; made, (allowed, allowed), "with {byte}");
    }
}

/// Client and number of an operation, and whether that is a command.
const COMMANDS: [(u8, u16, &str, bool); 9] = [
    (0, 1, "get a", true),
    (15, 1500, "get a", true),
    (16, 1, "get a", false),
    (0, 0, "get a", false),
    (0, 1501, "get a", false),
    (
        0,
        1,
        "cas a 12345678901234567890123456789012 12345678901234567890123456789012",
        true,
    ),
    (
        0,
        1,
        "cas a 123456789012345678901234567890123 12345678901234567890123456789012",
        false,
    ),
    (
        0,
        1,
        "cas a 12345678901234567890123456789012 123456789012345678901234567890123",
        false,
    ),
    (0, 1, "put a 123456789012345678901234567890123", true),
];

#[test]
fn commands_have_bounds(rt: HostRuntime) -> Result<(), Fail> {
    for (client, number, line, allowed) in COMMANDS {
        let op = op(line).ok_or("no operation")?;
        let made = Command::new(client, number, op).is_some();
        assert_eq!(rt; made, allowed, "{line}, {number} of {client}");
    }
    Ok(())
}

#[test]
fn looks_without_a_command(rt: HostRuntime) -> Result<(), Fail> {
    let (a, b) = (key("a").ok_or("no key")?, key("b").ok_or("no key")?);
    let put = command(0, 1, "put a 5").ok_or("no command")?;
    let mut store = Store::with_room(rt.alloc(), 1)?;
    assert_eq!(rt; store.look(&a), None);
    store.apply(&put);
    assert_eq!(rt; store.look(&a), text("5"));
    assert_eq!(rt; store.look(&b), None);
    Ok(())
}
