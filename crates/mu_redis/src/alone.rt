//! What is told to a request that asks nothing of the store or of a replica.
ghost use Rattle.std.specs.Prelude.{◌≡◌, ◌++◌, map, OnOk};
ghost use Rattle.mu_redis.specs.Alone.{hello_told, mode_told, server_told, setting_is, setting_told, told_alone, word_at};

use crate::asked::Asked;
use crate::outcomes::put_refused;
use mu_resp::{put_array, put_bulk, put_integer, put_nil, put_simple};
use std::alloc::AllocError;

/// Puts what is told to a request of these words, which asks this; nothing if it asks something of
/// the store or of a replica.
pub fn put_alone(out: &mut Vec<u8>, asked: &Asked, words: &[&[u8]]) -> Result<(), AllocError>
    ensures { OnOk result (out.new.items
        ≡ out.old.items ++ told_alone asked.now (map (λ word. word.now) words.now)) }
{
    match asked {
        Asked::Pong => put_simple(out, b"PONG"),
        Asked::Echo => put_bulk(out, word_at(words, 1)),
        Asked::Setting => put_setting(out, word_at(words, 2)),
        Asked::Fine | Asked::Quit => put_simple(out, b"OK"),
        Asked::Nil => put_nil(out),
        Asked::One => put_integer(out, 1),
        Asked::Empty => put_array(out, 0),
        Asked::Hello => put_hello(out),
        Asked::Refused(refused) => put_refused(out, *refused),
        _ => Ok(()),
    }
}

/// The word at a place, or none.
fn word_at<'a>(words: &[&'a [u8]], place: usize) -> &'a [u8]
    ensures { result.now ≡ word_at place (map (λ word. word.now) words.now) }
{
    match words.get(place) {
        Some(word) => word,
        None => b"",
    }
}

/// Puts what a setting is.
fn put_setting(out: &mut Vec<u8>, name: &[u8]) -> Result<(), AllocError>
    ensures { OnOk result (out.new.items ≡ out.old.items ++ setting_told name.now) }
{
    match name {
        b"save" => put_setting_is(out, name, b""),
        b"appendonly" => put_setting_is(out, name, b"no"),
        _ => put_array(out, 0),
    }
}

/// Puts a setting and its value.
fn put_setting_is(out: &mut Vec<u8>, name: &[u8], value: &[u8]) -> Result<(), AllocError>
    ensures { OnOk result (out.new.items ≡ out.old.items ++ setting_is name.now value.now) }
{
    put_array(out, 2)?;
    put_bulk(out, name)?;
    put_bulk(out, value)
}

/// Puts what the server is.
fn put_hello(out: &mut Vec<u8>) -> Result<(), AllocError>
    ensures { OnOk result (out.new.items ≡ out.old.items ++ hello_told) }
{
    put_array(out, 14)?;
    put_server(out)?;
    put_mode(out)
}

/// Puts its name, its version and the version of its protocol.
fn put_server(out: &mut Vec<u8>) -> Result<(), AllocError>
    ensures { OnOk result (out.new.items ≡ out.old.items ++ server_told) }
{
    put_bulk(out, b"server")?;
    put_bulk(out, b"mu")?;
    put_bulk(out, b"version")?;
    put_bulk(out, b"7.0.0")?;
    put_bulk(out, b"proto")?;
    put_integer(out, 2)
}

/// Puts its number, its mode, its role and its modules.
fn put_mode(out: &mut Vec<u8>) -> Result<(), AllocError>
    ensures { OnOk result (out.new.items ≡ out.old.items ++ mode_told) }
{
    put_bulk(out, b"id")?;
    put_integer(out, 1)?;
    put_bulk(out, b"mode")?;
    put_bulk(out, b"standalone")?;
    put_bulk(out, b"role")?;
    put_bulk(out, b"master")?;
    put_bulk(out, b"modules")?;
    put_array(out, 0)
}
