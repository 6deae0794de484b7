//! How the store's reply is told to a client of Redis.
ghost use Rattle.std.specs.Prelude.{◌≡◌, ◌++◌, length, OnOk};
ghost use Rattle.mu_resp.specs.Answers.{integer};
ghost use Rattle.mu_resp.specs.Requests.{bulk};
ghost use Rattle.mu_redis.specs.Wordings.{count_told, length_told, told, value_told};
ghost use Rattle.mu_strings.specs.Spellings.{string_of as spelled_by};

use kv_store::{Reply, Text};
use mu_resp::{put_bulk, put_integer, put_nil, put_simple};
use mu_strings::string_of;
use std::alloc::AllocError;

/// How the store's reply is told.
#[derive(Clone, Copy, Debug, PartialEq, Eq)]
pub enum Wording {
    /// `OK`, or what the key has and keeps.
    Fine,
    /// The value, or none.
    Value,
    /// How many keys there were.
    Count,
    /// How many bytes the value has.
    Length,
}

/// Puts the reply in these words.
pub fn put_reply(out: &mut Vec<u8>, wording: Wording, reply: &Reply) -> Result<(), AllocError>
    ensures { OnOk result (out.new.items ≡ out.old.items ++ told wording reply.now) }
{
    match wording {
        Wording::Fine | Wording::Value => put_value(out, reply),
        Wording::Count => put_count(out, reply),
        Wording::Length => put_length(out, reply),
    }
}

fn put_value(out: &mut Vec<u8>, reply: &Reply) -> Result<(), AllocError>
    ensures { OnOk result (out.new.items ≡ out.old.items ++ value_told reply.now) }
{
    match reply {
        Reply::Done => put_simple(out, b"OK"),
        Reply::Value(text) => put_text(out, text),
        Reply::Kept(text) => put_text(out, text),
        Reply::None => put_nil(out),
    }
}

/// Puts the string that a text spells.
fn put_text(out: &mut Vec<u8>, text: &Text) -> Result<(), AllocError>
    ensures { OnOk result (out.new.items ≡ out.old.items ++ bulk (spelled_by text.now)) }
{
    put_bulk(out, string_of(text.as_bytes()).as_slice())
}

fn put_count(out: &mut Vec<u8>, reply: &Reply) -> Result<(), AllocError>
    ensures { OnOk result (out.new.items ≡ out.old.items ++ count_told reply.now) }
{
    match reply {
        Reply::None => put_integer(out, 0),
        Reply::Done | Reply::Value(_) | Reply::Kept(_) => put_integer(out, 1),
    }
}

fn put_length(out: &mut Vec<u8>, reply: &Reply) -> Result<(), AllocError>
    ensures { OnOk result (out.new.items ≡ out.old.items ++ length_told reply.now) }
{
    match reply {
        Reply::None | Reply::Done => put_integer(out, 0),
        Reply::Value(text) => put_text_length(out, text),
        Reply::Kept(text) => put_text_length(out, text),
    }
}

/// Puts how many bytes the string has that a text spells.
fn put_text_length(out: &mut Vec<u8>, text: &Text) -> Result<(), AllocError>
    ensures { OnOk result (out.new.items
        ≡ out.old.items ++ integer (length (spelled_by text.now))) }
{
    put_integer(out, string_of(text.as_bytes()).as_slice().len() as u64)
}
