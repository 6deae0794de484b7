//! Refusals, as Redis words them.
ghost use Rattle.std.specs.Prelude.{◌≡◌, ◌++◌, ◌∷◌, ◌+◌, ◌≤◌, [], length, OnOk};
ghost use Rattle.mu_resp.specs.Answers.{refusal};
ghost use Rattle.mu_redis.specs.Refusals.{is_stopped, many_keys, no_reply, no_room, shown, words_of_fault, words_of_refused};

use crate::asked::Refused;
use mu_resp::{Fault, put_refusal};
use mu_text::Line;
use std::alloc::AllocError;

/// Puts why a request isn't served.
pub fn put_refused(out: &mut Vec<u8>, refused: Refused) -> Result<(), AllocError>
    ensures { OnOk result
        (out.new.items ≡ out.old.items ++ refusal (words_of_refused refused)) }
{
    put_refusal(out, words_of_refused(refused))
}

/// Why a request isn't served.
fn words_of_refused(refused: Refused) -> &'static [u8]
    ensures { result.now ≡ words_of_refused refused }
{
    match refused {
        Refused::Unknown => b"ERR unknown command",
        Refused::Words => b"ERR wrong number of arguments",
        Refused::Syntax => b"ERR syntax error",
        Refused::Number => b"ERR value is not an integer or out of range",
        Refused::Key => b"ERR a key has at most 24 bytes here, and 8 if none is visible",
        Refused::Value => b"ERR a value has at most 64 bytes here, and 21 if none is visible",
        Refused::Keys => b"ERR one key a command here: several keys would be several commands",
        Refused::Database => b"ERR DB index is out of range",
        Refused::Protocol => b"NOPROTO unsupported protocol version",
        Refused::Option => {
            b"ERR of the options of SET only GET is here, not NX, XX or EX (see MU CAS)"
        }
        Refused::Size => b"ERR no command of the store counts its keys",
    }
}

/// Puts why the bytes are no request; the connection is closed then.
pub fn put_fault(out: &mut Vec<u8>, fault: Fault) -> Result<(), AllocError>
    ensures { OnOk result (out.new.items ≡ out.old.items ++ refusal (words_of_fault fault)) }
{
    match fault {
        Fault::NoRequest(byte) => put_expected(
            out,
            b"ERR Protocol error: expected '*', got '",
            byte,
        ),
        Fault::NoWord(byte) => put_expected(out, b"ERR Protocol error: expected '$', got '", byte),
        Fault::WordCount => put_refusal(out, b"ERR Protocol error: invalid multibulk length"),
        Fault::WordLength => put_refusal(out, b"ERR Protocol error: invalid bulk length"),
        Fault::LineEnd => put_refusal(out, b"ERR Protocol error: expected CRLF"),
    }
}

/// Puts that another byte was expected than the one that came.
fn put_expected(out: &mut Vec<u8>, text: &[u8], byte: u8) -> Result<(), AllocError>
    requires { length text.now ≤ 64 }
    ensures { OnOk result (out.new.items
        ≡ out.old.items ++ refusal (text.now ++ shown byte ∷ 39 ∷ [])) }
{
    let mut line = Line::new();
    line.push(text);
    line.push_byte(shown(byte));
    line.push_byte(b'\'');
    put_refusal(out, line.as_slice())
}

/// A byte as it is shown.
fn shown(byte: u8) -> u8
    ensures { result ≡ shown byte }
{
    if b' ' <= byte && byte <= b'~' {
        byte
    } else {
        b'?'
    }
}

/// Puts that a command got no reply in time.
pub fn put_no_reply(out: &mut Vec<u8>) -> Result<(), AllocError>
    ensures { OnOk result (out.new.items ≡ out.old.items ++ refusal no_reply) }
{
    put_refusal(out, b"TRYAGAIN no reply in time; it may still be done")
}

/// Puts that a command wasn't taken, since the store had no room for it in time.
pub fn put_no_room(out: &mut Vec<u8>) -> Result<(), AllocError>
    ensures { OnOk result (out.new.items ≡ out.old.items ++ refusal no_room) }
{
    put_refusal(out, b"TRYAGAIN no room in the log in time; it was not done")
}

/// Puts that the store takes no further key.
pub fn put_many_keys(out: &mut Vec<u8>) -> Result<(), AllocError>
    ensures { OnOk result (out.new.items ≡ out.old.items ++ refusal many_keys) }
{
    put_refusal(out, b"OOM as many keys as there may be")
}

/// Puts that a replica is stopped already.
pub fn put_stopped(out: &mut Vec<u8>) -> Result<(), AllocError>
    ensures { OnOk result (out.new.items ≡ out.old.items ++ refusal is_stopped) }
{
    put_refusal(out, b"ERR the replica is stopped")
}
