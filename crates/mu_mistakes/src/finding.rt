//! What of an input says what is expected in a line: the line itself, the clients before it, the
//! replicas of the job.
ghost use Rattle.std.specs.Prelude.{◌≡◌, ◌≤◌, ◌-◌, ◌<◌, ◌^◌, length, None, Some, MatchOption};
ghost use Rattle.std.specs.List.{slice_get};
ghost use Rattle.mu_input.specs.declared.TheConstants.{TRACE_LIMIT};
ghost use Rattle.mu_text.specs.Lines.{is_first, lines};
ghost use Rattle.mu_mistakes.specs.Expected.{begins_with, clients_before, one_client, replicas_in};

use mu_input::MOST_REPLICAS;
use mu_text::{LineReader, Words, is_first, number_within, two_words};

/// The line of this number, counted from 1, if there is one.
pub(crate) fn line_at(bytes: &[u8], number: u32) -> Option<&[u8]>
    requires { length bytes.now ≤ TRACE_LIMIT }
    ensures { MatchOption result (slice_get (lines bytes.now) (number - 1) ≡ None)
        (λ line. slice_get (lines bytes.now) (number - 1) ≡ Some line.now) }
{
    let mut rest = LineReader::new(bytes);
    while rest.number() < number {
        rest.next()?;
    }
    rest.next()
}

/// How many of the lines before this one begin a client.
#[tactic(auto, using(crate::proofs::Left::clients_next))]
pub(crate) fn clients_before(bytes: &[u8], number: u32) -> u32
    requires { length bytes.now ≤ TRACE_LIMIT }
    ensures few { result < 2 ^ 31 }
    ensures is { result ≡ clients_before bytes.now number }
{
    let mut rest = LineReader::new(bytes);
    let mut clients = 0;
    while rest.number() < number {
        let Some(line) = rest.next() else {
            return clients;
        };
        clients += one_client(line);
    }
    clients
}

/// 1 for a line that begins a client, and 0 for another.
fn one_client(line: &[u8]) -> u32
    ensures is { result ≡ one_client line.now }
    ensures few { result ≤ 1 }
{
    if begins_with(line, b"client") { 1 } else { 0 }
}

/// Whether this is the first word of a line.
pub(crate) fn begins_with(line: &[u8], word: &[u8]) -> bool
    ensures { result ≡ begins_with word.now line.now }
{
    is_first(Words::of(line).as_slice(), word)
}

/// How many replicas the second line of an input says that there are, if it says so.
pub(crate) fn replicas_in(bytes: &[u8]) -> Option<u32>
    requires { length bytes.now ≤ TRACE_LIMIT }
    ensures { result ≡ replicas_in bytes.now }
{
    let (_, value) = two_words(line_at(bytes, 2)?)?;
    number_within(value, 1, u32::from(MOST_REPLICAS))
}
