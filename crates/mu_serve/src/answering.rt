//! The answer to the next line of a session.
ghost use Rattle.std.specs.Prelude.{length, ◌+◌, ◌<◌, ◌^◌, ◌≤◌};
ghost use Rattle.mu_serve.specs.NextLines.{Fares};

use crate::incoming::Incoming;
use crate::session::Session;
use mu_io::{ReadEnd, Sink, Source};
use mu_model::NoMemory;
use mu_report::print_responses;

/// Why no further line is answered.
#[derive(Clone, Copy)]
pub enum Halt {
    /// No line is left.
    EndOfInput,
    /// The source failed, or has more bytes than a session may have.
    Unread(ReadEnd),
    /// Want of memory.
    NoMemory,
    /// The sink failed.
    Unwritten,
}

/// Answers the next line: takes it, does what it says, and writes the responses, of which nothing is
/// held back. Then the next one may be read.
///
/// A reason if there was no line, or it couldn't be answered.
pub fn halt_at_next<S: Source, K: Sink>(
    session: &mut Session,
    incoming: &mut Incoming,
    source: &mut S,
    sink: &mut K,
) -> Option<Halt>
    requires room { 0 < incoming.old.room }
    requires count { session.old.count + 1 < 2 ^ 32 }
    requires few { length session.old.waiting ≤ session.old.count }
    ensures { Fares
        (record {
          left = S.left source.old;
          read = S.faults source.old;
          written = K.written sink.old;
          wrote = K.faults sink.old;
          incoming = incoming.old;
          talk = session.old;
        })
        (record {
          left = S.left source.new;
          read = S.faults source.new;
          written = K.written sink.new;
          wrote = K.faults sink.new;
          incoming = incoming.new;
          talk = session.new;
        })
        result }
{
    let line = match incoming.next_line(source) {
        Ok(Some(line)) => line,
        Ok(None) => return Some(Halt::EndOfInput),
        Err(end) => return Some(Halt::Unread(end)),
    };
    let responses = match session.responses(&line) {
        Ok(responses) => responses,
        Err(NoMemory) => return Some(Halt::NoMemory),
    };
    match print_responses(sink, responses.as_slice()) {
        Ok(_) => None,
        Err(_) => Some(Halt::Unwritten),
    }
}
