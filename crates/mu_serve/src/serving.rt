//! A session from its first line to its last one.
ghost use Rattle.std.specs.Prelude.{[], false, ◌+◌, ◌≡◌, ◌≤◌};
ghost use Rattle.mu_report.specs.Said.{IsShort};
ghost use Rattle.mu_serve.specs.NextLines.{Halts, Moment};
ghost use Rattle.mu_serve.specs.Serving.{IsServed};
ghost use Rattle.mu_serve.specs.UnderWay.{Finishes, Tells, UnderWay};
ghost use Rattle.mu_serve.specs.declared.TheConstants.{SESSION_LIMIT};

use crate::answering::{Halt, halt_at_next};
use crate::incoming::Incoming;
use crate::session::Session;
use mu_io::{Sink, Source};
use mu_model::NoMemory;
use mu_outcome::Status;
use mu_report::{Said, print_counted, status_for};
use std::alloc::Global;

/// Runs a session of `replicas` replicas: reads lines of the source, answers each before it reads
/// on, and writes the report at the end of the input. The answer is the status: that of the report,
/// or 4, 6 or 8 if reading failed, there was no memory, or the input is too long, and 5 if writing
/// failed.
pub fn serve<S: Source, K: Sink>(alloc: Global, replicas: u8, source: &mut S, sink: &mut K) -> u8
    requires some { 1 ≤ replicas }
    requires most { replicas ≤ 7 }
    ensures { IsServed replicas (S.left source.old) (S.left source.new) (S.faults source.old)
        (S.faults source.new) (K.written sink.old) (K.written sink.new) (K.faults sink.old)
        (K.faults sink.new) result }
{
    let mut session = match Session::start(alloc, replicas) {
        Ok(session) => session,
        Err(NoMemory) => return status_of_end(Said::NoMemory, sink),
    };
    let mut incoming = Incoming::new();
    let halt = last_halt(&mut session, &mut incoming, source, sink);
    status_after(session, halt, sink)
}

/// Answers lines as long as there are any, and tells why no further one is answered.
fn last_halt<S: Source, K: Sink>(
    session: &mut Session,
    incoming: &mut Incoming,
    source: &mut S,
    sink: &mut K,
) -> Halt
    requires count { session.old.count ≡ 0 }
    requires waiting { session.old.waiting ≡ [] }
    requires held { incoming.old.held ≡ [] }
    requires room { incoming.old.room ≡ SESSION_LIMIT + 1 }
    requires going { incoming.old.is_over ≡ false }
    ensures { (between : Moment) × UnderWay
        (record {
          left = S.left source.old;
          read = S.faults source.old;
          written = K.written sink.old;
          wrote = K.faults sink.old;
          incoming = incoming.old;
          talk = session.old;
        }) between
        × Halts between
        (record {
          left = S.left source.new;
          read = S.faults source.new;
          written = K.written sink.new;
          wrote = K.faults sink.new;
          incoming = incoming.new;
          talk = session.new;
        }) result }
{
    'lines: loop {
        if let Some(halt) = halt_at_next(session, incoming, source, sink) {
            return halt;
        }
    }
}

/// Writes what is said once no further line is answered, and answers the status.
fn status_after<K: Sink>(session: Session, halt: Halt, sink: &mut K) -> u8
    ensures { Finishes halt session (K.written sink.old) (K.written sink.new)
        (K.faults sink.old) (K.faults sink.new) result }
{
    match halt {
        Halt::EndOfInput => status_of_end(session.report(), sink),
        Halt::Unread(end) => status_of_end(Said::from(end), sink),
        Halt::NoMemory => status_of_end(Said::NoMemory, sink),
        Halt::Unwritten => Status::WriteFault.code(),
    }
}

/// Writes what is said at the end, and answers the status.
fn status_of_end<K: Sink>(said: Said, sink: &mut K) -> u8
    requires { IsShort said }
    ensures { Tells (K.written sink.old) (K.written sink.new) (K.faults sink.old)
        (K.faults sink.new) said result }
{
    match print_counted(sink, &said) {
        Ok(_) => status_for(&said).code(),
        Err(_) => Status::WriteFault.code(),
    }
}
