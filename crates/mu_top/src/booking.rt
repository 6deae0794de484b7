//! `book`: a job run in turns, and the book of orders after its commands.
ghost use Rattle.std.specs.Prelude.{◌≡◌, ◌≤◌, [], length, IfErr, IfOk};
ghost use Rattle.match_book.specs.Ledgers.{HaveDifferentIds};
ghost use Rattle.match_book.specs.Stands.{StandsFor};
ghost use Rattle.mu_input.specs.Grammar.{job as job_of};
ghost use Rattle.mu_input.specs.Readings.{Fits};
ghost use Rattle.mu_outcome.specs.Entries.{commands_in, longest as longest_of};
ghost use Rattle.mu_report.specs.Said.{IsShort};
ghost use Rattle.mu_top.specs.Commands.{Books, IsEndOf, IsReplay};

use match_book::Book;
use mu_cluster::{replay, rows_spell_commands};
use mu_input::{InputEnd, Job, read};
use mu_outcome::{Outcome, commands_of, longest};
use mu_report::Said;
use std::alloc::Global;

/// What is said of the book after a replay of the job of these bytes.
pub(crate) fn told_of_book(alloc: Global, bytes: &[u8]) -> Said
    ensures said { Books bytes.now result }
    ensures short { IsShort result }
{
    match booked(alloc, bytes) {
        Ok((outcome, book)) => Said::Booked(outcome, book),
        Err(end) => Said::from(end),
    }
}

/// The replay of the job that the bytes spell, and the book of the commands of its longest log.
///
/// # Errors
///
/// `Refused` exactly if the bytes leave the grammar of jobs; `NoMemory` for want of memory, before
/// the first step.
fn booked(alloc: Global, bytes: &[u8]) -> Result<(Outcome, Book), InputEnd>
    ensures job { IfOk result (λ r. job_of bytes.now ≡ Fits r.0.job) }
    ensures replay { IfOk result (λ r. IsReplay r.0) }
    ensures book { IfOk result (λ r. StandsFor (commands_in r.0.job (longest_of r.0.logs)) r.1) }
    ensures end { IfErr result (IsEndOf bytes.now) }
{
    let job = read(alloc, bytes)?;
    let mut book = Book::with_room(alloc, job.commands.len())?;
    rows_spell_commands(&job);
    let outcome = replay(alloc, job)?;
    apply_log(&mut book, &outcome.job, longest(outcome.logs.as_slice()));
    Ok((outcome, book))
}

/// Applies the commands of a log to an empty book. Takes no memory.
fn apply_log(book: &mut Book, job: &Job, log: &[u16])
    requires empty { StandsFor [] book.old }
    requires room { length (commands_in job.now log.now) ≤ book.old.room }
    requires different { HaveDifferentIds (commands_in job.now log.now) }
    ensures { StandsFor (commands_in job.now log.now) book.new }
{
    for value in log {
        book.apply_all(commands_of(job, *value));
    }
}
