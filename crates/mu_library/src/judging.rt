//! A judge in the hands of a C program.
ghost use Rattle.std.specs.Prelude.{◌≡◌, ◌⊎◌, Some};
ghost use Rattle.mu_handle.specs.declared.holding.Held.TheVariants.{Judge};
ghost use Rattle.mu_library.specs.Calls.{CanTake, OpensJudge, PutsSaid, SaysOfHeld, SaysOfJudge, TakesHeld, TakesLine};
ghost use Rattle.mu_report.specs.declared.said.Said.TheVariants.{NoMemory as NoMemorySaid};

use crate::answering::{Answered, no_memory, nothing, say};
use crate::handles::{let_go, taken_out};
use mu_handle::{Handle, Held};
use mu_model::NoMemory;
use mu_outcome::Status;
use mu_report::Said;
use mu_top::INPUT_LIMIT;
use mu_verdict::LineJudge;
use std::alloc::Global;

/// Makes a judge of the job that the bytes spell. With status 0 the handle has it, and nothing is
/// said; else the handle is as it was, and it is said why. What the handle had is let go.
pub fn open_judge(alloc: Global, handle: &mut Handle, job: &[u8], out: &mut [u8]) -> Answered
    ensures opens { OpensJudge job.now handle.old.held handle.new.held out.old out.new
        result.status result.taken }
    ensures ready { result.status ≡ 0 → CanTake handle.new.held }
{
    if job.len() > INPUT_LIMIT {
        return say(alloc, Said::TooLong, out);
    }
    match LineJudge::new(alloc, job) {
        Ok(judge) => keep(alloc, handle, judge, out),
        Err(end) => say(alloc, Said::from(end), out),
    }
}

/// Keeps the judge in the handle, or says that there was no memory for it.
fn keep(alloc: Global, handle: &mut Handle, judge: LineJudge, out: &mut [u8]) -> Answered
    ensures { ((result.status ≡ 0) × (handle.new.held ≡ Some (Judge judge))
        × (result.taken ≡ 0) × (out.new ≡ out.old))
        ⊎ ((handle.new.held ≡ handle.old.held)
        × PutsSaid NoMemorySaid out.old out.new result.status result.taken) }
{
    match Box::new(alloc, Held::Judge(judge)) {
        Ok(held) => {
            let_go(alloc, handle);
            *handle = Handle::of(held);
            Answered {
                status: 0,
                taken: 0,
            }
        }
        Err(refusal) => no_memory(NoMemory::from(refusal), out),
    }
}

/// Takes the next line, without its line feed, and answers the status: 0 if the list is legal so
/// far, 7 once an event broke it, 2 if the line is no event, 1 if there is no judge.
pub fn take_line(alloc: Global, handle: &mut Handle, line: &[u8]) -> u8
    requires { CanTake handle.old.held }
    ensures takes { TakesLine handle.old.held line.now handle.new.held result }
    ensures ready { CanTake handle.new.held }
{
    match taken_out(alloc, handle) {
        Some(mut held) => {
            let status = taken_by(&mut held, line);
            *handle = Handle::of(held);
            status
        }
        None => Status::Usage.code(),
    }
}

fn taken_by(held: &mut Held, line: &[u8]) -> u8
    requires { CanTake (Some held.old) }
    ensures takes { TakesHeld held.old line.now held.new result }
    ensures ready { CanTake (Some held.new) }
{
    match held {
        Held::Judge(judge) => judge.take(line).code(),
        Held::Engine(_) | Held::Replica(_) => Status::Usage.code(),
    }
}

/// What is said of the lines so far, and its status, which is 1 if there is no judge. What is held
/// stays as it is.
pub fn judge_answer(alloc: Global, handle: &mut Handle, out: &mut [u8]) -> Answered
    ensures says { SaysOfJudge handle.old.held out.old out.new result.status result.taken }
    ensures kept { handle.new.held ≡ handle.old.held }
{
    match taken_out(alloc, handle) {
        Some(held) => {
            let answered = told_of(alloc, &held, out);
            *handle = Handle::of(held);
            answered
        }
        None => nothing(Status::Usage.code()),
    }
}

fn told_of(alloc: Global, held: &Held, out: &mut [u8]) -> Answered
    ensures { SaysOfHeld held.now out.old out.new result.status result.taken }
{
    match held {
        Held::Judge(judge) => say(alloc, judge.answer_so_far(), out),
        Held::Engine(_) | Held::Replica(_) => nothing(Status::Usage.code()),
    }
}
