//! What the program says of bytes in memory.
ghost use Rattle.std.specs.Prelude.{◌≡◌, ◌⊎◌, Some};
ghost use Rattle.mu_library.specs.Calls.{asked_after as asked_after_these, asked_as, asked_at, Answers, HasRoom, PutsSaid};
ghost use Rattle.mu_report.specs.declared.said.Said.TheVariants.{NoMemory as NoMemorySaid};
ghost use Rattle.mu_report.specs.Said.{IsShort};
ghost use Rattle.mu_top.specs.Answers.{Tells};

use crate::front::{put_bytes, put_said};
use crate::tasks::{Work, asked_after, asked_of};
use mu_model::NoMemory;
use mu_outcome::Status;
use mu_report::{Said, status_for};
use mu_top::{answer_alone, answer_of_bulk};
use std::alloc::Global;

/// How a call ended.
#[derive(Clone, Copy, Debug)]
pub struct Answered {
    /// The status that the program would end with.
    pub status: u8,
    /// How many bytes the whole text has; the first went to the room.
    pub taken: usize,
}

/// What the program says if it is asked this and these are the bytes of its input, and the
/// status that it ends with. The tasks are 1 `replay`, 2 `trace`, 3 `check`, 4 `why`, 5 `book`, 6
/// `bulk`, whose input is its number as on the command line, 7 `tell` and 8 `attest`; of any other, and
/// of no number, the usage is told. Want of memory can come in place of any answer.
pub fn answer(alloc: Global, task: u32, input: &[u8], out: &mut [u8]) -> Answered
    ensures { Answers (asked_at task input.now) input.now out.old out.new result.status
        result.taken }
{
    say(alloc, said_of(alloc, asked_of(task, input), input), out)
}

/// What `mu show` says of the first `count` events if these are the bytes of its input, and the
/// status that it ends with; the usage if a command line takes no such number. Want of memory can
/// come in place of any answer.
pub fn show(alloc: Global, count: u32, input: &[u8], out: &mut [u8]) -> Answered
    ensures { Answers (asked_after_these count) input.now out.old out.new result.status
        result.taken }
{
    say(alloc, said_of(alloc, asked_after(count), input), out)
}

/// What the program says if it is asked this.
fn said_of(alloc: Global, asked: Work, input: &[u8]) -> Said
    requires { HasRoom asked }
    ensures said { Tells (asked_as asked) (Some input.now) (Some input.now) 0 0 result }
    ensures short { IsShort result }
{
    match asked {
        Work::Nothing => Said::Usage,
        Work::Bulk(count) => answer_of_bulk(alloc, count),
        Work::Input(task) => answer_alone(alloc, task, input),
    }
}

/// Puts what is said into the room, or that there was no memory for its text.
pub(crate) fn say(alloc: Global, said: Said, out: &mut [u8]) -> Answered
    requires { IsShort said }
    ensures { PutsSaid said out.old out.new result.status result.taken
        ⊎ PutsSaid NoMemorySaid out.old out.new result.status result.taken }
{
    match put_said(alloc, &said, out) {
        Ok(taken) => Answered {
            status: status_for(&said).code(),
            taken,
        },
        Err(refusal) => no_memory(refusal, out),
    }
}

/// Says that there was no memory, as an allocator told.
pub(crate) fn no_memory(_refusal: NoMemory, out: &mut [u8]) -> Answered
    ensures { PutsSaid NoMemorySaid out.old out.new result.status result.taken }
{
    Answered {
        status: Status::NoMemory.code(),
        taken: put_bytes(b"no memory\n", out),
    }
}

/// No text is told.
pub(crate) fn nothing(status: u8) -> Answered
    ensures status { result.status ≡ status }
    ensures taken { result.taken ≡ 0 }
{
    Answered { status, taken: 0 }
}
