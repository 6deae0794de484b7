//! The picture of a trace in memory.
ghost use Rattle.mu_drawing.specs.Answers.{IsSayable};
ghost use Rattle.mu_drawing.specs.Words.{asked_steps};
ghost use Rattle.mu_library.specs.Calls.{Draws, PutsTold};
ghost use Rattle.std.specs.Prelude.{◌⊎◌};
ghost use Rattle.mu_drawing.specs.declared.drawing.Output.TheVariants.{Said as SaidOf};
ghost use Rattle.mu_report.specs.declared.said.Said.TheVariants.{NoMemory as NoMemorySaid};

use crate::answering::{Answered, no_memory};
use crate::front::{put_bytes, put_said};
use mu_drawing::{Output, USAGE, extent_between, output_in_memory, status_of};
use std::alloc::Global;

/// What `mu_draw FIRST LAST` says if these are the bytes of its input, and the status that it
/// ends with. Want of memory can come in place of any answer.
pub fn draw(alloc: Global, first: u32, last: u32, input: &[u8], out: &mut [u8]) -> Answered
    ensures { Draws (asked_steps first last) input.now out.old out.new result.status
        result.taken }
{
    tell(
        alloc,
        output_in_memory(alloc, extent_between(first, last), input),
        out,
    )
}

/// Puts what is told into the room, or that there was no memory for its text.
fn tell(alloc: Global, told: Output, out: &mut [u8]) -> Answered
    requires { IsSayable told }
    ensures { PutsTold told out.old out.new result.status result.taken
        ⊎ PutsTold (SaidOf NoMemorySaid) out.old out.new result.status result.taken }
{
    let status = status_of(&told).code();
    match told {
        Output::Usage => Answered {
            status,
            taken: put_bytes(USAGE, out),
        },
        Output::Said(said) => match put_said(alloc, &said, out) {
            Ok(taken) => Answered { status, taken },
            Err(refusal) => no_memory(refusal, out),
        },
        Output::Drawn(sheet) => Answered {
            status,
            taken: put_bytes(sheet.as_slice(), out),
        },
        Output::Broken(sheet) => Answered {
            status,
            taken: put_bytes(sheet.as_slice(), out),
        },
    }
}
