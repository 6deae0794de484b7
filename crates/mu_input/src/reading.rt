//! The reading of whole inputs.
ghost use Rattle.std.specs.Prelude.{◌≡◌, ◌+◌, ◌<◌, ◌≤◌, ◌^◌, IfOk, length};
ghost use Rattle.kv_store.specs.Sessions.{IsInSession};
ghost use Rattle.mu_model.specs.Contents.{IsConfig};
ghost use Rattle.mu_input.specs.Heads.{HaveHeads};
ghost use Rattle.mu_input.specs.Grammar.{job, job_at};
ghost use Rattle.mu_input.specs.Readings.{EndsHere, Reads, ReadsFront};

use crate::batches::job_of;
use crate::bodies::{BODY_LINES, read_body};
use crate::cause::AFTER_END;
use crate::heading::{SETTING_LINES, read_settings};
use crate::job::{InputEnd, Job};
use crate::scripts::script_where;
use crate::{MOST_COMMANDS, MOST_SCRIPT_LINES};
use mu_text::LineReader;
use std::alloc::Global;

/// The most lines before those of the events: settings, clients and commands, a script and its end.
const MOST_LINES_BEFORE: u32 = SETTING_LINES + BODY_LINES + MOST_SCRIPT_LINES as u32 + 1;

/// The job that bytes spell. Takes memory only for its commands, rows and script, and the time of
/// one walk over the bytes.
///
/// # Errors
///
/// `Refused` exactly if the bytes leave the grammar, with the first line that leaves it, a missing
/// line included, and the cause: 1 the version, 2 the replicas, 3 the places of a ring, 4 the steps
/// of a replica, 5 the client, 6 the operation, 7 the key, 8 a text, 9 one line too many, 10 the
/// script, 11 no end, 12 a line after the end, 15 the commands of a batch. `NoMemory` for want of
/// memory.
pub fn read(alloc: Global, bytes: &[u8]) -> Result<Job, InputEnd>
    ensures reading { Reads result (job bytes.now) }
    ensures config { IfOk result (λ job. IsConfig job.config) }
    ensures session { IfOk result (λ job. IsInSession job.commands) }
    ensures heads { IfOk result (λ job. HaveHeads job.config.width job.commands job.config.rows) }
    ensures few { IfOk result (λ job. length job.commands ≤ MOST_COMMANDS) }
    ensures lines { IfOk result (λ job.
        length job.script.stops + length job.script.pauses ≤ MOST_SCRIPT_LINES) }
{
    let mut lines = LineReader::new(bytes);
    let job = read_job(alloc, &mut lines)?;
    read_end(&mut lines)?;
    Ok(job)
}

/// The job at the front of all lines.
pub fn read_job(alloc: Global, lines: &mut LineReader<'_>) -> Result<Job, InputEnd>
    requires { lines.old.number ≡ 1 }
    ensures reading { ReadsFront result (job_at lines.old) lines.new }
    ensures config { IfOk result (λ job. IsConfig job.config) }
    ensures session { IfOk result (λ job. IsInSession job.commands) }
    ensures heads { IfOk result (λ job. HaveHeads job.config.width job.commands job.config.rows) }
    ensures few { IfOk result (λ job. lines.new.number ≤ MOST_LINES_BEFORE + 1) }
    ensures commands { IfOk result (λ job. length job.commands ≤ MOST_COMMANDS) }
    ensures lines { IfOk result (λ job.
        length job.script.stops + length job.script.pauses ≤ MOST_SCRIPT_LINES) }
{
    let settings = read_settings(lines)?;
    let body = read_body(alloc, lines)?;
    let script = script_where(alloc, lines, body.has_script, settings.replicas)?;
    Ok(job_of(alloc, settings, body.commands, script)?)
}

/// No line is left.
pub fn read_end(lines: &mut LineReader<'_>) -> Result<(), InputEnd>
    requires { lines.old.number + 1 < 2 ^ 32 }
    ensures ends { EndsHere result lines.old }
    ensures counted { lines.new.number + length lines.new.lines
        ≡ lines.old.number + length lines.old.lines }
    ensures onward { lines.old.number ≤ lines.new.number }
{
    let line = lines.number();
    match lines.next() {
        None => Ok(()),
        Some(_) => Err(InputEnd::at(line, AFTER_END)),
    }
}
