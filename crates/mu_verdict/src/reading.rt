//! The lines of an attested trace: those of its job, and of its items.
ghost use Rattle.std.specs.Prelude.{◌≡◌, ◌+◌, ◌<◌, IfOk, IfSome, None, List, OnOk, length};
ghost use Rattle.mu_verdict.specs.Traces.{EndsItems, GivesItem, HasFew, job_lines, later_lines};
ghost use Rattle.mu_clients.specs.Items.{IsWithin};
ghost use Rattle.mu_clients.specs.declared.items.Item.{Item as SomeItem};
ghost use Rattle.mu_input.specs.declared.job.InputEnd.TheVariants.{Refused};
ghost use Rattle.mu_text.specs.Lines.{ended};

use mu_clients::{Item, item};
use mu_input::cause::{AFTER_END, EVENT, NO_END};
use mu_input::{InputEnd, is_end};
use mu_model::NoMemory;
use mu_text::{LINE_FEED, LineReader};
use std::alloc::Global;

/// Takes the lines of the job, up to the first `end`, and gives their bytes.
///
/// # Errors
///
/// Only for want of memory.
pub(crate) fn job_bytes(alloc: Global, lines: &mut LineReader<'_>) -> Result<Vec<u8>, NoMemory>
    requires few { HasFew lines.old }
    ensures bytes { IfOk result (λ bytes. bytes.items ≡ ended (job_lines lines.old.lines)) }
    ensures later { OnOk result (lines.new.lines ≡ later_lines lines.old.lines) }
    ensures number { OnOk result
        (lines.new.number ≡ lines.old.number + length (job_lines lines.old.lines)) }
    ensures few { OnOk result (HasFew lines.new) }
{
    let mut bytes = Vec::new(alloc);
    while let Some(line) = lines.next() {
        bytes.extend_from_slice(line)?;
        bytes.push(LINE_FEED)?;
        if is_end(line) {
            return Ok(bytes);
        }
    }
    Ok(bytes)
}

/// Takes the next item; `None` if the trace ends here. Takes no memory.
///
/// # Errors
///
/// `Refused` with the first line that leaves the grammar, and the cause: 13 a line that is neither
/// an item nor `end`, 11 no `end`, 12 a line after it.
pub(crate) fn next_item(
    replicas: u8,
    rows: u16,
    lines: &mut LineReader<'_>,
) -> Result<Option<Item>, InputEnd>
    requires few { HasFew lines.old }
    ensures gives { (items : List SomeItem)
        → GivesItem replicas rows items lines.old result lines.new }
    ensures within { IfOk result (λ found. IfSome found (IsWithin replicas)) }
    ensures number { IfOk result (λ found. IfSome found
        (λ _. lines.new.number ≡ lines.old.number + 1)) }
    ensures few { IfOk result (λ found. IfSome found (λ _. HasFew lines.new)) }
    ensures fewer { IfOk result (λ found. IfSome found
        (λ _. length lines.new.lines < length lines.old.lines)) }
{
    let line = lines.number();
    let Some(text) = lines.next() else {
        return Err(refused(line, NO_END));
    };
    if is_end(text) {
        return end_here(lines);
    }
    match item(replicas, rows, text) {
        Some(item) => Ok(Some(item)),
        None => Err(refused(line, EVENT)),
    }
}

/// Nothing may come after the last `end`.
fn end_here(lines: &mut LineReader<'_>) -> Result<Option<Item>, InputEnd>
    requires few { HasFew lines.old }
    ensures ends { (items : List SomeItem) → EndsItems items lines.old result }
    ensures none { IfOk result (λ found. found ≡ None) }
{
    let line = lines.number();
    match lines.next() {
        None => Ok(None),
        Some(_) => Err(refused(line, AFTER_END)),
    }
}

/// The line at which the input leaves the grammar, and the cause.
fn refused(line: u32, cause: u8) -> InputEnd
    ensures { result ≡ Refused line cause }
{
    InputEnd::Refused { line, cause }
}
