//! Rows of entries, in lists.
ghost use Rattle.std.specs.Prelude.{◌≡◌, ◌++◌, IfOk, OnOk};
ghost use Rattle.mu_clients.specs.Attested.{rows_of_put};
ghost use Rattle.mu_model.specs.Contents.{includes, rows_in as rows_in_log, rows_of};

use mu_model::{Config, NoMemory, PAYLOADS, Verb, row_rest, stands_for_batch};
use std::alloc::Global;

/// Whether a row is among these.
pub(crate) fn has_row(rows: &[u16], row: u16) -> bool
    ensures { result ≡ includes row rows.now }
{
    for other in rows {
        if *other == row {
            return true;
        }
    }
    false
}

/// Adds the rows of an entry.
///
/// # Errors
///
/// Only for want of memory.
fn push_rows(rows: &mut Vec<u16>, config: &Config, value: u16) -> Result<(), NoMemory>
    ensures { OnOk result (rows.new.items ≡ rows.old.items ++ rows_of config.now value) }
{
    if !stands_for_batch(config, value) {
        return Ok(());
    }
    let first = value % PAYLOADS;
    let count = u16::from(row_rest(config, first)) + 1;
    for place in 0..count {
        rows.push(first + place)?;
    }
    Ok(())
}

/// Adds the rows of the entry that a step puts, if it puts one.
///
/// # Errors
///
/// Only for want of memory.
pub(crate) fn push_put(rows: &mut Vec<u16>, config: &Config, verb: &Verb) -> Result<(), NoMemory>
    ensures { OnOk result (rows.new.items ≡ rows.old.items ++ rows_of_put config.now verb.now) }
{
    match *verb {
        Verb::PutSlot(_, _, _, value) => push_rows(rows, config, value),
        _ => Ok(()),
    }
}

/// The rows of the entries of a log.
///
/// # Errors
///
/// Only for want of memory.
pub(crate) fn rows_in(alloc: Global, config: &Config, log: &[u16]) -> Result<Vec<u16>, NoMemory>
    ensures { IfOk result (λ rows. rows.items ≡ rows_in_log config.now log.now) }
{
    let mut rows = Vec::new(alloc);
    for value in log {
        push_rows(&mut rows, config, *value)?;
    }
    Ok(rows)
}
