//! The store's reply to the command of one row.
ghost use Rattle.std.specs.Prelude.{◌≡◌, IfOk};
ghost use Rattle.mu_clients.specs.Attested.{beside as beside_row, reply_over as reply_over_log};

use crate::rows::rows_in;
use kv_store::Reply;
use mu_input::Job;
use mu_model::NoMemory;
use mu_telling::replies_over;
use std::alloc::Global;

/// The reply beside the first of these rows that is this one.
fn beside(row: u16, rows: &[u16], replies: &[Reply]) -> Option<Reply>
    ensures { result ≡ beside_row row rows.now replies.now }
{
    let count = rows.len().min(replies.len());
    for index in 0..count {
        if rows[index] == row {
            return Some(replies[index]);
        }
    }
    None
}

/// The store's reply to the command of a row over a log, if the log has it.
///
/// # Errors
///
/// Only for want of memory.
pub(crate) fn reply_over(
    alloc: Global,
    job: &Job,
    log: &[u16],
    row: u16,
) -> Result<Option<Reply>, NoMemory>
    ensures { IfOk result (λ found. found ≡ reply_over_log job.now log.now row) }
{
    let rows = rows_in(alloc, &job.config, log)?;
    let replies = replies_over(alloc, job, log)?;
    Ok(beside(row, rows.as_slice(), replies.as_slice()))
}
