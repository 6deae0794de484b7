//! The report of what a legal list of events comes to.
ghost use Rattle.std.specs.Prelude.{◌≡◌, ◌+◌, ◌*◌, ◌<◌, ◌≤◌, ◌^◌, ◌++◌, length, slice_get};
ghost use Rattle.mu_report.specs.declared.line.TheConstants.{LINE_BYTES};
ghost use Rattle.mu_report.specs.Accounts.{account_line as account_line_of, account_lines, account_log_lines, account_logs_lines, so_far_words};
ghost use Rattle.mu_report.specs.Report.{HasShortLists};

use crate::line::{Line, print_numbered};
use crate::printer::Printer;
use crate::report::{commit_count, log_at, print_entries, print_replies, print_status};
use mu_outcome::{Account, EndSoFar};

/// Prints the report. Takes no memory.
pub fn print_account<P: Printer>(out: &mut P, account: &Account)
    requires { HasShortLists account.now.outcome }
    ensures lines { P.Prints out.old (account_lines account.now) out.new }
    ensures fits { LINE_BYTES * length (account_lines account.now) < 2 ^ 64 }
{
    let replicas = account.outcome.job.config.replicas;
    let version = u64::from(account.outcome.job.config.version);
    print_numbered(out, b"report ", version);
    print_account_logs(out, account, replicas);
    print_replies(out, &account.outcome);
    print_status(out, &account.outcome);
}

/// Prints the logs of the first `replicas` replicas.
fn print_account_logs<P: Printer>(out: &mut P, account: &Account, replicas: u8)
    ensures { P.Prints out.old (account_logs_lines account.now 0 replicas) out.new }
{
    for replica in 0..replicas {
        print_account_log(out, account, replica);
    }
}

/// Prints the log of a replica.
fn print_account_log<P: Printer>(out: &mut P, account: &Account, replica: u8)
    ensures { P.Prints out.old (account_log_lines account.now replica) out.new }
{
    let outcome = &account.outcome;
    out.print_line(account_line(account, replica));
    print_entries(out, &outcome.job, log_at(outcome, replica));
}

/// What is told of the log of a replica as a whole.
fn account_line(account: &Account, replica: u8) -> Line
    ensures bytes { result ≡ account_line_of account.now replica }
    ensures room { length result < LINE_BYTES }
{
    let mut line = Line::new();
    line.push(b"log ");
    line.push_number(u64::from(replica));
    line.push(b" entries ");
    line.push_number(log_at(&account.outcome, replica).len() as u64);
    line.push(b" commits ");
    line.push_number(commit_count(&account.outcome, replica) as u64);
    line.push(b" ");
    push_so_far(&mut line, end_at(account, replica));
    line
}

/// How a replica has ended so far, if it is told.
fn end_at(account: &Account, replica: u8) -> Option<EndSoFar>
    ensures { result ≡ slice_get account.now.ends replica }
{
    account.ends.as_slice().get(usize::from(replica)).copied()
}

/// Adds how a replica has ended so far, and nothing if that is not told: at most 16 bytes.
fn push_so_far(line: &mut Line, end: Option<EndSoFar>)
    requires { length line.old + 31 ≤ LINE_BYTES }
    ensures bytes { line.new ≡ line.old ++ so_far_words end }
    ensures room { length line.new ≤ length line.old + 16 }
{
    match end {
        None => {}
        Some(EndSoFar::Running) => line.push(b"running"),
        Some(EndSoFar::Stopped) => line.push(b"stopped"),
        Some(EndSoFar::Budget) => line.push(b"budget"),
        Some(EndSoFar::Outrun(region, position)) => {
            line.push(b"outrun ");
            line.push_number(u64::from(region));
            line.push(b" ");
            line.push_number(u64::from(position));
        }
        Some(EndSoFar::Finished) => line.push(b"finished"),
    }
}
