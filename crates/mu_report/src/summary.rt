//! The summary of a run: its logs without their entries, and how many replies there are of each
//! kind.
ghost use Rattle.std.specs.Prelude.{◌≡◌, ◌+◌, ◌*◌, ◌<◌, ◌≤◌, ◌^◌, length};
ghost use Rattle.mu_report.specs.declared.line.TheConstants.{LINE_BYTES};
ghost use Rattle.mu_report.specs.Summary.{one_of, count_of as count_of_kind, counts_line as counts_line_of, head_lines, summary_lines};

use crate::line::{Line, print_numbered};
use crate::printer::Printer;
use crate::report::{log_line, print_status};
use kv_store::Reply;
use mu_outcome::Outcome;

/// What a reply tells.
#[derive(Clone, Copy)]
pub enum Kind {
    /// That the command is done.
    Done,
    /// The value that was found.
    Value,
    /// That no value was found.
    None,
    /// The value that stays, since it isn't the expected one.
    Kept,
}

/// Prints the summary. Takes no memory.
pub fn print_summary<P: Printer>(out: &mut P, outcome: &Outcome)
    ensures lines { P.Prints out.old (summary_lines outcome.now) out.new }
    ensures fits { LINE_BYTES * length (summary_lines outcome.now) < 2 ^ 64 }
{
    print_numbered(out, b"bulk ", outcome.job.commands.len() as u64);
    print_heads(out, outcome, outcome.job.config.replicas);
    out.print_line(counts_line(outcome.replies.as_slice()));
    print_status(out, outcome);
}

/// Prints what is told of the logs of the first `replicas` replicas as a whole.
pub fn print_heads<P: Printer>(out: &mut P, outcome: &Outcome, replicas: u8)
    ensures { P.Prints out.old (head_lines outcome.now 0 replicas) out.new }
{
    for replica in 0..replicas {
        out.print_line(log_line(outcome, replica));
    }
}

/// How many replies there are of each kind, as a line.
fn counts_line(replies: &[Reply]) -> Line
    ensures bytes { result ≡ counts_line_of replies.now }
    ensures room { length result < LINE_BYTES }
{
    let mut line = Line::new();
    line.push(b"replies done ");
    line.push_number(count_of(Kind::Done, replies) as u64);
    line.push(b" value ");
    line.push_number(count_of(Kind::Value, replies) as u64);
    line.push(b" none ");
    line.push_number(count_of(Kind::None, replies) as u64);
    line.push(b" kept ");
    line.push_number(count_of(Kind::Kept, replies) as u64);
    line
}

/// How many of the replies are of this kind.
fn count_of(kind: Kind, replies: &[Reply]) -> usize
    ensures { result ≡ count_of_kind kind replies.now }
{
    let mut count = 0;
    for reply in replies {
        count += one_of(kind, reply);
    }
    count
}

/// 1 for a reply of this kind, and 0 for another.
fn one_of(kind: Kind, reply: &Reply) -> usize
    ensures exact { result ≡ one_of kind reply.now }
    ensures small { result ≤ 1 }
{
    match kind {
        Kind::Done => match reply {
            Reply::Done => 1,
            _ => 0,
        },
        Kind::Value => match reply {
            Reply::Value(_) => 1,
            _ => 0,
        },
        Kind::None => match reply {
            Reply::None => 1,
            _ => 0,
        },
        Kind::Kept => match reply {
            Reply::Kept(_) => 1,
            _ => 0,
        },
    }
}
