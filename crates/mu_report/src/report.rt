//! The report of a run, and the status of the program after it.
ghost use Rattle.std.specs.Prelude.{◌≡◌, ◌+◌, ◌-◌, ◌*◌, ◌%◌, ◌<◌, ◌^◌, ◌==◌, [], ◌∷◌, ◌++◌, length, map, slice_get, codes};
ghost use Rattle.std.specs.Fmt.{decimal};
ghost use Rattle.mu_outcome.specs.Entries.{commands_in};
ghost use Rattle.mu_outcome.specs.Outcomes.{log_of, commits_of, status_after, status_of};
ghost use Rattle.mu_report.specs.declared.line.TheConstants.{LINE_BYTES};
ghost use Rattle.mu_report.specs.Report.{entry_line as entry_line_of, entry_lines, gone_line as gone_line_of, lines_of_entry, log_line as log_line_of, log_lines, logs_lines, answer_line as answer_line_of, answer_lines, body_lines, replies_lines, report_lines, HasShortLists};

use crate::line::{Line, print_numbered};
use crate::printer::Printer;
use crate::words::{push_end, push_name, push_reply};
use kv_store::{Command, Reply};
use mu_input::{Job, push_op};
use mu_model::{End, FIRST_MARK, PAYLOADS, stands_for_mark};
use mu_outcome::{Outcome, Status, commands_of, longest};

/// The status of the program after a run: done if all commands of the job are in the longest log,
/// else unfinished. Takes no memory.
pub fn status(outcome: &Outcome) -> Status
    ensures { result ≡ status_after outcome.now }
{
    if has_all_commands(&outcome.job, longest(outcome.logs.as_slice())) {
        Status::Done
    } else {
        Status::Unfinished
    }
}

/// The number of that status.
pub fn status_code(outcome: &Outcome) -> u8
    ensures { result ≡ status_of outcome.now }
{
    status(outcome).code()
}

/// Prints the report. Takes no memory.
pub fn print_report<P: Printer>(out: &mut P, outcome: &Outcome)
    requires { HasShortLists outcome.now }
    ensures lines { P.Prints out.old (report_lines outcome.now) out.new }
    ensures fits { LINE_BYTES * length (report_lines outcome.now) < 2 ^ 64 }
{
    print_body(out, outcome);
    print_status(out, outcome);
}

/// Prints the report except its last line.
pub fn print_body<P: Printer>(out: &mut P, outcome: &Outcome)
    requires { HasShortLists outcome.now }
    ensures lines { P.Prints out.old (body_lines outcome.now) out.new }
    ensures few { length (body_lines outcome.now) < 2 ^ 56 + 2 ^ 10 }
{
    let replicas = outcome.job.config.replicas;
    let version = u64::from(outcome.job.config.version);
    print_numbered(out, b"report ", version);
    print_logs(out, outcome, replicas);
    print_replies(out, outcome);
}

/// Prints the last line.
pub fn print_status<P: Printer>(out: &mut P, outcome: &Outcome)
    ensures { P.Prints out.old ((codes "status " ++ decimal (status_of outcome.now)) ∷ []) out.new }
{
    print_numbered(out, b"status ", u64::from(status_code(outcome)));
}

/// Prints the logs of the first `replicas` replicas.
fn print_logs<P: Printer>(out: &mut P, outcome: &Outcome, replicas: u8)
    ensures { P.Prints out.old (logs_lines outcome.now 0 replicas) out.new }
{
    for replica in 0..replicas {
        print_log(out, outcome, replica);
    }
}

/// Prints the log of a replica.
fn print_log<P: Printer>(out: &mut P, outcome: &Outcome, replica: u8)
    ensures { P.Prints out.old (log_lines outcome.now replica) out.new }
{
    out.print_line(log_line(outcome, replica));
    print_entries(out, &outcome.job, log_at(outcome, replica));
}

/// Prints the commands of all entries of a log.
pub fn print_entries<P: Printer>(out: &mut P, job: &Job, log: &[u16])
    ensures { P.Prints out.old (entry_lines job.now 0 log.now) out.new }
{
    for (position, value) in log.iter().enumerate() {
        print_entry(out, position, job, *value);
    }
}

/// Prints one entry: its commands, or the mark that it is.
fn print_entry<P: Printer>(out: &mut P, position: usize, job: &Job, value: u16)
    ensures { P.Prints out.old (lines_of_entry job.now position value) out.new }
{
    if stands_for_mark(&job.config, gone_in(value), value) {
        out.print_line(gone_line(position, gone_in(value)));
    } else {
        print_commands(out, position, commands_of(job, value));
    }
}

/// The replica that the entry would be a mark of.
fn gone_in(value: u16) -> u8
    ensures { result ≡ value % 4096 - 4080 }
{
    (value % PAYLOADS).saturating_sub(FIRST_MARK) as u8
}

/// A replica that is gone from this position on.
fn gone_line(position: usize, q: u8) -> Line
    ensures bytes { result ≡ gone_line_of position q }
    ensures room { length result < LINE_BYTES }
{
    let mut line = Line::new();
    line.push_number(position as u64);
    line.push(b" gone ");
    line.push_number(u64::from(q));
    line
}

/// Prints the commands of one entry.
fn print_commands<P: Printer>(out: &mut P, position: usize, commands: &[Command])
    ensures { P.Prints out.old (map (entry_line_of position) commands.now) out.new }
{
    for command in commands {
        out.print_line(entry_line(position, command));
    }
}

/// Prints the replies to the commands of the longest log.
pub fn print_replies<P: Printer>(out: &mut P, outcome: &Outcome)
    requires { HasShortLists outcome.now }
    ensures { P.Prints out.old (replies_lines outcome.now) out.new }
{
    let log = longest(outcome.logs.as_slice());
    let count = command_count(&outcome.job, log);
    print_numbered(out, b"replies ", count as u64);
    print_answers(out, &outcome.job, log, outcome.replies.as_slice());
}

/// Prints the commands of all entries of a log, each with its reply.
fn print_answers<P: Printer>(out: &mut P, job: &Job, log: &[u16], replies: &[Reply])
    ensures { P.Prints out.old (answer_lines (commands_in job.now log.now) replies.now) out.new }
{
    let mut left = replies;
    for value in log {
        let commands = commands_of(job, *value);
        print_answered(out, commands, left);
        left = &left[commands.len().min(left.len())..];
    }
}

/// Prints commands, each with its reply, up to the end of the shorter list.
fn print_answered<P: Printer>(out: &mut P, commands: &[Command], replies: &[Reply])
    ensures { P.Prints out.old (answer_lines commands.now replies.now) out.new }
{
    for index in 0..commands.len().min(replies.len()) {
        out.print_line(answer_line(&commands[index], &replies[index]));
    }
}

/// What is told of the log of a replica as a whole.
pub fn log_line(outcome: &Outcome, replica: u8) -> Line
    ensures bytes { result ≡ log_line_of outcome.now replica }
    ensures room { length result < LINE_BYTES }
{
    let mut line = Line::new();
    line.push(b"log ");
    line.push_number(u64::from(replica));
    line.push(b" entries ");
    line.push_number(log_at(outcome, replica).len() as u64);
    line.push(b" commits ");
    line.push_number(commit_count(outcome, replica) as u64);
    line.push(b" ");
    push_end(&mut line, end_of(outcome, replica));
    line
}

/// A command that the entry at this position stands for.
fn entry_line(position: usize, command: &Command) -> Line
    ensures bytes { result ≡ entry_line_of position command.now }
    ensures room { length result < LINE_BYTES }
{
    let mut line = Line::new();
    line.push_number(position as u64);
    line.push(b" ");
    push_name(&mut line, command);
    line.push(b" ");
    push_op(&mut line, &command.op);
    line
}

/// A command, and the reply to it.
pub fn answer_line(command: &Command, reply: &Reply) -> Line
    ensures bytes { result ≡ answer_line_of command.now reply.now }
    ensures room { length result < LINE_BYTES }
{
    let mut line = Line::new();
    push_name(&mut line, command);
    line.push(b" ");
    push_reply(&mut line, reply);
    line
}

/// What a replica applied, and nothing if there is no such replica.
pub fn log_at(outcome: &Outcome, replica: u8) -> &[u16]
    ensures { result.now ≡ log_of outcome.now replica }
{
    match outcome.logs.as_slice().get(usize::from(replica)) {
        Some(log) => log.as_slice(),
        None => &[],
    }
}

/// How many entries a replica committed, and 0 if there is no such replica.
pub fn commit_count(outcome: &Outcome, replica: u8) -> usize
    ensures { result ≡ length (commits_of outcome.now replica) }
{
    match outcome.commits.as_slice().get(usize::from(replica)) {
        Some(commits) => commits.len(),
        None => 0,
    }
}

/// How a replica ended, if it is told.
fn end_of(outcome: &Outcome, replica: u8) -> Option<End>
    ensures { result ≡ slice_get outcome.now.ends replica }
{
    outcome.ends.as_slice().get(usize::from(replica)).copied()
}

/// Whether the entries of a log stand for as many commands as the job has.
fn has_all_commands(job: &Job, log: &[u16]) -> bool
    ensures { result ≡ (length (commands_in job.now log.now) == length job.now.commands) }
{
    let mut missing = job.commands.len();
    for value in log {
        match missing.checked_sub(commands_of(job, *value).len()) {
            Some(rest) => missing = rest,
            None => return false,
        }
    }
    missing == 0
}

/// How many commands the entries of a log stand for.
fn command_count(job: &Job, log: &[u16]) -> usize
    requires { length (commands_in job.now log.now) < 2 ^ 64 }
    ensures { result ≡ length (commands_in job.now log.now) }
{
    let mut count = 0;
    for value in log {
        count += commands_of(job, *value).len();
    }
    count
}
