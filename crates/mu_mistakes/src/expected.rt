//! What is expected in place of a line that leaves the grammar.
ghost use Rattle.std.specs.Prelude.{◌≡◌, ◌≤◌, ◌<◌, ◌+◌, ◌++◌, length, map, option_map, codes, IfSome};
ghost use Rattle.mu_events.specs.Table.{IsShort, passed};
ghost use Rattle.mu_input.specs.declared.TheConstants.{TRACE_LIMIT};
ghost use Rattle.mu_mistakes.specs.Expected.{below_words, cause_words, client_words, command_words, ending_words, event_words, expected_words, is_line, is_replica, kinds_words, lacks_batch, line_words, missing_words, names_words, operations_words, replica_words, row_words, script_words, shape_words, verb_words};

use crate::finding::{begins_with, clients_before, line_at, replicas_in};
use kv_store::{OP_KINDS, OpShape};
use mu_events::{VERBS, VerbRow, row_named};
use mu_input::cause::{BATCH, CLIENT, EVENT, OPERATION, SCRIPT};
use mu_text::{Line, Words, number};

/// What is expected in the line of this number, if this is the cause. The line stands there, or is
/// missing.
pub(crate) fn expected(bytes: &[u8], number: u32, line: Option<&[u8]>, cause: u8) -> Line
    requires { length bytes.now ≤ TRACE_LIMIT }
    ensures bytes { result
        ≡ expected_words bytes.now number (option_map (λ line. line.now) line.entry) cause }
    ensures room { length result ≤ 190 }
{
    let mut out = Line::new();
    out.push(b"expected: ");
    match line {
        None => push_missing(&mut out, bytes, number),
        Some(line) => push_expected(&mut out, bytes, number, line, cause),
    }
    out
}

/// Adds what is expected if the input ends before a line.
fn push_missing(out: &mut Line, bytes: &[u8], number: u32)
    requires limit { length bytes.now ≤ TRACE_LIMIT }
    requires room { length out.old ≤ 10 }
    ensures bytes { out.new ≡ out.old ++ missing_words bytes.now number }
    ensures room { length out.new ≤ 190 }
{
    if number <= 4 {
        out.push(words_for(number as u8));
    } else if lacks_batch(bytes, number) {
        out.push(words_for(BATCH));
    } else {
        out.push(ending(is_line(line_at(bytes, number - 1), b"end")));
    }
}

/// Whether the line of this number is the missing one of a batch.
fn lacks_batch(bytes: &[u8], number: u32) -> bool
    requires { length bytes.now ≤ TRACE_LIMIT }
    ensures { result ≡ lacks_batch bytes.now number }
{
    number == 5 && is_line(line_at(bytes, 1), b"mu 2")
}

/// What is expected after the last line, which is an `end` or isn't.
fn ending(is_end: bool) -> &'static [u8]
    ensures words { result.now ≡ ending_words is_end }
    ensures room { length result.now ≤ 100 }
{
    if is_end {
        b"the events of a trace and another end: the job alone fits"
    } else {
        b"end, the last line of a job and of a trace"
    }
}

/// Whether there is such a line, and it is this one.
fn is_line(line: Option<&[u8]>, wanted: &[u8]) -> bool
    ensures { result ≡ is_line wanted.now (option_map (λ line. line.now) line.entry) }
{
    match line {
        None => false,
        Some(line) => line == wanted,
    }
}

/// Adds what is expected in place of this line.
fn push_expected(out: &mut Line, bytes: &[u8], number: u32, line: &[u8], cause: u8)
    requires limit { length bytes.now ≤ TRACE_LIMIT }
    requires room { length out.old ≤ 10 }
    ensures bytes { out.new ≡ out.old ++ line_words bytes.now number line.now cause }
    ensures room { length out.new ≤ 190 }
{
    if cause == CLIENT {
        push_client(out, clients_before(bytes, number));
    } else if cause == OPERATION {
        push_command(out, line);
    } else if cause == SCRIPT {
        push_script(out, replicas_in(bytes));
    } else if cause == EVENT {
        push_event(out, replicas_in(bytes), Words::of(line).as_slice());
    } else {
        out.push(words_for(cause));
    }
}

/// What is expected if this is the cause, and nothing else of the input counts.
fn words_for(cause: u8) -> &'static [u8]
    ensures words { result.now ≡ cause_words cause }
    ensures room { length result.now ≤ 100 }
{
    match cause {
        1 => b"mu 1 or mu 2, the first line of a job; a trace has its job before the events",
        2 => b"replicas N, with N from 1 to 7",
        3 => b"ring K, with K from 8 to 1024",
        4 => b"budget B, with B from 1 to 131071",
        7 => b"a key of 1 to 24 bytes, each from 33 to 126",
        8 => b"a text of 1 to 64 bytes, each from 33 to 126, and of 1 to 32 in cas",
        9 => b"no more than 16 clients, 1500 commands and 100 lines of the script",
        12 => b"no line after the last end",
        _ => b"batch M, with M from 1 to 4, the fifth line of a job of mu 2",
    }
}

/// Adds the next client.
fn push_client(out: &mut Line, clients: u32)
    requires { length out.old ≤ 10 }
    ensures bytes { out.new ≡ out.old ++ client_words clients }
    ensures room { length out.new ≤ 190 }
{
    out.push(b"client ");
    out.push_number(u64::from(clients));
    out.push(b", the next client, before its first command");
}

/// Adds a command, or what goes before a stop or pause.
fn push_command(out: &mut Line, line: &[u8])
    requires { length out.old ≤ 10 }
    ensures bytes { out.new ≡ out.old ++ command_words line.now }
    ensures room { length out.new ≤ 190 }
{
    if begins_with(line, b"stop") || begins_with(line, b"pause") {
        out.push(b"script, alone in its line, before the first stop or pause");
    } else {
        push_operations(out);
    }
}

/// Adds a command.
fn push_operations(out: &mut Line)
    requires { length out.old ≤ 10 }
    ensures bytes { out.new ≡ out.old ++ operations_words }
    ensures room { length out.new ≤ 190 }
{
    push_kinds(out);
    out.push(b"client N, script or end, in small letters; no key or text has a space");
}

/// Adds how the lines of operations read.
fn push_kinds(out: &mut Line)
    requires { length out.old ≤ 10 }
    ensures bytes { out.new ≡ out.old ++ kinds_words OP_KINDS }
    ensures room { length out.new ≤ 121 }
{
    for kind in &OP_KINDS {
        out.push(kind.name());
        out.push(behind_name(kind.shape()));
    }
}

/// What stands behind the name of an operation.
fn behind_name(shape: OpShape) -> &'static [u8]
    ensures words { result.now ≡ shape_words shape }
    ensures short { length result.now ≤ 14 }
{
    match shape {
        OpShape::Nothing => b" KEY, ",
        OpShape::Text => b" KEY TEXT, ",
        OpShape::Texts => b" KEY OLD NEW, ",
    }
}

/// Adds a line of the script.
fn push_script(out: &mut Line, replicas: Option<u32>)
    requires { length out.old ≤ 10 }
    ensures bytes { out.new ≡ out.old ++ script_words replicas }
    ensures room { length out.new ≤ 190 }
{
    out.push(
        b"stop R K, once per R; pause R K M, with K above that of R's last pause; or end. R is ",
    );
    push_below(out, replicas);
    out.push(b", K at most 131071, M from 1 to 10000");
}

/// Adds what a replica is below: at most 28 bytes.
fn push_below(out: &mut Line, replicas: Option<u32>)
    requires { length out.old ≤ 130 }
    ensures bytes { out.new ≡ out.old ++ below_words replicas }
    ensures room { length out.new ≤ length out.old + 28 }
{
    match replicas {
        None => out.push(b"below the number of replicas"),
        Some(replicas) => {
            out.push(b"below ");
            out.push_number(u64::from(replicas));
        }
    }
}

/// Adds an event: its replica is judged first, and then the name of its verb.
fn push_event(out: &mut Line, replicas: Option<u32>, words: &[&[u8]])
    requires { length out.old ≤ 10 }
    ensures bytes { out.new
        ≡ out.old ++ event_words replicas (map (λ word. word.now) words.now) }
    ensures room { length out.new ≤ 190 }
{
    match words {
        [by, name, ..] if is_replica(replicas, number(by)) => push_row(out, row_named(name)),
        _ => push_replica(out, replicas),
    }
}

/// Whether there is a number, and it is below that of the replicas.
fn is_replica(replicas: Option<u32>, by: Option<u32>) -> bool
    ensures { result ≡ is_replica replicas by }
{
    match (replicas, by) {
        (Some(replicas), Some(by)) => by < replicas,
        _ => false,
    }
}

/// Adds an event whose replica is wrong.
fn push_replica(out: &mut Line, replicas: Option<u32>)
    requires { length out.old ≤ 10 }
    ensures bytes { out.new ≡ out.old ++ replica_words replicas }
    ensures room { length out.new ≤ 190 }
{
    out.push(b"BY VERB = ANSWER, with BY ");
    push_below(out, replicas);
    out.push(b", or end");
}

/// Adds an event of the verb with this row, if there is one.
fn push_row(out: &mut Line, row: Option<VerbRow>)
    requires room { length out.old ≤ 10 }
    requires short { IfSome row (λ row. IsShort (passed row)) }
    ensures bytes { out.new ≡ out.old ++ row_words (option_map passed row.entry) }
    ensures room { length out.new ≤ 190 }
{
    match row {
        None => push_verbs(out),
        Some((_, name, _, behind)) => push_line_of(out, name, behind),
    }
}

/// Adds the names of all verbs.
fn push_verbs(out: &mut Line)
    requires { length out.old ≤ 10 }
    ensures bytes { out.new ≡ out.old ++ verb_words }
    ensures room { length out.new ≤ 190 }
{
    out.push(b"BY VERB in small letters");
    push_names(out, &VERBS);
}

/// Adds the names of the verbs of these rows, with a comma before each but the first.
fn push_names(out: &mut Line, rows: &[VerbRow])
    requires { length out.old + length (names_words (codes ": ") (map passed rows.now)) ≤ 190 }
    ensures bytes { out.new ≡ out.old ++ names_words (codes ": ") (map passed rows.now) }
{
    let mut before = b": ";
    for row in rows {
        out.push(before);
        out.push(row.1);
        before = b", ";
    }
}

/// Adds how the line of a verb's event reads, whose name and words behind it these are.
fn push_line_of(out: &mut Line, name: &[u8], behind: &[u8])
    requires room { length out.old ≤ 10 }
    requires short { length name.now + length behind.now ≤ 110 }
    ensures bytes { out.new ≡ out.old ++ codes "BY " ++ name.now ++ behind.now
        ++ codes "; numbers have no leading zero" }
    ensures room { length out.new ≤ 190 }
{
    out.push(b"BY ");
    out.push(name);
    out.push(behind);
    out.push(b"; numbers have no leading zero");
}
