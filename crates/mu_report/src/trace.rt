//! A trace: a job, and its events in their order.
ghost use Rattle.std.specs.Prelude.{◌≡◌, ◌*◌, ◌+◌, ◌<◌, ◌≤◌, ◌^◌, length, map, take, IfErr, IfOk, OnErr, OnOk};
ghost use Rattle.std.specs.Io.KnownBytes.{Appends};
ghost use Rattle.mu_io.specs.Faults.{Rose};
ghost use Rattle.mu_outcome.specs.AllEvents.{HasEvents};
ghost use Rattle.mu_report.specs.Printing.{ended};
ghost use Rattle.mu_report.specs.declared.line.TheConstants.{LINE_BYTES};
ghost use Rattle.mu_report.specs.Trace.{event_line as event_line_of, batch_lines, setting_lines, client_count, command_lines, commands_lines, client_lines, stop_line, pause_line, has_lines as has_lines_of, script_lines, events_of, job_lines, lines_of_parts, trace_lines};

use crate::line::{HasLine, Line, print_each, print_numbered, print_words};
use crate::printer::{Printer, SinkPrinter};
use kv_store::Command;
use mu_events::push_event;
use mu_input::op_line;
use mu_io::{Sink, WriteFault};
use mu_model::{Config, Journal, Pause, Script, Stop};
use mu_outcome::{AllEvents, Outcome};

/// Prints the trace of a run. Takes no memory.
pub fn print_trace<P: Printer>(out: &mut P, outcome: &Outcome)
    requires { HasEvents outcome.now }
    ensures { P.Prints out.old (trace_lines outcome.now) out.new }
{
    let job = &outcome.job;
    print_job(out, &job.config, job.commands.as_slice(), &job.script);
    print_all_events(out, outcome);
    print_words(out, b"end");
}

/// Writes the trace of a job, given by its parts, and of its events, in pieces as
/// [`crate::print`] does, and answers how many bytes it has. Takes no memory.
///
/// # Errors
///
/// `WriteFault` if the sink counted a fault, with the number of bytes of the trace that it had
/// taken.
pub fn write_trace<K: Sink>(
    sink: &mut K,
    config: &Config,
    commands: &[Command],
    script: &Script,
    journal: &Journal,
) -> Result<usize, WriteFault>
    requires { LINE_BYTES * length
        (lines_of_parts config.now commands.now script.now journal.now.events) < 2 ^ 64 }
    ensures whole { OnOk result (Appends (K.written sink.old) (K.written sink.new)
        (ended (lines_of_parts config.now commands.now script.now journal.now.events))) }
    ensures count { IfOk result (λ count. count ≡ length
        (ended (lines_of_parts config.now commands.now script.now journal.now.events))) }
    ensures same_faults { OnOk result (K.faults sink.new ≡ K.faults sink.old) }
    ensures part { IfErr result (λ fault. Appends (K.written sink.old) (K.written sink.new)
        (take fault.taken
        (ended (lines_of_parts config.now commands.now script.now journal.now.events)))) }
    ensures short { IfErr result (λ fault. fault.taken < length
        (ended (lines_of_parts config.now commands.now script.now journal.now.events))) }
    ensures fault { OnErr result (Rose (K.faults sink.old) (K.faults sink.new)) }
    ensures never_falls { K.faults sink.old ≤ K.faults sink.new }
{
    let mut printer = SinkPrinter::new(sink);
    print_parts(&mut printer, config, commands, script, journal);
    printer.finish()
}

/// Prints the trace of a job, given by its parts, and of its events.
fn print_parts<P: Printer>(
    out: &mut P,
    config: &Config,
    commands: &[Command],
    script: &Script,
    journal: &Journal,
)
    ensures { P.Prints out.old
        (lines_of_parts config.now commands.now script.now journal.now.events) out.new }
{
    print_job(out, config, commands, script);
    print_events(out, journal);
    print_words(out, b"end");
}

/// Prints the lines of a job, given by its parts.
fn print_job<P: Printer>(out: &mut P, config: &Config, commands: &[Command], script: &Script)
    ensures { P.Prints out.old (job_lines config.now commands.now script.now) out.new }
{
    let count = count_of_clients(commands);
    print_settings(out, config);
    print_clients(out, commands, count);
    print_script(out, script);
    print_words(out, b"end");
}

/// Prints the events in their order, and none if only the parts of threads are given.
fn print_all_events<P: Printer>(out: &mut P, outcome: &Outcome)
    requires { HasEvents outcome.now }
    ensures { P.Prints out.old (map event_line_of (events_of outcome.now.order)) out.new }
{
    match outcome.events() {
        AllEvents::InOrder(journal) => print_events(out, journal),
        AllEvents::InParts(_) => {}
    }
}

/// Prints events, a line each: it is the same one, since most of a trace are events.
fn print_events<P: Printer>(out: &mut P, journal: &Journal)
    ensures { P.Prints out.old (map event_line_of journal.now.events) out.new }
{
    let mut line = Line::new();
    for k in 0..journal.len() {
        line.clear();
        push_event(&mut line, &journal.at(k));
        out.print_bytes(line.as_slice());
    }
}

/// Prints the first lines of a job.
fn print_settings<P: Printer>(out: &mut P, config: &Config)
    ensures { P.Prints out.old (setting_lines config.now) out.new }
{
    print_numbered(out, b"mu ", u64::from(config.version));
    print_numbered(out, b"replicas ", u64::from(config.replicas));
    print_numbered(out, b"ring ", u64::from(config.ring));
    print_numbered(out, b"budget ", u64::from(config.budget));
    print_batch(out, config);
}

/// Prints the most commands of a batch, only in version 2.
fn print_batch<P: Printer>(out: &mut P, config: &Config)
    ensures { P.Prints out.old (batch_lines config.now) out.new }
{
    if config.version == 2 {
        print_numbered(out, b"batch ", u64::from(config.width));
    }
}

/// One more than the greatest client of these commands, and 0 if there is none.
fn count_of_clients(commands: &[Command]) -> u16
    ensures { result ≡ client_count 0 commands.now }
{
    let mut count: u16 = 0;
    for command in commands {
        let client = u16::from(command.client);
        if count <= client {
            count = client + 1;
        }
    }
    count
}

/// Prints the first `count` clients in order, each with its commands.
fn print_clients<P: Printer>(out: &mut P, commands: &[Command], count: u16)
    ensures { P.Prints out.old (client_lines commands.now 0 count) out.new }
{
    for client in 0..count {
        print_numbered(out, b"client ", u64::from(client));
        print_commands_of(out, client, commands);
    }
}

/// Prints the commands of a client.
fn print_commands_of<P: Printer>(out: &mut P, client: u16, commands: &[Command])
    ensures { P.Prints out.old (commands_lines client commands.now) out.new }
{
    for command in commands {
        print_command(out, client, command);
    }
}

/// Prints a command, if it is one of this client.
fn print_command<P: Printer>(out: &mut P, client: u16, command: &Command)
    ensures { P.Prints out.old (command_lines client command.now) out.new }
{
    if u16::from(command.client) == client {
        out.print_line(op_line(&command.op));
    }
}

/// Prints the script, if it has a line.
fn print_script<P: Printer>(out: &mut P, script: &Script)
    ensures { P.Prints out.old (script_lines script.now) out.new }
{
    if has_lines(script) {
        print_words(out, b"script");
        print_each(out, script.stops.as_slice());
        print_each(out, script.pauses.as_slice());
    }
}

/// Whether the script has a line.
fn has_lines(script: &Script) -> bool
    ensures { result ≡ has_lines_of script.now }
{
    script.stops.as_slice().len() > 0 || script.pauses.as_slice().len() > 0
}

impl HasLine for Stop {
    ghost words = { stop_line };

    fn line(&self) -> Line {
        let mut line = Line::new();
        line.push(b"stop ");
        line.push_number(u64::from(self.replica));
        line.push(b" ");
        line.push_number(u64::from(self.steps));
        line
    }
}

impl HasLine for Pause {
    ghost words = { pause_line };

    fn line(&self) -> Line {
        let mut line = Line::new();
        line.push(b"pause ");
        line.push_number(u64::from(self.replica));
        line.push(b" ");
        line.push_number(u64::from(self.steps));
        line.push(b" ");
        line.push_number(u64::from(self.rounds));
        line
    }
}
