//! The commands of a job: the lines between the settings and the script or the end.
ghost use Rattle.std.specs.Prelude.{◌≡◌, ◌+◌, ◌<◌, ◌≤◌, ◌^◌, ◌==◌, if◌then◌else◌, length, map, IfOk};
ghost use Rattle.kv_store.specs.Sessions.{IsInSession};
ghost use Rattle.mu_input.specs.Bodies.{body_at, body_line, client_line, operation_line, HasRoom};
ghost use Rattle.mu_text.specs.Lines.{words};
ghost use Rattle.mu_text.specs.Numbers.{is_numbered, number_of};
ghost use Rattle.mu_input.specs.Operations.{operation_of};
ghost use Rattle.mu_input.specs.Readings.{ReadsFront, Tells, Wrong};

use crate::cause::{CLIENT, NO_END, OPERATION, TOO_MANY};
use crate::job::{Commands, InputEnd};
use crate::operations::{names_operation, operation};
use crate::{MOST_CLIENTS, MOST_COMMANDS};
use kv_store::{Command, Op};
use mu_model::Sequence;
use mu_text::{LineReader, Words, is_alone, is_first, number};
use std::alloc::Global;

/// More lines than all clients, all commands and the line behind them.
pub const BODY_LINES: u32 = 1_600;

/// What a line of this part says.
#[derive(Clone, Copy)]
pub enum BodyLine {
    /// The next client begins.
    Client,
    /// The last client asks for this.
    Operation(Op),
    /// A script follows.
    Script,
    /// The job ends.
    End,
}

/// The commands of a job.
#[derive(Drop)]
pub struct Body {
    /// The commands, in the order of the file.
    pub commands: Commands,
    /// Whether a script follows.
    pub has_script: bool,
}

impl Body {
    fn of(commands: Vec<Command>, has_script: bool) -> Body
        ensures commands { result.commands ≡ commands.items }
        ensures script { result.has_script ≡ has_script }
    {
        Body {
            commands: Sequence::from_vec(commands),
            has_script,
        }
    }
}

/// The commands, taken from the front of the lines with the `script` or `end` behind them. Takes
/// memory only for the commands.
///
/// # Errors
///
/// `Refused` with the first line that leaves this part, a missing line included, and the cause: 5 a
/// client that isn't the next, or a command before any, 6 no command, 7 the key, 8 a text, 9 one
/// client or command too many, 11 if the lines end. `NoMemory` for want of memory.
pub fn read_body(alloc: Global, lines: &mut LineReader<'_>) -> Result<Body, InputEnd>
    requires { lines.old.number + BODY_LINES < 2 ^ 32 }
    ensures reading { ReadsFront result (body_at lines.old) lines.new }
    ensures few { IfOk result (λ _. lines.new.number ≤ lines.old.number + BODY_LINES) }
    ensures session { IfOk result (λ body. IsInSession body.commands) }
    ensures count { IfOk result (λ body. length body.commands ≤ MOST_COMMANDS) }
{
    let mut commands = Vec::new(alloc);
    let mut clients: u8 = 0;
    // How many commands the last client has.
    let mut count: u16 = 0;
    loop {
        let number = lines.number();
        let Some(line) = lines.next() else {
            return Err(InputEnd::at(number, NO_END));
        };
        match body_line(clients, commands.len(), line) {
            Ok(BodyLine::Client) => {
                clients += 1;
                count = 0;
            }
            Ok(BodyLine::Operation(op)) => {
                count += 1;
                commands.push(Command {
                    client: clients - 1,
                    number: count,
                    op,
                })?;
            }
            Ok(BodyLine::Script) => return Ok(Body::of(commands, true)),
            Ok(BodyLine::End) => return Ok(Body::of(commands, false)),
            Err(cause) => return Err(InputEnd::at(number, cause)),
        }
    }
}

/// What a line says after this many clients and commands, or the cause why it says nothing.
pub fn body_line(clients: u8, commands: usize, line: &[u8]) -> Result<BodyLine, u8>
    ensures reading { Tells result (body_line clients commands (words line.now)) }
    ensures room { IfOk result (HasRoom clients commands) }
{
    line_of(clients, commands, Words::of(line).as_slice())
}

fn line_of(clients: u8, commands: usize, words: &[&[u8]]) -> Result<BodyLine, u8>
    ensures reading { Tells result
        (body_line clients commands (map (λ word. word.now) words.now)) }
    ensures room { IfOk result (HasRoom clients commands) }
{
    if is_first(words, b"client") {
        client_line(clients, words)
    } else if names_operation(words) {
        operation_line(clients, commands, words)
    } else if is_alone(words, b"script") {
        Ok(BodyLine::Script)
    } else if is_alone(words, b"end") {
        Ok(BodyLine::End)
    } else {
        Err(OPERATION)
    }
}

/// A line of the next client.
fn client_line(clients: u8, words: &[&[u8]]) -> Result<BodyLine, u8>
    ensures reading { Tells result (client_line clients (map (λ word. word.now) words.now)) }
    ensures room { IfOk result (λ line. (line ≡ BodyLine.Client) × (clients < MOST_CLIENTS)) }
{
    match words {
        [_, word] if is_numbered(word, u32::from(clients)) => {
            if clients < MOST_CLIENTS {
                Ok(BodyLine::Client)
            } else {
                Err(TOO_MANY)
            }
        }
        _ => Err(CLIENT),
    }
}

fn is_numbered(word: &[u8], wanted: u32) -> bool
    ensures { result ≡ is_numbered wanted (number_of word.now) }
{
    number(word) == Some(wanted)
}

/// A line of an operation, which the last client asks for.
fn operation_line(clients: u8, commands: usize, words: &[&[u8]]) -> Result<BodyLine, u8>
    ensures reading { Tells result (if clients == 0 then Wrong CLIENT
        else operation_line commands (operation_of (map (λ word. word.now) words.now))) }
    ensures room { IfOk result (HasRoom clients commands) }
{
    if clients == 0 {
        return Err(CLIENT);
    }
    let op = operation(words)?;
    if commands < MOST_COMMANDS {
        Ok(BodyLine::Operation(op))
    } else {
        Err(TOO_MANY)
    }
}
