//! How the commands of a job are cut into batches, and their rows.
ghost use Rattle.std.specs.Prelude.{◌≡◌, ◌<◌, ◌≤◌, [], ◌∷◌, IfOk, MatchOption, length, vec_capacity};
ghost use Rattle.kv_store.specs.Sessions.{IsInSession};
ghost use Rattle.mu_model.specs.Contents.{IsConfig};
ghost use Rattle.mu_rows.specs.Rows.{spelled};
ghost use Rattle.mu_input.specs.Batches.{followers, rows_of};
ghost use Rattle.mu_input.specs.Grammar.{job_of, with_commands};
ghost use Rattle.mu_input.specs.Heads.{HasHead, HaveHeads};
ghost use Rattle.mu_input.specs.Settings.{HasLimits};

use crate::heading::Settings;
use crate::job::{Commands, Job};
use crate::{MOST_COMMANDS, MOST_WIDTH};
use kv_store::Command;
use mu_model::{Config, Row, Rows, Script};
use mu_rows::encode;
use std::alloc::{AllocError, Global};

/// The job of these settings, commands and script. Takes memory only for the rows, and linear time.
///
/// # Errors
///
/// `AllocError` for want of memory.
pub fn job_of(
    alloc: Global,
    settings: Settings,
    commands: Commands,
    script: Script,
) -> Result<Job, AllocError>
    requires limits { HasLimits settings }
    requires session { IsInSession commands }
    requires few { length commands ≤ MOST_COMMANDS }
    ensures job { IfOk result (λ job. job ≡ job_of settings commands script) }
    ensures config { IfOk result (λ job. IsConfig job.config) }
    ensures heads { IfOk result (λ job. HaveHeads job.config.width job.commands job.config.rows) }
{
    let rows = rows_of(alloc, commands.as_slice(), settings.width)?;
    let config = Config {
        version: settings.version,
        width: settings.width,
        replicas: settings.replicas,
        ring: settings.ring,
        budget: settings.budget,
        rows,
    };
    Ok(Job {
        config,
        commands,
        script,
    })
}

/// The job with these commands in place of its own, and with their rows, made in `room`. Takes
/// memory only for the block by which rows are shared, and linear time.
///
/// # Errors
///
/// `AllocError` for want of memory.
pub fn with_commands(job: Job, commands: Commands, room: Vec<Row>) -> Result<Job, AllocError>
    requires config { IsConfig job.config }
    requires session { IsInSession commands }
    requires few { length commands ≤ MOST_COMMANDS }
    requires empty { room.items ≡ [] }
    requires room { length commands ≤ vec_capacity room }
    ensures job { IfOk result (λ made. made ≡ with_commands commands job) }
    ensures config { IfOk result (λ made. IsConfig made.config) }
{
    let Job {
        config,
        commands: _,
        script,
    } = job;
    let rows = rows_in(room, commands.as_slice(), config.width)?;
    Ok(Job {
        config: Config { rows, ..config },
        commands,
        script,
    })
}

/// The rows of commands, in batches of at most `width`: 1 to 4. Takes linear time, since the next
/// three commands show how many follow one in its batch.
///
/// # Errors
///
/// `AllocError` for want of memory.
pub fn rows_of(alloc: Global, commands: &[Command], width: u8) -> Result<Rows, AllocError>
    requires least { 1 ≤ width }
    requires most { width ≤ MOST_WIDTH }
    requires session { IsInSession commands.now }
    ensures rows { IfOk result (λ rows. rows ≡ rows_of width commands.now) }
    ensures heads { IfOk result (λ rows. HaveHeads width commands.now rows) }
{
    let room = Vec::with_capacity(alloc, commands.len())?;
    rows_in(room, commands, width)
}

/// The same in a list that has room for them.
fn rows_in(room: Vec<Row>, commands: &[Command], width: u8) -> Result<Rows, AllocError>
    requires least { 1 ≤ width }
    requires most { width ≤ MOST_WIDTH }
    requires session { IsInSession commands.now }
    requires empty { room.items ≡ [] }
    requires room { length commands.now ≤ vec_capacity room }
    ensures rows { IfOk result (λ rows. rows ≡ rows_of width commands.now) }
    ensures heads { IfOk result (λ rows. HaveHeads width commands.now rows) }
{
    let mut rows = room;
    let mut left = commands;
    while let Some((command, after)) = split_first(left) {
        rows.push_reserved(row_of(command, after, width));
        left = after;
    }
    Rows::from_vec(rows)
}

/// The first command, and the ones after it.
fn split_first(commands: &[Command]) -> Option<(&Command, &[Command])>
    ensures { MatchOption result (commands.now ≡ []) (λ r. commands.now ≡ r.0.now ∷ r.1.now) }
{
    match commands {
        [command, after @ ..] => Some((command, after)),
        [] => None,
    }
}

/// The row of a command, before these.
fn row_of(command: &Command, after: &[Command], width: u8) -> Row
    requires least { 1 ≤ width }
    requires most { width ≤ MOST_WIDTH }
    requires below { followers width command.now after.now < width }
    ensures words { result.words ≡ spelled command.now (followers width command.now after.now) }
    ensures head { HasHead result command.now (followers width command.now after.now) }
{
    encode(command, followers(width, command, after))
}

/// How many of the commands after one follow it in its batch.
fn followers(width: u8, command: &Command, after: &[Command]) -> u8
    requires least { 1 ≤ width }
    requires below { followers width command.now after.now < width }
    ensures { result ≡ followers width command.now after.now }
{
    let mut last = command;
    let mut count = 0;
    for next in after {
        if last.number % u16::from(width) == 0 || next.client != last.client {
            return count;
        }
        last = next;
        count += 1;
    }
    count
}
