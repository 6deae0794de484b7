//! A large job, stated by its number of commands.
ghost use Rattle.std.specs.Prelude.{◌≡◌, ◌<◌, ◌≤◌, ◌%◌, IfOk, length};
ghost use Rattle.kv_store.specs.Commands.{HasShortTexts};
ghost use Rattle.kv_store.specs.Sessions.{IsInSession};
ghost use Rattle.mu_model.specs.Contents.{IsConfig};
ghost use Rattle.mu_input.specs.Heads.{HaveHeads};
ghost use Rattle.mu_input.specs.Bulk.{bulk_key, bulk_text, bulk_old_text, bulk_op, bulk_command, bulk_commands, bulk_job};

use crate::batches::job_of;
use crate::heading::Settings;
use crate::job::Job;
use crate::{MOST_COMMANDS, MOST_STEPS};
use kv_store::{Command, Key, Op, Text};
use mu_model::{NoMemory, Script, Sequence};
use std::alloc::{AllocError, Global};

/// The job of `count` commands, 0 to 1,500, for which four clients ask in turn. Takes memory for
/// the commands and the rows, and linear time.
///
/// # Errors
///
/// `NoMemory` for want of memory.
pub fn bulk(alloc: Global, count: u16) -> Result<Job, NoMemory>
    requires { count ≤ MOST_COMMANDS }
    ensures job { IfOk result (λ job. job ≡ bulk_job count) }
    ensures config { IfOk result (λ job. IsConfig job.config) }
    ensures session { IfOk result (λ job. IsInSession job.commands) }
    ensures heads { IfOk result (λ job. HaveHeads job.config.width job.commands job.config.rows) }
{
    let settings = Settings {
        version: 1,
        width: 1,
        replicas: 3,
        ring: 64,
        budget: MOST_STEPS,
    };
    let script = Script {
        stops: Sequence::from_vec(Vec::new(alloc)),
        pauses: Sequence::from_vec(Vec::new(alloc)),
    };
    let commands = bulk_commands(alloc, count)?;
    job_of(alloc, settings, Sequence::from_vec(commands), script)
}

/// The first commands.
fn bulk_commands(alloc: Global, count: u16) -> Result<Vec<Command>, AllocError>
    requires { count ≤ MOST_COMMANDS }
    ensures { IfOk result (λ commands. commands.items ≡ bulk_commands count) }
{
    let mut commands = Vec::with_capacity(alloc, usize::from(count))?;
    for index in 0..count {
        commands.push(bulk_command(alloc, index)?)?;
    }
    Ok(commands)
}

/// The command at an index.
fn bulk_command(alloc: Global, index: u16) -> Result<Command, AllocError>
    requires { index < MOST_COMMANDS }
    ensures { IfOk result (λ command. command ≡ bulk_command index) }
{
    let op = bulk_op(alloc, index)?;
    Ok(Command {
        client: (index % 4) as u8,
        number: index / 4 + 1,
        op,
    })
}

/// What the command at an index asks for.
fn bulk_op(alloc: Global, index: u16) -> Result<Op, AllocError>
    requires { index < MOST_COMMANDS }
    ensures op { IfOk result (λ op. op ≡ bulk_op index) }
    ensures short { IfOk result HasShortTexts }
{
    let key = bulk_key(alloc, index)?;
    Ok(match index % 5 {
        0 => Op::Put(key, bulk_text(alloc, index)?),
        1 => Op::Get(key),
        2 => Op::Swap(key, bulk_text(alloc, index)?),
        3 => Op::Cas(key, bulk_old_text(alloc, index)?, bulk_text(alloc, index)?),
        _ => Op::Del(key),
    })
}

/// One of three keys.
fn bulk_key(alloc: Global, index: u16) -> Result<Key, AllocError>
    ensures { IfOk result (λ key. key ≡ bulk_key index) }
{
    let name = format!(in alloc; "k{}", index % 3)?;
    let Some(key) = Key::new(name.as_bytes()) else {
        unreachable!()
    };
    Ok(key)
}

/// The text of the command at an index.
fn bulk_text(alloc: Global, index: u16) -> Result<Text, AllocError>
    requires { index < MOST_COMMANDS }
    ensures text { IfOk result (λ text. text ≡ bulk_text index) }
    ensures short { IfOk result (λ text. length text ≤ 32) }
{
    let held = format!(in alloc; "v{index}")?;
    let Some(text) = Text::new(held.as_bytes()) else {
        unreachable!()
    };
    Ok(text)
}

/// The text that a cas looks for.
fn bulk_old_text(alloc: Global, index: u16) -> Result<Text, AllocError>
    requires below { index < MOST_COMMANDS }
    requires third { index % 5 ≡ 3 }
    ensures text { IfOk result (λ text. text ≡ bulk_old_text index) }
    ensures short { IfOk result (λ text. length text ≤ 32) }
{
    if index % 2 == 1 {
        return bulk_text(alloc, index - 3);
    }
    let Some(text) = Text::new(b"x") else {
        unreachable!()
    };
    Ok(text)
}
