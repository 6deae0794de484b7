//! Whole jobs over plain lists: the same is said as over packed words.
ghost use Rattle.std.specs.Prelude.{[], ◌≡◌};
ghost use Rattle.mu_input.specs.Batches.{rows_of};
ghost use Rattle.mu_input.specs.Heads.{HaveHeads};
ghost use Rattle.mu_model.specs.Contents.{IsConfig};
ghost use Rattle.mu_report.specs.Said.{IsShort};

use crate::printing::prints;
use crate::replays::{SAID, read_job};
use list_fabric::ListFabric;
use mu_cluster::{replay_over, rows_spell_commands};
use mu_input::{InputEnd, Job};
use mu_report::Said;
use std::alloc::{AllocError, Global};
use std::test::Fail;

/// What is said of a job over these lists, before any event.
fn said_over(alloc: Global, job: Job, memory: ListFabric) -> Said
    requires job { IsConfig job.config × HaveHeads job.config.width job.commands job.config.rows
        × (job.config.rows ≡ rows_of job.config.width job.commands) }
    requires config { memory.config ≡ job.config }
    requires empty { memory.events ≡ [] }
    ensures { IsShort result }
{
    rows_spell_commands(&job);
    match replay_over(alloc, job, memory) {
        Ok(outcome) => Said::Ran(outcome),
        Err(_) => Said::NoMemory,
    }
}

/// What is said of a job over plain lists.
fn said_over_lists(alloc: Global, job: Job) -> Said
    requires { IsConfig job.config × HaveHeads job.config.width job.commands job.config.rows
        × (job.config.rows ≡ rows_of job.config.width job.commands) }
    ensures { IsShort result }
{
    match ListFabric::start(alloc, &job.config) {
        Ok(memory) => said_over(alloc, job, memory),
        Err(_) => Said::NoMemory,
    }
}

/// What is said of the job of a text over plain lists.
fn said_of(alloc: Global, text: &str) -> Said
    ensures { IsShort result }
{
    match read_job(alloc, text) {
        Ok(job) => said_over_lists(alloc, job),
        Err(InputEnd::Refused { line, cause }) => Said::Refused { line, cause },
        Err(InputEnd::NoMemory) => Said::NoMemory,
    }
}

/// Whether this is said of the job of a text over plain lists.
fn is_said(alloc: Global, input: &str, text: &str) -> Result<bool, AllocError> {
    let said = said_of(alloc, input);
    prints(alloc, &said, text)
}

#[test]
fn says_the_same_over_lists(rt: HostRuntime) -> Result<(), Fail> {
    for (name, input, text) in SAID {
        assert!(rt; is_said(rt.alloc(), input, text)?, "{name}");
    }
    Ok(())
}
