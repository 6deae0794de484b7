//! From the bytes of a trace with lines of what clients see to whether each is right.
ghost use Rattle.std.specs.Prelude.{ℕ, List, ◌≡◌, ◌≤◌, length, IfErr, IfOk};
ghost use Rattle.mu_verdict.specs.Attestors.{CountsItems, StandsForAttestor};
ghost use Rattle.mu_verdict.specs.Attests.{GivesMore, IsEndOfItems, IsFound};
ghost use Rattle.mu_verdict.specs.Traces.{HasFew, OpensItems};
ghost use Rattle.mu_model.specs.Contents.{IsConfig};
ghost use Rattle.mu_clients.specs.declared.items.Item.{Item as SomeItem};
ghost use Rattle.mu_input.specs.declared.TheConstants.{TRACE_LIMIT};
ghost use Rattle.mu_input.specs.declared.job.Job.{Job as SomeJob};

use crate::attestor::Attestor;
use crate::reading::{job_bytes, next_item};
use mu_clients::{Attested, Flawed};
use mu_input::{InputEnd, Job, read};
use mu_model::count_of_rows;
use mu_text::LineReader;
use std::alloc::Global;

/// What an attested trace comes to.
#[derive(Clone, Copy)]
pub enum Found {
    /// All its items are right.
    Right(Attested),
    /// This is the first that isn't.
    Wrong(Flawed),
}

/// What the trace that the bytes spell comes to: `Right` exactly if each item is right, else `Wrong`
/// with the first that isn't. Takes the memory of the job, of the states that its events lead to, of
/// the rows that are put, and at each reply of a store.
///
/// # Errors
///
/// `Refused` exactly if the bytes leave the grammar of attested traces, with the first line that
/// leaves it and the cause; `NoMemory` for want of memory.
pub fn finding_of(alloc: Global, bytes: &[u8]) -> Result<Found, InputEnd>
    requires { length bytes.now ≤ TRACE_LIMIT }
    ensures found { IfOk result (IsFound bytes.now) }
    ensures end { IfErr result (IsEndOfItems bytes.now) }
{
    let mut lines = LineReader::new(bytes);
    let text = job_bytes(alloc, &mut lines)?;
    let job = read(alloc, text.as_slice())?;
    attested_items(alloc, &job, &mut lines)
}

/// What the items of a job come to.
///
/// # Errors
///
/// Those of [`finding_of`].
fn attested_items(alloc: Global, job: &Job, lines: &mut LineReader<'_>) -> Result<Found, InputEnd>
    requires config { IsConfig job.now.config }
    requires few { HasFew lines.old }
    ensures found { (bytes : List ℕ) → OpensItems bytes job.now lines.old
        → IfOk result (IsFound bytes) }
    ensures end { (bytes : List ℕ) → OpensItems bytes job.now lines.old
        → IfErr result (IsEndOfItems bytes) }
{
    let rows = count_of_rows(&job.config) as u16;
    let replicas = job.config.replicas;
    let first = lines.number();
    let mut line = first;
    let mut attestor = Attestor::new(alloc, job)?;
    while let Some(item) = next_item(replicas, rows, lines)? {
        let events = attestor.events();
        if let Some(flaw) = attestor.take(alloc, job, &item)? {
            let flawed = Flawed {
                index: line - first,
                events,
                line,
                item,
                flaw,
            };
            return wrong_with(flawed, replicas, rows, lines);
        }
        line = lines.number();
    }
    Ok(Found::Right(counts_of(&attestor, line - first)))
}

/// The item that is wrong, once all items that are left were taken.
///
/// # Errors
///
/// Those of [`finding_of`].
fn wrong_with(
    flawed: Flawed,
    replicas: u8,
    rows: u16,
    lines: &mut LineReader<'_>,
) -> Result<Found, InputEnd>
    requires few { HasFew lines.old }
    ensures { (items : List SomeItem)
        → GivesMore replicas rows items lines.old flawed result }
{
    while let Some(_) = next_item(replicas, rows, lines)? {}
    Ok(Found::Wrong(flawed))
}

/// How many of this many items there are of each kind.
fn counts_of(attestor: &Attestor, items: u32) -> Attested
    ensures { (job : SomeJob) → (past : List SomeItem) → StandsForAttestor job past attestor.now
        → items ≡ length past → CountsItems past result }
{
    let events = attestor.events();
    let gots = attestor.gots().min(items as usize) as u32;
    Attested {
        events,
        gots,
        tolds: items.saturating_sub(events).saturating_sub(gots),
    }
}
