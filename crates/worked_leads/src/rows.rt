//! How a row is gone through: the leader steps through each memory as the row has it.
ghost use Rattle.std.specs.Prelude.{IfOk, [], ◌<◌, ◌≡◌};
ghost use Rattle.mu_model.specs.Contents.{IsConfig};
ghost use Rattle.mu_model.specs.Histories.{history};
ghost use Rattle.worked_leads.specs.Driven.{Drives};

use crate::driven::{Driven, Led};
use crate::steps::Step;
use list_fabric::ListFabric;
use mu_input::read;
use mu_lead::Note;
use mu_model::{Config, NoMemory};
use mu_port::Memory;
use std::alloc::{AllocError, Global};
use std::test::Fail;
use word_fabric::WordFabric;

/// The configuration, if it has three replicas.
fn of_three(config: Config) -> Result<Config, Fail>
    requires { IsConfig config }
    ensures { IfOk result (λ c. IsConfig c × (c.replicas ≡ 3)) }
{
    if config.replicas == 3 {
        Ok(config)
    } else {
        Err(Fail::from("not three"))
    }
}

/// The configuration of a job of three replicas.
fn config(alloc: Global, job: &str) -> Result<Config, Fail>
    ensures { IfOk result (λ c. IsConfig c × (c.replicas ≡ 3)) }
{
    match read(alloc, job.as_bytes()) {
        Ok(job) => of_three(job.config),
        Err(_) => Err(Fail::from("no job")),
    }
}

/// Whether the step comes as the row has it.
fn is_as_told<M: Memory>(driven: &mut Driven, memory: &mut M, step: &Step) -> bool
    requires config { M.config memory.old ≡ driven.old.lead.config }
    requires drives { Drives (history (M.events memory.old)) driven.old }
    ensures config { M.config memory.new ≡ driven.new.lead.config }
    ensures drives { Drives (history (M.events memory.new)) driven.new }
{
    match *step {
        Step::Due(verb, answer, note) => {
            driven.turn(memory) == (Note::Working, Some(Led { verb, answer, note }))
        }
        Step::Rest(note) => driven.turn(memory) == (note, None),
        Step::Again(note) => driven.leave(memory) == note,
        Step::Aside(by, verb, answer) => driven.aside(memory, by, verb) == Some(answer),
    }
}

/// The first step that isn't the one of the row.
fn first_wrong<M: Memory>(driven: &mut Driven, memory: &mut M, row: &[Step]) -> Option<usize>
    requires config { M.config memory.old ≡ driven.old.lead.config }
    requires drives { Drives (history (M.events memory.old)) driven.old }
{
    for index in 0..row.len() {
        if !is_as_told(driven, memory, &row[index]) {
            return Some(index);
        }
    }
    None
}

/// The same of a memory before any event.
fn first_wrong_in<M: Memory>(
    alloc: Global,
    config: &Config,
    memory: &mut M,
    id: u8,
    row: &[Step],
) -> Result<Option<usize>, NoMemory>
    requires config { IsConfig config.now }
    requires three { config.now.replicas ≡ 3 }
    requires same { M.config memory.old ≡ config.now }
    requires empty { M.events memory.old ≡ [] }
    requires inside { id < 3 }
{
    let mut driven = Driven::new(alloc, config, id)?;
    Ok(first_wrong(&mut driven, memory, row))
}

/// The same of plain lists.
fn first_wrong_in_lists(
    alloc: Global,
    config: &Config,
    id: u8,
    row: &[Step],
) -> Result<Option<usize>, NoMemory>
    requires config { IsConfig config.now }
    requires three { config.now.replicas ≡ 3 }
    requires inside { id < 3 }
{
    let mut memory = ListFabric::start(alloc, config)?;
    first_wrong_in(alloc, config, &mut memory, id, row)
}

/// The same of packed words.
fn first_wrong_in_words(
    alloc: Global,
    config: &Config,
    id: u8,
    row: &[Step],
) -> Result<Option<usize>, NoMemory>
    requires config { IsConfig config.now }
    requires three { config.now.replicas ≡ 3 }
    requires inside { id < 3 }
{
    let mut memory = WordFabric::start(alloc, config)?;
    first_wrong_in(alloc, config, &mut memory, id, row)
}

/// The steps of pieces, one after the other.
fn joined_up(alloc: Global, pieces: &[&[Step]]) -> Result<Vec<Step>, AllocError> {
    let mut row = Vec::new(alloc);
    for piece in pieces {
        row.extend_from_slice(piece)?;
    }
    Ok(row)
}

/// The first step of the row of a job that comes otherwise with the leader `id`, in the lists and
/// in the words.
pub(crate) fn first_wrongs(
    alloc: Global,
    job: &str,
    id: u8,
    pieces: &[&[Step]],
) -> Result<[Option<usize>; 2], Fail>
    requires { id < 3 }
{
    let config = config(alloc, job)?;
    let row = joined_up(alloc, pieces)?;
    let lists = first_wrong_in_lists(alloc, &config, id, row.as_slice())?;
    let words = first_wrong_in_words(alloc, &config, id, row.as_slice())?;
    Ok([lists, words])
}
