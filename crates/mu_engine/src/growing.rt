//! The configuration with one row more, and room for it in all replicas.
ghost use Rattle.std.specs.Prelude.{IfOk, [], length, map, vec_capacity, ◌+◌, ◌∷◌, ◌≡◌, ◌≤◌};
ghost use Rattle.mu_model.specs.Contents.{IsConfig, row_count};
ghost use Rattle.mu_model.specs.Growing.{with_more};
ghost use Rattle.mu_model.specs.Legal.{IsLegal};
ghost use Rattle.mu_engine.specs.Growing.{AreCopies, ArePairs, HaveRoom};
ghost use Rattle.mu_engine.specs.Seats.{AreSeated, hold_of};

use crate::seat::Seat;
use mu_model::{Config, NoMemory, Row, Rows};
use std::alloc::Global;
use word_fabric::GrowingPort;

/// The configuration with one row more, for all that keep a copy of it.
#[derive(Drop)]
pub(crate) struct Copies {
    /// That of the engine.
    pub(crate) own: Config,
    /// That of the memory.
    pub(crate) memory: Config,
    /// Two for each node.
    pub(crate) nodes: Vec<(Config, Config)>,
}

/// Room for one row more than there are, and for no others.
fn row_room(alloc: Global, config: &Config) -> Result<Vec<Row>, NoMemory>
    requires { row_count config.now ≤ 1500 }
    ensures none { IfOk result (λ rows. rows.items ≡ []) }
    ensures exact { IfOk result (λ rows. vec_capacity rows ≡ row_count config.now + 1) }
{
    Ok(Vec::with_capacity(alloc, config.rows.len() + 1)?)
}

/// The same configuration with one row more at the end, in memory of its own.
fn grown(alloc: Global, config: &Config, row: Row) -> Result<Config, NoMemory>
    requires { row_count config.now ≤ 1500 }
    ensures { IfOk result (λ c. c ≡ with_more config.now (row ∷ [])) }
{
    let mut rows = row_room(alloc, config)?;
    rows.extend_from_slice(config.rows.as_slice())?;
    rows.push(row)?;
    Ok(Config {
        version: config.version,
        width: config.width,
        replicas: config.replicas,
        ring: config.ring,
        budget: config.budget,
        rows: Rows::from_vec(rows)?,
    })
}

/// It twice for each node.
fn pairs(alloc: Global, config: &Config, nodes: usize) -> Result<Vec<(Config, Config)>, NoMemory>
    ensures count { IfOk result (λ pairs. length pairs.items ≡ nodes) }
    ensures pairs { IfOk result (λ pairs. ArePairs config.now pairs.items) }
{
    let mut pairs = Vec::with_capacity(alloc, nodes)?;
    for _ in 0..nodes {
        let first = config.try_clone()?;
        let second = config.try_clone()?;
        pairs.push_reserved((first, second));
    }
    Ok(pairs)
}

impl Copies {
    /// All copies of it.
    pub(crate) fn new(
        alloc: Global,
        config: &Config,
        row: Row,
        nodes: usize,
    ) -> Result<Copies, NoMemory>
        requires { row_count config.now ≤ 1500 }
        ensures { IfOk result (λ copies. AreCopies (with_more config.now (row ∷ [])) nodes copies) }
    {
        let own = grown(alloc, config, row)?;
        let memory = own.try_clone()?;
        let nodes = pairs(alloc, &own, nodes)?;
        Ok(Copies { own, memory, nodes })
    }
}

/// Makes room for one row more in each replica. Takes memory; without it all stands as it did.
pub(crate) fn make_room(seats: &mut [Seat], _port: &GrowingPort) -> Result<(), NoMemory>
    requires config { IsConfig _port.now.config }
    requires seated { AreSeated _port.now.config _port.now.events seats.old }
    ensures seated { AreSeated _port.now.config _port.now.events seats.new }
    ensures room { IfOk result (λ done. HaveRoom _port.now.config seats.new) }
    ensures holds { map hold_of seats.new ≡ map hold_of seats.old }
{
    for k in 0..seats.len() {
        seats[k].node.make_room()?;
    }
    Ok(())
}

/// Goes over to the configuration with one row more in each replica, before the memory does. Takes
/// no memory.
pub(crate) fn grow(
    seats: &mut [Seat],
    port: &GrowingPort,
    row: &Row,
    mut copies: Vec<(Config, Config)>,
)
    requires config { IsConfig port.now.config }
    requires legal { IsLegal port.now.config port.now.events }
    requires grown { IsConfig (with_more port.now.config (row.now ∷ [])) }
    requires seated { AreSeated port.now.config port.now.events seats.old }
    requires room { HaveRoom port.now.config seats.old }
    requires count { length copies.items ≡ length seats.old }
    requires copies { ArePairs (with_more port.now.config (row.now ∷ [])) copies.items }
    ensures seated { AreSeated (with_more port.now.config (row.now ∷ [])) port.now.events
        seats.new }
    ensures holds { map hold_of seats.new ≡ map hold_of seats.old }
{
    for k in 0..seats.len() {
        let (config, copy) = match copies.pop() {
            Some(pair) => pair,
            None => unreachable!(),
        };
        seats[k].grow(port, row, config, copy);
    }
}
