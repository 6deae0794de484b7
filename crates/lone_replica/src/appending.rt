//! Commands that come while a replica runs.
ghost use Rattle.std.specs.Prelude.{Err, IfErr, IfOk, [], ◌+◌, ◌<◌, ◌∷◌, ◌↔◌, ◌≡◌, ◌≤◌};
ghost use Rattle.kv_store.specs.Commands.{HasShortTexts};
ghost use Rattle.mu_model.specs.declared.config.Config.{Config as SomeConfig};
ghost use Rattle.mu_model.specs.Contents.{IsConfig, row_count, rows_before};
ghost use Rattle.mu_model.specs.Growing.{with_more};
ghost use Rattle.mu_model.specs.Parts.{IsPossible};
ghost use Rattle.mu_node.specs.declared.deciding.Decision.{Decision};
ghost use Rattle.mu_node.specs.Deciding.{HasDecided};
ghost use Rattle.mu_node.specs.Growing.{Growth, HasRoomForRow, StandsInTurn};
ghost use Rattle.mu_node.specs.Node.{StandsForNode};
ghost use Rattle.lone_words.specs.Memory.{Own};
ghost use Rattle.lone_replica.specs.declared.appending.Refusal.{Refusal as SomeRefusal};
ghost use Rattle.lone_replica.specs.declared.appending.Refusal.TheVariants.{NoMemory};
ghost use Rattle.lone_replica.specs.Appending.{next_request, with_next};
ghost use Rattle.lone_replica.specs.Standing.{StandsForReplica};

use crate::replica::Replica;
use kv_store::{Command, Op};
use mu_model::{Config, NoMemory, Row, Rows, row_client};
use mu_rows::{encode, is_command};
use std::alloc::{AllocError, Global};

/// Why a command isn't appended.
#[derive(Clone, Copy, Debug, PartialEq, Eq)]
pub enum Refusal {
    /// There is no room for its row in the words.
    Full,
    /// There was no memory for one more.
    NoMemory,
}

impl From<AllocError> for Refusal {
    ghost from_gives = { λ _ refusal. refusal ≡ NoMemory };

    fn from(_failed: AllocError) -> Refusal {
        Refusal::NoMemory
    }
}

/// The number of the next command of a client.
fn next_number(config: &Config, client: u8) -> u16
    requires { row_count config.now ≤ 1500 }
    ensures { result ≡ rows_before config.now client (row_count config.now) + 1 }
{
    let mut number: u16 = 1;
    for j in 0..config.rows.len() as u16 {
        if row_client(config, j) == client {
            number += 1;
        }
    }
    number
}

/// The next command of a client.
fn next_command(config: &Config, client: u8, op: Op) -> Command
    requires rows { row_count config.now < 1500 }
    requires client { client ≤ 15 }
    requires texts { HasShortTexts op }
    ensures { result ≡ next_request config.now client op }
{
    match Command::new(client, next_number(config, client), op) {
        Some(command) => command,
        None => unreachable!(),
    }
}

/// The same configuration with one row more at the end, in memory of its own.
fn grown(alloc: Global, config: &Config, row: Row) -> Result<Config, NoMemory>
    requires { row_count config.now ≤ 1500 }
    ensures { IfOk result (λ c. c ≡ with_more config.now (row ∷ [])) }
{
    let mut rows = Vec::with_capacity(alloc, config.rows.len() + 1)?;
    rows.extend_from_slice(config.rows.as_slice())?;
    rows.push(row)?;
    Ok(Config {
        version: config.version,
        width: config.width,
        replicas: config.replicas,
        ring: config.ring,
        budget: config.budget,
        rows: Rows::from_vec(rows)?,
    })
}

/// A configuration with one row more, for all that keep a copy of it.
#[derive(Drop)]
struct Copies {
    /// That of the replica.
    own: Config,
    /// That of its leader.
    lead: Config,
    /// That of its replayer.
    follow: Config,
}

impl Copies {
    /// All copies of it.
    fn new(alloc: Global, config: &Config, row: Row) -> Result<Copies, NoMemory>
        requires { row_count config.now ≤ 1500 }
        ensures own { IfOk result (λ copies. copies.own ≡ with_more config.now (row ∷ [])) }
        ensures lead { IfOk result (λ copies. copies.lead ≡ copies.own) }
        ensures follow { IfOk result (λ copies. copies.follow ≡ copies.own) }
    {
        let own = grown(alloc, config, row)?;
        let lead = own.try_clone()?;
        let follow = own.try_clone()?;
        Ok(Copies { own, lead, follow })
    }
}

impl Replica {
    /// Takes the next command of a client, a number from 0 to 15, and tells its row. An access that
    /// is under way stays so. Takes memory.
    ///
    /// # Errors
    ///
    /// `Full` exactly if the words have no room for its row; `NoMemory` for want of memory. Then the
    /// replica stands for what it did.
    pub fn append(&mut self, client: u8, op: Op) -> Result<u16, Refusal>
        ghost at: { SomeConfig × Own }
        requires client { client ≤ 15 }
        requires texts { HasShortTexts op }
        requires stands { StandsForReplica at.0 self.old.id at.1 self.old }
        ensures row { IfOk result (λ row. row ≡ row_count at.0) }
        ensures appended { IfOk result
            (λ row. StandsForReplica (with_next at.0 client op) self.old.id at.1 self.new) }
        ensures kept { IfErr result
            (λ refusal. StandsForReplica at.0 self.old.id at.1 self.new) }
        ensures due { self.new.due ≡ self.old.due }
        ensures full { (result ≡ Err SomeRefusal.Full)
            ↔ (self.old.accesses.shape.rows ≤ row_count at.0) }
        ensures id { self.new.id ≡ self.old.id }
        ensures stops { self.new.node.stops ≡ self.old.node.stops }
        ensures shape { self.new.accesses.shape ≡ self.old.accesses.shape }
    {
        if self.config.rows.len() >= usize::from(self.shape().rows) {
            return Err(Refusal::Full);
        }
        let command = next_command(&self.config, client, op);
        is_command(&command);
        let row = encode(&command, 0);
        let copies = Copies::new(self.alloc, &self.config, row)?;
        self.make_room()?;
        // From here on nothing wants memory.
        let number = self.config.rows.len() as u16;
        self.grow(&row, copies);
        Ok(number)
    }

    /// Makes room for one row more. Takes memory; without it the replica stands as it did.
    fn make_room(&mut self) -> Result<(), NoMemory>
        ghost at: { SomeConfig × Own }
        requires { StandsForReplica at.0 self.old.id at.1 self.old }
        ensures stands { StandsForReplica at.0 self.old.id at.1 self.new }
        ensures room { IfOk result (λ done. HasRoomForRow at.0 self.new.node) }
        ensures due { self.new.due ≡ self.old.due }
        ensures id { self.new.id ≡ self.old.id }
        ensures stops { self.new.node.stops ≡ self.old.node.stops }
        ensures accesses { self.new.accesses ≡ self.old.accesses }
        ensures config { self.new.config ≡ self.old.config }
    {
        self.node.make_room()?;
        Ok(())
    }

    /// Goes over to a configuration with one row more. Takes no memory. The row is only for the
    /// clauses.
    fn grow(&mut self, _row: &Row, copies: Copies)
        ghost growth: { Growth }
        requires row { growth.row ≡ _row.now }
        requires was { IsConfig growth.config }
        requires own { copies.own ≡ with_more growth.config (growth.row ∷ []) }
        requires lead { copies.lead ≡ copies.own }
        requires follow { copies.follow ≡ copies.own }
        requires config { IsConfig copies.own }
        requires possible { IsPossible growth.config growth.replica growth.mine }
        requires stands { StandsInTurn growth.config growth.replica growth.mine self.old.node }
        requires room { HasRoomForRow growth.config self.old.node }
        ensures lives { StandsForNode growth.config growth.replica growth.mine self.old.node
            → StandsForNode copies.own growth.replica growth.mine self.new.node }
        ensures decided { (decision : Decision)
            → HasDecided growth.mine self.old.node decision
            → HasDecided growth.mine self.new.node decision }
        ensures follow { self.new.node.follow.config ≡ copies.own }
        ensures node { self.new.node.id ≡ self.old.node.id }
        ensures config { self.new.config ≡ copies.own }
        ensures due { self.new.due ≡ self.old.due }
        ensures id { self.new.id ≡ self.old.id }
        ensures last { self.new.last ≡ self.old.last }
        ensures stops { self.new.node.stops ≡ self.old.node.stops }
        ensures accesses { self.new.accesses ≡ self.old.accesses }
    {
        let Copies { own, lead, follow } = copies;
        self.node.add_last(lead, follow);
        self.config = own;
    }
}
