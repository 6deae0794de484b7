//! Submitting commands.
ghost use Rattle.std.specs.Prelude.{Err, IfErr, IfOk, ◌+◌, ◌<◌, ◌↔◌, ◌≡◌, ◌≤◌};
ghost use Rattle.kv_store.specs.Commands.{HasShortTexts};
ghost use Rattle.mu_model.specs.Contents.{row_count, rows_before};
ghost use Rattle.mu_engine.specs.declared.refusal.Refusal.{Refusal as SomeRefusal};
ghost use Rattle.mu_engine.specs.Live.{submitted};
ghost use Rattle.mu_engine.specs.Moments.{GoesOn};

use crate::engine::Engine;
use crate::growing::{Copies, grow, make_room};
use crate::refusal::Refusal;
use kv_store::{Command, Op};
use mu_model::{Config, row_client};
use mu_rows::{encode, is_command};

/// The number of the next command of a client.
fn next_number(config: &Config, client: u8) -> u16
    requires { row_count config.now ≤ 1500 }
    ensures { result ≡ rows_before config.now client (row_count config.now) + 1 }
{
    let mut number: u16 = 1;
    for j in 0..config.rows.len() as u16 {
        if row_client(config, j) == client {
            number += 1;
        }
    }
    number
}

/// The next command of a client.
fn next_command(config: &Config, client: u8, op: Op) -> Command
    requires rows { row_count config.now < 1500 }
    requires client { client ≤ 15 }
    requires texts { HasShortTexts op }
    ensures { result ≡ record {
      client = client;
      number = rows_before config.now client (row_count config.now) + 1;
      op = op;
    } }
{
    match Command::new(client, next_number(config, client), op) {
        Some(command) => command,
        None => unreachable!(),
    }
}

impl Engine {
    /// Takes the next command of a client, a number from 0 to 15, and tells its row. Takes memory.
    ///
    /// # Errors
    ///
    /// `Full` exactly if as many commands were submitted as may be; `NoMemory` for want of memory.
    /// Then nothing has changed.
    pub fn submit(&mut self, client: u8, op: Op) -> Result<u16, Refusal>
        requires client { client ≤ 15 }
        requires texts { HasShortTexts op }
        ensures row { IfOk result (λ row. row ≡ row_count self.old.job.config) }
        ensures taken { IfOk result (λ row. self.new ≡ submitted self.old client op) }
        ensures refused { IfErr result (λ refusal. self.new ≡ self.old) }
        ensures full { (result ≡ Err SomeRefusal.Full) ↔ (self.old.room ≡ 0) }
        ensures goes { GoesOn self.old.job self.old.events self.new.job self.new.events }
    {
        if self.room == 0 {
            return Err(Refusal::Full);
        }
        let command = next_command(&self.config, client, op);
        is_command(&command);
        let row = encode(&command, 0);
        let copies = Copies::new(self.alloc, &self.config, row, self.seats.len())?;
        make_room(self.seats.as_mut_slice(), &self.port)?;
        // From here on nothing wants memory.
        let number = self.commands.len() as u16;
        let Copies { own, memory, nodes } = copies;
        grow(self.seats.as_mut_slice(), &self.port, &row, nodes);
        self.port.add_last(memory);
        self.config = own;
        self.commands.push_reserved(command);
        self.room -= 1;
        Ok(number)
    }
}
