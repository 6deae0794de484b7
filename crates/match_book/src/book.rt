//! The book of resting orders, and the trades that it brought about.
ghost use Rattle.std.specs.Prelude.{◌≡◌, ◌+◌, ◌<◌, ◌≤◌, ◌++◌, List, [], ◌∷◌, length, IfOk};
ghost use Rattle.kv_store.specs.Commands.{Request};
ghost use Rattle.match_book.specs.Ledgers.{HaveDifferentIds};
ghost use Rattle.match_book.specs.Stands.{StandsFor};

use crate::instruction::{Instruction, read};
use crate::matching::{cancel, take_order};
use crate::order::{Id, Resting, Trade};
use kv_store::{Command, Op};
use std::alloc::Global;
use std::marker::Model;

/// There was no memory.
pub use std::alloc::AllocError as NoMemory;

/// A limit order book. Contracts see what is `Held`.
#[derive(Drop)]
pub struct Book {
    resting: Vec<Resting>,
    trades: Vec<Trade>,
    applied: u16,
    room: u16,
}

impl Model for Book {
    ghost use Rattle.std.specs.Prelude.{◌+◌, ◌<◌, ◌≡◌, ◌≤◌, ◌^◌, vec_capacity, vec_len};
    ghost use Rattle.match_book.specs.Stands.{Held};

    ghost Value = { Held };

    ghost view = { λ b. record {
      resting = b.resting.items;
      trades = b.trades.items;
      applied = b.applied;
      room = b.room;
    } };

    ghost invariant = { λ b. (b.applied + b.room < 2 ^ 16)
        × (vec_len b.trades + vec_len b.resting ≤ b.applied)
        × (vec_capacity b.resting ≡ b.applied + b.room)
        × (vec_capacity b.trades ≡ b.applied + b.room) };
}

impl Book {
    /// The empty book, with room for this many commands: each adds at most one to the orders that
    /// rest and the trades together. An `Err` comes only for want of memory.
    pub fn with_room(alloc: Global, commands: usize) -> Result<Book, NoMemory>
        requires { commands ≤ 65535 }
        ensures empty { IfOk result (λ book. StandsFor [] book) }
        ensures room { IfOk result (λ book. book.room ≡ commands) }
    {
        Ok(Book {
            resting: Vec::with_capacity(alloc, commands)?,
            trades: Vec::with_capacity(alloc, commands)?,
            applied: 0,
            room: commands as u16,
        })
    }

    /// Applies a command. It takes no memory, and uses up the room for one command.
    pub fn apply(&mut self, command: &Command)
        requires { 0 < self.old.room }
        ensures stands { (commands : List Request) → HaveDifferentIds (commands ++ command.now ∷ [])
            → StandsFor commands self.old → StandsFor (commands ++ command.now ∷ []) self.new }
        ensures room { self.new.room + 1 ≡ self.old.room }
    {
        if let Op::Put(symbol, text) = command.op {
            let (client, number) = (command.client, command.number);
            match read(text.as_bytes()) {
                Some(Instruction::Order(side, price, left)) => {
                    let id = Id { client, number };
                    let order = Resting {
                        id,
                        symbol,
                        side,
                        price,
                        left,
                    };
                    take_order(&mut self.resting, &mut self.trades, self.applied, order);
                }
                Some(Instruction::Cancel(number)) => {
                    cancel(&mut self.resting, Id { client, number }, &symbol);
                }
                None => {}
            }
        }
        self.applied += 1;
        self.room -= 1;
    }

    /// Applies commands in order. It takes no memory, and uses up the room for each.
    pub fn apply_all(&mut self, commands: &[Command])
        requires { length commands.now ≤ self.old.room }
        ensures stands { (before : List Request) → HaveDifferentIds (before ++ commands.now)
            → StandsFor before self.old → StandsFor (before ++ commands.now) self.new }
        ensures room { self.new.room + length commands.now ≡ self.old.room }
    {
        for command in commands {
            self.apply(command);
        }
    }

    /// All trades, in order: no more than the commands that were applied.
    pub fn trades(&self) -> &[Trade]
        ensures trades { result.now ≡ self.now.trades }
        ensures few { length result.now ≤ 65535 }
    {
        self.trades.as_slice()
    }

    /// The resting orders: by the bytes of the symbol, buys before sells, the better price first,
    /// and at equal prices the one that arrived earlier first. They are no more than the commands
    /// that were applied.
    pub fn resting(&self) -> &[Resting]
        ensures resting { result.now ≡ self.now.resting }
        ensures few { length result.now ≤ 65535 }
    {
        self.resting.as_slice()
    }
}
