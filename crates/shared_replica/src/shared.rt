//! One replica, the list that its commands come by, and what it has found.
ghost use Rattle.std.specs.Prelude.{Err, IfErr, IfOk, None, Some, is_some, true, ◌+◌, ◌<◌, ◌↔◌, ◌≡◌, ◌≤◌};
ghost use Rattle.kv_store.specs.Commands.{HasShortTexts};
ghost use Rattle.lone_replica.specs.Appending.{row_of};
ghost use Rattle.mu_inbox.specs.declared.inbox.Refusal.{Refusal as SomeRefusal};
ghost use Rattle.mu_inbox.specs.Standing.{closing, is_over, offering};
ghost use Rattle.mu_model.specs.Contents.{IsConfig, row_count};
ghost use Rattle.shared_replica.specs.Standing.{Moment, StandsFor, asked, at_first};

use kv_store::{Command, Op};
use lone_replica::Replica;
use mu_inbox::{Inbox, Refusal};
use mu_input::Job;
use mu_model::{NoMemory, Row};
use mu_node::Zeal;
use mu_rows::encode;
use std::alloc::Global;

/// The number of a command in the list. It says nothing there: each replica counts the commands of
/// a client as they stand in the list.
const UNCOUNTED: u16 = 1;

/// The word that the newest access of the replica found.
#[derive(Clone, Copy)]
pub(crate) enum Found {
    /// The replica has taken it.
    Nothing,
    /// It waits until the list is read to its end.
    Unread(u64),
    /// The list was read to its end since: the replica takes it next.
    Read(u64),
}

/// One replica and what it keeps of the list. It touches no memory but its own value.
#[derive(Drop)]
pub struct SharedReplica {
    /// The replica's number, which is its client's and its writer's too.
    pub(crate) id: u8,
    /// The replica.
    pub(crate) replica: Replica,
    /// What it keeps of the list.
    pub(crate) list: Inbox,
    /// What it has found.
    pub(crate) found: Found,
}

impl SharedReplica {
    /// The replica `id` of a job before any event, with room for `room` rows that come by the list.
    /// The job has at most 16 replicas.
    ///
    /// # Errors
    ///
    /// Only for want of memory.
    pub fn new(
        alloc: Global,
        job: &Job,
        id: u8,
        zeal: Zeal,
        room: u16,
    ) -> Result<SharedReplica, NoMemory>
        requires config { IsConfig job.now.config }
        requires inside { id < job.now.config.replicas }
        requires client { job.now.config.replicas ≤ 16 }
        requires room { row_count job.now.config + room ≤ 1500 }
        ensures stands { IfOk result (λ it. StandsFor (at_first job.now.config) it) }
        ensures id { IfOk result (λ it. it.id ≡ id) }
        ensures rows { IfOk result (λ it.
            it.replica.accesses.shape.rows ≡ row_count job.now.config + room) }
        ensures writers { IfOk result (λ it. it.list.shape.writers ≡ job.now.config.replicas) }
        ensures room { IfOk result (λ it. it.list.shape.room ≡ room) }
    {
        let rows = job.config.rows.len() as u16 + room;
        let shape = mu_inbox::Shape {
            writers: job.config.replicas,
            room,
        };
        Ok(SharedReplica {
            id,
            list: Inbox::new(id, shape),
            replica: Replica::new(alloc, job, id, zeal, rows)?,
            found: Found::Nothing,
        })
    }

    /// The replica, for what it tells of itself.
    pub fn replica(&self) -> &Replica
        ensures { result.now ≡ self.now.replica }
    {
        &self.replica
    }

    /// What it keeps of the list.
    pub fn list(&self) -> &Inbox
        ensures { result.now ≡ self.now.list }
    {
        &self.list
    }

    /// Offers a command of its own client: its row will be put at the first place of the list that is
    /// free, and comes back as a row like those of the others.
    ///
    /// # Errors
    ///
    /// `Waiting` exactly if the command before it has no place yet; else `Full` exactly if no more
    /// rows come, or as many of its own have come as there are places. Then nothing has changed.
    pub fn submit(&mut self, op: Op) -> Result<(), Refusal>
        ghost at: { Moment }
        requires texts { HasShortTexts op }
        requires stands { StandsFor at self.old }
        ensures stands { StandsFor at self.new }
        ensures offered { IfOk result
            (λ done. self.new.list ≡ offering (row_of (asked self.old.id op)) self.old.list) }
        ensures kept { IfErr result (λ why. self.new.list ≡ self.old.list) }
        ensures waiting { (result ≡ Err SomeRefusal.Waiting)
            ↔ (is_some self.old.list.offer ≡ true) }
        ensures full { (result ≡ Err SomeRefusal.Full)
            ↔ ((self.old.list.offer ≡ None) × (is_over self.old.list ≡ true)) }
        ensures replica { self.new.replica ≡ self.old.replica }
        ensures found { self.new.found ≡ self.old.found }
        ensures id { self.new.id ≡ self.old.id }
    {
        let row = self.row_asking(op);
        self.list.offer(row)
    }

    /// The row of a command of its client.
    fn row_asking(&self, op: Op) -> Row
        requires texts { HasShortTexts op }
        requires client { self.now.id ≤ 15 }
        ensures { result ≡ row_of (asked self.now.id op) }
    {
        match Command::new(self.id, UNCOUNTED, op) {
            Some(command) => encode(&command, 0),
            None => unreachable!(),
        }
    }

    /// From now on it closes the list once no command of its own waits. No row comes after.
    pub fn close(&mut self)
        ghost at: { Moment }
        requires { StandsFor at self.old }
        ensures stands { StandsFor at self.new }
        ensures closes { self.new.list ≡ closing self.old.list }
        ensures replica { self.new.replica ≡ self.old.replica }
        ensures found { self.new.found ≡ self.old.found }
        ensures id { self.new.id ≡ self.old.id }
    {
        self.list.close();
    }
}
