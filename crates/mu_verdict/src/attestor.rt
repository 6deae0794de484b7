//! What the items so far have led to: an attested list is judged item by item.
ghost use Rattle.std.specs.Prelude.{List, [], ◌<◌, ◌≡◌, ◌↔◌, IfOk, IsTrue, length};
ghost use Rattle.mu_verdict.specs.Attestors.{FlawOfReply, StandsForAttestor, StaysOrTakes};
ghost use Rattle.mu_clients.specs.Items.{IsWithin};
ghost use Rattle.mu_clients.specs.declared.items.Item.TheVariants as item;
ghost use Rattle.mu_clients.specs.declared.items.Item.{Item as SomeItem};
ghost use Rattle.mu_input.specs.declared.job.Job.{Job as SomeJob};
ghost use Rattle.mu_model.specs.Contents.{IsConfig};

use crate::replying::reply_over;
use crate::rows::{has_row, push_put};
use kv_store::Reply;
use mu_clients::{Flaw, Item};
use mu_course::Walk;
use mu_input::Job;
use mu_model::{Event, NoMemory};
use std::alloc::Global;

/// The states after an attested list of items.
#[derive(Drop)]
pub(crate) struct Attestor {
    /// Of the regions and the replicas: by these events are judged, and replies.
    walk: Walk,
    /// The rows whose commands were got.
    got: Vec<u16>,
    /// The rows of all entries that were put.
    put: Vec<u16>,
    /// How many events came.
    events: u32,
}

impl Attestor {
    /// The states before any item.
    ///
    /// # Errors
    ///
    /// Only for want of memory.
    pub(crate) fn new(alloc: Global, job: &Job) -> Result<Attestor, NoMemory>
        requires { IsConfig job.now.config }
        ensures { IfOk result (StandsForAttestor job.now []) }
    {
        Ok(Attestor {
            walk: Walk::new(alloc, &job.config)?,
            got: Vec::new(alloc),
            put: Vec::new(alloc),
            events: 0,
        })
    }

    /// How many events came.
    pub(crate) fn events(&self) -> u32
        ensures { result ≡ self.now.events }
    {
        self.events
    }

    /// How many commands were got.
    pub(crate) fn gots(&self) -> usize
        ensures { result ≡ length self.now.got.items }
    {
        self.got.len()
    }

    /// Takes one more item if it may come; else this is what is wrong with it, and nothing is said
    /// of what comes.
    ///
    /// # Errors
    ///
    /// Only for want of memory.
    pub(crate) fn take(
        &mut self,
        alloc: Global,
        job: &Job,
        item: &Item,
    ) -> Result<Option<Flaw>, NoMemory>
        requires config { IsConfig job.now.config }
        requires within { IsWithin job.now.config.replicas item.now }
        ensures { (past : List SomeItem) → StandsForAttestor job.now past self.old
            → IfOk result (StaysOrTakes job.now past item.now self.new) }
    {
        match item {
            Item::Event(event) => self.take_event(job, event),
            Item::Got(row) => self.take_got(*row),
            Item::Told { by, row, reply } => self.take_told(alloc, job, *by, *row, reply),
        }
    }

    /// Takes an event.
    fn take_event(&mut self, job: &Job, event: &Event) -> Result<Option<Flaw>, NoMemory>
        requires config { IsConfig job.now.config }
        ensures { (past : List SomeItem) → StandsForAttestor job.now past self.old
            → IfOk result (StaysOrTakes job.now past (item.Event event.now) self.new) }
    {
        if let Some(fault) = self.walk.fault(&job.config, event) {
            return Ok(Some(Flaw::Fault(fault)));
        }
        let _ = self.walk.take(&job.config, event);
        push_put(&mut self.put, &job.config, &event.verb)?;
        self.events = self.events.saturating_add(1);
        Ok(None)
    }

    /// Takes a command that was got.
    fn take_got(&mut self, row: u16) -> Result<Option<Flaw>, NoMemory>
        ensures { (job : SomeJob) → (past : List SomeItem) → StandsForAttestor job past self.old
            → IfOk result (StaysOrTakes job past (item.Got row) self.new) }
    {
        if has_row(self.got.as_slice(), row) {
            return Ok(Some(Flaw::GotBefore));
        }
        if has_row(self.put.as_slice(), row) {
            return Ok(Some(Flaw::PutBefore));
        }
        self.got.push(row)?;
        Ok(None)
    }

    /// Takes a reply that was told.
    fn take_told(
        &self,
        alloc: Global,
        job: &Job,
        by: u8,
        row: u16,
        reply: &Reply,
    ) -> Result<Option<Flaw>, NoMemory>
        requires within { by < job.now.config.replicas }
        ensures { (past : List SomeItem) → StandsForAttestor job.now past self.now
            → IfOk result (StaysOrTakes job.now past (item.Told by row reply.now) self.now) }
    {
        let right = reply_over(alloc, job, self.walk.applied_values(by), row)?;
        let is_got = has_row(self.got.as_slice(), row);
        Ok(flaw_of_reply(right, reply, is_got))
    }
}

/// Whether the replies are the same.
fn is_same(right: &Reply, reply: &Reply) -> bool
    ensures { IsTrue result ↔ (right.now ≡ reply.now) }
{
    *right == *reply
}

/// What is wrong with a reply, if this is the right one, and if its command was got.
fn flaw_of_reply(right: Option<Reply>, reply: &Reply, is_got: bool) -> Option<Flaw>
    ensures { FlawOfReply right reply.now is_got result }
{
    match right {
        None => Some(Flaw::NotApplied),
        Some(right) => {
            if !is_same(&right, reply) {
                Some(Flaw::OtherReply(right))
            } else if is_got {
                None
            } else {
                Some(Flaw::NeverGot)
            }
        }
    }
}
