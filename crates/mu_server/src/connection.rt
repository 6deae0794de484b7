//! A connection: what came and isn't read, what waits for a reply, and what is to be sent.
ghost use Rattle.std.specs.Prelude.{◌≡◌, ◌++◌, ◌∷◌, ◌<◌, ◌≤◌, ◌||◌, [], drop, length, take, true, false, OnErr, OnOk, IfOk, MatchOption};
ghost use Rattle.std.specs.VecDeque.{deque_capacity, deque_len};

use crate::{MOST_INPUT, MOST_WAITING, MUCH_OUTPUT};
use mu_bytes::Pipe;
use mu_redis::Wording;
use std::alloc::{AllocError, Global};
use std::collections::VecDeque;

/// What is to be done for a connection.
#[derive(Clone, Copy, Debug)]
pub struct State {
    /// Whether it takes bytes.
    pub takes: bool,
    /// Whether it has bytes to send.
    pub gives: bool,
    /// Whether it is to be closed once all is sent.
    pub ends: bool,
    /// Whether all that it asked for is answered and sent.
    pub rests: bool,
}

/// A command that was submitted, and whose reply wasn't told.
#[derive(Clone, Copy)]
pub struct Waiting {
    /// Its row.
    pub row: u64,
    /// How its reply is told.
    pub wording: Wording,
    /// Since which round it waits.
    pub since: u64,
}

/// A connection.
#[derive(Drop)]
pub struct Connection {
    /// Whether a client has it.
    pub(crate) is_open: bool,
    /// Whether nothing more is read of it.
    pub(crate) is_ending: bool,
    /// Whether what came and isn't read begins with no whole request.
    pub(crate) is_read: bool,
    /// The commands whose replies weren't told, in the order of the requests.
    pub(crate) waiting: VecDeque<Waiting>,
    /// What came and isn't read.
    pub(crate) input: Pipe,
    /// What is to be sent.
    pub(crate) output: Pipe,
}

impl Connection {
    /// A connection of which nothing came.
    pub(crate) fn new(alloc: Global) -> Connection
        ensures open { result.is_open ≡ true }
        ensures ending { result.is_ending ≡ false }
        ensures read { result.is_read ≡ true }
        ensures waiting { result.waiting.items ≡ [] }
        ensures input { result.input ≡ [] }
        ensures output { result.output ≡ [] }
    {
        Connection {
            is_open: true,
            is_ending: false,
            is_read: true,
            waiting: VecDeque::new(alloc),
            input: Pipe::new(alloc),
            output: Pipe::new(alloc),
        }
    }

    /// Opens one that is free again.
    pub(crate) fn reopen(&mut self)
        requires { self.old.waiting.items ≡ [] }
        ensures open { self.new.is_open ≡ true }
        ensures ending { self.new.is_ending ≡ false }
        ensures read { self.new.is_read ≡ true }
        ensures waiting { self.new.waiting.items ≡ [] }
        ensures input { self.new.input ≡ [] }
        ensures output { self.new.output ≡ [] }
    {
        self.is_open = true;
        self.is_ending = false;
        self.is_read = true;
        self.input.clear();
        self.output.clear();
    }

    /// Whether it is free: no client has it, and nothing waits.
    pub(crate) fn is_free(&self) -> bool
        ensures { result ≡ true → self.now.waiting.items ≡ [] }
    {
        !self.is_open && self.waiting.is_empty()
    }

    /// Whether a command of it waits for its reply.
    pub(crate) fn is_waiting(&self) -> bool
        ensures { result ≡ false → self.now.waiting.items ≡ [] }
    {
        !self.waiting.is_empty()
    }

    /// The command that waits in front.
    pub(crate) fn first_waiting(&self) -> Option<Waiting>
        ensures { MatchOption result (self.now.waiting.items ≡ [])
            (λ first. self.now.waiting.items ≡ first ∷ drop 1 self.now.waiting.items) }
    {
        match self.waiting.front() {
            Some(first) => Some(*first),
            None => None,
        }
    }

    /// Whether its next request may be read.
    pub(crate) fn may_ask(&self) -> bool
        ensures { result ≡ true → self.now.is_ending ≡ false }
    {
        self.is_open
            && !self.is_ending
            && self.waiting.len() < MOST_WAITING
            && self.output.len() < MUCH_OUTPUT
    }

    /// Takes as many bytes as there is room for, and answers how many. An `Err` comes only for want
    /// of memory, and none is taken.
    pub(crate) fn take(&mut self, bytes: &[u8]) -> Result<usize, AllocError>
        ensures same { OnErr result (self.new ≡ self.old) }
        ensures came { IfOk result (λ count. self.new ≡ record self.old {
          input = self.old.input ++ take count bytes.now;
          is_read = false;
        }) }
    {
        let room = MOST_INPUT.saturating_sub(self.input.len());
        let count = if bytes.len() < room {
            bytes.len()
        } else {
            room
        };
        self.input.put(&bytes[..count])?;
        self.is_read = false;
        Ok(count)
    }

    /// Gives as many bytes to be sent as there is room for, and answers how many.
    pub(crate) fn give(&mut self, out: &mut [u8]) -> usize
        ensures given { self.old.output ≡ take result out.new ++ self.new.output }
        ensures input { self.new.input ≡ self.old.input }
        ensures waiting { self.new.waiting.items ≡ self.old.waiting.items }
        ensures ending { self.new.is_ending ≡ self.old.is_ending }
        ensures read { self.new.is_read ≡ self.old.is_read }
    {
        self.output.give(out)
    }

    /// Answers the first request, which has so many bytes. An `Err` comes only for want of memory,
    /// and nothing is answered.
    pub(crate) fn answer(
        &mut self,
        count: usize,
        text: &[u8],
        is_last: bool,
    ) -> Result<(), AllocError>
        requires { count ≤ length self.old.input }
        ensures same { OnErr result (self.new ≡ self.old) }
        ensures answered { OnOk result (self.new ≡ record self.old {
          input = drop count self.old.input;
          output = self.old.output ++ text.now;
          is_ending = self.old.is_ending || is_last;
        }) }
    {
        self.output.put(text)?;
        self.input.advance(count);
        self.is_ending = self.is_ending || is_last;
        Ok(())
    }

    /// The command of the first request, which has so many bytes, waits for its reply.
    pub(crate) fn wait(&mut self, count: usize, waiting: Waiting)
        requires count { count ≤ length self.old.input }
        requires room { deque_len self.old.waiting < deque_capacity self.old.waiting }
        ensures waiting { self.new.waiting.items ≡ self.old.waiting.items ++ waiting ∷ [] }
        ensures input { self.new.input ≡ drop count self.old.input }
        ensures output { self.new.output ≡ self.old.output }
        ensures ending { self.new.is_ending ≡ self.old.is_ending }
        ensures read { self.new.is_read ≡ self.old.is_read }
    {
        self.waiting.push_back_reserved(waiting);
        self.input.advance(count);
    }

    /// Tells the first that waits. An `Err` comes only for want of memory, and nothing is told.
    pub(crate) fn tell(&mut self, text: &[u8]) -> Result<(), AllocError>
        ensures same { OnErr result (self.new ≡ self.old) }
        ensures waiting { OnOk result (self.new.waiting.items ≡ drop 1 self.old.waiting.items) }
        ensures output { OnOk result (self.new.output ≡ self.old.output ++ text.now) }
        ensures input { OnOk result (self.new.input ≡ self.old.input) }
        ensures ending { OnOk result (self.new.is_ending ≡ self.old.is_ending) }
        ensures read { OnOk result (self.new.is_read ≡ self.old.is_read) }
    {
        self.output.put(text)?;
        self.waiting.pop_front();
        Ok(())
    }

    /// Ends it, since the bytes are no request. An `Err` comes only for want of memory, and it goes
    /// on.
    pub(crate) fn end(&mut self, text: &[u8]) -> Result<(), AllocError>
        ensures same { OnErr result (self.new ≡ self.old) }
        ensures ended { OnOk result (self.new ≡ record self.old {
          output = self.old.output ++ text.now;
          is_ending = true;
          is_read = true;
        }) }
    {
        self.output.put(text)?;
        self.is_ending = true;
        self.is_read = true;
        Ok(())
    }

    /// Its client has gone.
    pub(crate) fn close(&mut self)
        ensures { self.new ≡ record self.old { is_open = false } }
    {
        self.is_open = false;
    }

    /// What is to be done for it.
    pub(crate) fn state(&self) -> State
        ensures gives { result.gives ≡ false → self.now.output ≡ [] }
        ensures ends { result.ends ≡ true
            → (self.now.is_ending ≡ true) × (self.now.waiting.items ≡ []) }
        ensures rests { result.rests ≡ true → (self.now.is_read ≡ true)
            × (self.now.waiting.items ≡ []) × (self.now.output ≡ []) }
    {
        State {
            takes: self.is_open && !self.is_ending && self.input.len() < MOST_INPUT / 2,
            gives: !self.output.is_empty(),
            ends: self.is_ending && self.waiting.is_empty(),
            rests: self.is_read && self.waiting.is_empty() && self.output.is_empty(),
        }
    }
}
