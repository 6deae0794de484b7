//! A server.
ghost use Rattle.std.specs.Prelude.{◌≡◌, ℕ, [], Some, false, take, true, IfOk, MatchOption, MatchResult, OnErr};
ghost use Rattle.std.specs.List.{slice_get};
ghost use Rattle.mu_server.specs.Holding.{HoldsLife, HoldsSession, Life, rows_so_far};
ghost use Rattle.mu_server.specs.Opening.{NoneWaits, Opens, Rests};
ghost use Rattle.mu_server.specs.Serving.{MovesAt, Serves, bytes_of, no_bytes};
ghost use Rattle.mu_server.specs.Sessions.{Session};
ghost use Rattle.mu_server.specs.declared.connection.Connection.{Connection as SomeConnection};

use crate::connection::{Connection, State, Waiting};
use crate::reading::Pass;
use crate::rounds::{first_waiting, read_all, tell_all};
use crate::single::{close_at, free_place, give_at, reopen_at, state_at, take_at};
use crate::{MOST_CONNECTIONS, WAIT_ROUNDS};
use ordered_store::OrderedStore;
use std::alloc::{AllocError, Global};

/// A server: a store, and connections whose requests it serves.
#[derive(Drop)]
pub struct Server<S: OrderedStore> {
    pub(crate) alloc: Global,
    pub(crate) store: S,
    pub(crate) connections: Vec<Connection>,
    /// From which connection on requests are read next.
    pub(crate) first: usize,
    /// How many rounds were played.
    pub(crate) rounds: u64,
    /// The command that was submitted first among those that wait.
    pub(crate) next: Option<Waiting>,
    /// Whether a request waits for room in the store.
    pub(crate) is_full: bool,
    /// Since which round one does while no command waits for its reply.
    pub(crate) stuck: Option<u64>,
}

impl<S: OrderedStore> Server<S> {
    /// A server without a connection.
    pub fn new(alloc: Global, store: S) -> Server<S>
        ensures store { result.store ≡ store }
        ensures none { result.connections.items ≡ [] }
    {
        Server {
            alloc,
            store,
            connections: Vec::new(alloc),
            first: 0,
            rounds: 0,
            next: None,
            is_full: false,
            stuck: None,
        }
    }

    /// Opens a connection, and tells its number; none if there are as many as may be. An `Err`
    /// comes only for want of memory.
    pub fn open(&mut self) -> Result<Option<u32>, AllocError>
        ensures store { self.new.store ≡ self.old.store }
        ensures opens { MatchResult result
            (λ opened. MatchOption opened (self.new.connections.items ≡ self.old.connections.items)
            (λ number. (life : Life)
            → Opens life number self.old.connections.items self.new.connections.items))
            (λ failed. self.new.connections.items ≡ self.old.connections.items) }
    {
        let count = self.connections.len();
        if let Some(place) = free_place(self.connections.as_slice()) {
            let Ok(number) = u32::try_from(place) else {
                return Ok(None);
            };
            reopen_at(self.connections.as_mut_slice(), place);
            return Ok(Some(number));
        }
        if count >= MOST_CONNECTIONS {
            return Ok(None);
        }
        self.connections.push(Connection::new(self.alloc))?;
        Ok(Some(count as u32))
    }

    /// Takes bytes of a connection, and answers how many. An `Err` comes only for want of memory,
    /// and none is taken.
    pub fn take(&mut self, number: u32, bytes: &[u8]) -> Result<usize, AllocError>
        ensures store { self.new.store ≡ self.old.store }
        ensures same { OnErr result (self.new.connections.items ≡ self.old.connections.items) }
        ensures moves { IfOk result (λ count. (life : Life) (k : ℕ) (connection : SomeConnection)
            (session : Session) → slice_get self.old.connections.items k ≡ Some connection
            → HoldsSession life k session connection
            → MovesAt (rows_so_far life) life k (bytes_of number (take count bytes.now) k) []
            session self.new.connections.items) }
    {
        let at = number as usize;
        if at >= self.connections.len() {
            return Ok(0);
        }
        take_at(self.connections.as_mut_slice(), at, bytes)
    }

    /// Whether a command waits for its reply, or a request for room in the store.
    pub fn is_waiting(&self) -> bool
        ensures { result ≡ false → NoneWaits self.now.connections.items }
    {
        self.is_full || first_waiting(self.connections.as_slice()).is_some()
    }

    /// Reads what connections sent, and plays rounds while a command waits for its reply, but at
    /// most so many; replies are told as soon as they are there. An `Err` comes only for want of
    /// memory: it may be called again.
    pub fn play(&mut self, rounds: u32) -> Result<(), AllocError>
        ensures { (life : Life)
            → HoldsLife (S.stands self.old.store) (S.replicas self.old.store) life
            → Serves (S.stands self.new.store) (S.replicas self.new.store) life no_bytes no_bytes
            self.old.connections.items self.new.connections.items }
    {
        self.read()?;
        'rounds: for _ in 0..rounds {
            if self.next.is_none() && !self.is_full {
                return Ok(());
            }
            self.turn()?;
        }
        Ok(())
    }

    /// One round of the store, and what can be told and read after it.
    fn turn(&mut self) -> Result<(), AllocError>
        ensures { (life : Life)
            → HoldsLife (S.stands self.old.store) (S.replicas self.old.store) life
            → Serves (S.stands self.new.store) (S.replicas self.new.store) life no_bytes no_bytes
            self.old.connections.items self.new.connections.items }
    {
        self.store.round()?;
        self.rounds = self.rounds.saturating_add(1);
        if !self.is_due() {
            return Ok(());
        }
        self.tell()?;
        self.read()
    }

    /// Whether something may be told, or may be read that had to wait. While a command waits for its
    /// reply, the store makes no room.
    fn is_due(&self) -> bool {
        match self.next {
            Some(waiting) => {
                self.rounds.saturating_sub(waiting.since) > WAIT_ROUNDS
                    || self.store.reply_to(waiting.row).is_some()
            }
            None => self.is_full,
        }
    }

    /// Tells the replies that are there.
    fn tell(&mut self) -> Result<(), AllocError>
        ensures { (life : Life)
            → HoldsLife (S.stands self.old.store) (S.replicas self.old.store) life
            → Serves (S.stands self.new.store) (S.replicas self.new.store) life no_bytes no_bytes
            self.old.connections.items self.new.connections.items }
    {
        tell_all(
            self.alloc,
            self.connections.as_mut_slice(),
            &self.store,
            self.rounds,
        )
    }

    /// Reads the requests of all connections, each time from another one on.
    fn read(&mut self) -> Result<(), AllocError>
        ensures { (life : Life)
            → HoldsLife (S.stands self.old.store) (S.replicas self.old.store) life
            → Serves (S.stands self.new.store) (S.replicas self.new.store) life no_bytes no_bytes
            self.old.connections.items self.new.connections.items }
    {
        self.first = if self.first < self.connections.len() {
            self.first + 1
        } else {
            0
        };
        let is_full = read_all(
            self.alloc,
            self.connections.as_mut_slice(),
            self.first,
            &mut self.store,
            Pass {
                round: self.rounds,
                is_late: is_late(self.stuck, self.rounds),
            },
        )?;
        self.is_full = is_full;
        self.next = first_waiting(self.connections.as_slice());
        self.stuck = stuck_since(self.stuck, is_full && self.next.is_none(), self.rounds);
        Ok(())
    }

    /// Gives bytes to be sent on a connection, and answers how many.
    pub fn give(&mut self, number: u32, out: &mut [u8]) -> usize
        ensures store { self.new.store ≡ self.old.store }
        ensures moves { (life : Life) (k : ℕ) (connection : SomeConnection) (session : Session)
            → slice_get self.old.connections.items k ≡ Some connection
            → HoldsSession life k session connection
            → MovesAt (rows_so_far life) life k [] (bytes_of number (take result out.new) k) session
            self.new.connections.items }
    {
        let at = number as usize;
        if at >= self.connections.len() {
            return 0;
        }
        give_at(self.connections.as_mut_slice(), at, out)
    }

    /// What is to be done for a connection.
    pub fn state(&self, number: u32) -> State
        ensures rests { result.rests ≡ true → (life : Life) (connection : SomeConnection)
            (session : Session) → slice_get self.now.connections.items number ≡ Some connection
            → HoldsSession life number session connection → Rests session connection }
    {
        state_at(self.connections.as_slice(), number as usize)
    }

    /// A client has gone. Its commands that were submitted go on.
    pub fn close(&mut self, number: u32)
        ensures store { self.new.store ≡ self.old.store }
        ensures moves { (life : Life) (k : ℕ) (connection : SomeConnection) (session : Session)
            → slice_get self.old.connections.items k ≡ Some connection
            → HoldsSession life k session connection
            → MovesAt (rows_so_far life) life k [] [] session self.new.connections.items }
    {
        let at = number as usize;
        if at < self.connections.len() {
            close_at(self.connections.as_mut_slice(), at);
        }
    }
}

/// Whether requests have waited for room long enough.
fn is_late(stuck: Option<u64>, now: u64) -> bool {
    match stuck {
        Some(since) => now.saturating_sub(since) > WAIT_ROUNDS,
        None => false,
    }
}

/// Since which round requests wait for room, and nothing else.
fn stuck_since(stuck: Option<u64>, is_stuck: bool, now: u64) -> Option<u64> {
    if !is_stuck {
        return None;
    }
    match stuck {
        Some(since) => Some(since),
        None => Some(now),
    }
}
