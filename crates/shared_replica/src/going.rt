//! What a replica does next.
ghost use Rattle.std.specs.Prelude.{IfErr, IfOk, IfSome, None, Some, true, ◌≡◌};
ghost use Rattle.shared_replica.specs.declared.going.Untaken.{Untaken as SomeUntaken};
ghost use Rattle.mu_inbox.specs.Standing.{IsNext as IsNextInList, is_done};
ghost use Rattle.shared_replica.specs.Standing.{GoesOn, HasReadList, MayTakeFound, Moment, StandsFor, TakesFound, next_of};

use crate::shared::{Found, SharedReplica};
use mu_model::End;

/// What a replica does next.
#[derive(Clone, Copy)]
pub enum Next {
    /// It makes this access to a word of a host.
    Word(lone_words::Access),
    /// It makes this access to a word of the list.
    List(mu_inbox::Access),
    /// Nothing more: this has halted it.
    Halted(End),
}

/// Why a word isn't taken.
#[derive(Clone, Copy, Debug, PartialEq, Eq)]
pub enum Untaken {
    /// No access is under way.
    NotDue,
    /// No legal list of events, or no list of commands, leaves this word where the access was made.
    Stray,
    /// There was no memory for one row more.
    NoMemory,
    /// The words of the hosts have no room for one row more.
    Full,
}

impl Next {
    /// What the replica alone does next.
    fn of(next: lone_replica::Next) -> Next
        ensures { result ≡ next_of next }
    {
        match next {
            lone_replica::Next::Access(access) => Next::Word(access),
            lone_replica::Next::Halted(end) => Next::Halted(end),
        }
    }
}

impl SharedReplica {
    /// Its next access, or what has halted it; told again before a word is taken it is the same. If
    /// the list was read to its end since the replica's last access, the replica takes what that
    /// found before. Takes no memory.
    ///
    /// # Errors
    ///
    /// `Stray` if no legal list leaves the word there that the replica found. Then it stands for
    /// what it did.
    pub fn next(&mut self) -> Result<Next, Untaken>
        ghost at: { Moment }
        requires stands { StandsFor at self.old }
        requires right { MayTakeFound at self.old.id self.old.found self.old.replica.due }
        ensures goes { IfOk result (λ next. GoesOn at self.old next self.new) }
        ensures kept { IfErr result (λ why. (why ≡ SomeUntaken.Stray) × StandsFor at self.new) }
        ensures id { self.new.id ≡ self.old.id }
    {
        match self.found {
            Found::Nothing => Ok(Next::of(self.replica.next())),
            Found::Read(word) => self.next_after(word),
            Found::Unread(word) => match self.list_access() {
                Some(access) => Ok(Next::List(access)),
                None => self.next_after(word),
            },
        }
    }

    /// The next access to the list, or `None` if nothing more comes there.
    fn list_access(&mut self) -> Option<mu_inbox::Access>
        ghost at: { Moment }
        requires { StandsFor at self.old }
        ensures stands { StandsFor at self.new }
        ensures some { IfSome result
            (λ access. IsNextInList self.new.list self.new.list.due (Some access)) }
        ensures none { result ≡ None → is_done self.old.list ≡ true }
        ensures done { is_done self.new.list ≡ is_done self.old.list }
        ensures place { self.new.list.place ≡ self.old.list.place }
        ensures replica { self.new.replica ≡ self.old.replica }
        ensures found { self.new.found ≡ self.old.found }
        ensures id { self.new.id ≡ self.old.id }
    {
        self.list.next()
    }

    /// The replica takes the word that it found, and goes on.
    fn next_after(&mut self, word: u64) -> Result<Next, Untaken>
        ghost at: { Moment }
        requires stands { StandsFor at self.old }
        requires found { TakesFound word self.old.found }
        requires read { HasReadList self.old.found (is_done self.old.list) }
        requires right { MayTakeFound at self.old.id self.old.found self.old.replica.due }
        ensures goes { IfOk result (λ next. GoesOn at self.old next self.new) }
        ensures kept { IfErr result (λ why. (why ≡ SomeUntaken.Stray) × StandsFor at self.new) }
        ensures id { self.new.id ≡ self.old.id }
    {
        match self.replica.take_and_next(word) {
            Ok(next) => {
                self.found = Found::Nothing;
                Ok(Next::of(next))
            }
            Err(_) => Err(Untaken::Stray),
        }
    }
}
