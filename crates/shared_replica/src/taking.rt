//! What the word that an access found brings to a replica.
ghost use Rattle.std.specs.Prelude.{IfErr, IfOk, IfSome, ◌≡◌};
ghost use Rattle.mu_rows.specs.Rows.{IsCommand, spelled};
ghost use Rattle.shared_replica.specs.declared.shared.Found.{Found as SomeFound};
ghost use Rattle.shared_replica.specs.Standing.{Appends, ListTook, Moment, StandsFor, TakesWord};

use crate::going::Untaken;
use crate::shared::{Found, SharedReplica};
use kv_store::Command;
use lone_replica::Refusal;
use mu_inbox::Inbox;
use mu_model::Row;
use mu_rows::decode;

/// What came by an access.
#[derive(Clone, Copy)]
pub enum Came {
    /// Nothing that is told.
    Nothing,
    /// All rows of the list are read: the replica takes next what it had found.
    Ended,
    /// The command that was offered has its place in the list: it will be this row.
    Placed(u16),
    /// The next row of the list: the replica got it as this row.
    Row(u16),
}

impl SharedReplica {
    /// Takes the word that the access found: it stood there before the access. Takes memory only for
    /// a row.
    ///
    /// # Errors
    ///
    /// `NotDue` if no access is under way; `Stray` if no list of commands leaves the word there, or
    /// the row that it ends is no command; `NoMemory` for want of memory for a row; `Full` if the
    /// words of the hosts have no room for it. Then it stands for what it did, and an access that was under way still is.
    pub fn take(&mut self, word: u64) -> Result<Came, Untaken>
        ghost at: { Moment }
        requires { StandsFor at self.old }
        ensures takes { IfOk result (λ came. TakesWord at self.old word self.new came) }
        ensures kept { IfErr result (λ why. StandsFor at self.new) }
        ensures list { IfErr result (λ why. self.new.list ≡ self.old.list) }
        ensures due { self.new.replica.due ≡ self.old.replica.due }
        ensures id { self.new.id ≡ self.old.id }
    {
        match self.found {
            Found::Nothing => {
                if self.replica.is_due() {
                    self.found = Found::Unread(word);
                    Ok(Came::Nothing)
                } else {
                    Err(Untaken::NotDue)
                }
            }
            Found::Unread(found) => {
                let mut list = self.list;
                match list.take(word) {
                    Ok(came) => self.take_came(list, came, found, word),
                    Err(mu_inbox::Untaken::NotDue) => Err(Untaken::NotDue),
                    Err(mu_inbox::Untaken::Stray) => Err(Untaken::Stray),
                }
            }
            Found::Read(_) => Err(Untaken::NotDue),
        }
    }

    /// What came by an access to the list. The word that it found is only for the clauses.
    fn take_came(
        &mut self,
        list: Inbox,
        came: mu_inbox::Came,
        found: u64,
        _word: u64,
    ) -> Result<Came, Untaken>
        ghost at: { Moment }
        requires stands { StandsFor at self.old }
        requires found { self.old.found ≡ SomeFound.Unread found }
        requires took { ListTook at self.old self.old.list.due _word list came }
        ensures takes { IfOk result (λ came. TakesWord at self.old _word self.new came) }
        ensures kept { IfErr result (λ why. StandsFor at self.new) }
        ensures list { IfErr result (λ why. self.new.list ≡ self.old.list) }
        ensures due { self.new.replica.due ≡ self.old.replica.due }
        ensures id { self.new.id ≡ self.old.id }
    {
        match came {
            mu_inbox::Came::Nothing => {
                self.list = list;
                Ok(Came::Nothing)
            }
            mu_inbox::Came::Free => {
                self.list = list;
                self.found = Found::Read(found);
                Ok(Came::Ended)
            }
            mu_inbox::Came::Closed => {
                self.list = list;
                self.found = Found::Read(found);
                Ok(Came::Ended)
            }
            mu_inbox::Came::Taken(_) => {
                self.list = list;
                Ok(Came::Placed(self.replica.config().rows.len() as u16))
            }
            mu_inbox::Came::Row(row) => {
                let number = self.append(&row)?;
                self.list = list;
                Ok(Came::Row(number))
            }
        }
    }

    /// Gives a row of the list to the replica, which tells the number that it has there.
    fn append(&mut self, row: &Row) -> Result<u16, Untaken>
        ghost at: { Moment }
        requires { StandsFor at self.old }
        ensures appends { IfOk result (λ number. Appends at self.old row.now number self.new) }
        ensures kept { IfErr result (λ why. StandsFor at self.new) }
        ensures list { self.new.list ≡ self.old.list }
        ensures found { self.new.found ≡ self.old.found }
        ensures due { self.new.replica.due ≡ self.old.replica.due }
        ensures id { self.new.id ≡ self.old.id }
        ensures replica { self.new.replica.id ≡ self.old.replica.id }
    {
        match command_of(row) {
            Some(command) => match self.replica.append(command.client, command.op) {
                Ok(number) => Ok(number),
                Err(Refusal::NoMemory) => Err(Untaken::NoMemory),
                Err(Refusal::Full) => Err(Untaken::Full),
            },
            None => Err(Untaken::Stray),
        }
    }
}

/// The command of a row of the list, if it is one: no rows of its batch follow.
fn command_of(row: &Row) -> Option<Command>
    ensures is { IfSome result (λ command. IsCommand command) }
    ensures words { IfSome result (λ command. row.now.words ≡ spelled command 0) }
{
    match decode(row) {
        Some((command, 0)) => Some(command),
        _ => None,
    }
}
