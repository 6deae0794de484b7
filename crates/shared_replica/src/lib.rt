//! One replica whose commands come by a list in shared memory, as a value that touches no memory
//! itself. It tells the one access that it wants to make now, to a word of a host or to one of the
//! list, and takes the word that this found. After each access to a host it reads the list to its
//! end, appends the rows that came, and only then takes what it had found: so it knows the rows by
//! which each access before its own was decided.
#![tactic(auto)]

ghost use Rattle.shared_replica.specs.Orders.{OneOrder};

mod going;
mod shared;
mod taking;

pub use going::{Next, Untaken};
use mu_inbox::{list_goes_on, one_list};
use mu_rows::rows_differ;
pub use shared::SharedReplica;
pub use taking::Came;

/// Whatever processes share the list, all know its rows in one order: by as many rows two of them know
/// the same, each row as it stands in the list; and who knows more knows those first.
pub fn one_order()
    ensures { OneOrder }
{
    one_list();
    list_goes_on();
    rows_differ();
}
