//! Commands of clients, and the store of texts under keys that they act on.
#![tactic(auto)]

ghost use Rattle.std.specs.Prelude.{◌≡◌};

pub mod command;
pub mod key;
pub mod store;
pub mod text;
mod word;

pub use command::{Arguments, Command, OP_KINDS, Op, OpKind, OpParts, OpShape};
pub use key::Key;
pub use store::{NoMemory, Reply, Store};
pub use text::Text;

/// The most bytes of a key.
pub const KEY_BYTES: usize = 24;

/// The most bytes of a text.
pub const TEXT_BYTES: usize = 64;

/// The most bytes of each text of a `Cas`: two of them are as long as the longest text.
pub const CAS_TEXT_BYTES: usize = 32;

/// The least byte of a key or a text, `!`: the one after the space.
pub const FIRST_BYTE: u8 = 33;

/// The greatest byte of a key or a text, `~`.
pub const LAST_BYTE: u8 = 126;

/// The greatest number of a client. The least is 0.
pub const LAST_CLIENT: u8 = 15;

/// The greatest number of a command of a client. The least is 1.
pub const LAST_NUMBER: u16 = 1500;

/// Each limit is the number that is stated here.
pub fn limits_are_stated()
    ensures words { (KEY_BYTES ≡ 24) × (TEXT_BYTES ≡ 64) × (CAS_TEXT_BYTES ≡ 32) }
    ensures bytes { (FIRST_BYTE ≡ 33) × (LAST_BYTE ≡ 126) }
    ensures commands { (LAST_CLIENT ≡ 15) × (LAST_NUMBER ≡ 1500) }
{}
