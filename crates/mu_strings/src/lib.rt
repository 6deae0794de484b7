//! Strings of any bytes as the keys and texts of the store, which are short words of visible bytes.
#![tactic(auto)]

ghost use Rattle.std.specs.Prelude.{◌≡◌};
ghost use Rattle.mu_strings.specs.Laws.{IsReadBack};

mod reading;
mod short_string;
mod spelling;

pub use reading::string_of;
pub use short_string::ShortString;
pub use spelling::{key_of, text_of};

/// The byte that begins the spelling of another.
pub const ESCAPE: u8 = b'%';

/// It is the number that is stated here.
pub fn escape_is_stated()
    ensures { ESCAPE ≡ 37 }
{}

/// A string is read back from its spelling: so no two have the same.
pub fn strings_are_read_back()
    ensures { IsReadBack }
{}
