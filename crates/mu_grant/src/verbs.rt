//! Which verbs change what a host holds, and at whom.
ghost use Rattle.std.specs.Prelude.{◌≡◌};
ghost use Rattle.mu_grant.specs.Stands.{guest_named, is_read_of_asks, is_host_step};

use mu_model::Verb;

/// Whether the verb reads asks, or is one of a host: no other changes what a host holds.
pub fn is_of_host(verb: &Verb) -> bool
    ensures { result ≡ is_host_step verb.now }
{
    match *verb {
        Verb::ReadAsk(_) | Verb::Close | Verb::LookTarget | Verb::Drain | Verb::Grant(_) => true,
        _ => false,
    }
}

/// The guest whose asks are read, or that is granted the region.
pub fn guest_of(verb: &Verb) -> Option<u8>
    ensures { result ≡ guest_named verb.now }
{
    match *verb {
        Verb::ReadAsk(w) | Verb::Grant(w) => Some(w),
        _ => None,
    }
}

/// Whether the verb reads asks: it changes nothing but what is held of a guest.
pub(crate) fn reads_asks(verb: &Verb) -> bool
    ensures { result ≡ is_read_of_asks verb.now }
{
    match *verb {
        Verb::ReadAsk(_) => true,
        _ => false,
    }
}
