//! What the verb of an event has to do with a replayer.
ghost use Rattle.std.specs.Prelude.{◌≡◌};
ghost use Rattle.mu_follow.specs.Kinds.{kind_of as kind_of_verb};

use mu_model::Verb;

/// What the verb of an event has to do with a replayer.
#[derive(Clone, Copy, PartialEq, Eq)]
pub enum Kind {
    /// A log is looked at: an entry may be learnt, or have been lost.
    Look,
    /// An entry is put: it may be known, or fill the replica's own log.
    Put,
    /// A FUO is read or raised.
    Fuo,
    /// A word of a row is written or read.
    Row,
    /// A head is read or raised.
    Head,
    /// All else, which changes nothing.
    Other,
}

/// What the verb has to do with a replayer.
pub(crate) fn kind_of(verb: &Verb) -> Kind
    ensures { result ≡ kind_of_verb verb.now }
{
    match *verb {
        Verb::Look(_, _) => Kind::Look,
        Verb::PutSlot(_, _, _, _) => Kind::Put,
        Verb::Fuo(_) | Verb::RaiseFuo(_, _) => Kind::Fuo,
        Verb::WriteRow(_, _, _) | Verb::ReadRow(_, _) => Kind::Row,
        Verb::Head(_) | Verb::RaiseHead(_) => Kind::Head,
        _ => Kind::Other,
    }
}
