//! Which verbs bear on what a replica does as a leader.
ghost use Rattle.std.specs.Prelude.{◌≡◌};
ghost use Rattle.mu_leadership.specs.Bearing.{changes_leadership, is_leader_verb, region_named};

use mu_model::Verb;

/// Whether the verb is one of a leader's. Beats, rows, heads and what a host does change nothing of
/// its leadership.
#[inline(always)]
pub fn is_leader_verb(verb: &Verb) -> bool
    ensures { result ≡ is_leader_verb verb.now }
{
    match verb {
        Verb::Look(_, _) | Verb::Fuo(_) | Verb::RaiseFuo(_, _) => true,
        _ => changes_leadership(verb),
    }
}

/// Whether the verb is one of a leader's that may change its leadership: looks and what is done to a
/// FUO, most of a leader's steps, don't.
#[inline(always)]
pub(crate) fn changes_leadership(verb: &Verb) -> bool
    ensures { result ≡ changes_leadership verb.now }
{
    match verb {
        Verb::Ask(_)
        | Verb::Fence(_)
        | Verb::Min(_)
        | Verb::Enter(_, _)
        | Verb::PutMin(_, _)
        | Verb::PutSlot(_, _, _, _) => true,
        _ => false,
    }
}

/// The region at which the verb is a step, if it may change what was done there and nowhere else:
/// an ask may begin a leadership, which changes it everywhere.
#[inline(always)]
pub fn region_of(verb: &Verb) -> Option<u8>
    ensures { result ≡ region_named verb.now }
{
    match *verb {
        Verb::Fence(p)
        | Verb::Min(p)
        | Verb::Enter(p, _)
        | Verb::PutMin(p, _)
        | Verb::PutSlot(p, _, _, _) => Some(p),
        _ => None,
    }
}
