//! What a moment shows of a region or of a replica, one thing each.
ghost use Rattle.std.specs.Prelude.{None, Some, if◌then◌else◌, ◌≡◌};
ghost use Rattle.mu_telling.specs.Shown.{asks_fact as asks_fact_of, entry_fact as entry_fact_of, known_fact as known_fact_of, leads_by as leads_by_these, leads_with as leads_with_this};

use mu_model::Answer;
use mu_outcome::{Fact, Leads};

/// How often a replica asked for a region, if it did.
pub(crate) fn asks_fact(region: u8, by: u8, count: u64) -> Option<Fact>
    ensures { result ≡ asks_fact_of region by count }
{
    if count == 0 {
        None
    } else {
        Some(Fact::Asks { region, by, count })
    }
}

/// The entry that is found at a position of a region, if there is one.
pub(crate) fn entry_fact(region: u8, position: u16, answer: Answer) -> Option<Fact>
    ensures { result ≡ entry_fact_of region position answer }
{
    match answer {
        Answer::Entry { number, value } => Some(Fact::Entry {
            region,
            position,
            number,
            value,
        }),
        _ => None,
    }
}

/// A leadership with this number, if it has one.
fn leads_with(number: Option<u32>) -> Leads
    ensures { result ≡ leads_with_this number }
{
    match number {
        None => Leads::Begun,
        Some(number) => Leads::Number(number),
    }
}

/// What a leadership has come to.
pub(crate) fn leads_by(begun: bool, over: bool, number: Option<u32>) -> Leads
    ensures { result ≡ leads_by_these begun over number }
{
    if begun {
        if over {
            Leads::Over
        } else {
            leads_with(number)
        }
    } else {
        Leads::None
    }
}

/// The fact, if it is one.
pub(crate) fn given_if(holds: bool, fact: Fact) -> Option<Fact>
    ensures { result ≡ (if holds then Some fact else None) }
{
    if holds { Some(fact) } else { None }
}

/// An entry that is known, if one is.
pub(crate) fn known_fact(replica: u8, position: u16, value: Option<u16>) -> Option<Fact>
    ensures { result ≡ known_fact_of replica position value }
{
    match value {
        None => None,
        Some(value) => Some(Fact::Known {
            replica,
            position,
            value,
        }),
    }
}
