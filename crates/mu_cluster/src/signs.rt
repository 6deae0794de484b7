//! What the steps of a replica show of how others and it itself get on.
ghost use Rattle.std.specs.Prelude.{if◌then◌else◌, nat_lt, ◌≡◌};
ghost use Rattle.mu_rest.specs.declared.sign.Sign.{Sign as SomeSign};
ghost use Rattle.mu_rest.specs.Signs.{IsOfSeven};
ghost use Rattle.mu_cluster.specs.Signs.{sign_of};

use mu_model::{Answer, Event, Verb};
use mu_rest::Sign;

/// There are at most so many replicas.
const MOST_REPLICAS: u8 = 7;

/// What a read of the beats of a replica shows.
#[inline(always)]
fn sign_of_beats(replica: u8, beats: u64) -> Sign
    ensures is { result ≡ (if nat_lt replica 7 then SomeSign.Beats replica beats
        else SomeSign.Nothing) }
    ensures of_seven { IsOfSeven result }
{
    if replica < MOST_REPLICAS {
        Sign::Beats(replica, beats)
    } else {
        Sign::Nothing
    }
}

/// What a read of the head of a replica shows.
#[inline(always)]
fn sign_of_head(replica: u8, head: u64) -> Sign
    ensures is { result ≡ (if nat_lt replica 7 then SomeSign.Head replica head
        else SomeSign.Nothing) }
    ensures of_seven { IsOfSeven result }
{
    if replica < MOST_REPLICAS {
        Sign::Head(replica, head)
    } else {
        Sign::Nothing
    }
}

/// What a step shows.
#[inline(always)]
pub(crate) fn sign_of(event: &Event) -> Sign
    ensures is { result ≡ sign_of event.now.verb event.now.answer }
    ensures of_seven { IsOfSeven result }
{
    match (event.verb, event.answer) {
        (Verb::ReadBeat(replica), Answer::Number(beats)) => sign_of_beats(replica, beats),
        (Verb::Head(replica), Answer::Number(head)) => sign_of_head(replica, head),
        (Verb::WriteRow(_, _, _), _)
        | (Verb::ReadRow(_, _), _)
        | (Verb::RaiseFuo(_, _), _)
        | (Verb::RaiseHead(_), _) => Sign::Work,
        (Verb::Enter(_, _), Answer::Entered)
        | (Verb::PutMin(_, _), Answer::Done)
        | (Verb::PutSlot(_, _, _, _), Answer::Done)
        | (Verb::Close, _)
        | (Verb::Drain, _)
        | (Verb::Grant(_), _) => Sign::Change,
        (Verb::ReadAsk(0), _) => Sign::CycleEnd,
        _ => Sign::Nothing,
    }
}
