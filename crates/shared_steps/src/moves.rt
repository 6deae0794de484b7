//! One atomic step, which tells of the verb that it is for.
ghost use Rattle.std.specs.Prelude.{[], ◌<◌, ◌≡◌};
ghost use Rattle.atomic_table.specs.Table.{Allows, Splits};
ghost use Rattle.shared_steps.specs.Moves.{left_by, told_by};
ghost use Rattle.shared_steps.specs.Rule.{Holds, Told, only_view, without_view};

use crate::rule::{Cut, NamesReplica, NamesVerb, OneListRule, VerbStep, View};
use atomic_table::{Seat, Shared};
use mu_model::{Config, Verb};
use mu_words::Move;

/// The words of all replicas, under the rule.
pub(crate) type Board = Shared<(), View, Config, OneListRule>;

/// The seat of a thread, with what it knows.
pub(crate) type ViewSeat = Seat<(), View>;

/// Makes the step. Gives the word that it found, but of a store the word that it stored.
#[inline(always)]
pub(crate) fn make<N: NamesVerb>(
    board: &Board,
    seat: &mut ViewSeat,
    word: usize,
    step: Move,
    verb: Verb,
) -> u64
    requires named { verb ≡ N.verb }
    requires fits { seat.old.table_id ≡ board.now.table_id }
    requires inside { word < board.now.table_id.words }
    requires rule { Allows (Holds board.now.key) board.now.table_id.slots seat.old.id seat.old.me
        word (left_by step) (λ n. Told verb seat.old.me (told_by step n)) }
    ensures same { (seat.new.table_id ≡ seat.old.table_id) × (seat.new.id ≡ seat.old.id) }
    ensures grown { Told verb seat.old.me result seat.new.me }
{
    match step {
        Move::Load => board.load::<VerbStep<N>>(seat, word),
        Move::Store(new) => {
            board.store::<VerbStep<N>>(seat, word, new);
            new
        }
        Move::Raise(least) => board.fetch_max::<VerbStep<N>>(seat, word, least),
        Move::Add => board.fetch_add::<VerbStep<N>>(seat, word, 1),
        Move::SetBits(bits) => board.fetch_or::<VerbStep<N>>(seat, word, bits),
        Move::Exchange(old, new) => board.compare_exchange::<VerbStep<N>>(seat, word, old, new),
        Move::Swap(new) => board.swap::<VerbStep<N>>(seat, word, new),
    }
}

/// Cuts off a seat with the entry of one replica.
pub(crate) fn split<N: NamesReplica>(board: &Board, seat: &mut ViewSeat, who: u8) -> ViewSeat
    requires named { who ≡ N.who }
    requires fits { seat.old.table_id ≡ board.now.table_id }
    requires inside { 0 < board.now.table_id.words }
    requires rule { Splits (Holds board.now.key) seat.old.id seat.old.me.0
        (without_view who seat.old.me.0) (only_view who seat.old.me.0) }
    ensures same { (seat.new.table_id ≡ seat.old.table_id) × (seat.new.id ≡ seat.old.id)
        × (seat.new.me ≡ (without_view who seat.old.me.0, seat.old.me.1)) }
    ensures cut { (result.table_id ≡ seat.old.table_id)
        × (result.me ≡ (only_view who seat.old.me.0, [])) }
{
    board.split_seat::<Cut<N>>(seat)
}
