//! One round: in order of id each replica that nothing holds takes a turn.
ghost use Rattle.std.specs.Prelude.{List, map, ◌++◌, ◌≡◌};
ghost use Rattle.mu_model.specs.declared.event.Event.{Event};
ghost use Rattle.mu_model.specs.Contents.{IsConfig};
ghost use Rattle.mu_model.specs.Legal.{IsLegal};
ghost use Rattle.mu_engine.specs.Live.{after_round};
ghost use Rattle.mu_engine.specs.Rounds.{IsRound};
ghost use Rattle.mu_engine.specs.Seats.{AreSeated, hold_of};

use crate::seat::Seat;
use word_fabric::GrowingPort;

/// One round.
pub(crate) fn play_round(port: &mut GrowingPort, seats: &mut [Seat])
    requires config { IsConfig port.old.config }
    requires seated { AreSeated port.old.config port.old.events seats.old }
    ensures config { port.new.config ≡ port.old.config }
    ensures seated { AreSeated port.old.config port.new.events seats.new }
    ensures holds { map hold_of seats.new ≡ map after_round (map hold_of seats.old) }
    ensures steps { (steps : List Event) × (port.new.events ≡ port.old.events ++ steps)
        × IsRound port.old.config (map hold_of seats.old) port.old.events steps }
    ensures legal { IsLegal port.new.config port.new.events }
    ensures limit { port.new.row_limit ≡ port.old.row_limit }
{
    for k in 0..seats.len() {
        seats[k].play(port);
    }
    // The list of a port is legal.
    port.events();
}
