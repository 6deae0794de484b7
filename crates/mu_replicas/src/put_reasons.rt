//! Why a replica may not put an entry.
ghost use Rattle.std.specs.Prelude.{IsTrue, List, None, Some, [], ◌%◌, ◌++◌, ◌+◌, ◌/◌, ◌<◌, ◌∷◌, ◌≡◌, ◌↔◌, ℕ};
ghost use Rattle.mu_model.specs.declared.config.Config.{Config};
ghost use Rattle.mu_model.specs.declared.event.Event.{Event};
ghost use Rattle.mu_model.specs.declared.event.Verb.{Verb as SomeVerb};
ghost use Rattle.mu_model.specs.Contents.{IsConfig, row_count};
ghost use Rattle.std.specs.List.{slice_get};
ghost use Rattle.mu_model.specs.Knowledge.{is_value, known};
ghost use Rattle.mu_model.specs.Leaderships.{is_member};
ghost use Rattle.mu_model.specs.Parts.{IsPossible};
ghost use Rattle.mu_model.specs.Picks.{first_value, highest_accepted};
ghost use Rattle.mu_model.specs.declared.reason.Reason.{Reason as SomeReason};
ghost use Rattle.mu_model.specs.Points.{batch_written, bounds, clear_members, each_below, last_position, offers, picks, proposals, puts, reserved_rooms, rooms, row_written, values};
ghost use Rattle.mu_model.specs.Reasons.{Finds};
ghost use Rattle.mu_replicas.specs.Stands.{StandsForReplica};
ghost use Rattle.mu_replicas.specs.Finding.{FindsIfPossible, GoesOn, GoesOnIf, IsPosition};

use crate::explaining::{is_entered_for, last_position};
use crate::found::Found;
use crate::replica::{Replica, is_position};
use mu_model::{
    Config, PAYLOADS, Reason, Target, reserve_of, row_client, row_number, row_rest,
    stands_for_batch,
};

/// Whether the number is that of the leadership.
#[inline(always)]
fn is_number(own: Option<u32>, b: u32) -> bool
    ensures { IsTrue result ↔ (own ≡ Some b) }
{
    own == Some(b)
}

impl Replica {
    /// Whether the value is known at the position.
    #[inline(always)]
    fn knows_at(&self, i: u16, v: u16) -> bool
        ensures { (c : Config) → (r : ℕ) → (mine : List Event) → StandsForReplica c r mine self.now
            → result ≡ is_value (slice_get (known c r mine) i) v }
    {
        match self.value_at(usize::from(i)) {
            None => false,
            Some(known) => known == v,
        }
    }

    /// Looks whether the heads leave room.
    #[inline(always)]
    fn why_no_room(&self, config: &Config, i: u16, free: u8, found: Found) -> Found
        requires { IsConfig config.now }
        ensures { GoesOn config.now self.now
            (λ r mine. rooms config.now r mine i free) found result }
    {
        let mut found = found;
        for q in 0..config.replicas {
            let room = self.leaves_room(config, q, i, free);
            let head = self.heads.last_head(q);
            found = found.needs(
                room,
                Reason::NoRoom {
                    position: i,
                    free,
                    replica: q,
                    head,
                },
            );
        }
        found
    }

    /// Looks whether the heads leave the reserve free, for a fresh batch.
    #[inline(always)]
    fn why_no_reserve(&self, config: &Config, i: u16, v: u16, found: Found) -> Found
        requires { IsConfig config.now }
        ensures { GoesOnIf (IsPosition config.now i) config.now self.now
            (λ r mine. reserved_rooms config.now r mine i v) found result }
    {
        if self.is_fresh(config, i, v) {
            self.why_no_room(config, i, reserve_of(config), found)
        } else {
            found
        }
    }

    /// Looks whether the words of a row of a value are written.
    #[inline(always)]
    fn why_row_not_written(&self, config: &Config, v: u16, j: u16, found: Found) -> Found
        requires { IsConfig config.now }
        ensures { GoesOnIf (j < row_count config.now) config.now self.now
            (λ r mine. row_written v j) found result }
    {
        let mut found = found;
        for k in 0..12u8 {
            let written = self.held_rows.has_written(j, k);
            found = found.needs(
                written,
                Reason::NotWritten {
                    value: v,
                    row: j,
                    word: k,
                },
            );
        }
        found
    }

    /// Looks whether the rows of a batch are written.
    #[inline(always)]
    fn why_not_written(&self, config: &Config, v: u16, found: Found) -> Found
        requires { IsConfig config.now }
        ensures { GoesOnIf (v % 4096 < row_count config.now) config.now self.now
            (λ r mine. batch_written config.now v) found result }
    {
        let row = v % PAYLOADS;
        let all = self.held_rows.wrote_batch(config, row);
        if all {
            return found;
        }
        let rows = u16::from(row_rest(config, row)) + 1;
        let mut found = found;
        for t in 0..rows {
            found = self.why_row_not_written(config, v, row + t, found);
        }
        found
    }

    /// Looks whether the value is an offer.
    #[inline(always)]
    fn why_no_offer(&self, config: &Config, v: u16, found: Found) -> Found
        requires { IsConfig config.now }
        ensures { GoesOn config.now self.now
            (λ r mine. offers config.now r mine v) found result }
    {
        if self.is_offer_of_mark(config, v) {
            return found;
        }
        let row = v % PAYLOADS;
        let number = row_number(config, row);
        let known = self.known_log.count_of(row_client(config, row));
        let own = v / PAYLOADS == u16::from(self.replica);
        let batch = stands_for_batch(config, v);
        let found = found.needs(batch, Reason::NoBatch { value: v });
        if !batch {
            return found;
        }
        let next = u32::from(number) == u32::from(known) + 1;
        let found = found.needs(own, Reason::NotOwn { value: v });
        let found = self.why_not_written(config, v, found);
        found.needs(
            next,
            Reason::NotNextOfClient {
                value: v,
                number,
                known,
            },
        )
    }

    /// Looks whether the looks at the position allow the value.
    #[inline(always)]
    fn why_no_pick(&self, config: &Config, i: u16, v: u16, found: Found) -> Found
        requires { IsConfig config.now }
        ensures { GoesOnIf (IsPosition config.now i) config.now self.now
            (λ r mine. picks config.now r mine i v (highest_accepted r i mine config.now.replicas))
            found result }
    {
        match self
            .looks
            .highest_accepted(config.replicas, &self.leadership, i)
        {
            Some((number, accepted)) => found.needs(
                accepted == v,
                Reason::OtherAccepted {
                    position: i,
                    value: v,
                    number,
                    accepted,
                },
            ),
            None => self.why_no_offer(config, v, found),
        }
    }

    /// Looks whether all members were looked at in the position.
    #[inline(always)]
    fn why_not_looked(&self, config: &Config, i: u16, found: Found) -> Found
        requires { IsConfig config.now }
        ensures { GoesOnIf (IsPosition config.now i) config.now self.now
            (λ r mine. each_below config.now.replicas (λ p. SomeReason.MemberNotLooked p i ∷ []))
            found result }
    {
        let mut found = found;
        for p in 0..config.replicas {
            let looked = self.looks.is_looked_at(p, &self.leadership, i);
            found = found.needs(
                looked,
                Reason::MemberNotLooked {
                    region: p,
                    position: i,
                },
            );
        }
        found
    }

    /// Looks whether the value is that of the first put, or may be.
    #[inline(always)]
    fn why_no_proposal(&self, config: &Config, i: u16, v: u16, found: Found) -> Found
        requires { IsConfig config.now }
        ensures { GoesOnIf (IsPosition config.now i) config.now self.now
            (λ r mine. proposals config.now r mine i v (first_value r i mine)) found result }
    {
        match self.looks.first_value(i) {
            Some(first) => found
                .needs(
                    v == first,
                    Reason::OtherFirst {
                        position: i,
                        value: v,
                        first,
                    },
                )
                .needs(
                    !self.looks.has_joined_since(i),
                    Reason::JoinedSince { position: i },
                ),
            None => {
                let found = self.why_not_looked(config, i, found);
                self.why_no_pick(config, i, v, found)
            }
        }
    }

    /// Looks whether no member was seen past the position.
    #[inline(always)]
    fn why_past_seen(&self, config: &Config, i: u16, found: Found) -> Found
        requires { IsConfig config.now }
        ensures { GoesOnIf (IsPosition config.now i) config.now self.now
            (λ r mine. clear_members config.now i) found result }
    {
        let mut found = found;
        for p in 0..config.replicas {
            let clear = self.looks.is_clear(p, &self.leadership, i);
            found = found.needs(
                clear,
                Reason::PastSeen {
                    region: p,
                    position: i,
                },
            );
        }
        found
    }

    /// Looks whether the value is known at the position, or may be put there as new.
    #[inline(always)]
    fn why_no_value(&self, config: &Config, i: u16, v: u16, found: Found) -> Found
        requires { IsConfig config.now }
        ensures { GoesOnIf (IsPosition config.now i) config.now self.now
            (λ r mine. values config.now r mine i v) found result }
    {
        if self.knows_at(i, v) {
            return found;
        }
        let known = self.known_log.known().len();
        let found = found.needs(
            usize::from(i) == known,
            Reason::NotNext { position: i, known },
        );
        let found = self.why_no_room(config, i, 0, found);
        let found = self.why_no_reserve(config, i, v, found);
        let found = self.why_past_seen(config, i, found);
        self.why_no_proposal(config, i, v, found)
    }

    /// Looks whether the region has what is known below the position.
    #[inline(always)]
    fn why_behind(&self, config: &Config, p: u8, i: u16, found: Found) -> Found
        requires { IsConfig config.now }
        ensures { (r : ℕ) → (mine : List Event) → (reasons : List SomeReason)
            → IsPossible config.now r mine
            → StandsForReplica config.now r mine self.now
            → Finds config.now r mine reasons found.reason
            → Finds config.now r mine
            (reasons ++ each_below i (λ j. SomeReason.Behind p j ∷ [])) result.reason }
    {
        let all = self.filled_logs.is_caught_up_below(p, i);
        if all {
            return found;
        }
        let mut found = found;
        for j in 0..i {
            let caught_up = self.filled_logs.is_caught_up_below(p, j + 1);
            found = found.needs(
                caught_up,
                Reason::Behind {
                    region: p,
                    position: j,
                },
            );
        }
        found
    }

    /// Looks whether the replica leads under the number, and has entered the region for the
    /// position.
    #[inline(always)]
    fn why_not_leading(&self, config: &Config, p: u8, i: u16, b: u32, found: Found) -> Found
        requires { IsConfig config.now }
        ensures { (r : ℕ) → (mine : List Event) → StandsForReplica config.now r mine self.now
            → Finds config.now r mine
            (bounds r mine
            ++ (SomeReason.NoRegion p ∷ SomeReason.NoPosition i (last_position config.now) ∷ []))
            found.reason
            → Finds config.now r mine
            (bounds r mine
            ++ (SomeReason.NoRegion p ∷ SomeReason.NoPosition i (last_position config.now)
            ∷ puts config.now r mine p i b))
            result.reason }
    {
        let leading = &self.leadership;
        let place = i % config.ring;
        let own = leading.number();
        let entered = leading.opened_target(p);
        let reach = self.is_in_reach(config, p, i);
        let numbered = is_number(own, b);
        let open = is_entered_for(entered, Target::Place(place));
        let looked = self.looks.has_looked(p, i);
        found
            .needs(
                reach,
                Reason::OutOfReach {
                    region: p,
                    position: i,
                },
            )
            .needs(!leading.is_over(), Reason::Over)
            .needs(leading.has_quorum(config.replicas), Reason::NoQuorum)
            .needs(leading.is_member(p), Reason::NotMember { region: p })
            .needs(numbered, Reason::OtherNumber { number: b, own })
            .needs(
                open,
                Reason::NotEntered {
                    region: p,
                    place,
                    entered,
                },
            )
            .needs(
                looked,
                Reason::NotLooked {
                    region: p,
                    position: i,
                },
            )
    }

    /// What a `PutSlot` needs.
    #[inline(always)]
    pub(crate) fn why_no_put(
        &self,
        config: &Config,
        p: u8,
        i: u16,
        b: u32,
        v: u16,
        found: Found,
    ) -> Found
        requires { IsConfig config.now }
        ensures { FindsIfPossible config.now self.now (SomeVerb.PutSlot p i b v) found result }
    {
        let there = is_position(config, i);
        let last = last_position(config);
        let found = self
            .why_no_region(config, p, found)
            .needs(there, Reason::NoPosition { position: i, last });
        if !there {
            return found;
        }
        let found = self.why_not_leading(config, p, i, b, found);
        let found = self.why_behind(config, p, i, found);
        self.why_no_value(config, i, v, found)
    }
}
