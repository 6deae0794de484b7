//! What the points of a put of an entry ask: whether there is room, whether the value may be put,
//! and whether its position is in reach.
ghost use Rattle.std.specs.Prelude.{IsTrue, List, nat_lt, not, true, ℕ, ◌&&◌, ◌+◌, ◌<◌, ◌==◌, ◌||◌, ◌↔◌, ◌≡◌, ◌≤◌};
ghost use Rattle.mu_model.specs.declared.config.Config.{Config};
ghost use Rattle.mu_model.specs.declared.event.Event.{Event};
ghost use Rattle.mu_model.specs.Contents.{IsConfig, marked, row_count};
ghost use Rattle.mu_model.specs.Histories.{all_below, has};
ghost use Rattle.mu_model.specs.Knowledge.{known};
ghost use Rattle.mu_model.specs.Leaderships.{leadership};
ghost use Rattle.mu_model.specs.Picks.{highest_accepted, is_fresh_batch, is_mark_offer};
ghost use Rattle.mu_model.specs.Placing.{fuo_read_or_raised, is_within_ring};
ghost use Rattle.mu_model.specs.Room.{last_head, reserve};
ghost use Rattle.mu_replicas.specs.Stands.{StandsForReplica, Tells, TellsOf, may_mark};

use crate::replica::Replica;
use mu_model::{Config, PAYLOADS, reserve_of, stands_for_batch, stands_for_mark};

impl Replica {
    /// Whether the head of `q` leaves room, or `q` is known to be gone.
    #[inline(always)]
    pub(crate) fn leaves_room(&self, config: &Config, q: u8, i: u16, free: u8) -> bool
        requires { config.now.replicas ≤ 7 }
        ensures { TellsOf config.now self.now q
            (λ r mine. marked config.now q (known config.now r mine)
            || nat_lt (i + free) (last_head r q mine + config.now.ring)) result }
    {
        let gone = self.known_log.is_marked(q);
        let room = self.heads.leaves_room(q, config.ring, i, free);
        gone || room
    }

    /// Whether `v` is the mark of `q`, which may be marked.
    #[inline(always)]
    fn may_mark(&self, config: &Config, q: u8, v: u16, limit: u64) -> bool
        requires { config.now.replicas ≤ 7 }
        ensures { TellsOf config.now self.now q (may_mark config.now q v limit) result }
    {
        let other = q != self.replica;
        let here = !self.known_log.is_marked(q);
        let stuck = self.heads.is_candidate(q, config.ring, limit);
        stands_for_mark(config, q, v) && other && here && stuck
    }

    /// Whether `v` is no mark of a replica that may be marked.
    #[inline(always)]
    fn marks_nobody(&self, config: &Config, v: u16, limit: u64) -> bool
        requires { config.now.replicas ≤ 7 }
        ensures { Tells config.now self.now
            (λ r mine. all_below config.now.replicas
            (λ q. not (may_mark config.now q v limit r mine))) result }
    {
        let mut none = true;
        for q in 0..config.replicas {
            none = !self.may_mark(config, q, v, limit) && none;
        }
        none
    }

    /// Whether `v` is a mark that it may offer.
    #[inline(always)]
    pub(crate) fn is_offer_of_mark(&self, config: &Config, v: u16) -> bool
        requires { IsConfig config.now }
        ensures { Tells config.now self.now (λ r mine. is_mark_offer config.now r mine v) result }
    {
        let limit = self.known_log.known().len() as u64 + u64::from(reserve_of(config));
        let nobody = self.marks_nobody(config, v, limit);
        v / PAYLOADS == u16::from(self.replica) && !nobody
    }

    /// Whether `v` is a batch and the looks show no entry.
    #[inline(always)]
    pub(crate) fn is_fresh(&self, config: &Config, i: u16, v: u16) -> bool
        requires { IsConfig config.now }
        ensures { (r : ℕ) → (mine : List Event) → i ≤ row_count config.now + reserve config.now
            → StandsForReplica config.now r mine self.now
            → result ≡ is_fresh_batch config.now r mine i v }
    {
        let shown = self
            .looks
            .highest_accepted(config.replicas, &self.leadership, i);
        stands_for_batch(config, v) && shown.is_none()
    }

    /// Whether, in version 2, a FUO of `p` and the ring reach above `i`.
    #[inline(always)]
    pub(crate) fn is_in_reach(&self, config: &Config, p: u8, i: u16) -> bool
        ensures { (r : ℕ) → (mine : List Event) → p < 7
            → StandsForReplica config.now r mine self.now
            → (IsTrue result
            ↔ (config.now.version ≡ 2
            → has
            (λ e. is_within_ring i config.now.ring
            (fuo_read_or_raised r p e.by e.verb e.answer))
            (leadership r mine)
            ≡ true)) }
    {
        let within = self.looks.is_within_ring(p, config.ring, i);
        config.version != 2 || within
    }
}
