//! Why a replica may not write or read a row, or raise its head for want of one.
ghost use Rattle.std.specs.Prelude.{IsTrue, List, None, Some, length, ◌%◌, ◌++◌, ◌+◌, ◌/◌, ◌<◌, ◌↔◌, ℕ};
ghost use Rattle.mu_model.specs.declared.config.Config.{Config};
ghost use Rattle.mu_model.specs.declared.event.Event.{Event};
ghost use Rattle.mu_model.specs.declared.event.Verb.{Verb as SomeVerb};
ghost use Rattle.mu_model.specs.Contents.{IsConfig, row_count};
ghost use Rattle.std.specs.List.{slice_get};
ghost use Rattle.mu_model.specs.Knowledge.{applied, known};
ghost use Rattle.mu_model.specs.declared.reason.Reason.{Reason as SomeReason};
ghost use Rattle.mu_model.specs.Points.{applied_to, entry_there, row_there};
ghost use Rattle.mu_model.specs.Reasons.{Finds};
ghost use Rattle.mu_replicas.specs.Stands.{StandsForReplica};
ghost use Rattle.mu_replicas.specs.Finding.{FindsFor, GoesOn};

use crate::found::Found;
use crate::replica::Replica;
use mu_model::{
    Config, PAYLOADS, Reason, row_client, row_number, row_rest, row_word, stands_for_batch,
};

/// Whether the row is one of the job.
#[inline(always)]
fn is_row(config: &Config, j: u16) -> bool
    ensures { IsTrue result ↔ (j < row_count config.now) }
{
    usize::from(j) < config.rows.len()
}

impl Replica {
    /// What a `WriteRow` needs.
    #[inline(always)]
    pub(crate) fn why_no_write_row(
        &self,
        config: &Config,
        j: u16,
        k: u8,
        x: u64,
        found: Found,
    ) -> Found
        requires { IsConfig config.now }
        ensures { FindsFor config.now self.now (SomeVerb.WriteRow j k x) found result }
    {
        let found = found
            .needs(is_row(config, j), Reason::NoRow { row: j })
            .needs(k < 12, Reason::NoWord { word: k });
        if k >= 12 {
            return found;
        }
        let spelled = row_word(config, j, k);
        let written = self.held_rows.has_written(j, k);
        let client = row_client(config, j);
        let number = row_number(config, j);
        found
            .needs(
                x == spelled,
                Reason::OtherWord {
                    row: j,
                    word: k,
                    given: x,
                    spelled,
                    client,
                    number,
                },
            )
            .needs(!written, Reason::Written { row: j, word: k })
    }

    /// What a `ReadRow` needs.
    #[inline(always)]
    pub(crate) fn why_no_read_row(&self, config: &Config, v: u16, k: u8, found: Found) -> Found
        requires { IsConfig config.now }
        ensures { FindsFor config.now self.now (SomeVerb.ReadRow v k) found result }
    {
        let row = v % PAYLOADS;
        let there = v / PAYLOADS < u16::from(config.replicas);
        found
            .needs(there, Reason::NoWriter { value: v })
            .needs(is_row(config, row), Reason::NoRow { row })
            .needs(k < 12, Reason::NoWord { word: k })
    }

    /// Looks whether the words of the row of a value are there. A head above the number of applied
    /// entries needs them.
    #[inline(always)]
    fn why_row_not_there(
        &self,
        config: &Config,
        h: u16,
        applied: usize,
        v: u16,
        found: Found,
    ) -> Found
        requires { IsConfig config.now }
        ensures { (r : ℕ) → (mine : List Event) → (reasons : List SomeReason) → v / 4096 < 7
            → v % 4096 < row_count config.now
            → StandsForReplica config.now r mine self.now
            → Finds config.now r mine reasons found.reason
            → Finds config.now r mine (reasons ++ row_there h applied v) result.reason }
    {
        let mut found = found;
        for k in 0..12u8 {
            let there = self.held_rows.has_word(usize::from(v), k);
            found = found.needs(
                there,
                Reason::NoRowWord {
                    head: h,
                    applied,
                    value: v,
                    word: k,
                },
            );
        }
        found
    }

    /// Looks whether the rows of an entry are there.
    #[inline(always)]
    fn why_entry_not_there(
        &self,
        config: &Config,
        h: u16,
        applied: usize,
        v: u16,
        found: Found,
    ) -> Found
        requires { IsConfig config.now }
        ensures { GoesOn config.now self.now
            (λ r mine. entry_there config.now h applied (Some v)) found result }
    {
        if !stands_for_batch(config, v) {
            return found;
        }
        let rows = u16::from(row_rest(config, v % PAYLOADS)) + 1;
        let mut found = found;
        for t in 0..rows {
            found = self.why_row_not_there(config, h, applied, v.saturating_add(t), found);
        }
        found
    }

    /// Looks whether the rows of the entry at a position are there, if it is known.
    #[inline(always)]
    fn why_next_not_there(&self, config: &Config, h: u16, applied: usize, found: Found) -> Found
        requires { IsConfig config.now }
        ensures { GoesOn config.now self.now
            (λ r mine. entry_there config.now h applied
            (slice_get (known config.now r mine) applied)) found result }
    {
        match self.value_at(applied) {
            None => found,
            Some(v) => self.why_entry_not_there(config, h, applied, v, found),
        }
    }

    /// Looks whether the entries below a head are applied.
    #[inline(always)]
    fn why_not_applied(&self, config: &Config, h: u16, found: Found) -> Found
        requires { IsConfig config.now }
        ensures { GoesOn config.now self.now
            (λ r mine. applied_to config.now r mine h (length (applied config.now r mine)))
            found result }
    {
        let applied = self.held_rows.applied_count();
        let done = usize::from(h) <= applied;
        if done {
            return found;
        }
        let found = self.why_next_not_there(config, h, applied, found);
        found.needs(false, Reason::NotApplied { head: h, applied })
    }

    /// What a `RaiseHead` needs.
    #[inline(always)]
    pub(crate) fn why_no_raise_head(&self, config: &Config, h: u16, found: Found) -> Found
        requires { IsConfig config.now }
        ensures { FindsFor config.now self.now (SomeVerb.RaiseHead h) found result }
    {
        let found = self.why_not_applied(config, h, found);
        found.needs(self.looks.reaches_head(h), Reason::NotReached { head: h })
    }
}
