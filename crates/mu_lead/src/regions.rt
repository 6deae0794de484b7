//! Regions by what a leader has done there.
ghost use Rattle.std.specs.Prelude.{List, is_some, not, ℕ, ◌<◌, ◌≡◌, ◌≤◌};
ghost use Rattle.mu_model.specs.declared.event.Event.{Event};
ghost use Rattle.mu_model.specs.Histories.{count_below};
ghost use Rattle.mu_model.specs.Leaderships.{is_member, noted_grant};
ghost use Rattle.mu_leadership.specs.Leadership.{StandsForLeadership};
ghost use Rattle.mu_lead.specs.Sets.{bit, bits};
ghost use Rattle.mu_lead.specs.Leading.{FindsRegion};
ghost use Rattle.mu_lead.specs.Listing.{member_from};
ghost use Rattle.mu_lead.specs.Stepping.{FindsAfter, FindsFrom};

use crate::lead::Lead;
use mu_leadership::Leadership;

/// The first member from `from` on, below `n`.
pub(crate) fn next_member(leading: &Leadership, from: u8, n: u8) -> Option<u8>
    ensures { FindsRegion leading.now (λ r mine p. is_member r p mine) from n result }
{
    for p in from..n {
        if leading.is_member(p) {
            return Some(p);
        }
    }
    None
}

/// The first region from `from` on, below `n`, that isn't a member.
pub(crate) fn next_stranger(leading: &Leadership, from: u8, n: u8) -> Option<u8>
    ensures { FindsRegion leading.now (λ r mine p. not (is_member r p mine)) from n result }
{
    for p in from..n {
        if !leading.is_member(p) {
            return Some(p);
        }
    }
    None
}

/// The first region from `from` on, below `n`, whose grant is noted.
pub(crate) fn next_noted(leading: &Leadership, from: u8, n: u8) -> Option<u8>
    ensures { FindsRegion leading.now (λ r mine p. is_some (noted_grant r p mine)) from n result }
{
    for p in from..n {
        if leading.noted_grant(p).is_some() {
            return Some(p);
        }
    }
    None
}

/// How many of the first `n` regions have a noted grant.
pub(crate) fn count_noted(leading: &Leadership, n: u8) -> u8
    ensures { (r : ℕ) → (mine : List Event) → n ≤ 7 → StandsForLeadership r mine leading.now
        → result ≡ count_below n (λ p. is_some (noted_grant r p mine)) }
{
    let mut count: u8 = 0;
    for p in 0..n {
        if leading.noted_grant(p).is_some() {
            count += 1;
        }
    }
    count
}

/// 1 if the grant of `p` is noted, else 0.
fn bit_of(leading: &Leadership, p: u8) -> u8
    requires { p < 7 }
    ensures bit { (r : ℕ) → (mine : List Event) → StandsForLeadership r mine leading.now
        → result ≡ bit (is_some (noted_grant r p mine)) }
    ensures low { result ≤ 1 }
{
    if leading.noted_grant(p).is_some() {
        1
    } else {
        0
    }
}

/// The regions whose grants are noted, bit p for region p.
pub(crate) fn noted_bits(leading: &Leadership) -> u8
    ensures { (r : ℕ) → (mine : List Event) → StandsForLeadership r mine leading.now
        → result ≡ bits (λ p. is_some (noted_grant r p mine)) }
{
    bit_of(leading, 0)
        + 2 * bit_of(leading, 1)
        + 4 * bit_of(leading, 2)
        + 8 * bit_of(leading, 3)
        + 16 * bit_of(leading, 4)
        + 32 * bit_of(leading, 5)
        + 64 * bit_of(leading, 6)
}

impl Lead {
    /// The first member from `p` on.
    #[inline(always)]
    pub(crate) fn member_from(&self, p: u8) -> Option<u8>
        ensures { FindsFrom self.now member_from p result }
    {
        next_member(&self.leading, p, self.config.replicas)
    }

    /// The first member after `p`.
    #[inline(always)]
    pub(crate) fn member_after(&self, p: u8) -> Option<u8>
        ensures { FindsAfter self.now member_from p result }
    {
        self.member_from(p.saturating_add(1))
    }
}
