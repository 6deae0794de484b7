//! What a step writes into the leader's tables, by its verb.
ghost use Rattle.std.specs.Prelude.{List, false, get_or, length, nat_lt, set, true, ℕ, ◌+◌, ◌<◌, ◌∷◌, ◌≡◌};
ghost use Rattle.mu_model.specs.declared.config.Config.{Config};
ghost use Rattle.mu_model.specs.declared.event.Answer.{Answer as SomeAnswer};
ghost use Rattle.mu_model.specs.declared.event.Event.{Event};
ghost use Rattle.mu_model.specs.declared.event.Verb.{Verb as SomeVerb};
ghost use Rattle.mu_model.specs.Knowledge.{known as known_of};
ghost use Rattle.mu_model.specs.Leaderships.{is_member};
ghost use Rattle.mu_leadership.specs.Leadership.{StandsForLeadership};
ghost use Rattle.mu_lead.specs.Journal.{fuo_in, greater_fuo, heads_with, reach_with, set_where, up_with, written_with};
ghost use Rattle.mu_lead.specs.Leading.{end_of};
ghost use Rattle.mu_lead.specs.Stepping.{IsWritten};

use mu_leadership::Leadership;
use mu_model::{Answer, Verb};

/// Writes up to which position each region has what is known. `commits` says whether a put made
/// its entry known.
pub(crate) fn write_up(
    up: &mut [u64; 7],
    leading: &Leadership,
    verb: Verb,
    answer: Answer,
    known: &[u16],
    commits: bool,
)
    ensures { (c : Config) → (r : ℕ) → (past : List Event) → length up.old ≡ 7
        → IsWritten c r past verb answer known.now commits
        → StandsForLeadership r (record { by = r; verb = verb; answer = answer } ∷ past) leading.now
        → up.new
        ≡ up_with c r past (record { by = r; verb = verb; answer = answer } ∷ past) up.old verb
        answer }
{
    match (verb, answer) {
        (Verb::Ask(p), _) => {
            if p == 0 {
                *up = [0; 7];
            }
        }
        (Verb::Fuo(p), Answer::Number(u)) => write_fuo(up, leading, p, u, known),
        (Verb::PutSlot(p, i, _, _), Answer::Done) => write_put(up, leading, p, i, known, commits),
        _ => {}
    }
}

/// Writes how far the region of a FUO is: a member, or one that is not ahead.
fn write_fuo(up: &mut [u64; 7], leading: &Leadership, p: u8, u: u64, known: &[u16])
    ensures { (c : Config) → (r : ℕ) → (past now : List Event) → length up.old ≡ 7 → p < 7
        → known.now ≡ known_of c r past
        → StandsForLeadership r
        (record { by = r; verb = SomeVerb.Fuo p; answer = SomeAnswer.Number u } ∷ past) leading.now
        → up.new ≡ up_with c r past now up.old (SomeVerb.Fuo p) (SomeAnswer.Number u) }
{
    if leading.is_member(p) || u <= known.len() as u64 {
        set_at(up, p, u);
    }
}

/// Writes the entry that was put at the region, or, if that made it known, at each member.
fn write_put(up: &mut [u64; 7], leading: &Leadership, p: u8, i: u16, known: &[u16], commits: bool)
    ensures { (c : Config) → (r : ℕ) → (past now : List Event) → (b v : ℕ) → length up.old ≡ 7
        → known.now ≡ known_of c r past
        → (nat_lt i (end_of c r past) ≡ false
        → commits ≡ nat_lt (end_of c r past) (end_of c r now))
        → StandsForLeadership r
        (record { by = r; verb = SomeVerb.PutSlot p i b v; answer = SomeAnswer.Done } ∷ past)
        leading.now
        → up.new ≡ up_with c r past now up.old (SomeVerb.PutSlot p i b v) SomeAnswer.Done }
{
    let next = u64::from(i) + 1;
    if usize::from(i) < known.len() {
        set_at(up, p, next);
    } else if commits {
        set_members(up, leading, next);
    }
}

/// Writes the greatest FUO of each region that was read or raised.
pub(crate) fn write_reach(reach: &mut [Option<u64>; 7], verb: Verb, answer: Answer)
    ensures { length reach.old ≡ 7 → reach.new ≡ reach_with reach.old verb answer }
{
    match (verb, answer) {
        (Verb::Ask(p), _) => {
            if p == 0 {
                *reach = [None; 7];
            }
        }
        (Verb::Fuo(p), Answer::Number(u)) => set_farther(reach, p, u),
        (Verb::RaiseFuo(p, u), _) => set_farther(reach, p, u64::from(u)),
        _ => {}
    }
}

/// Writes the head that was read.
pub(crate) fn write_head(heads: &mut [u64; 7], verb: Verb, answer: Answer)
    ensures { length heads.old ≡ 7 → heads.new ≡ heads_with heads.old verb answer }
{
    match (verb, answer) {
        (Verb::Head(q), Answer::Number(head)) => set_at(heads, q, head),
        _ => {}
    }
}

/// Writes how many words of each row of its own are written.
pub(crate) fn write_word(written: &mut Vec<u8>, verb: Verb)
    ensures { ((j k x : ℕ) → verb ≡ SomeVerb.WriteRow j k x → get_or written.old.items j 12 < 12)
        → written.new.items ≡ written_with written.old.items verb }
{
    match verb {
        Verb::WriteRow(j, _, _) => count_word(written, j),
        _ => {}
    }
}

/// Counts one more word of row `j`.
pub(crate) fn count_word(written: &mut Vec<u8>, j: u16)
    ensures { get_or written.old.items j 12 < 12
        → written.new.items ≡ set written.old.items j (get_or written.old.items j 12 + 1) }
{
    if usize::from(j) < written.len() {
        written[usize::from(j)] = written[usize::from(j)].saturating_add(1);
    }
}

/// Sets the number at the place.
fn set_at(table: &mut [u64; 7], p: u8, number: u64)
    ensures { length table.old ≡ 7 → table.new ≡ set table.old p number }
{
    if p < 7 {
        table[usize::from(p)] = number;
    }
}

/// Sets the number at each member.
fn set_members(table: &mut [u64; 7], leading: &Leadership, number: u64)
    ensures long { length table.new ≡ length table.old }
    ensures members { (r : ℕ) → (mine : List Event) → (p : ℕ) → p < 7 → length table.old ≡ 7
        → StandsForLeadership r mine leading.now
        → is_member r p mine ≡ true → get_or table.new p 0 ≡ number }
    ensures others { (r : ℕ) → (mine : List Event) → (p : ℕ)
        → StandsForLeadership r mine leading.now
        → is_member r p mine ≡ false → get_or table.new p 0 ≡ get_or table.old p 0 }
    ensures is { (r : ℕ) → (mine : List Event) → length table.old ≡ 7
        → StandsForLeadership r mine leading.now
        → table.new ≡ set_where (λ p. is_member r p mine) number 0 table.old }
{
    for p in 0..7u8 {
        if leading.is_member(p) {
            table[usize::from(p)] = number;
        }
    }
}

/// Sets the FUO at the place, if it is greater.
fn set_farther(table: &mut [Option<u64>; 7], p: u8, u: u64)
    ensures { length table.old ≡ 7 → table.new ≡ fuo_in table.old p u }
{
    if p < 7 {
        table[usize::from(p)] = farther(table[usize::from(p)], u);
    }
}

/// The greater of a FUO and that one, if any.
fn farther(held: Option<u64>, u: u64) -> Option<u64>
    ensures { result ≡ greater_fuo held u }
{
    match held {
        None => Some(u),
        Some(x) => Some(u.max(x)),
    }
}
