//! The steps of the verbs that most lines have, each read by a path of its own: the first eight
//! bytes of a text tell which.
ghost use Rattle.std.specs.Prelude.{◌≡◌, ◌≢◌, ℕ, List, [], ◌∷◌, ◌++◌, IfSome, MatchOption, Some, codes, false};
ghost use Rattle.std.specs.Str.{bytes_eq};
ghost use Rattle.mu_events.specs.Events.{sides, verb_of};
ghost use Rattle.mu_events.specs.Steps.{step_after};
ghost use Rattle.mu_text.specs.declared.TheConstants.{SPACE};
ghost use Rattle.mu_text.specs.Lines.{words};

use crate::events::{found, is_equals, split_first, step_named};
use mu_model::{Answer, Verb};
use mu_text::{SPACE, of_8, of_16, of_64};

/// What follows these eight bytes in a text, if it begins with them: all eight are compared at once.
#[inline(always)]
fn after_eight(text: &[u8], eight: [u8; 8]) -> Option<&[u8]>
    ensures { MatchOption result ((rest : List ℕ) → text.now ≢ eight ++ rest)
        (λ rest. text.now ≡ eight ++ rest.now) }
{
    let [a, b, c, d, e, f, g, h, rest @ ..] = text else {
        return None;
    };
    let front = u64::from_le_bytes([*a, *b, *c, *d, *e, *f, *g, *h]);
    if front == u64::from_le_bytes(eight) {
        Some(rest)
    } else {
        None
    }
}

/// What follows a space, if a text begins with one.
#[inline(always)]
fn after_space(text: &[u8]) -> Option<&[u8]>
    ensures { IfSome result (λ rest. text.now ≡ SPACE ∷ rest.now) }
{
    match text {
        [SPACE, rest @ ..] => Some(rest),
        _ => None,
    }
}

/// Whether the text is that of a beat.
#[inline(always)]
pub(crate) fn is_beat(text: &[u8]) -> bool
    ensures { result ≡ bytes_eq text.now (codes "beat = done") }
{
    match after_eight(text, *b"beat = d") {
        Some(rest) => is_rest_of_beat(rest),
        None => false,
    }
}

/// Whether the text ends as that of a beat does: a pattern is compared in place.
#[inline(always)]
fn is_rest_of_beat(text: &[u8]) -> bool
    ensures { result ≡ bytes_eq text.now (codes "one") }
{
    match text {
        b"one" => true,
        _ => false,
    }
}

/// What follows `readrow` in a text, if it begins so.
#[inline(always)]
pub(crate) fn after_readrow(text: &[u8]) -> Option<&[u8]>
    ensures { IfSome result (λ rest. words text.now ≡ codes "readrow" ∷ words rest.now) }
{
    after_eight(text, *b"readrow ")
}

/// What follows `readask` in a text, if it begins so.
#[inline(always)]
pub(crate) fn after_readask(text: &[u8]) -> Option<&[u8]>
    ensures { IfSome result (λ rest. words text.now ≡ codes "readask" ∷ words rest.now) }
{
    after_eight(text, *b"readask ")
}

/// What follows `readbeat` in a text, if it begins so.
#[inline(always)]
pub(crate) fn after_readbeat(text: &[u8]) -> Option<&[u8]>
    ensures { IfSome result (λ rest. words text.now ≡ codes "readbeat" ∷ words rest.now) }
{
    after_space(after_eight(text, *b"readbeat")?)
}

/// What follows `writerow` in a text, if it begins so.
#[inline(always)]
pub(crate) fn after_writerow(text: &[u8]) -> Option<&[u8]>
    ensures { IfSome result (λ rest. words text.now ≡ codes "writerow" ∷ words rest.now) }
{
    after_space(after_eight(text, *b"writerow")?)
}

/// What follows `look` in a text, if it begins so.
#[inline(always)]
pub(crate) fn after_look(text: &[u8]) -> Option<&[u8]>
    ensures { IfSome result (λ rest. words text.now ≡ codes "look" ∷ words rest.now) }
{
    match text {
        [b'l', b'o', b'o', b'k', SPACE, rest @ ..] => Some(rest),
        _ => None,
    }
}

/// What follows `head` in a text, if it begins so.
#[inline(always)]
pub(crate) fn after_head(text: &[u8]) -> Option<&[u8]>
    ensures { IfSome result (λ rest. words text.now ≡ codes "head" ∷ words rest.now) }
{
    match text {
        [b'h', b'e', b'a', b'd', SPACE, rest @ ..] => Some(rest),
        _ => None,
    }
}

/// What follows `fuo` in a text, if it begins so.
#[inline(always)]
pub(crate) fn after_fuo(text: &[u8]) -> Option<&[u8]>
    ensures { IfSome result (λ rest. words text.now ≡ codes "fuo" ∷ words rest.now) }
{
    match text {
        [b'f', b'u', b'o', SPACE, rest @ ..] => Some(rest),
        _ => None,
    }
}

/// What follows `raisefuo` in a text, if it begins so.
#[inline(always)]
pub(crate) fn after_raisefuo(text: &[u8]) -> Option<&[u8]>
    ensures { IfSome result (λ rest. words text.now ≡ codes "raisefuo" ∷ words rest.now) }
{
    after_space(after_eight(text, *b"raisefuo")?)
}

/// What follows `raisehead` in a text, if it begins so.
#[inline(always)]
pub(crate) fn after_raisehead(text: &[u8]) -> Option<&[u8]>
    ensures { IfSome result (λ rest. words text.now ≡ codes "raisehead" ∷ words rest.now) }
{
    match after_eight(text, *b"raisehea")? {
        [b'd', SPACE, rest @ ..] => Some(rest),
        _ => None,
    }
}

/// What follows the `=` of a text, if it begins with one.
#[inline(always)]
fn after_equals(text: &[u8]) -> Option<&[u8]>
    ensures { IfSome result (λ rest. words text.now ≡ codes "=" ∷ words rest.now) }
{
    match text {
        [b'=', SPACE, rest @ ..] => Some(rest),
        _ => None,
    }
}

/// The next word of a text and what stands behind it, if it is no `=` and not the last.
#[inline(always)]
fn next_word(text: &[u8]) -> Option<(&[u8], &[u8])>
    ensures { IfSome result (λ r. (words text.now ≡ r.0.now ∷ words r.1.now)
        × (bytes_eq r.0.now (codes "=") ≡ false)) }
{
    let (word, rest) = split_first(text);
    let rest = rest?;
    (!is_equals(word)).then_some((word, rest))
}

/// The one word before the `=` of a text and what stands behind it, if it is one.
#[inline(always)]
fn one_before(text: &[u8]) -> Option<(&[u8], &[u8])>
    ensures { IfSome result (λ r. sides (words text.now)
        ≡ Some (r.0.now ∷ [], words r.1.now)) }
{
    let (a, rest) = next_word(text)?;
    Some((a, after_equals(rest)?))
}

/// The two words before the `=` of a text and what stands behind it, if they are two.
#[inline(always)]
fn two_before(text: &[u8]) -> Option<(&[u8], &[u8], &[u8])>
    ensures { IfSome result (λ r. sides (words text.now)
        ≡ Some (r.0.now ∷ r.1.now ∷ [], words r.2.now)) }
{
    let (a, rest) = next_word(text)?;
    let (b, rest) = one_before(rest)?;
    Some((a, b, rest))
}

/// The three words before the `=` of a text and what stands behind it, if they are three.
#[inline(always)]
fn three_before(text: &[u8]) -> Option<(&[u8], &[u8], &[u8], &[u8])>
    ensures { IfSome result (λ r. sides (words text.now)
        ≡ Some (r.0.now ∷ r.1.now ∷ r.2.now ∷ [], words r.3.now)) }
{
    let (a, rest) = next_word(text)?;
    let (b, c, rest) = two_before(rest)?;
    Some((a, b, c, rest))
}

/// The step of a `readrow`, from what follows the name.
#[inline(never)]
pub(crate) fn read_row_step(text: &[u8]) -> Option<(Verb, Answer)>
    ensures { result ≡ step_after (codes "readrow" ∷ []) (sides (words text.now)) }
{
    match two_before(text) {
        Some((v, k, answer)) => found(read_row_verb(v, k), answer),
        None => step_named(b"readrow", text),
    }
}

/// A `readrow` of these words.
#[inline(always)]
fn read_row_verb(v: &[u8], k: &[u8]) -> Option<Verb>
    ensures { result ≡ verb_of (codes "readrow" ∷ v.now ∷ k.now ∷ []) }
{
    Some(Verb::ReadRow(of_16(v)?, of_8(k)?))
}

/// The step of a `readask`, from what follows the name.
#[inline(never)]
pub(crate) fn read_ask_step(text: &[u8]) -> Option<(Verb, Answer)>
    ensures { result ≡ step_after (codes "readask" ∷ []) (sides (words text.now)) }
{
    match one_before(text) {
        Some((w, answer)) => found(read_ask_verb(w), answer),
        None => step_named(b"readask", text),
    }
}

/// A `readask` of this word.
#[inline(always)]
fn read_ask_verb(w: &[u8]) -> Option<Verb>
    ensures { result ≡ verb_of (codes "readask" ∷ w.now ∷ []) }
{
    Some(Verb::ReadAsk(of_8(w)?))
}

/// The step of a `readbeat`, from what follows the name.
#[inline(never)]
pub(crate) fn read_beat_step(text: &[u8]) -> Option<(Verb, Answer)>
    ensures { result ≡ step_after (codes "readbeat" ∷ []) (sides (words text.now)) }
{
    match one_before(text) {
        Some((q, answer)) => found(read_beat_verb(q), answer),
        None => step_named(b"readbeat", text),
    }
}

/// A `readbeat` of this word.
#[inline(always)]
fn read_beat_verb(q: &[u8]) -> Option<Verb>
    ensures { result ≡ verb_of (codes "readbeat" ∷ q.now ∷ []) }
{
    Some(Verb::ReadBeat(of_8(q)?))
}

/// The step of a `writerow`, from what follows the name.
#[inline(never)]
pub(crate) fn write_row_step(text: &[u8]) -> Option<(Verb, Answer)>
    ensures { result ≡ step_after (codes "writerow" ∷ []) (sides (words text.now)) }
{
    match three_before(text) {
        Some((j, k, x, answer)) => found(write_row_verb(j, k, x), answer),
        None => step_named(b"writerow", text),
    }
}

/// A `writerow` of these words.
#[inline(always)]
fn write_row_verb(j: &[u8], k: &[u8], x: &[u8]) -> Option<Verb>
    ensures { result ≡ verb_of (codes "writerow" ∷ j.now ∷ k.now ∷ x.now ∷ []) }
{
    Some(Verb::WriteRow(of_16(j)?, of_8(k)?, of_64(x)?))
}

/// The step of a `look`, from what follows the name.
#[inline(never)]
pub(crate) fn look_step(text: &[u8]) -> Option<(Verb, Answer)>
    ensures { result ≡ step_after (codes "look" ∷ []) (sides (words text.now)) }
{
    match two_before(text) {
        Some((p, i, answer)) => found(look_verb(p, i), answer),
        None => step_named(b"look", text),
    }
}

/// A `look` of these words.
#[inline(always)]
fn look_verb(p: &[u8], i: &[u8]) -> Option<Verb>
    ensures { result ≡ verb_of (codes "look" ∷ p.now ∷ i.now ∷ []) }
{
    Some(Verb::Look(of_8(p)?, of_16(i)?))
}

/// The step of a `head`, from what follows the name.
#[inline(never)]
pub(crate) fn head_step(text: &[u8]) -> Option<(Verb, Answer)>
    ensures { result ≡ step_after (codes "head" ∷ []) (sides (words text.now)) }
{
    match one_before(text) {
        Some((q, answer)) => found(head_verb(q), answer),
        None => step_named(b"head", text),
    }
}

/// A `head` of this word.
#[inline(always)]
fn head_verb(q: &[u8]) -> Option<Verb>
    ensures { result ≡ verb_of (codes "head" ∷ q.now ∷ []) }
{
    Some(Verb::Head(of_8(q)?))
}

/// The step of a `fuo`, from what follows the name.
#[inline(never)]
pub(crate) fn fuo_step(text: &[u8]) -> Option<(Verb, Answer)>
    ensures { result ≡ step_after (codes "fuo" ∷ []) (sides (words text.now)) }
{
    match one_before(text) {
        Some((p, answer)) => found(fuo_verb(p), answer),
        None => step_named(b"fuo", text),
    }
}

/// A `fuo` of this word.
#[inline(always)]
fn fuo_verb(p: &[u8]) -> Option<Verb>
    ensures { result ≡ verb_of (codes "fuo" ∷ p.now ∷ []) }
{
    Some(Verb::Fuo(of_8(p)?))
}

/// The step of a `raisehead`, from what follows the name.
#[inline(never)]
pub(crate) fn raise_head_step(text: &[u8]) -> Option<(Verb, Answer)>
    ensures { result ≡ step_after (codes "raisehead" ∷ []) (sides (words text.now)) }
{
    match one_before(text) {
        Some((head, answer)) => found(raise_head_verb(head), answer),
        None => step_named(b"raisehead", text),
    }
}

/// A `raisehead` of this word.
#[inline(always)]
fn raise_head_verb(head: &[u8]) -> Option<Verb>
    ensures { result ≡ verb_of (codes "raisehead" ∷ head.now ∷ []) }
{
    Some(Verb::RaiseHead(of_16(head)?))
}

/// The step of a `raisefuo`, from what follows the name.
#[inline(never)]
pub(crate) fn raise_fuo_step(text: &[u8]) -> Option<(Verb, Answer)>
    ensures { result ≡ step_after (codes "raisefuo" ∷ []) (sides (words text.now)) }
{
    match two_before(text) {
        Some((p, fuo, answer)) => found(raise_fuo_verb(p, fuo), answer),
        None => step_named(b"raisefuo", text),
    }
}

/// A `raisefuo` of these words.
#[inline(always)]
fn raise_fuo_verb(p: &[u8], fuo: &[u8]) -> Option<Verb>
    ensures { result ≡ verb_of (codes "raisefuo" ∷ p.now ∷ fuo.now ∷ []) }
{
    Some(Verb::RaiseFuo(of_8(p)?, of_16(fuo)?))
}
