//! The server's own commands.
ghost use Rattle.std.specs.Prelude.{◌≡◌, ℕ, map};
ghost use Rattle.mu_redis.specs.Asking.{CanBeDone, back_words, cas as cas_of, cas_short as cas_of_texts, cas_words, own_as as own_by, own_words, pause_words, stop_words};
ghost use Rattle.mu_redis.specs.Names.{own_named, small_name};
ghost use Rattle.mu_text.specs.Numbers.{below, number_of};

use crate::MOST_PAUSED;
use crate::asked::{Asked, Refused};
use crate::command_name::OwnName;
use crate::names::Name;
use crate::wording::Wording;
use kv_store::{CAS_TEXT_BYTES, Key, Op, Text};
use mu_strings::{key_of, text_of};
use mu_text::{number, number_within};

/// What the words behind `mu` ask for.
pub fn own_of(rest: &[&[u8]], replicas: u8) -> Asked
    ensures asks { result ≡ own_words replicas (map (λ word. word.now) rest.now) }
    ensures done { CanBeDone replicas result }
{
    match rest {
        [] => Asked::Refused(Refused::Words),
        [name, more @ ..] => own_as(own_name_of(name), more, replicas),
    }
}

fn own_name_of(word: &[u8]) -> Option<OwnName>
    ensures { result ≡ own_named (small_name word.now) }
{
    OwnName::of(Name::of(word).as_slice())
}

fn own_as(name: Option<OwnName>, rest: &[&[u8]], replicas: u8) -> Asked
    ensures asks { result ≡ own_by replicas name (map (λ word. word.now) rest.now) }
    ensures done { CanBeDone replicas result }
{
    match name {
        Some(OwnName::Stop) => stop(rest, replicas),
        Some(OwnName::Pause) => pause(rest, replicas),
        Some(OwnName::Back) => back(rest, replicas),
        Some(OwnName::Cas) => cas(rest),
        Some(OwnName::Status) => Asked::Information,
        None => Asked::Refused(Refused::Syntax),
    }
}

/// The replica that a word names, if there is one.
fn replica_of(word: &[u8], replicas: u8) -> Option<u8>
    ensures { result ≡ below replicas (number_of word.now) }
{
    match number(word) {
        Some(number) => {
            if number < u32::from(replicas) {
                Some(number as u8)
            } else {
                None
            }
        }
        None => None,
    }
}

fn stop(rest: &[&[u8]], replicas: u8) -> Asked
    ensures asks { result ≡ stop_words replicas (map (λ word. word.now) rest.now) }
    ensures done { CanBeDone replicas result }
{
    let [word] = rest else {
        return Asked::Refused(Refused::Words);
    };
    match replica_of(word, replicas) {
        Some(replica) => Asked::Stop(replica),
        None => Asked::Refused(Refused::Number),
    }
}

fn back(rest: &[&[u8]], replicas: u8) -> Asked
    ensures asks { result ≡ back_words replicas (map (λ word. word.now) rest.now) }
    ensures done { CanBeDone replicas result }
{
    let [word] = rest else {
        return Asked::Refused(Refused::Words);
    };
    match replica_of(word, replicas) {
        Some(replica) => Asked::Back(replica),
        None => Asked::Refused(Refused::Number),
    }
}

fn pause(rest: &[&[u8]], replicas: u8) -> Asked
    ensures asks { result ≡ pause_words replicas (map (λ word. word.now) rest.now) }
    ensures done { CanBeDone replicas result }
{
    let [word, rounds] = rest else {
        return Asked::Refused(Refused::Words);
    };
    let replica = replica_of(word, replicas);
    let rounds = number_within(rounds, 1, MOST_PAUSED);
    match (replica, rounds) {
        (None, _) => Asked::Refused(Refused::Number),
        (Some(_), None) => Asked::Refused(Refused::Number),
        (Some(replica), Some(rounds)) => Asked::Pause(replica, rounds),
    }
}

fn cas(rest: &[&[u8]]) -> Asked
    ensures asks { result ≡ cas_words (map (λ word. word.now) rest.now) }
    ensures done { (replicas : ℕ) → CanBeDone replicas result }
{
    match rest {
        [key, old, new] => cas_of(key_of(key), text_of(old), text_of(new)),
        _ => Asked::Refused(Refused::Words),
    }
}

fn cas_of(key: Option<Key>, old: Option<Text>, new: Option<Text>) -> Asked
    ensures asks { result ≡ cas_of key old new }
    ensures done { (replicas : ℕ) → CanBeDone replicas result }
{
    match (key, old, new) {
        (None, _, _) => Asked::Refused(Refused::Key),
        (Some(_), None, _) => Asked::Refused(Refused::Value),
        (Some(_), Some(_), None) => Asked::Refused(Refused::Value),
        (Some(key), Some(old), Some(new)) => cas_of_texts(key, old, new),
    }
}

fn cas_of_texts(key: Key, old: Text, new: Text) -> Asked
    ensures asks { result ≡ cas_of_texts key old new }
    ensures done { (replicas : ℕ) → CanBeDone replicas result }
{
    if old.as_bytes().len() <= CAS_TEXT_BYTES && new.as_bytes().len() <= CAS_TEXT_BYTES {
        Asked::Operation(Op::Cas(key, old, new), Wording::Fine)
    } else {
        Asked::Refused(Refused::Value)
    }
}
