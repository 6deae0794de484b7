//! What a request asks for.
ghost use Rattle.std.specs.Prelude.{◌≡◌, ℕ, map};
ghost use Rattle.mu_redis.specs.Asking.{CanBeDone, asks, asks_of, client_as as client_of, client_words, config_as as config_of, config_words, del_words, echo_words, get_words, getset_words, hello_words, ping_words, put as put_of, select_words, set_as as set_of, set_words, swap as swap_of};
ghost use Rattle.mu_redis.specs.Names.{command_named, part_named, small_name};

use crate::asked::{Asked, Refused};
use crate::command_name::{CommandName, PartName};
use crate::names::Name;
use crate::own::own_of;
use crate::wording::Wording;
use kv_store::{Key, Op, Text};
use mu_strings::{key_of, text_of};
use mu_text::is_word;

/// What a request of these words asks for, in a server of so many replicas.
pub fn asking_of(words: &[&[u8]], replicas: u8) -> Asked
    ensures asks { result ≡ asks replicas (map (λ word. word.now) words.now) }
    ensures done { CanBeDone replicas result }
{
    match words {
        [] => Asked::Nothing,
        [first, rest @ ..] => asking_by(name_of(first), rest, replicas),
    }
}

/// The command that a word names.
fn name_of(word: &[u8]) -> Option<CommandName>
    ensures { result ≡ command_named (small_name word.now) }
{
    CommandName::of(Name::of(word).as_slice())
}

/// The word behind a name that this one is.
fn part_of(word: &[u8]) -> Option<PartName>
    ensures { result ≡ part_named (small_name word.now) }
{
    PartName::of(Name::of(word).as_slice())
}

/// What a command asks for with these words behind its name.
fn asking_by(name: Option<CommandName>, rest: &[&[u8]], replicas: u8) -> Asked
    ensures asks { result ≡ asks_of replicas name (map (λ word. word.now) rest.now) }
    ensures done { CanBeDone replicas result }
{
    match name {
        None => Asked::Refused(Refused::Unknown),
        Some(CommandName::Get) => get(rest, Wording::Value),
        Some(CommandName::Exists) => get(rest, Wording::Count),
        Some(CommandName::Strlen) => get(rest, Wording::Length),
        Some(CommandName::Set) => set(rest),
        Some(CommandName::Del) => del(rest),
        Some(CommandName::Getset) => getset(rest),
        Some(CommandName::Mu) => own_of(rest, replicas),
        Some(CommandName::Ping) => ping(rest),
        Some(CommandName::Echo) => echo(rest),
        Some(CommandName::Hello) => hello(rest),
        Some(CommandName::Select) => select(rest),
        Some(CommandName::Client) => client(rest),
        Some(CommandName::Config) => config(rest),
        Some(CommandName::Command) => Asked::Empty,
        Some(CommandName::Info) => Asked::Information,
        Some(CommandName::Quit) => Asked::Quit,
        Some(CommandName::Mget | CommandName::Mset | CommandName::Msetnx) => {
            Asked::Refused(Refused::Keys)
        }
        Some(CommandName::Setnx | CommandName::Setex | CommandName::Psetex) => {
            Asked::Refused(Refused::Option)
        }
        Some(CommandName::Dbsize) => Asked::Refused(Refused::Size),
    }
}

fn get(rest: &[&[u8]], wording: Wording) -> Asked
    ensures asks { result ≡ get_words wording (map (λ word. word.now) rest.now) }
    ensures done { (replicas : ℕ) → CanBeDone replicas result }
{
    match rest {
        [] => Asked::Refused(Refused::Words),
        [word] => match key_of(word) {
            Some(key) => Asked::Operation(Op::Get(key), wording),
            None => Asked::Refused(Refused::Key),
        },
        _ => Asked::Refused(Refused::Keys),
    }
}

fn del(rest: &[&[u8]]) -> Asked
    ensures asks { result ≡ del_words (map (λ word. word.now) rest.now) }
    ensures done { (replicas : ℕ) → CanBeDone replicas result }
{
    match rest {
        [] => Asked::Refused(Refused::Words),
        [word] => match key_of(word) {
            Some(key) => Asked::Operation(Op::Del(key), Wording::Count),
            None => Asked::Refused(Refused::Key),
        },
        _ => Asked::Refused(Refused::Keys),
    }
}

fn set(rest: &[&[u8]]) -> Asked
    ensures asks { result ≡ set_words (map (λ word. word.now) rest.now) }
    ensures done { (replicas : ℕ) → CanBeDone replicas result }
{
    match rest {
        [key, value] => put(key_of(key), text_of(value)),
        [key, value, flag] => set_as(part_of(flag), key, value),
        [_, _, _, _, ..] => Asked::Refused(Refused::Option),
        _ => Asked::Refused(Refused::Words),
    }
}

/// Sets a value, with a word behind it.
fn set_as(flag: Option<PartName>, key: &[u8], value: &[u8]) -> Asked
    ensures asks { result ≡ set_of flag key.now value.now }
    ensures done { (replicas : ℕ) → CanBeDone replicas result }
{
    match flag {
        Some(PartName::Get) => swap(key_of(key), text_of(value)),
        _ => Asked::Refused(Refused::Option),
    }
}

fn getset(rest: &[&[u8]]) -> Asked
    ensures asks { result ≡ getset_words (map (λ word. word.now) rest.now) }
    ensures done { (replicas : ℕ) → CanBeDone replicas result }
{
    match rest {
        [key, value] => swap(key_of(key), text_of(value)),
        _ => Asked::Refused(Refused::Words),
    }
}

/// Sets a value.
fn put(key: Option<Key>, text: Option<Text>) -> Asked
    ensures asks { result ≡ put_of key text }
    ensures done { (replicas : ℕ) → CanBeDone replicas result }
{
    match (key, text) {
        (None, _) => Asked::Refused(Refused::Key),
        (Some(_), None) => Asked::Refused(Refused::Value),
        (Some(key), Some(text)) => Asked::Operation(Op::Put(key, text), Wording::Fine),
    }
}

/// Sets a value, and tells the one before.
fn swap(key: Option<Key>, text: Option<Text>) -> Asked
    ensures asks { result ≡ swap_of key text }
    ensures done { (replicas : ℕ) → CanBeDone replicas result }
{
    match (key, text) {
        (None, _) => Asked::Refused(Refused::Key),
        (Some(_), None) => Asked::Refused(Refused::Value),
        (Some(key), Some(text)) => Asked::Operation(Op::Swap(key, text), Wording::Value),
    }
}

fn ping(rest: &[&[u8]]) -> Asked
    ensures asks { result ≡ ping_words (map (λ word. word.now) rest.now) }
    ensures done { (replicas : ℕ) → CanBeDone replicas result }
{
    match rest {
        [] => Asked::Pong,
        [_] => Asked::Echo,
        _ => Asked::Refused(Refused::Words),
    }
}

fn echo(rest: &[&[u8]]) -> Asked
    ensures asks { result ≡ echo_words (map (λ word. word.now) rest.now) }
    ensures done { (replicas : ℕ) → CanBeDone replicas result }
{
    match rest {
        [_] => Asked::Echo,
        _ => Asked::Refused(Refused::Words),
    }
}

fn hello(rest: &[&[u8]]) -> Asked
    ensures asks { result ≡ hello_words (map (λ word. word.now) rest.now) }
    ensures done { (replicas : ℕ) → CanBeDone replicas result }
{
    match rest {
        [] => Asked::Hello,
        [version, ..] => {
            if is_word(version, b"2") {
                Asked::Hello
            } else {
                Asked::Refused(Refused::Protocol)
            }
        }
    }
}

fn select(rest: &[&[u8]]) -> Asked
    ensures asks { result ≡ select_words (map (λ word. word.now) rest.now) }
    ensures done { (replicas : ℕ) → CanBeDone replicas result }
{
    match rest {
        [number] => {
            if is_word(number, b"0") {
                Asked::Fine
            } else {
                Asked::Refused(Refused::Database)
            }
        }
        _ => Asked::Refused(Refused::Words),
    }
}

fn client(rest: &[&[u8]]) -> Asked
    ensures asks { result ≡ client_words (map (λ word. word.now) rest.now) }
    ensures done { (replicas : ℕ) → CanBeDone replicas result }
{
    match rest {
        [] => Asked::Refused(Refused::Words),
        [name, ..] => client_as(part_of(name)),
    }
}

fn client_as(part: Option<PartName>) -> Asked
    ensures asks { result ≡ client_of part }
    ensures done { (replicas : ℕ) → CanBeDone replicas result }
{
    match part {
        Some(PartName::Setname | PartName::Setinfo) => Asked::Fine,
        Some(PartName::Getname) => Asked::Nil,
        Some(PartName::Id) => Asked::One,
        _ => Asked::Refused(Refused::Syntax),
    }
}

fn config(rest: &[&[u8]]) -> Asked
    ensures asks { result ≡ config_words (map (λ word. word.now) rest.now) }
    ensures done { (replicas : ℕ) → CanBeDone replicas result }
{
    match rest {
        [name, _] => config_as(part_of(name)),
        _ => Asked::Refused(Refused::Words),
    }
}

fn config_as(part: Option<PartName>) -> Asked
    ensures asks { result ≡ config_of part }
    ensures done { (replicas : ℕ) → CanBeDone replicas result }
{
    match part {
        Some(PartName::Get) => Asked::Setting,
        _ => Asked::Refused(Refused::Syntax),
    }
}
