//! The store: texts under keys.
ghost use Rattle.std.specs.Prelude.{◌≡◌, ◌+◌, ◌<◌, ◌≤◌, IfOk};
ghost use Rattle.std.specs.FinMap as map;
ghost use Rattle.indexmap.specs.IndexMap.{spare};
ghost use Rattle.kv_store.specs.Tables.{empty_table, had, removed, compared, reply_to, table_after};
ghost use Rattle.kv_store.specs.Texts.{table_of};

use crate::{Command, Key, Op, Text};
use indexmap::IndexMap;
use std::alloc::Global;
use std::marker::Model;

/// There was no memory.
pub use std::alloc::AllocError as NoMemory;

/// The reply to a command.
#[derive(Clone, Copy, PartialEq, Eq, Debug)]
pub enum Reply {
    /// It is done, and there is nothing to tell.
    Done,
    /// The text that the key has, or had before a `Swap`.
    Value(Text),
    /// The key has no text, or had none before a `Swap`.
    None,
    /// The text that the key has and keeps: another one than the `Cas` names.
    Kept(Text),
}

type Texts = IndexMap<Key, Text>;

/// Texts under keys. Contracts see a `Holding`: the table, and how many more commands can surely be
/// applied.
#[derive(Drop)]
pub struct Store {
    texts: Texts,
}

impl Model for Store {
    ghost use Rattle.indexmap.specs.IndexMap.{spare};
    ghost use Rattle.kv_store.specs.Tables.{Holding, holding_code};
    ghost use Rattle.kv_store.specs.Texts.{table_of};

    ghost Value = { Holding };

    ghost coded = { holding_code };

    ghost view = { λ a. record { table = table_of a.texts; room = spare a.texts } };
}

impl Store {
    /// The empty store, with room for this many commands. An `Err` comes only for want of memory.
    pub fn with_room(alloc: Global, commands: usize) -> Result<Store, NoMemory>
        ensures empty { IfOk result (λ store. store.table ≡ empty_table) }
        ensures room { IfOk result (λ store. commands ≤ store.room) }
    {
        let texts = IndexMap::with_capacity(alloc, commands)?;
        Ok(Store { texts })
    }

    /// Makes room for this many commands more. An `Err` comes only for want of memory, and the table
    /// stays.
    pub fn make_room(&mut self, commands: usize) -> Result<(), NoMemory>
        ensures table { self.new.table ≡ self.old.table }
        ensures keeps { self.old.room ≤ self.new.room }
        ensures room { IfOk result (λ done. commands ≤ self.new.room) }
    {
        self.texts.reserve(commands)
    }

    /// What the table holds for the key. Takes no memory.
    pub fn look(&self, key: &Key) -> Option<Text>
        ensures { result ≡ map.get self.now.table key.now }
    {
        look_up(&self.texts, key)
    }

    /// How many keys have a text. Takes no memory.
    pub fn key_count(&self) -> usize
        ensures { result ≡ map.len self.now.table }
    {
        count_of(&self.texts)
    }

    /// Acts on the store as the command says, with one look-up of its key. It takes no memory, and
    /// uses up the room for one command at most.
    pub fn apply(&mut self, command: &Command) -> Reply
        requires { 0 < self.old.room }
        ensures reply { result ≡ reply_to self.old.table command.now.op }
        ensures table { self.new.table ≡ table_after self.old.table command.now.op }
        ensures room { self.old.room ≤ self.new.room + 1 }
    {
        match command.op {
            Op::Put(key, text) => {
                set(&mut self.texts, key, text);
                Reply::Done
            }
            Op::Get(key) => found(look_up(&self.texts, &key)),
            Op::Del(key) => forget(&mut self.texts, &key),
            Op::Swap(key, text) => found(set(&mut self.texts, key, text)),
            Op::Cas(key, old, new) => compare_and_set(&mut self.texts, &key, old, new),
        }
    }
}

/// The reply to a get or a swap, if the key had this.
fn found(before: Option<Text>) -> Reply
    ensures { result ≡ had before }
{
    match before {
        Some(text) => Reply::Value(text),
        None => Reply::None,
    }
}

fn count_of(texts: &Texts) -> usize
    ensures { result ≡ map.len (table_of texts.now) }
{
    texts.len()
}

fn look_up(texts: &Texts, key: &Key) -> Option<Text>
    ensures { result ≡ map.get (table_of texts.now) key.now }
{
    texts.get(key).copied()
}

/// Sets a text, and answers the one before. Inlined, since a `Put` has no use for that.
#[inline(always)]
fn set(texts: &mut Texts, key: Key, text: Text) -> Option<Text>
    requires { 0 < spare texts.old }
    ensures before { result ≡ map.get (table_of texts.old) key }
    ensures table { table_of texts.new ≡ map.insert (table_of texts.old) key text }
    ensures room { spare texts.old ≤ spare texts.new + 1 }
{
    texts.insert(key, text).unwrap()
}

/// Removes a key, if it is there. The last entry takes its place.
fn forget(texts: &mut Texts, key: &Key) -> Reply
    ensures reply { result ≡ removed (map.get (table_of texts.old) key.now) }
    ensures table { table_of texts.new ≡ map.remove (table_of texts.old) key.now }
    ensures room { spare texts.old ≤ spare texts.new }
{
    match texts.swap_remove(key) {
        Some(_) => Reply::Done,
        None => Reply::None,
    }
}

/// Sets a text if the key has the old one.
fn compare_and_set(texts: &mut Texts, key: &Key, old: Text, new: Text) -> Reply
    ensures reply { result ≡ compared (map.get (table_of texts.old) key.now) old }
    ensures table { table_of texts.new ≡ table_after (table_of texts.old) (Op.Cas key.now old new) }
    ensures room { spare texts.old ≤ spare texts.new }
{
    match texts.get_mut(key) {
        None => Reply::None,
        Some(text) => {
            if *text == old {
                *text = new;
                Reply::Done
            } else {
                Reply::Kept(*text)
            }
        }
    }
}
