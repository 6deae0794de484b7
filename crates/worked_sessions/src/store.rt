//! A store of a few lines, whose keys and texts have one byte.
ghost use Rattle.std.specs.Prelude.{IfSome, length, ◌≤◌};
ghost use Rattle.kv_store.specs.Commands.{HasShortTexts};

use kv_store::{Key, Op, OpKind, Reply, Text};

/// What a client asks for.
#[derive(Clone, Copy)]
pub(crate) struct Ask {
    pub(crate) kind: OpKind,
    /// Which of three keys.
    pub(crate) key: u8,
    /// The text; of a `Cas` the one that the key should have.
    pub(crate) text: u8,
    /// Of a `Cas` the text that the key gets.
    pub(crate) other: u8,
}

/// The text of one byte.
fn text_of(byte: u8) -> Option<Text>
    ensures { IfSome result (λ text. length text ≤ 32) }
{
    let text = Text::new(&[byte])?;
    Some(text)
}

/// The same as the engine takes it.
pub(crate) fn operation(ask: Ask) -> Option<Op>
    ensures { IfSome result HasShortTexts }
{
    let key = Key::new(&[b'a' + ask.key % 3])?;
    let text = text_of(ask.text)?;
    let other = text_of(ask.other)?;
    Some(match ask.kind {
        OpKind::Put => Op::Put(key, text),
        OpKind::Get => Op::Get(key),
        OpKind::Del => Op::Del(key),
        OpKind::Swap => Op::Swap(key, text),
        OpKind::Cas => Op::Cas(key, text, other),
    })
}

/// The text of each key; 0 if it has none.
#[derive(Drop)]
pub(crate) struct Texts {
    held: [u8; 3],
}

impl Texts {
    /// No key has a text.
    pub(crate) fn new() -> Texts {
        Texts { held: [0; 3] }
    }

    /// What a store replies, and what it holds from then on.
    pub(crate) fn reply_to(&mut self, ask: Ask) -> Option<Reply> {
        let place = usize::from(ask.key % 3);
        let had = self.held[place];
        let is_as_asked = had == ask.text;
        self.held[place] = match ask.kind {
            OpKind::Put | OpKind::Swap => ask.text,
            OpKind::Del => 0,
            OpKind::Cas if is_as_asked => ask.other,
            _ => had,
        };
        match ask.kind {
            OpKind::Put => Some(Reply::Done),
            _ if had == 0 => Some(Reply::None),
            OpKind::Del => Some(Reply::Done),
            OpKind::Cas if is_as_asked => Some(Reply::Done),
            OpKind::Cas => Some(Reply::Kept(text_of(had)?)),
            _ => Some(Reply::Value(text_of(had)?)),
        }
    }
}
