//! A reply as a caller in C gets it.
ghost use Rattle.std.specs.Prelude.{◌≡◌};
ghost use Rattle.mu_library.specs.Engines.{PutsReply, number_of_reply, text_of_reply};
ghost use Rattle.mu_library.specs.Front.{Puts};

use crate::front::put_bytes;
use kv_store::Reply;
use mu_outcome::Status;

/// What is told of a row.
#[derive(Clone, Copy, Debug)]
pub struct Replied {
    /// 0 if a reply is told; 3 if there is none yet. Of an engine 18 if there is no such row yet, 19 if
    /// the row is too old, 20 if there is no engine; of a replica 1 if there is no such row.
    pub status: u8,
    /// 1 for `Done`, 2 for `Value`, 3 for `None`, 4 for `Kept`; 0 if no reply is told.
    pub reply: u8,
    /// How many bytes the text of a reply has; the first went to the room.
    pub taken: usize,
}

/// No reply is told.
pub(crate) fn untold(status: u8) -> Replied
    ensures status { result.status ≡ status }
    ensures reply { result.reply ≡ 0 }
    ensures taken { result.taken ≡ 0 }
{
    Replied {
        status,
        reply: 0,
        taken: 0,
    }
}

/// Puts a reply into the room, if it is there.
pub(crate) fn put_told(told: &Option<Reply>, out: &mut [u8]) -> Replied
    ensures { PutsReply told.now result.reply out.old out.new result.taken result.status }
{
    match told {
        Some(reply) => put_reply(reply, out),
        None => untold(Status::Unfinished.code()),
    }
}

/// Puts a reply into the room.
pub(crate) fn put_reply(reply: &Reply, out: &mut [u8]) -> Replied
    ensures number { result.reply ≡ number_of_reply reply.now }
    ensures puts { Puts (text_of_reply reply.now) 0 out.old out.new result.status result.taken }
{
    match reply {
        Reply::Done => put_text(1, b"", out),
        Reply::Value(text) => put_text(2, text.as_bytes(), out),
        Reply::None => put_text(3, b"", out),
        Reply::Kept(text) => put_text(4, text.as_bytes(), out),
    }
}

/// A reply of this number and this text.
fn put_text(reply: u8, text: &[u8], out: &mut [u8]) -> Replied
    ensures number { result.reply ≡ reply }
    ensures puts { Puts text.now 0 out.old out.new result.status result.taken }
{
    Replied {
        status: Status::Done.code(),
        reply,
        taken: put_bytes(text, out),
    }
}
