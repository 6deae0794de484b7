//! Commands, replies and ends, as words of a line.
ghost use Rattle.std.specs.Prelude.{◌≡◌, ◌+◌, ◌≤◌, ◌++◌, length};
ghost use Rattle.mu_report.specs.declared.line.TheConstants.{LINE_BYTES};
ghost use Rattle.mu_report.specs.Words.{ReadsReplies, name_of, reply_words, end_words};

use crate::line::Line;
use kv_store::{Command, Reply};
use mu_model::End;

/// Adds the client and the number of a command: at most 9 bytes.
pub fn push_name(line: &mut Line, command: &Command)
    requires { length line.old + 30 ≤ LINE_BYTES }
    ensures bytes { line.new ≡ line.old ++ name_of command.now }
    ensures room { length line.new ≤ length line.old + 9 }
{
    line.push_number(u64::from(command.client));
    line.push(b".");
    line.push_number(u64::from(command.number));
}

/// Adds a reply: at most 70 bytes.
pub fn push_reply(line: &mut Line, reply: &Reply)
    requires { length line.old + 70 ≤ LINE_BYTES }
    ensures bytes { line.new ≡ line.old ++ reply_words reply.now }
    ensures room { length line.new ≤ length line.old + 70 }
{
    match reply {
        Reply::Done => line.push(b"done"),
        Reply::Value(text) => {
            line.push(b"value ");
            line.push(text.as_bytes());
        }
        Reply::None => line.push(b"none"),
        Reply::Kept(text) => {
            line.push(b"kept ");
            line.push(text.as_bytes());
        }
    }
}

/// What is printed of a reply, `attest` reads as that reply.
pub fn replies_are_read_back()
    ensures { ReadsReplies }
{}

/// Adds how a replica ended, and nothing if that is not told: at most 16 bytes.
pub fn push_end(line: &mut Line, end: Option<End>)
    requires { length line.old + 31 ≤ LINE_BYTES }
    ensures bytes { line.new ≡ line.old ++ end_words end }
    ensures room { length line.new ≤ length line.old + 16 }
{
    match end {
        None => {}
        Some(End::Stopped) => line.push(b"stopped"),
        Some(End::Budget) => line.push(b"budget"),
        Some(End::Outrun { replica, position }) => {
            line.push(b"outrun ");
            line.push_number(u64::from(replica));
            line.push(b" ");
            line.push_number(u64::from(position));
        }
        Some(End::Finished { heads: _ }) => line.push(b"finished"),
    }
}
