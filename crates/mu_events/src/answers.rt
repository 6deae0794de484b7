//! What a step found, as words of a line.
ghost use Rattle.std.specs.Prelude.{◌≡◌, ◌+◌, ◌≤◌, ◌++◌, length};
ghost use Rattle.mu_text.specs.declared.line_text.TheConstants.{LINE_BYTES};
ghost use Rattle.mu_events.specs.Lines.{target_words, owner_words, state_words, fence_words, answer_words};
ghost use Rattle.mu_model.specs.Ranges.{FitsTarget, FitsOwner, FitsFence, FitsAnswer};

use mu_model::{Answer, Fence, Target};
use mu_text::Line;

/// Adds an answer, as in a trace: at most 41 bytes.
pub fn push_answer(line: &mut Line, answer: &Answer)
    requires { length line.old + 60 ≤ LINE_BYTES }
    ensures bytes { line.new ≡ line.old ++ answer_words answer.now }
    ensures fits { FitsAnswer answer.now }
    ensures room { length line.new ≤ length line.old + 41 }
{
    match answer {
        Answer::Done => line.push(b"done"),
        Answer::Missed => line.push(b"missed"),
        Answer::Entered => line.push(b"entered"),
        Answer::Lost(fence) => {
            line.push(b"lost ");
            push_fence(line, fence);
        }
        Answer::Seen(fence) => {
            line.push(b"fence ");
            push_fence(line, fence);
        }
        Answer::Number(number) => line.push_number(*number),
        Answer::Empty => line.push(b"empty"),
        Answer::Entry { number, value } => {
            line.push(b"entry ");
            line.push_number(u64::from(*number));
            line.push(b" ");
            line.push_number(u64::from(*value));
        }
        Answer::Past => line.push(b"past"),
    }
}

/// Adds a fence: its owner, its grant, its state and what it names, at most 35 bytes.
fn push_fence(line: &mut Line, fence: &Fence)
    requires { length line.old + 50 ≤ LINE_BYTES }
    ensures bytes { line.new ≡ line.old ++ fence_words fence.now }
    ensures fits { FitsFence fence.now }
    ensures room { length line.new ≤ length line.old + 35 }
{
    push_owner(line, fence.owner);
    line.push(b" ");
    line.push_number(u64::from(fence.grant));
    line.push(b" ");
    push_state(line, fence.closing);
    line.push(b" ");
    push_target(line, fence.target);
}

/// Adds the replica that a fence lets write: at most 4 bytes.
fn push_owner(line: &mut Line, owner: Option<u8>)
    requires { length line.old + 20 ≤ LINE_BYTES }
    ensures bytes { line.new ≡ line.old ++ owner_words owner }
    ensures fits { FitsOwner owner }
    ensures room { length line.new ≤ length line.old + 4 }
{
    match owner {
        None => line.push(b"none"),
        Some(owner) => line.push_number(u64::from(owner)),
    }
}

/// Adds whether a fence is closing: at most 7 bytes.
fn push_state(line: &mut Line, closing: bool)
    requires { length line.old + 7 ≤ LINE_BYTES }
    ensures bytes { line.new ≡ line.old ++ state_words closing }
    ensures room { length line.new ≤ length line.old + 7 }
{
    if closing {
        line.push(b"closing");
    } else {
        line.push(b"open");
    }
}

/// Adds what a fence names, or what a writer is about to write: at most 11 bytes.
pub(crate) fn push_target(line: &mut Line, target: Target)
    requires { length line.old + 26 ≤ LINE_BYTES }
    ensures bytes { line.new ≡ line.old ++ target_words target }
    ensures fits { FitsTarget target }
    ensures room { length line.new ≤ length line.old + 11 }
{
    match target {
        Target::None => line.push(b"none"),
        Target::Min => line.push(b"min"),
        Target::Place(place) => {
            line.push(b"place ");
            line.push_number(u64::from(place));
        }
    }
}
