//! An operation as the line of a job that asks for it.
ghost use Rattle.std.specs.Prelude.{◌≡◌, ◌+◌, ◌<◌, ◌≤◌, ◌++◌, codes, length};
ghost use Rattle.kv_store.specs.Kinds.{texts_of};
ghost use Rattle.mu_events.specs.Lines.{after_spaces};
ghost use Rattle.mu_input.specs.JobLines.{op_words};
ghost use Rattle.mu_text.specs.declared.line_text.TheConstants.{LINE_BYTES};

use kv_store::{Arguments, Op};
use mu_text::{Line, SPACE};

/// The line that asks for an operation.
pub fn op_line(op: &Op) -> Line
    ensures bytes { result ≡ op_words op.now }
    ensures room { length result < LINE_BYTES }
{
    let mut line = Line::new();
    push_op(&mut line, op);
    line
}

/// Adds an operation, as in a job: at most 159 bytes.
pub fn push_op(line: &mut Line, op: &Op)
    requires { length line.old + 159 ≤ LINE_BYTES }
    ensures bytes { line.new ≡ line.old ++ op_words op.now }
    ensures room { length line.new ≤ length line.old + 159 }
{
    let parts = op.parts();
    line.push(parts.kind.name());
    push_after_space(line, parts.key.as_bytes());
    push_arguments(line, &parts.arguments);
}

/// Adds arguments, each after a space: at most 130 bytes.
fn push_arguments(line: &mut Line, arguments: &Arguments)
    requires { length line.old + 130 ≤ LINE_BYTES }
    ensures bytes { line.new ≡ line.old ++ after_spaces (texts_of arguments.now) }
    ensures room { length line.new ≤ length line.old + 130 }
{
    match arguments {
        Arguments::Nothing => {}
        Arguments::Text(text) => push_after_space(line, text.as_bytes()),
        Arguments::Texts(first, second) => {
            push_after_space(line, first.as_bytes());
            push_after_space(line, second.as_bytes());
        }
    }
}

/// Adds a word, after a space.
fn push_after_space(line: &mut Line, word: &[u8])
    requires { length line.old + 1 + length word.now ≤ LINE_BYTES }
    ensures bytes { line.new ≡ line.old ++ codes " " ++ word.now }
    ensures room { length line.new ≡ length line.old + 1 + length word.now }
{
    line.push_byte(SPACE);
    line.push(word);
}
