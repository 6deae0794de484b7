//! What the words of the command line ask for.
ghost use Rattle.std.specs.Prelude.{◌≡◌, IfSome, None, Some};
ghost use Rattle.mu_input.specs.declared.TheConstants.{TRACE_LIMIT};
ghost use Rattle.snap_reads.specs.declared.TheConstants.{MOST_READERS};
ghost use Rattle.mu_top.specs.Words.{task_named, asked_of as asked_of_words, asked_of_two, limit_of, session_of, session_of_two, HasReplicas, IsInReach};

use mu_input::{MOST_COMMANDS, MOST_REPLICAS, TRACE_LIMIT};
use mu_text::number_within;
use snap_reads::MOST_READERS;

/// The most bytes that the input of a job may have.
pub const INPUT_LIMIT: usize = 1_048_576;

/// The most events that can be asked for of a trace: more than a trace can have.
pub const MOST_SHOWN: u32 = 9_999_999;

/// The limits are the numbers that are stated here.
pub fn limits_are_stated()
    ensures input { INPUT_LIMIT ≡ 1048576 }
    ensures trace { TRACE_LIMIT ≡ 67108864 }
    ensures readers { MOST_READERS ≡ 4 }
    ensures shown { MOST_SHOWN ≡ 9999999 }
{}

/// What the program is asked to do with its input.
#[derive(Clone, Copy, Debug, PartialEq, Eq)]
pub enum Task {
    /// `replay`: run a job in turns.
    Replay,
    /// `eager`: run a job in turns, with the nodes of `run`.
    Eager,
    /// `run`: run a job with each replica in a thread of its own.
    Run,
    /// `trace`: run a job in turns, and tell its events.
    Trace,
    /// `eager trace`: run a job in turns, with the nodes of `run`, and tell its events.
    EagerTrace,
    /// `enough`: tell what a job promises of its replay, and whether its budget is enough.
    Enough,
    /// `check`: judge a trace.
    Check,
    /// `why`: judge a trace, and tell where it breaks and why.
    Why,
    /// `tell`: judge a trace, and report what its events come to.
    Tell,
    /// `show N`: judge the first events of a trace, this many, and tell what holds after them.
    Show(u32),
    /// `attest`: judge a trace with lines of what clients see.
    Attest,
    /// `desk`: run a job in turns whose commands come from clients that send at once.
    Desk,
    /// `book`: run a job in turns, and tell the book of orders after its commands.
    Book,
    /// `live K`: run a job in turns, and publish the commands of its longest log to this many
    /// readers.
    Live(u8),
}

/// What the program is asked.
#[derive(Clone, Copy, Debug, PartialEq, Eq)]
pub enum Asked {
    /// Something with its input.
    Input(Task),
    /// `bulk N`: run the stated large job of this many commands in turns.
    Bulk(u16),
}

impl Task {
    /// The most bytes that the input may have.
    pub fn limit(self) -> usize
        ensures { result ≡ limit_of self }
    {
        match self {
            Task::Replay => INPUT_LIMIT,
            Task::Eager => INPUT_LIMIT,
            Task::Run => INPUT_LIMIT,
            Task::Trace => INPUT_LIMIT,
            Task::EagerTrace => INPUT_LIMIT,
            Task::Enough => INPUT_LIMIT,
            Task::Check => TRACE_LIMIT,
            Task::Why => TRACE_LIMIT,
            Task::Tell => TRACE_LIMIT,
            Task::Show(_) => TRACE_LIMIT,
            Task::Attest => TRACE_LIMIT,
            Task::Desk => INPUT_LIMIT,
            Task::Book => INPUT_LIMIT,
            Task::Live(_) => INPUT_LIMIT,
        }
    }
}

/// The number of replicas, if the words ask for a session: `serve` and a number from 1 to 7.
pub fn session_request(words: &[String]) -> Option<u8>
    ensures exact { result ≡ session_of words.now }
    ensures reach { IfSome result HasReplicas }
{
    match words {
        [word, other] => replicas_asked(word.as_bytes(), other.as_bytes()),
        _ => None,
    }
}

/// The number of replicas, if the first word is `serve` and the second spells one from 1 to 7.
fn replicas_asked(word: &[u8], other: &[u8]) -> Option<u8>
    ensures exact { result ≡ session_of_two word.now other.now }
    ensures reach { IfSome result HasReplicas }
{
    if word == b"serve".as_slice() {
        match number_within(other, 1, u32::from(MOST_REPLICAS)) {
            Some(replicas) => Some(replicas as u8),
            None => None,
        }
    } else {
        None
    }
}

/// What the words ask for, if they ask for anything: one word that names a task, `bulk`, `live` or
/// `show` and a number, or `eager trace`.
pub fn request_of(words: &[String]) -> Option<Asked>
    ensures exact { result ≡ asked_of_words words.now }
    ensures reach { IfSome result IsInReach }
{
    match words {
        [word] => named_task(word.as_bytes()).map(Asked::Input),
        [word, other] => asked_with(word.as_bytes(), other.as_bytes()),
        _ => None,
    }
}

/// The stated large job, if the first word is `bulk` and the second spells a number of commands
/// from 0 to 1,500; live readers, if the first is `live` and the second spells a number of them
/// from 1 to 4; the first events of a trace, if the first is `show` and the second spells a number
/// of at most seven digits; or the trace of an eager replay, if they are `eager trace`.
fn asked_with(word: &[u8], other: &[u8]) -> Option<Asked>
    ensures exact { result ≡ asked_of_two word.now other.now }
    ensures reach { IfSome result IsInReach }
{
    if word == b"bulk".as_slice() {
        match number_within(other, 0, MOST_COMMANDS as u32) {
            Some(count) => Some(Asked::Bulk(count as u16)),
            None => None,
        }
    } else if word == b"live".as_slice() {
        match number_within(other, 1, u32::from(MOST_READERS)) {
            Some(readers) => Some(Asked::Input(Task::Live(readers as u8))),
            None => None,
        }
    } else if word == b"show".as_slice() {
        match number_within(other, 0, MOST_SHOWN) {
            Some(count) => Some(Asked::Input(Task::Show(count))),
            None => None,
        }
    } else if word == b"eager".as_slice() && other == b"trace".as_slice() {
        Some(Asked::Input(Task::EagerTrace))
    } else {
        None
    }
}

/// The task of this name.
fn named_task(word: &[u8]) -> Option<Task>
    ensures { result ≡ task_named word.now }
{
    if word == b"replay".as_slice() {
        Some(Task::Replay)
    } else if word == b"eager".as_slice() {
        Some(Task::Eager)
    } else if word == b"run".as_slice() {
        Some(Task::Run)
    } else if word == b"trace".as_slice() {
        Some(Task::Trace)
    } else if word == b"enough".as_slice() {
        Some(Task::Enough)
    } else if word == b"check".as_slice() {
        Some(Task::Check)
    } else if word == b"why".as_slice() {
        Some(Task::Why)
    } else if word == b"tell".as_slice() {
        Some(Task::Tell)
    } else if word == b"attest".as_slice() {
        Some(Task::Attest)
    } else if word == b"desk".as_slice() {
        Some(Task::Desk)
    } else if word == b"book".as_slice() {
        Some(Task::Book)
    } else {
        None
    }
}
