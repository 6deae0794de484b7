//! The protocol of Redis, RESP2: requests of clients, and answers to them.
#![tactic(auto)]

ghost use Rattle.std.specs.Prelude.{◌≡◌};
ghost use Rattle.mu_resp.specs.Laws.{IsReadAgain, IsReadForGood, IsRefusedForGood, IsRefusedJustly, IsSoonWhole, IsSpelled};

mod answers;
mod reading;
mod stop;
mod words;

pub use answers::{
    put_array, put_bulk, put_integer, put_nil, put_refusal, put_request, put_simple,
};
pub use reading::request;
pub use stop::{Fault, Stop};
pub use words::Words;

/// The first byte of the end of a line.
pub const CARRIAGE_RETURN: u8 = b'\r';

/// The second.
pub const LINE_FEED: u8 = b'\n';

/// What a request or an array begins with.
pub const STAR: u8 = b'*';

/// What a word begins with.
pub const DOLLAR: u8 = b'$';

/// What a word of the protocol begins with.
pub const PLUS: u8 = b'+';

/// What a refusal begins with.
pub const MINUS: u8 = b'-';

/// What a number begins with.
pub const COLON: u8 = b':';

/// The digit of the number 1.
pub const ONE: u8 = b'1';

/// The most words of a request.
pub const MOST_WORDS: usize = 16;

/// The most bytes of a word.
pub const MOST_WORD_BYTES: usize = 1_024;

/// More bytes than a request has that isn't whole.
pub const MOST_REQUEST_BYTES: usize = 16_896;

/// Each byte and each limit is the number that is stated here.
pub fn limits_are_stated()
    ensures bytes { (CARRIAGE_RETURN ≡ 13) × (LINE_FEED ≡ 10) × (STAR ≡ 42) × (DOLLAR ≡ 36) }
    ensures signs { (PLUS ≡ 43) × (MINUS ≡ 45) × (COLON ≡ 58) × (ONE ≡ 49) }
    ensures limits { (MOST_WORDS ≡ 16) × (MOST_WORD_BYTES ≡ 1024) × (MOST_REQUEST_BYTES ≡ 16896) }
{}

/// A request is read again, whatever stands behind it.
pub fn requests_are_read_again()
    ensures { IsReadAgain }
{}

/// What is read is a request, which the bytes begin with.
pub fn what_is_read_is_spelled_so()
    ensures { IsSpelled }
{}

/// A request that is read stays so, however the bytes go on.
pub fn requests_are_read_for_good()
    ensures { IsReadForGood }
{}

/// Bytes that are refused stay so, however they go on.
pub fn faults_are_for_good()
    ensures { IsRefusedForGood }
{}

/// Nothing is refused that a request begins with: not if it comes in pieces.
pub fn faults_are_just()
    ensures { IsRefusedJustly }
{}

/// A request that isn't whole yet has fewer bytes than [`MOST_REQUEST_BYTES`].
pub fn requests_are_soon_whole()
    ensures { IsSoonWhole }
{}
