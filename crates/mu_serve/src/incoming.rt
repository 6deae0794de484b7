//! The lines of a source, taken one by one as they come.
ghost use Rattle.std.specs.Prelude.{◌≡◌, ◌+◌, ◌<◌, ◌≤◌, false, true, List, None, Some, ℕ, [], ◌∷◌, ◌++◌, length, take, IfErr, IfOk, IfSome, OnOk};
ghost use Rattle.mu_serve.specs.Incoming.{FindsNone, HasWholeLine, StopsReading, TakesByte, TakesLine};
ghost use Rattle.mu_serve.specs.declared.TheConstants.{SESSION_LIMIT};
ghost use Rattle.mu_text.specs.declared.line_text.TheConstants.{LINE_BYTES as MOST_KEPT};

use crate::SESSION_LIMIT;
use crate::read_bytes::ReadBytes;
use mu_io::{ReadEnd, Source};
use mu_text::{LINE_BYTES, LINE_FEED, Line};

/// Lines that come from a source. Of a long line only the front is kept.
#[derive(Drop)]
pub struct Incoming {
    /// The bytes that were read and not taken.
    held: ReadBytes,
    /// One more than how many bytes may still be read.
    room: usize,
    /// Whether the last line was taken, which lacked its end.
    is_over: bool,
}

impl Incoming {
    /// The lines of a source of which nothing was read.
    pub fn new() -> Incoming
        ensures held { result.held ≡ [] }
        ensures room { result.room ≡ SESSION_LIMIT + 1 }
        ensures over { result.is_over ≡ false }
    {
        Incoming {
            held: ReadBytes::new(),
            room: SESSION_LIMIT + 1,
            is_over: false,
        }
    }

    /// The next line without its line feed, of which only the first 192 bytes are kept. `None` if no
    /// line is left. Reads on only if no whole line is held, so that its answer waits for nothing.
    ///
    /// # Errors
    ///
    /// `Fault` if the source counted a fault; `TooLong` if more bytes came than a session may have.
    pub fn next_line<S: Source>(&mut self, source: &mut S) -> Result<Option<Line>, ReadEnd>
        requires { 0 < self.old.room }
        ensures line { IfOk result (λ found. IfSome found
            (TakesLine (S.left source.old) (S.left source.new) self.old self.new)) }
        ensures none { IfOk result (λ found. found ≡ None → self.old.is_over ≡ false
            → FindsNone (S.left source.old) (S.left source.new) self.old) }
        ensures over { self.old.is_over ≡ true → result ≡ Ok None }
        ensures untouched { self.old.is_over ≡ true → source.new ≡ source.old }
        ensures held { HasWholeLine self.old.held → source.new ≡ source.old }
        ensures end { IfErr result (StopsReading (S.left source.old) (S.left source.new)
            (S.faults source.old) (S.faults source.new) self.old) }
        ensures same_faults { OnOk result (S.faults source.new ≡ S.faults source.old) }
        ensures never_falls { S.faults source.old ≤ S.faults source.new }
    {
        if self.is_over {
            return Ok(None);
        }
        self.line_on(source)
    }

    /// The same, if the last line wasn't taken.
    fn line_on<S: Source>(&mut self, source: &mut S) -> Result<Option<Line>, ReadEnd>
        requires some { 0 < self.old.room }
        requires goes_on { self.old.is_over ≡ false }
        ensures line { IfOk result (λ found. IfSome found
            (TakesLine (S.left source.old) (S.left source.new) self.old self.new)) }
        ensures none { IfOk result (λ found. found ≡ None
            → FindsNone (S.left source.old) (S.left source.new) self.old) }
        ensures held { HasWholeLine self.old.held → source.new ≡ source.old }
        ensures end { IfErr result (StopsReading (S.left source.old) (S.left source.new)
            (S.faults source.old) (S.faults source.new) self.old) }
        ensures same_faults { OnOk result (S.faults source.new ≡ S.faults source.old) }
        ensures never_falls { S.faults source.old ≤ S.faults source.new }
    {
        let mut line = Line::new();
        'bytes: loop {
            match self.next_byte(source) {
                Ok(Some(byte)) => {
                    if byte == LINE_FEED {
                        return Ok(Some(line));
                    }
                    push_front(&mut line, byte);
                }
                Ok(None) => return Ok(self.last_line(line)),
                Err(end) => return Err(end),
            }
        }
    }

    /// The last line, which lacks its end, if it has a byte.
    fn last_line(&mut self, line: Line) -> Option<Line>
        requires { self.old.is_over ≡ false }
        ensures some { IfSome result (λ last. (last ≡ line) × (0 < length line)) }
        ensures none { result ≡ None → line ≡ [] }
        ensures over { IfSome result (λ _. self.new.is_over ≡ true) }
        ensures goes_on { result ≡ None → self.new.is_over ≡ false }
        ensures held { self.new.held ≡ self.old.held }
        ensures room { self.new.room ≡ self.old.room }
    {
        if line.as_slice().is_empty() {
            return None;
        }
        self.is_over = true;
        Some(line)
    }

    /// Takes the next byte, if there is one. Reads on only if all bytes were taken.
    fn next_byte<S: Source>(&mut self, source: &mut S) -> Result<Option<u8>, ReadEnd>
        requires some { 0 < self.old.room }
        requires goes_on { self.old.is_over ≡ false }
        ensures byte { IfOk result
            (TakesByte (S.left source.old) (S.left source.new) self.old self.new) }
        ensures held { (byte : ℕ) → (more : List ℕ) → self.old.held ≡ byte ∷ more
            → (result ≡ Ok (Some byte)) × (self.new.held ≡ more) × (source.new ≡ source.old) }
        ensures over { self.new.is_over ≡ self.old.is_over }
        ensures end { IfErr result (StopsReading (S.left source.old) (S.left source.new)
            (S.faults source.old) (S.faults source.new) self.old) }
        ensures same_faults { OnOk result (S.faults source.new ≡ S.faults source.old) }
        ensures never_falls { S.faults source.old ≤ S.faults source.new }
    {
        match self.held.take_first() {
            Some(byte) => Ok(Some(byte)),
            None => self.first_of_more(source),
        }
    }

    /// The same, if all bytes that were read are taken.
    fn first_of_more<S: Source>(&mut self, source: &mut S) -> Result<Option<u8>, ReadEnd>
        requires some { 0 < self.old.room }
        requires goes_on { self.old.is_over ≡ false }
        requires used_up { self.old.held ≡ [] }
        ensures byte { IfOk result
            (TakesByte (S.left source.old) (S.left source.new) self.old self.new) }
        ensures over { self.new.is_over ≡ self.old.is_over }
        ensures end { IfErr result (StopsReading (S.left source.old) (S.left source.new)
            (S.faults source.old) (S.faults source.new) self.old) }
        ensures same_faults { OnOk result (S.faults source.new ≡ S.faults source.old) }
        ensures never_falls { S.faults source.old ≤ S.faults source.new }
    {
        let Ok(count) = self.held.refill(source, self.room) else {
            return Err(ReadEnd::Fault);
        };
        self.room -= count;
        if self.room == 0 {
            return Err(ReadEnd::TooLong);
        }
        Ok(self.held.take_first())
    }
}

/// Adds a byte to the front of a line, if that has room for it.
fn push_front(front: &mut Line, byte: u8)
    requires { length front.old ≤ MOST_KEPT }
    ensures { front.new ≡ take MOST_KEPT (front.old ++ byte ∷ []) }
{
    if front.as_slice().len() < LINE_BYTES {
        front.push_byte(byte);
    }
}
