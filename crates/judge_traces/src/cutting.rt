//! Cutting an input into traces.
ghost use Rattle.std.specs.Prelude.{◌≡◌, ◌≤◌, ◌<◌, IsTrue, IfSome, MatchOption, length};
ghost use Rattle.judge_traces.specs.Traces.{is_between as is_between_traces, cut as cut_of};

/// Whether the bytes begin with what stands between two traces: a line feed, and a line `---`.
fn is_between(bytes: &[u8]) -> bool
    ensures exact { result ≡ is_between_traces bytes.now }
    ensures bound { IsTrue result → 5 ≤ length bytes.now }
{
    bytes.starts_with(b"\n---\n".as_slice())
}

/// The bytes before the first separator, and those behind it, if there is one.
pub fn cut(bytes: &[u8]) -> Option<(&[u8], &[u8])>
    ensures parts { MatchOption result
        (cut_of bytes.now ≡ None)
        (λ parts. cut_of bytes.now ≡ Some (parts.0.now, parts.1.now)) }
    ensures front { IfSome result (λ parts. length parts.0.now ≤ length bytes.now) }
    ensures behind { IfSome result (λ parts. length parts.1.now < length bytes.now) }
{
    for place in 0..bytes.len() {
        if is_between(&bytes[place..]) {
            return Some((&bytes[..place], &bytes[place + 5..]));
        }
    }
    None
}
