//! Reading of requests.
ghost use Rattle.std.specs.Prelude.{◌≡◌, ◌≤◌, ◌<◌, ◌==◌, length, map, position, take, IfOk};
ghost use Rattle.mu_resp.specs.Readings.{Shows, bulk_at, bulks_at, end_at, feed_at, number_at, request_at, text_at};

use crate::words::Words;
use crate::{CARRIAGE_RETURN, DOLLAR, Fault, LINE_FEED, MOST_WORD_BYTES, MOST_WORDS, STAR, Stop};
use memchr::memchr;
use mu_text::{MOST_DIGITS, number_within};

/// The first request of the bytes, and the bytes behind it.
///
/// # Errors
///
/// `Short` if it isn't whole; `Wrong` if it is none.
#[tactic(auto, unfolding(crate::specs::Readings::request_at))]
pub fn request(bytes: &[u8]) -> Result<(Words<'_>, &[u8]), Stop>
    ensures { Shows (λ read. (read.0, read.1.now)) result (request_at bytes.now) }
{
    let (sign, rest) = match bytes {
        [] => return Err(Stop::Short),
        [sign, rest @ ..] => (*sign, rest),
    };
    if sign != STAR {
        return Err(Stop::Wrong(Fault::NoRequest(sign)));
    }
    let (count, rest) = number_of_line(rest, MOST_WORDS as u32, Fault::WordCount)?;
    let mut items = [bytes; MOST_WORDS];
    let rest = put_words(rest, count as usize, &mut items)?;
    Ok((
        Words {
            items,
            count: count as usize,
        },
        rest,
    ))
}

/// Puts this many words in front of the others, and answers the bytes behind them.
fn put_words<'a>(
    bytes: &'a [u8],
    count: usize,
    items: &mut [&'a [u8]; MOST_WORDS],
) -> Result<&'a [u8], Stop>
    requires { count ≤ MOST_WORDS }
    ensures room { length items.new ≡ MOST_WORDS }
    ensures words { Shows (λ rest. (map (λ word. word.now) (take count items.new), rest.now))
        result (bulks_at count bytes.now) }
{
    let mut rest = bytes;
    for k in 0..count {
        let (word, more) = word_of(rest)?;
        items[k] = word;
        rest = more;
    }
    Ok(rest)
}

/// The first word, and the bytes behind it.
#[tactic(auto, unfolding(crate::specs::Readings::bulk_at))]
fn word_of(bytes: &[u8]) -> Result<(&[u8], &[u8]), Stop>
    ensures { Shows (λ read. (read.0.now, read.1.now)) result (bulk_at bytes.now) }
{
    let (sign, rest) = match bytes {
        [] => return Err(Stop::Short),
        [sign, rest @ ..] => (*sign, rest),
    };
    if sign != DOLLAR {
        return Err(Stop::Wrong(Fault::NoWord(sign)));
    }
    let (count, rest) = number_of_line(rest, MOST_WORD_BYTES as u32, Fault::WordLength)?;
    text_of(rest, count as usize)
}

/// The first bytes, which a line ends, and the bytes behind it.
fn text_of(bytes: &[u8], count: usize) -> Result<(&[u8], &[u8]), Stop>
    ensures { Shows (λ read. (read.0.now, read.1.now)) result (text_at count bytes.now) }
{
    if bytes.len() < count {
        return Err(Stop::Short);
    }
    let rest = behind_end(&bytes[count..])?;
    Ok((&bytes[..count], rest))
}

/// The number of the first line, and the bytes behind it.
#[tactic(auto, unfolding(crate::specs::Readings::number_at))]
fn number_of_line(bytes: &[u8], most: u32, wrong: Fault) -> Result<(u32, &[u8]), Stop>
    ensures number { Shows (λ read. (read.0, read.1.now)) result (number_at most wrong bytes.now) }
    ensures most { IfOk result (λ read. read.0 ≤ most) }
{
    let Some(end) = place_of_end(bytes) else {
        return Err(if bytes.len() <= MOST_DIGITS {
            Stop::Short
        } else {
            Stop::Wrong(wrong)
        });
    };
    let Some(number) = number_within(&bytes[..end], 0, most) else {
        return Err(Stop::Wrong(wrong));
    };
    let rest = behind_feed(&bytes[end + 1..])?;
    Ok((number, rest))
}

/// Where the end of the first line begins, if it is there.
#[tactic(auto, using(crate::proofs::Places::byte_place))]
fn place_of_end(bytes: &[u8]) -> Option<usize>
    ensures { result ≡ position (λ byte. byte == CARRIAGE_RETURN) bytes.now }
{
    memchr(CARRIAGE_RETURN, bytes)
}

/// What stands behind the end of a line.
fn behind_end(bytes: &[u8]) -> Result<&[u8], Stop>
    ensures { Shows (λ rest. rest.now) result (end_at bytes.now) }
{
    match bytes {
        [] => Err(Stop::Short),
        [first, rest @ ..] => {
            if *first == CARRIAGE_RETURN {
                behind_feed(rest)
            } else {
                Err(Stop::Wrong(Fault::LineEnd))
            }
        }
    }
}

/// What stands behind the second byte of the end of a line.
fn behind_feed(bytes: &[u8]) -> Result<&[u8], Stop>
    ensures { Shows (λ rest. rest.now) result (feed_at bytes.now) }
{
    match bytes {
        [] => Err(Stop::Short),
        [first, rest @ ..] => {
            if *first == LINE_FEED {
                Ok(rest)
            } else {
                Err(Stop::Wrong(Fault::LineEnd))
            }
        }
    }
}
