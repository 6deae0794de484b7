//! Tables that grow by the places of one row.
ghost use Rattle.std.specs.Prelude.{false};
ghost use Rattle.mu_knowledge.specs.Telling.{AddsPlaces};

/// Cuts the marks to those of the first `rows` rows, each of which has `each`, and adds those of
/// one row more, none of them set. Takes no memory.
pub(crate) fn add_marks(marks: &mut Vec<bool>, rows: usize, each: usize)
    ensures { AddsPlaces rows each marks.old marks.new false }
{
    let most = rows.saturating_mul(each);
    let full = most.saturating_add(each);
    marks.truncate(most);
    if full <= marks.capacity() {
        marks.resize(full, false).unwrap();
    }
}

/// The same of words: those that are added are 0.
pub(crate) fn add_words(words: &mut Vec<u64>, rows: usize, each: usize)
    ensures { AddsPlaces rows each words.old words.new 0 }
{
    let most = rows.saturating_mul(each);
    let full = most.saturating_add(each);
    words.truncate(most);
    if full <= words.capacity() {
        words.resize(full, 0).unwrap();
    }
}
