//! The numbers that words write.
ghost use Rattle.std.specs.Prelude.{◌≡◌, slice_get};
ghost use Rattle.rtlc_words.specs.Words as spec;
ghost use Rattle.rtlc_words.specs.Words.{words_of};

use itoa::Buffer;

/// The number of 64 bits that a word writes in decimal, with no sign and no needless zero.
fn number_in(word: &str) -> Option<u64>
    ensures { result ≡ spec.number_in word.now }
{
    let Ok(number) = word.parse::<u64>() else {
        return None;
    };
    let mut buffer = Buffer::new();
    if buffer.format(number) == word {
        Some(number)
    } else {
        None
    }
}

/// The number of steps that a word writes, from 1 to 1,000.
pub(crate) fn steps_in(word: &str) -> Option<u16>
    ensures { result ≡ spec.steps_in word.now }
{
    match number_in(word) {
        Some(number) if 1 <= number && number <= 1000 => Some(number as u16),
        _ => None,
    }
}

/// The number of a generated function that a word writes, from 0 to 9,000.
pub(crate) fn made_in(word: &str) -> Option<u16>
    ensures { result ≡ spec.made_in word.now }
{
    match number_in(word) {
        Some(number) if number <= 9000 => Some(number as u16),
        _ => None,
    }
}

/// The number that the word at a place writes, or 0 where there is no such word.
fn number_at(words: &[&str], place: usize) -> Option<u64>
    ensures { result ≡ spec.number_or_zero (slice_get (words_of words.now) place) }
{
    match words.get(place) {
        Some(word) => number_in(word),
        None => Some(0),
    }
}

/// Eight numbers, each written by a word. Those that are missing are 0.
pub(crate) fn args_in(words: &[&str]) -> Option<[u64; 8]>
    ensures { result ≡ spec.args_in (words_of words.now) }
{
    if words.len() > 8 {
        return None;
    }
    Some([
        number_at(words, 0)?,
        number_at(words, 1)?,
        number_at(words, 2)?,
        number_at(words, 3)?,
        number_at(words, 4)?,
        number_at(words, 5)?,
        number_at(words, 6)?,
        number_at(words, 7)?,
    ])
}
