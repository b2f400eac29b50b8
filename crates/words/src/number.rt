//! Words that are numbers.
ghost use Rattle.std.specs.Prelude.{◌≡◌, ◌≤◌, IfOk};
ghost use Rattle.words.specs.Left.{seen};
ghost use Rattle.words.specs.Numbers.{unpadded, number_of, number_in, label_in};

use crate::flaw::Flaw;
use crate::word::Word;
use access::refusal::Refusal;

/// Whether a word is there and has no 0 before another byte.
fn is_unpadded(word: &[u8]) -> bool
    ensures { result ≡ unpadded word.now }
{
    match word {
        [] => false,
        [first, rest @ ..] => *first != b'0' || rest.is_empty(),
    }
}

/// The number that a word is: 0, or digits of which the first is another, and at most 999.
fn number_of(word: &[u8]) -> Option<u16>
    ensures { result ≡ number_of word.now }
{
    if !is_unpadded(word) {
        return None;
    }
    let mut value = 0;
    for &byte in word {
        if !byte.is_ascii_digit() {
            return None;
        }
        value = 10 * value + u16::from(byte - b'0');
        if value > 999 {
            return None;
        }
    }
    Some(value)
}

/// The number that a word is.
pub fn number(word: Word<'_>) -> Result<u16, Flaw>
    ensures { result ≡ number_in (seen word.entry) }
{
    number_of(word.bytes).ok_or(Flaw::at(word, Refusal::UnfitWord))
}

/// The level or owner that a word is: a number of at most 15.
pub fn label(word: Word<'_>) -> Result<u8, Flaw>
    ensures told { result ≡ label_in (seen word.entry) }
    ensures small { IfOk result (λ label. label ≤ 15) }
{
    match number_of(word.bytes) {
        Some(label) if label <= 15 => Ok(label as u8),
        _ => Err(Flaw::at(word, Refusal::UnfitWord)),
    }
}
