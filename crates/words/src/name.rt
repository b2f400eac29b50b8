//! One name.
ghost use Rattle.std.specs.Prelude.{◌≡◌, true, Some, None, if◌then◌else◌};
ghost use Rattle.std.specs.List.{list_all};
ghost use Rattle.words.specs.Shape.{name_byte, letter_first, is_name};

use std::marker::Model;

/// How many bytes a name has at most.
const MOST_BYTES: usize = 16;

/// A name: 1 to 16 bytes of a–z, 0–9 and `_`, a letter first. It is a copy, so that it outlives the text in which it stood.
#[derive(Clone, Copy)]
pub struct Name {
    // The name's bytes, and zeros behind them.
    bytes: [u8; MOST_BYTES],
    len: usize,
}

// Clauses see a name as its bytes.
impl Model for Name {
    ghost use Rattle.std.specs.Prelude.{List, ℕ, take};

    ghost Value = { List ℕ };

    ghost use Rattle.words.specs.Kept.{Kept, kept, kept_whole};

    ghost view = { λ name. take name.len name.bytes };

    ghost invariant = { Kept };

    ghost inverse = { kept };

    ghost inverse_ok = { kept_whole };
}

/// Whether each byte may stand in a name.
fn has_name_bytes(word: &[u8]) -> bool
    ensures { result ≡ list_all name_byte word.now }
{
    word.iter()
        .all(|byte| matches!(byte, b'a'..=b'z' | b'0'..=b'9' | b'_'))
}

fn begins_with_letter(word: &[u8]) -> bool
    ensures { result ≡ letter_first word.now }
{
    word.first().is_some_and(|first| first.is_ascii_lowercase())
}

/// Whether a word has the shape of a name.
fn has_shape(word: &[u8]) -> bool
    ensures { result ≡ is_name word.now }
{
    begins_with_letter(word) && word.len() <= MOST_BYTES && has_name_bytes(word)
}

impl Name {
    /// The name that a word is, if it has the shape of one.
    pub fn read(word: &[u8]) -> Option<Name>
        ensures { result ≡ (if is_name word.now then Some word.now else None) }
    {
        if !has_shape(word) {
            return None;
        }
        let mut bytes = [0; MOST_BYTES];
        bytes[..word.len()].copy_from_slice(word);
        Some(Name {
            bytes,
            len: word.len(),
        })
    }

    /// A name for the places of a list that hold none yet.
    pub(crate) fn placeholder() -> Name {
        let mut bytes = [0; MOST_BYTES];
        bytes[0] = b'a';
        Name { bytes, len: 1 }
    }

    pub fn bytes(&self) -> &[u8]
        ensures told { result.now ≡ self.now }
        ensures named { is_name self.now ≡ true }
    {
        &self.bytes[..self.len]
    }
}
