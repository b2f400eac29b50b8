//! The names of the contexts in the order of their declaration.
ghost use Rattle.std.specs.Prelude.{◌≡◌, ◌≤◌, [], length};
ghost use Rattle.access.specs.Refusals.{answer};
ghost use Rattle.words.specs.Numbering.{number_of_name, name_of_number, declaring_refusal, after_declaring};

use crate::name::Name;
use access::numbers::index_in;
use access::refusal::Refusal;
use std::marker::Model;

/// How many contexts there are at most.
const MOST_NAMES: usize = 256;

/// The first `count` of the list are the names of the contexts 1, 2 and so on.
#[derive(Drop)]
pub struct Names {
    // An array and a count: names have fixed memory and no heap.
    list: [Name; MOST_NAMES],
    count: usize,
}

// Clauses see the names, each as its bytes.
impl Model for Names {
    ghost use Rattle.std.specs.Prelude.{List, ℕ, ◌≡◌, ◌≤◌, length, take};

    ghost Value = { List (List ℕ) };

    ghost view = { λ names. take names.count names.list };

    ghost invariant = { λ names. (length names.list ≡ 256) × (names.count ≤ 256) };
}

impl Names {
    /// No names yet.
    pub fn new() -> Names
        ensures { result ≡ [] }
    {
        Names {
            list: [Name::placeholder(); MOST_NAMES],
            count: 0,
        }
    }

    /// How many there are.
    pub fn count(&self) -> u16
        ensures told { result ≡ length self.now }
        ensures few { length self.now ≤ 256 }
    {
        self.count as u16
    }

    /// The names that stand.
    fn standing(&self) -> &[Name]
        ensures { result.now ≡ self.now }
    {
        &self.list[..self.count]
    }

    /// The name of a context; of a number that no context has, nothing.
    pub fn name(&self, context: u16) -> &[u8]
        ensures told { result.now ≡ name_of_number self.now context }
        ensures short { length result.now ≤ 16 }
    {
        let standing = self.standing();
        match index_in(standing.len(), context) {
            Some(index) => standing[index].bytes(),
            None => b"",
        }
    }

    /// The number of the context that a word names.
    pub fn find(&self, word: &[u8]) -> Option<u16>
        ensures { result ≡ number_of_name self.now word.now }
    {
        for context in 1..=self.count() {
            if self.name(context) == word {
                return Some(context);
            }
        }
        None
    }

    /// Names the next context, or is refused and alters nothing.
    pub fn declare(&mut self, name: Name) -> Result<(), Refusal>
        ensures told { result ≡ answer (declaring_refusal self.old name) }
        ensures done { self.new ≡ after_declaring self.old name }
    {
        if self.count == MOST_NAMES {
            return Err(Refusal::ContextCount);
        }
        if self.find(name.bytes()).is_some() {
            return Err(Refusal::UnfitName);
        }
        self.list[self.count] = name;
        self.count += 1;
        Ok(())
    }
}
