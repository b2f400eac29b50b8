//! Labels: a number from 0 to 15 for each context.
ghost use Rattle.std.specs.Prelude.{◌≡◌, ℕ, min, ◌&&◌, if◌then◌else◌, ◌==◌};
ghost use Rattle.access.specs.Contexts.{inside};
ghost use Rattle.layers.specs.Labels.{label_of};

use access::numbers::index_in;

/// The levels, or the owners, of the contexts 1 to 256.
#[derive(Clone, Copy, Debug, PartialEq, Eq)]
pub struct Labels {
    numbers: [u8; 256],
}

impl Labels {
    /// Every context has the label 0.
    pub fn zero() -> Labels
        ensures { (c : ℕ) → label_of result c ≡ 0 }
    {
        Labels { numbers: [0; 256] }
    }

    /// The same labels, but for one context: more than 15 counts as 15. A number outside 1 to 256 is no context, and no label changes.
    pub fn with(mut self, context: u16, label: u8) -> Labels
        ensures { (c : ℕ) → label_of result c ≡ (if inside 256 context && c == context then min label 15 else label_of self c) }
    {
        if let Some(index) = index_in(256, context) {
            self.numbers[index] = label.min(15);
        }
        self
    }

    /// The label of a context, and 0 for a number that is none.
    pub fn of(&self, context: u16) -> u8
        ensures { result ≡ label_of self.now context }
    {
        index_in(256, context).map_or(0, |index| self.numbers[index])
    }
}
