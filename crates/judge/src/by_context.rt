//! A value for each context.
ghost use Rattle.std.specs.Prelude.{◌≡◌, ℕ, ◌≤◌, true, false};
ghost use Rattle.access.specs.Contexts.{inside};
ghost use Rattle.judge.specs.Contextual.{value_of};

use access::numbers::index_in;

/// A value for each context from 1 to 256, and a blank one for every other number.
#[derive(Clone, Copy)]
pub(crate) struct ByContext<T> {
    kept: [T; 256],
    blank: T,
}

impl<T: Copy> ByContext<T> {
    /// What a function gives for each context from 1 to `contexts`, and the blank value for the others.
    pub(crate) fn of<F: Fn(u16) -> T>(contexts: u16, blank: T, value: F) -> ByContext<T>
        requires few { contexts ≤ 256 }
        requires callable { F.IsAlwaysCallable value }
        ensures given { (c : ℕ) → inside contexts c ≡ true → F.post value c (value_of result c) }
        ensures others { (c : ℕ) → inside contexts c ≡ false → value_of result c ≡ blank }
    {
        let mut kept = [blank; 256];
        for index in 0..contexts {
            kept[usize::from(index)] = value(index + 1);
        }
        ByContext { kept, blank }
    }

    pub(crate) fn at(&self, context: u16) -> &T
        ensures { result.now ≡ value_of self.now context }
    {
        match index_in(256, context) {
            Some(index) => &self.kept[index],
            None => &self.blank,
        }
    }
}
