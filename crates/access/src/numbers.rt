//! Numbers that count from 1: those of contexts, of grants and of properties.
ghost use Rattle.std.specs.Prelude.{◌≡◌};
ghost use Rattle.access.specs.Contexts.{inside, index_of};

/// Whether a number is one from 1 to `most`.
pub fn is_within(most: u16, number: u16) -> bool
    ensures { result ≡ inside most number }
{
    (1..=most).contains(&number)
}

/// The index of a number in a list of `most`, of which the first has number 1.
pub fn index_in(most: usize, number: u16) -> Option<usize>
    ensures { result ≡ index_of most number }
{
    usize::from(number)
        .checked_sub(1)
        .filter(|&index| index < most)
}
