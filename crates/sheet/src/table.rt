//! A table with a place for one entry under each number from 1 to N.
ghost use Rattle.std.specs.Prelude.{◌≡◌, length, is_some, None, OnErr};
ghost use Rattle.access.specs.Refusals.{answer, when_accepted};
ghost use Rattle.sheet.specs.Entries.{put, put_within, listed, in_order};
ghost use Rattle.sheet.specs.Standing.{entry_at, entering_refusal, striking_refusal};

use access::numbers::index_in;
use access::refusal::Refusal;

#[derive(Drop)]
pub struct Table<E, const N: usize> {
    entries: [Option<E>; N],
    ghost sized: { length entries ≡ N },
}

impl<E: Copy, const N: usize> Table<E, N> {
    ghost use Rattle.sheet.specs.Held.{held};

    pub fn new() -> Table<E, N>
        ensures { held result ≡ (λ k. None) }
    {
        Table { entries: [None; N] }
    }

    /// The entry under a number.
    pub fn get(&self, number: u16) -> Option<E>
        ensures { result ≡ held self.now number }
    {
        let index = index_in(N, number)?;
        self.entries[index]
    }

    /// Whether an entry stands under a number.
    pub fn stands(&self, number: u16) -> bool
        ensures { result ≡ is_some (held self.now number) }
    {
        self.get(number).is_some()
    }

    /// The entry under a number, or why there is none.
    pub fn standing(&self, number: u16) -> Result<E, Refusal>
        ensures { result ≡ entry_at N (held self.now) number }
    {
        let index = index_in(N, number).ok_or(Refusal::NumberOutside)?;
        self.entries[index].ok_or(Refusal::StandsNot)
    }

    /// Checks that a number is free to be entered.
    pub fn vacant(&self, number: u16) -> Result<(), Refusal>
        ensures { result ≡ answer (entering_refusal N (held self.now) number) }
    {
        let index = index_in(N, number).ok_or(Refusal::NumberOutside)?;
        match self.entries[index] {
            Some(_) => Err(Refusal::StandsAlready),
            None => Ok(()),
        }
    }

    /// All entries, the one under 1 first.
    pub fn all(&self) -> &[Option<E>; N]
        ensures listed { listed N result.now ≡ held self.now }
        ensures ordered { result.now ≡ in_order (held self.now) 0 N }
    {
        &self.entries
    }

    /// Replaces the entry under a number from 1 to N; another number changes nothing.
    pub fn put(&mut self, number: u16, entry: Option<E>)
        ensures { held self.new ≡ put_within N (held self.old) number entry }
    {
        if let Some(index) = index_in(N, number) {
            self.entries[index] = entry;
        }
    }

    /// Takes the entry under a number away, or is refused and alters nothing.
    pub fn strike(&mut self, number: u16) -> Result<(), Refusal>
        ensures told { result ≡ answer (striking_refusal N (held self.old) number) }
        ensures done { held self.new ≡ when_accepted (striking_refusal N (held self.old) number) (put (held self.old) number None) (held self.old) }
        ensures kept { OnErr result (self.new ≡ self.old) }
    {
        self.standing(number)?;
        self.put(number, None);
        Ok(())
    }
}
