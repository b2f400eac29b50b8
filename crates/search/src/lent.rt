//! Two forms over lent memory: a list that grows in a slice, and bytes that are zero again when they are handed back.

ghost use Rattle.std.specs.Prelude.{◌≡◌, ◌<◌, ◌≤◌, length, set, replicate, Some, None, Ok, Err, slice_index_or, slice_set};
ghost use Rattle.search.specs.Changes.{Pushed};

/// A list whose items are the first `len` of a lent slice: memory is lent and fixed, so a vector cannot hold them.
// Each contract of a call that may change the list says that its slice is still the lent one, and so in `Cleared`: an invariant could
// not know which that was.
#[derive(Drop)]
pub struct List<'a, T> {
    items: &'a mut [T],
    len: usize,
    ghost within: { len ≤ length items.now },
}

impl<'a, T: Copy> List<'a, T> {
    /// The empty list over a slice, which stays as it is.
    pub fn over(items: &'a mut [T]) -> List<'a, T>
        ensures lender { result.items.ghost_name ≡ items.entry.ghost_name }
        ensures same { result.items.now ≡ items.old }
        ensures empty { result.len ≡ 0 }
    {
        List { items, len: 0 }
    }

    pub fn len(&self) -> usize
        ensures { result ≡ self.now.len }
    {
        self.len
    }

    /// Writes `item` behind the items, or hands it back where the slice is full.
    pub fn push(&mut self, item: T) -> Result<(), T>
        ensures lender { self.new.items.ghost_name ≡ self.old.items.ghost_name }
        ensures pushed { Pushed self.old.items.now self.old.len item self.new.items.now self.new.len result }
    {
        // By index, and so in `put` and `tick`: after a `get_mut` of a slice its other items are not known to be the same.
        if self.len < self.items.len() {
            self.items[self.len] = item;
            self.len += 1;
            Ok(())
        } else {
            Err(item)
        }
    }

    pub fn get(&self, i: usize) -> Option<T>
        ensures { elim result [ Some x ↦ (i < self.now.len) × (slice_index_or self.now.items.now i x ≡ x) | None ↦ self.now.len ≤ i ] }
    {
        self.items[..self.len].get(i).copied()
    }

    /// Writes `item` over the item `i`, or hands it back where there is none.
    pub fn put(&mut self, i: usize, item: T) -> Result<(), T>
        ensures lender { self.new.items.ghost_name ≡ self.old.items.ghost_name }
        ensures len { self.new.len ≡ self.old.len }
        ensures put { elim result [ Ok _ ↦ (i < self.old.len) × (self.new.items.now ≡ slice_set self.old.items.now i item) | Err e ↦ (self.old.len ≤ i) × (self.new.items.now ≡ self.old.items.now) × (e ≡ item) ] }
    {
        if i < self.len {
            self.items[i] = item;
            Ok(())
        } else {
            Err(item)
        }
    }
}

/// Tick bytes on loan, zero at first and zero again when the loan ends.
pub struct Cleared<'a> {
    bytes: &'a mut [u8],
}

impl<'a> Cleared<'a> {
    pub fn over(bytes: &'a mut [u8]) -> Cleared<'a>
        ensures lender { result.bytes.ghost_name ≡ bytes.entry.ghost_name }
        ensures zero { result.bytes.now ≡ replicate (length bytes.old) 0 }
    {
        bytes.fill(0);
        Cleared { bytes }
    }

    pub fn len(&self) -> usize
        ensures { result ≡ length self.now.bytes.now }
    {
        self.bytes.len()
    }

    /// Ticks the byte `i`, if there is one.
    pub fn tick(&mut self, i: usize)
        ensures lender { self.new.bytes.ghost_name ≡ self.old.bytes.ghost_name }
        ensures set { self.new.bytes.now ≡ slice_set self.old.bytes.now i 1 }
    {
        if i < self.bytes.len() {
            self.bytes[i] = 1;
        }
    }
}

// By hand, since a derived one would hand the bytes back as they are.
impl Drop for Cleared<'_> {
    fn drop(self)
        ensures { self.exit.0.now ≡ replicate (length self.entry.bytes.now) 0 }
    {
        self.bytes.fill(0);
        let Cleared { bytes: _ } = self;
    }
}
