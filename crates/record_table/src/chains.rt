//! 1,024 records, with the numbers 1 to 1024, linked into chains.
ghost use Rattle.std.specs.Prelude.{◌≡◌, ℕ, ◌+◌, ◌-◌, ◌<◌, ◌≤◌, Bool, length, get_or, set, replicate, IfSome};
ghost use Rattle.record_table.specs.Chains.{blank, unused_before, numbered, first_of, first_that, ahead, with_record, cut, in_front, LinksLow};

use access::operation_set::OperationSet;
use std::array;

/// The chain of the records that are not in use.
pub(crate) const UNUSED: u16 = 0;

/// One record of a chain: the next one's number is 0 where the chain ends.
#[derive(Clone, Copy, Debug, PartialEq, Eq)]
pub struct Record {
    pub(crate) target: u16,
    pub(crate) operations: OperationSet,
    // 0 for none, and so in `heads`: the form of a record is fixed, a number of 16 bits for a link.
    pub(crate) next: u16,
}

impl Record {
    /// A record that is not in use, with the number of the next one.
    pub(crate) fn unused(next: u16) -> Record
        ensures { result ≡ unused_before next }
    {
        Record {
            target: 0,
            operations: OperationSet::none(),
            next,
        }
    }
}

/// The records, and the number of each chain's first one, or 0.
// Arrays side by side with links by number: a table has fixed memory and no heap.
#[derive(Clone, Copy, Debug, PartialEq, Eq)]
pub struct Chains {
    pub(crate) heads: [u16; 257],
    pub(crate) slots: [Record; 1024],
}

impl Chains {
    /// All records in the unused chain: 1, 2, .. 1024, and no more.
    pub(crate) fn all_unused() -> Chains
        ensures heads { result.heads ≡ set (replicate 257 0) 0 1 }
        ensures all { length result.slots ≡ 1024 }
        ensures links { (k : ℕ) → k < 1023 → get_or result.slots k blank ≡ unused_before (k + 2) }
        ensures last { get_or result.slots 1023 blank ≡ blank }
    {
        let mut heads = [0; 257];
        heads[usize::from(UNUSED)] = 1;
        // An index below 1,024 fits a `u16`.
        let mut slots = array::from_fn(|index| Record::unused(index as u16 + 2));
        slots[1023] = Record::unused(0);
        Chains { heads, slots }
    }

    /// The number of the chain's first record, or 0.
    // Here and below, that a number is one from 1 to 1,024 or a chain one up to 256 stands at each function that takes one: records
    // store plain numbers with 0 for none, so a type of numbers would be made and taken apart at each use.
    pub(crate) fn first(&self, chain: u16) -> u16
        requires { chain ≤ 256 }
        ensures { result ≡ first_of self.now.heads chain }
    {
        self.heads[usize::from(chain)]
    }

    /// The record with this number.
    pub(crate) fn at(&self, number: u16) -> Record
        requires { (1 ≤ number) × (number ≤ 1024) }
        ensures { result ≡ numbered self.now.slots number }
    {
        self.slots[usize::from(number - 1)]
    }

    /// Puts another record at this number.
    pub(crate) fn put(&mut self, number: u16, new: Record)
        requires { (1 ≤ number) × (number ≤ 1024) }
        ensures { self.new ≡ with_record self.old number new }
    {
        self.slots[usize::from(number - 1)] = new;
    }

    /// The first record that passes the test, on the chain that begins with record `first`.
    pub(crate) fn find<F: Fn(Record) -> bool>(&self, first: u16, test: F) -> Option<u16>
        requires low { (first ≤ 1024) × (LinksLow self.now.slots) }
        requires callable { F.IsAlwaysCallable test }
        ensures is { (p : Record → Bool) → ((r : Record) (b : Bool) → F.post test r b → b ≡ p r) → result ≡ first_that 1024 p (numbered self.now.slots) first }
        ensures within { IfSome result (λ i. (1 ≤ i) × (i ≤ 1024)) }
    {
        let mut number = first;
        // No chain has more records, and a loop has to end.
        for _ in 0..1024u16 {
            if number == 0 {
                return None;
            }
            let record = self.at(number);
            if test(record) {
                return Some(number);
            }
            number = record.next;
        }
        None
    }

    /// Takes record `number` out of chain `chain`.
    pub(crate) fn unlink(&mut self, chain: u16, number: u16)
        requires places { (chain ≤ 256) × ((1 ≤ number) × (number ≤ 1024)) }
        requires low { (first_of self.old.heads chain ≤ 1024) × (LinksLow self.old.slots) }
        ensures out { self.new ≡ cut (ahead (numbered self.old.slots) number (first_of self.old.heads chain)) self.old chain (numbered self.old.slots number).next }
        ensures within { IfSome (ahead (numbered self.old.slots) number (first_of self.old.heads chain)) (λ b. (1 ≤ b) × (b ≤ 1024)) }
    {
        let next = self.at(number).next;
        match self.find(self.first(chain), |record| record.next == number) {
            Some(before) => self.put(
                before,
                Record {
                    next,
                    ..self.at(before)
                },
            ),
            None => self.heads[usize::from(chain)] = next,
        }
    }

    /// Puts record `number`, which is in no chain, in front of chain `chain`.
    pub(crate) fn push(&mut self, chain: u16, number: u16, target: u16, operations: OperationSet)
        requires { (chain ≤ 256) × ((1 ≤ number) × (number ≤ 1024)) }
        ensures { self.new ≡ in_front self.old chain number target operations.bits }
    {
        let next = self.first(chain);
        self.put(
            number,
            Record {
                target,
                operations,
                next,
            },
        );
        self.heads[usize::from(chain)] = number;
    }
}
