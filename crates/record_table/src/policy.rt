//! The record table as a policy.
ghost use Rattle.std.specs.Prelude.{◌≡◌, ℕ, ◌<◌, ◌≤◌, min, max, false};
ghost use Rattle.access.specs.Contexts.{both_inside};
ghost use Rattle.access.specs.Setting.{no_room, with_set};
ghost use Rattle.record_table.specs.Chains.{first_of};
ghost use Rattle.record_table.specs.Chained.{TableChained};
ghost use Rattle.record_table.specs.TableMeaning.{table_meaning, empty_table, Pair, Has, Lacks, Own};
ghost use Rattle.record_table.specs.TableLaws.{table_sound, SoundChains};

use crate::chains::{Chains, Record, UNUSED};
use crate::table::RecordTable;
use access::numbers::is_within;
use access::operation_set::OperationSet;
use access::policy::Policy;
use access::refusal::Refusal;
use access::setting::check_setting;

impl RecordTable {
    /// A table with no pair, for the number of contexts from 1 to 256 that is nearest to the wished one.
    pub fn new(wished: u16) -> RecordTable
        ensures { table_meaning result ≡ empty_table (min (max wished 1) 256) }
    {
        RecordTable {
            contexts: wished.clamp(1, 256),
            chains: Chains::all_unused(),
        }
    }

    /// Every record is in exactly one chain, every chain ends, and a pair has at most one record: this holds of every table.
    pub fn chains_stand(&self)
        ensures { TableChained self.now }
    {}

    /// Whether both are contexts of this table.
    fn has_both(&self, subject: u16, target: u16) -> bool
        ensures { result ≡ both_inside self.now.contexts subject target }
    {
        is_within(self.contexts, subject) && is_within(self.contexts, target)
    }

    /// The number of a pair's record.
    fn find(&self, subject: u16, target: u16) -> Option<u16>
        requires { subject ≤ 256 }
        ensures { Own self.now subject target result }
    {
        self.chains.find(self.chains.first(subject), |record| record.target == target)
    }

    /// Whether a pair whose record is `found` cannot get operations for want of an unused record.
    fn lacks_room(&self, found: Option<u16>, operations: OperationSet) -> bool
        ensures { (subject target : ℕ) → Pair self.now.contexts subject target → Own self.now subject target found → result ≡ no_room (table_meaning self.now) subject target operations.bits }
    {
        match found {
            Some(_) => false,
            None => !operations.is_empty() && self.chains.first(UNUSED) == 0,
        }
    }

    /// Goes on with other chains.
    fn replace(&mut self, chains: Chains)
        requires { SoundChains self.old.contexts chains }
        ensures contexts { self.new.contexts ≡ self.old.contexts }
        ensures chains { self.new.chains ≡ chains }
    {
        *self = RecordTable {
            contexts: self.contexts,
            chains,
        };
    }

    /// Replaces the operations of record `number`, which the pair has.
    // Here and below, that the pair is one of this table, and what the setting makes of its meaning, stands at each function: a type of
    // pairs could not know the table. That the set is a known one stands there too: a second type of sets would serve these alone.
    fn change(&mut self, subject: u16, target: u16, number: u16, operations: OperationSet)
        requires pair { Pair self.old.contexts subject target }
        requires some { 1 ≤ operations.bits }
        requires known { operations.bits < 4096 }
        requires has { Has self.old subject target number }
        ensures { table_meaning self.new ≡ with_set (table_meaning self.old) subject target operations.bits }
    {
        let mut chains = self.chains;
        chains.put(
            number,
            Record {
                operations,
                ..chains.at(number)
            },
        );
        self.replace(chains);
    }

    /// Gives the pair, which has no record, the first unused one.
    fn add(&mut self, subject: u16, target: u16, operations: OperationSet)
        requires pair { Pair self.old.contexts subject target }
        requires some { 1 ≤ operations.bits }
        requires known { operations.bits < 4096 }
        requires lacks { Lacks self.old subject target }
        requires room { 1 ≤ first_of self.old.chains.heads 0 }
        ensures { table_meaning self.new ≡ with_set (table_meaning self.old) subject target operations.bits }
    {
        let mut chains = self.chains;
        let number = chains.first(UNUSED);
        chains.heads[usize::from(UNUSED)] = chains.at(number).next;
        chains.push(subject, number, target, operations);
        self.replace(chains);
    }

    /// Empties the pair: its record `number` goes back to the unused ones.
    fn remove(&mut self, subject: u16, target: u16, number: u16)
        requires pair { Pair self.old.contexts subject target }
        requires has { Has self.old subject target number }
        ensures { table_meaning self.new ≡ with_set (table_meaning self.old) subject target 0 }
    {
        let mut chains = self.chains;
        chains.unlink(subject, number);
        chains.push(UNUSED, number, 0, OperationSet::none());
        self.replace(chains);
    }

    /// Replaces the operations of a pair, whose record is `found`.
    fn store(&mut self, subject: u16, target: u16, found: Option<u16>, operations: OperationSet)
        requires pair { Pair self.old.contexts subject target }
        requires known { operations.bits < 4096 }
        requires own { Own self.old subject target found }
        requires room { no_room (table_meaning self.old) subject target operations.bits ≡ false }
        ensures { table_meaning self.new ≡ with_set (table_meaning self.old) subject target operations.bits }
    {
        match (found, operations.is_empty()) {
            (Some(number), true) => self.remove(subject, target, number),
            (Some(number), false) => self.change(subject, target, number, operations),
            (None, true) => {}
            (None, false) => self.add(subject, target, operations),
        }
    }
}

impl Policy for RecordTable {
    ghost meaning = { table_meaning };

    ghost sound = { λ p. table_sound p };

    fn contexts(&self) -> u16 {
        self.contexts
    }

    fn capacity(&self) -> u32 {
        1024
    }

    fn written(&self, subject: u16, target: u16) -> OperationSet {
        if !self.has_both(subject, target) {
            return OperationSet::none();
        }
        match self.find(subject, target) {
            Some(number) => self.chains.at(number).operations,
            None => OperationSet::none(),
        }
    }

    fn permitted(&self, subject: u16, target: u16) -> OperationSet {
        if self.has_both(subject, target) {
            OperationSet::all()
        } else {
            OperationSet::none()
        }
    }

    fn set(&mut self, subject: u16, target: u16, operations: OperationSet) -> Result<(), Refusal> {
        check_setting(self.contexts, subject, target, operations)?;
        let found = self.find(subject, target);
        if self.lacks_room(found, operations) {
            return Err(Refusal::PolicyFull);
        }
        self.store(subject, target, found, operations);
        Ok(())
    }
}
