//! The notes of an open change.
ghost use Rattle.std.specs.Prelude.{◌≡◌, cond, [], ◌∷◌, length, nat_le, nat_lt};
ghost use Rattle.sheet.specs.Noted.{Took};

use crate::note::Note;
use access::operation_set::OperationSet;
use std::marker::Model;

/// How many settings an open change notes at most.
const MOST_NOTES: usize = 128;

/// The first `count` of the list are the notes, in the order in which they came.
#[derive(Drop)]
pub(crate) struct Notes {
    // An array and a count: a sheet has fixed memory and no heap.
    list: [Note; MOST_NOTES],
    count: usize,
}

// Clauses see the notes, the latest first.
impl Model for Notes {
    ghost use Rattle.std.specs.Prelude.{List, ◌≡◌, ◌≤◌, length};
    ghost use Rattle.sheet.specs.declared.note.Note.{Note};
    ghost use Rattle.sheet.specs.Noted.{latest};

    ghost Value = { List Note };

    ghost view = { λ notes. latest notes.list notes.count };

    ghost invariant = { λ notes. (length notes.list ≡ 128) × (notes.count ≤ 128) };
}

impl Notes {
    pub(crate) fn none() -> Notes
        ensures { result ≡ [] }
    {
        let blank = Note {
            subject: 0,
            target: 0,
            before: OperationSet::none(),
        };
        Notes {
            list: [blank; MOST_NOTES],
            count: 0,
        }
    }

    pub(crate) fn are_full(&self) -> bool
        ensures { result ≡ nat_le 128 (length self.now) }
    {
        self.count >= MOST_NOTES
    }

    /// Adds a note where there is room.
    pub(crate) fn add(&mut self, note: Note)
        ensures { self.new ≡ cond (nat_lt (length self.old) 128) (note ∷ self.old) self.old }
    {
        if self.count < MOST_NOTES {
            self.list[self.count] = note;
            self.count += 1;
        }
    }

    /// Takes the latest note off.
    pub(crate) fn take_latest(&mut self) -> Option<Note>
        ensures { Took self.old result self.new }
    {
        self.count = self.count.checked_sub(1)?;
        Some(self.list[self.count])
    }
}
