//! What a policy text says before it calls the sheet.
ghost use Rattle.std.specs.Prelude.{◌≡◌, ◌+◌, ◌<◌, ◌≤◌, List, [], ◌∷◌, ◌++◌, length, OnOk};
ghost use Rattle.words.specs.Left.{seen, left};
ghost use Rattle.sheet.specs.Book.{start};
ghost use Rattle.sheet.specs.Shown.{shown};
ghost use Rattle.sheet.specs.declared.request.Request.{Request};
ghost use Rattle.policy_text.specs.Calls.{then};
ghost use Rattle.policy_text.specs.Reading.{nothing, meaning_of};
ghost use Rattle.policy_text.specs.Lines.{new_name_in, declared, constrained};
ghost use Rattle.policy_text.specs.Shown.{reading, after};

use crate::pile::Pile;
use access::operation_set::OperationSet;
use layers::labels::Labels;
use layers::level::LevelLayer;
use layers::owner::OwnerLayer;
use record_table::table::RecordTable;
use sheet::sheet::Sheet;
use words::context::name;
use words::flaw::Flaw;
use words::names::Names;
use words::number::label;
use words::operation::operations;
use words::word::{Word, Words};

/// What `context` and `constrain` lines say.
#[derive(Drop)]
pub(crate) struct Head {
    pub(crate) names: Names,
    levels: Labels,
    owners: Labels,
    pub(crate) constrained: OperationSet,
}

/// Names the next context, and answers its number.
fn name_next(names: &mut Names, new: Word<'_>) -> Result<u16, Flaw>
    ensures told { length names.old < 256 → result ≡ then (new_name_in names.old (seen new.entry)) (λ _. Ok (length names.old + 1)) }
    ensures done { OnOk result (names.new ≡ names.old ++ new.entry.bytes.now ∷ []) }
{
    match names.declare(name(new)?) {
        Ok(()) => Ok(names.count()),
        Err(refusal) => Err(Flaw::at(new, refusal)),
    }
}

impl Head {
    pub(crate) fn new() -> Head
        ensures { reading result [] ≡ nothing }
    {
        Head {
            names: Names::new(),
            levels: Labels::zero(),
            owners: Labels::zero(),
            constrained: OperationSet::none(),
        }
    }

    /// A line `context NAME LEVEL OWNER`, where one context more may be declared.
    pub(crate) fn declare(
        &mut self,
        new: Word<'_>,
        level: Word<'_>,
        owner: Word<'_>,
    ) -> Result<(), Flaw>
        ensures { (calls : List Request) → length self.old.names < 256 → after result (reading self.new calls) ≡ declared (reading self.old calls) (seen new.entry) (seen level.entry) (seen owner.entry) }
    {
        let context = name_next(&mut self.names, new)?;
        let level = label(level)?;
        let owner = label(owner)?;
        self.levels = self.levels.with(context, level);
        self.owners = self.owners.with(context, owner);
        Ok(())
    }

    /// A line `constrain OP ..`.
    pub(crate) fn constrain(&mut self, more: Words<'_>) -> Result<(), Flaw>
        ensures { (calls : List Request) → after result (reading self.new calls) ≡ constrained (reading self.old calls) (left more.entry) }
    {
        self.constrained = self.constrained.or(operations(more)?);
        Ok(())
    }

    /// The sheet before any call.
    pub(crate) fn lay_out(&self) -> Sheet<Pile>
        ensures { 1 ≤ length self.now.names → shown result ≡ start (meaning_of (reading self.now [])) }
    {
        let table = RecordTable::new(self.names.count());
        let owned = OwnerLayer::new(table, self.owners, self.constrained);
        Sheet::lay_out(LevelLayer::new(owned, self.levels))
    }
}
