//! Words that name operations.
ghost use Rattle.std.specs.Prelude.{◌≡◌};
ghost use Rattle.words.specs.Left.{seen, left};
ghost use Rattle.words.specs.Operations.{operation_named, operations_in};

use crate::flaw::Flaw;
use crate::word::{Word, Words};
use access::operation::Operation;
use access::operation_set::OperationSet;
use access::refusal::Refusal;

/// Each operation once.
const ALL: [Operation; 12] = [
    Operation::Read,
    Operation::Write,
    Operation::Append,
    Operation::Update,
    Operation::Execute,
    Operation::Become,
    Operation::Stat,
    Operation::Lock,
    Operation::Unlock,
    Operation::Signal,
    Operation::Send,
    Operation::Receive,
];

/// The operation of a name.
fn named(word: &[u8]) -> Option<Operation>
    ensures { result ≡ operation_named word.now }
{
    ALL.iter()
        .copied()
        .find(|operation| operation.name().as_bytes() == word)
}

/// The set of the operations that words name.
pub fn operations(words: Words<'_>) -> Result<OperationSet, Flaw>
    ensures { result ≡ operations_in (left words.entry) }
{
    let mut set = OperationSet::none();
    for word in words {
        let Some(operation) = named(word.bytes) else {
            return Err(Flaw::at(word, Refusal::UnfitWord));
        };
        set = set.with(operation);
    }
    Ok(set)
}
