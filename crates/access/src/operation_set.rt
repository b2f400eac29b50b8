//! Sets of operations.
ghost use Rattle.std.specs.Prelude.{◌≡◌, MatchOption, nat_eq, bit_and, bit_or};
ghost use Rattle.access.specs.Operations.{number_of, has, one, without, unknown, set_of, read_op, write_op, execute_op, become_op, any_op, Lowest, LacksAll};

use crate::operation::Operation;

/// Sixteen bits; bit o stands for operation o. Bits 12 to 15 stand for none, and no policy keeps them.
#[derive(Clone, Copy, Debug, PartialEq, Eq)]
pub struct OperationSet {
    pub bits: u16,
}

/// The set of one operation.
impl From<Operation> for OperationSet {
    ghost from_gives = { λ operation set. set.bits ≡ one (number_of operation) };

    fn from(operation: Operation) -> OperationSet {
        OperationSet {
            bits: 1 << u8::from(operation),
        }
    }
}

impl OperationSet {
    pub fn none() -> OperationSet
        ensures { result.bits ≡ 0 }
    {
        OperationSet { bits: 0 }
    }

    pub fn all() -> OperationSet
        ensures { result.bits ≡ set_of any_op 12 }
    {
        OperationSet { bits: 4095 }
    }

    /// The operations by which a subject gets information from a target.
    pub fn read_like() -> OperationSet
        ensures { result.bits ≡ set_of read_op 12 }
    {
        OperationSet::none()
            .with(Operation::Read)
            .with(Operation::Update)
            .with(Operation::Stat)
            .with(Operation::Receive)
    }

    /// The operations by which a subject gives information to a target.
    pub fn write_like() -> OperationSet
        ensures { result.bits ≡ set_of write_op 12 }
    {
        OperationSet::none()
            .with(Operation::Write)
            .with(Operation::Append)
            .with(Operation::Update)
            .with(Operation::Signal)
            .with(Operation::Send)
    }

    pub fn execute() -> OperationSet
        ensures { result.bits ≡ set_of execute_op 12 }
    {
        OperationSet::from(Operation::Execute)
    }

    /// The operation by which a program takes on another context.
    pub fn transition() -> OperationSet
        ensures { result.bits ≡ set_of become_op 12 }
    {
        OperationSet::from(Operation::Become)
    }

    pub fn has(self, operation: Operation) -> bool
        ensures { result ≡ has self.bits (number_of operation) }
    {
        (self.bits >> u8::from(operation)) & 1 == 1
    }

    pub fn with(self, operation: Operation) -> OperationSet
        ensures { result.bits ≡ bit_or self.bits (one (number_of operation)) }
    {
        OperationSet {
            bits: self.bits | 1 << u8::from(operation),
        }
    }

    /// The operations of both sets.
    pub fn and(self, other: OperationSet) -> OperationSet
        ensures { result.bits ≡ bit_and self.bits other.bits }
    {
        OperationSet {
            bits: self.bits & other.bits,
        }
    }

    /// The operations of either set.
    pub fn or(self, other: OperationSet) -> OperationSet
        ensures { result.bits ≡ bit_or self.bits other.bits }
    {
        OperationSet {
            bits: self.bits | other.bits,
        }
    }

    /// The operations of this set that the other lacks.
    pub fn without(self, other: OperationSet) -> OperationSet
        ensures { result.bits ≡ without self.bits other.bits }
    {
        OperationSet {
            bits: self.bits - (self.bits & other.bits),
        }
    }

    pub fn is_empty(self) -> bool
        ensures { result ≡ nat_eq self.bits 0 }
    {
        self.bits == 0
    }

    /// Whether a bit from 12 to 15 is set.
    pub fn has_unknown(self) -> bool
        ensures { result ≡ unknown self.bits }
    {
        self.bits >= 4096
    }

    /// The operation of the set with the lowest number.
    pub fn lowest(self) -> Option<Operation>
        ensures { MatchOption result (LacksAll self.bits) (λ o. Lowest self.bits (number_of o)) }
    {
        Operation::try_from(self.bits.trailing_zeros() as u8).ok()
    }
}
