//! The twelve operations and their kinds.
ghost use Rattle.std.specs.Prelude.{◌≡◌, Some};
ghost use Rattle.access.specs.Operations.{number_of, kind_of, name_of, Numbered};

use std::fmt;

/// What an operation does: which way information goes by it, if any.
#[derive(Clone, Copy, Debug, PartialEq, Eq)]
pub enum Kind {
    Reads,
    Writes,
    ReadsAndWrites,
    Executes,
    Becomes,
    Neither,
}

/// An operation that a subject may do on a target. Its number is its place in this list, from 0.
#[derive(Clone, Copy, Debug, PartialEq, Eq)]
pub enum Operation {
    Read,
    Write,
    Append,
    Update,
    Execute,
    Become,
    Stat,
    Lock,
    Unlock,
    Signal,
    Send,
    Receive,
}

/// A number that none of the twelve operations has.
#[derive(Clone, Copy, Debug, PartialEq, Eq)]
pub struct UnknownOperation(pub u8);

impl Operation {
    pub fn kind(self) -> Kind
        ensures { result ≡ kind_of (number_of self) }
    {
        match self {
            Operation::Read | Operation::Stat | Operation::Receive => Kind::Reads,
            Operation::Write | Operation::Append | Operation::Signal | Operation::Send => {
                Kind::Writes
            }
            Operation::Update => Kind::ReadsAndWrites,
            Operation::Execute => Kind::Executes,
            Operation::Become => Kind::Becomes,
            Operation::Lock | Operation::Unlock => Kind::Neither,
        }
    }

    /// The name by which policy texts and reports call the operation.
    // Beside `Display`: reading a policy text compares names, and a formatter only writes them.
    pub fn name(self) -> &'static str
        ensures { result.now ≡ name_of self }
    {
        match self {
            Operation::Read => "read",
            Operation::Write => "write",
            Operation::Append => "append",
            Operation::Update => "update",
            Operation::Execute => "execute",
            Operation::Become => "become",
            Operation::Stat => "stat",
            Operation::Lock => "lock",
            Operation::Unlock => "unlock",
            Operation::Signal => "signal",
            Operation::Send => "send",
            Operation::Receive => "receive",
        }
    }
}

impl From<Operation> for u8 {
    ghost from_gives = { λ operation number. number ≡ number_of operation };

    fn from(operation: Operation) -> u8 {
        operation as u8
    }
}

impl TryFrom<u8> for Operation {
    type Error = UnknownOperation;

    ghost try_from_gives = { Numbered };

    fn try_from(number: u8) -> Result<Operation, UnknownOperation> {
        match number {
            0 => Ok(Operation::Read),
            1 => Ok(Operation::Write),
            2 => Ok(Operation::Append),
            3 => Ok(Operation::Update),
            4 => Ok(Operation::Execute),
            5 => Ok(Operation::Become),
            6 => Ok(Operation::Stat),
            7 => Ok(Operation::Lock),
            8 => Ok(Operation::Unlock),
            9 => Ok(Operation::Signal),
            10 => Ok(Operation::Send),
            11 => Ok(Operation::Receive),
            _ => Err(UnknownOperation(number)),
        }
    }
}

impl fmt::Display for Operation {
    ghost output = { λ operation. Some (name_of operation) };

    fn fmt<W: fmt::Write>(&self, f: &mut fmt::Formatter<W>) -> fmt::Result {
        f.write_str(self.name())
    }
}
