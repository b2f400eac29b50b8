//! The calls of a sheet as values.
use access::operation_set::OperationSet;
use access::property::Property;
use judge::grant::Grant;

/// A call with its arguments.
#[derive(Clone, Copy, Debug, PartialEq, Eq)]
pub enum Request {
    Set {
        subject: u16,
        target: u16,
        operations: OperationSet,
    },
    EnterGrant {
        number: u16,
        grant: Grant,
    },
    StrikeGrant {
        number: u16,
    },
    EnterProperty {
        number: u16,
        property: Property,
    },
    StrikeProperty {
        number: u16,
    },
    Open,
    Adopt,
    Withdraw,
    /// Of the lent memory its lengths.
    Judge {
        number: u16,
        ticks: usize,
        places: usize,
        steps: usize,
    },
    AskSettings,
    AskContexts,
    AskCapacity,
    AskWritten {
        subject: u16,
        target: u16,
    },
    AskPermitted {
        subject: u16,
        target: u16,
    },
}
