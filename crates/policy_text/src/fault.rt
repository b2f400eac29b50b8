//! Where a policy text is refused.
ghost use Rattle.std.specs.Prelude.{◌≡◌, Some};
ghost use Rattle.policy_text.specs.Faults.{layer_of, fault_words};
ghost use Rattle.policy_text.specs.Texts.{on_line};

use access::refusal::Refusal;
use std::error::Error;
use std::fmt;
use words::flaw::Flaw;

/// Why and where a policy text is refused. Lines and columns count from 1.
#[derive(Clone, Copy, Debug, PartialEq, Eq)]
pub struct Fault {
    pub refusal: Refusal,
    pub line: usize,
    pub column: usize,
}

impl Fault {
    /// The fault of a line with a flaw.
    pub fn on(line: usize, flaw: Flaw) -> Fault
        ensures { result ≡ on_line line flaw }
    {
        Fault {
            refusal: flaw.refusal,
            line,
            column: flaw.column,
        }
    }

    /// The stage of reading that finds the fault, which its line calls a layer: 1 for lines, 2 for words, 3 for the calls of the sheet.
    pub fn layer(self) -> u8
        ensures { result ≡ layer_of self.refusal }
    {
        match self.refusal {
            Refusal::LongText | Refusal::UnfitLine | Refusal::ContextCount => 1,
            Refusal::UnfitWord | Refusal::UnfitName => 2,
            _ => 3,
        }
    }
}

impl fmt::Display for Fault {
    ghost output = { λ fault. Some (fault_words fault) };

    fn fmt<W: fmt::Write>(&self, f: &mut fmt::Formatter<W>) -> fmt::Result {
        let number = u8::from(self.refusal);
        let line = self.line;
        let column = self.column;
        let layer = self.layer();
        write!(
            f,
            "fault {number} line {line} column {column} layer {layer}"
        )
    }
}

impl Error for Fault {}
