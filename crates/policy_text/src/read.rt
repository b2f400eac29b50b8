//! Reads a policy text.
ghost use Rattle.std.specs.Prelude.{◌≡◌};
ghost use Rattle.policy_text.specs.Texts.{text_read};
ghost use Rattle.policy_text.specs.Shown.{Reads};

use crate::controller::Controller;
use crate::fault::Fault;
use crate::reader::Reader;
use access::refusal::Refusal;
use words::cut::cut;

/// How many bytes a text has at most.
pub const MOST_BYTES: usize = 65536;

/// Reads a policy text, or tells its first fault.
pub fn read(text: &[u8]) -> Result<Controller, Fault>
    ensures { Reads (text_read text.now) result }
{
    if text.len() > MOST_BYTES {
        return Err(Fault {
            refusal: Refusal::LongText,
            line: 1,
            column: 1,
        });
    }
    let mut reader = Reader::new();
    let mut number = 1;
    let mut rest = text;
    while let Some((line, behind)) = cut(rest, b'\n') {
        if let Err(flaw) = reader.take(line) {
            return Err(Fault::on(number, flaw));
        }
        number += 1;
        rest = behind;
    }
    reader.end(rest).map_err(|flaw| Fault::on(number, flaw))
}
