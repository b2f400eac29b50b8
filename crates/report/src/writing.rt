//! Writing into lent memory: the bytes written so far are a list over it.
ghost use Rattle.std.specs.Prelude.{◌+◌, ◌≤◌, ◌∷◌, length, decimal};
ghost use Rattle.report.specs.Written.{Room, Wrote};

use itoa::Buffer;
use search::lent::List;

/// Writes bytes behind those that stand.
pub(crate) fn write(report: &mut List<'_, u8>, bytes: &[u8])
    requires { Room (length bytes.now) report.old }
    ensures { Wrote report.old bytes.now report.new }
{
    for byte in bytes {
        // There is room, by what is required.
        let _ = report.push(*byte);
    }
}

/// Writes a number, which has at most five digits.
pub(crate) fn write_number(report: &mut List<'_, u8>, number: u16)
    requires { Room 5 report.old }
    ensures wrote { Wrote report.old (decimal number) report.new }
    ensures short { length (decimal number) ≤ 5 }
{
    write(report, Buffer::new().format(number).as_bytes());
}

/// Writes a space and a word.
pub(crate) fn write_word(report: &mut List<'_, u8>, word: &[u8])
    requires { Room (1 + length word.now) report.old }
    ensures { Wrote report.old (32 ∷ word.now) report.new }
{
    write(report, b" ");
    write(report, word);
}
