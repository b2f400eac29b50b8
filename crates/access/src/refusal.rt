//! Why a call, or a policy text, is refused.
ghost use Rattle.std.specs.Prelude.{◌≡◌, Some};
ghost use Rattle.access.specs.Refusals.{refusal_number, words_of};

use std::error::Error;
use std::fmt;

/// Why a call, or a policy text, is refused. Of several that apply to a call, the first in this list is answered; the faults of a text
/// have an order of their own, that of its bytes.
#[derive(Clone, Copy, Debug, PartialEq, Eq)]
pub enum Refusal {
    /// A grant or property number is outside its range.
    NumberOutside,
    /// The number to be entered stands already.
    StandsAlready,
    /// The number to be struck or judged does not stand.
    StandsNot,
    /// A context of a setting is outside 1 to n.
    ContextOutside,
    /// An operation set holds a bit from 12 to 15, or a grant's is empty.
    UnfitOperations,
    /// A set has a member above n, is empty where it is used, or is not empty as the second set of a domain.
    UnfitSet,
    /// The two sets of a property share a context.
    SharedContext,
    /// A change is to be opened while one is open.
    OpenAlready,
    /// A change is to be adopted or withdrawn while none is open.
    NoneOpen,
    /// A setting is to be made while the open change notes 128 settings already.
    NotesFull,
    /// A pair is to get its first operations, and as many pairs as the policy has room for have some.
    PolicyFull,
    /// Working memory or report memory is shorter than the call asks for.
    ShortMemory,
    /// A text is longer than 65,536 bytes.
    LongText,
    /// A line is too long, without its line feed, of an unknown keyword, of a wrong number of words, or out of order.
    UnfitLine,
    /// No context is declared before another line or the end, or a 257th is.
    ContextCount,
    /// A word has not its shape.
    UnfitWord,
    /// A name is unknown, or declared again.
    UnfitName,
}

/// The number by which a refusal is reported, 1 to 17.
impl From<Refusal> for u8 {
    ghost from_gives = { λ refusal number. number ≡ refusal_number refusal };

    fn from(refusal: Refusal) -> u8 {
        refusal as u8 + 1
    }
}

impl fmt::Display for Refusal {
    ghost output = { λ refusal. Some (words_of refusal) };

    fn fmt<W: fmt::Write>(&self, f: &mut fmt::Formatter<W>) -> fmt::Result {
        f.write_str(match self {
            Refusal::NumberOutside => "a grant or property number is outside its range",
            Refusal::StandsAlready => "the number to be entered stands already",
            Refusal::StandsNot => "the number to be struck or judged does not stand",
            Refusal::ContextOutside => "a context of a setting is outside 1 to n",
            Refusal::UnfitOperations =>
                "an operation set holds an unknown operation, or a grant's is empty",
            Refusal::UnfitSet =>
                "a set has a member above n, or is empty or filled where it may not be",
            Refusal::SharedContext => "the two sets of a property share a context",
            Refusal::OpenAlready => "a change is open already",
            Refusal::NoneOpen => "no change is open",
            Refusal::NotesFull => "the open change notes 128 settings already",
            Refusal::PolicyFull => "the policy has no room for one pair more",
            Refusal::ShortMemory => "working memory or report memory is too short",
            Refusal::LongText => "the text is longer than 65,536 bytes",
            Refusal::UnfitLine =>
                "a line is too long, without its line feed, ill-formed or out of order",
            Refusal::ContextCount => "no context is declared, or more than 256 are",
            Refusal::UnfitWord => "a word has not its shape",
            Refusal::UnfitName => "a name is unknown, or declared again",
        })
    }
}

impl Error for Refusal {}
