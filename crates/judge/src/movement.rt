//! Moves.
ghost use Rattle.std.specs.Prelude.{◌≡◌};
ghost use Rattle.judge.specs.Moved.{moved, linked};

/// One move of an activity: a transition from one context to another, a transfer of information from one to another, or
/// a contact, in which one does something on another.
#[derive(Clone, Copy, Debug, PartialEq, Eq)]
pub enum Move {
    Transition(u16, u16),
    Transfer(u16, u16),
    Contact(u16, u16),
}

/// How one context leads to another: it takes it on, gives it information, gets information from it, or does something on it.
#[derive(Clone, Copy, Debug, PartialEq, Eq)]
pub enum Link {
    Becoming,
    Giving,
    Getting,
    Doing,
}

impl Link {
    /// The move by which one context leads to another.
    pub fn between(self, from: u16, to: u16) -> Move
        ensures { moved result ≡ linked self from to }
    {
        match self {
            Link::Becoming => Move::Transition(from, to),
            Link::Giving => Move::Transfer(from, to),
            Link::Getting => Move::Transfer(to, from),
            Link::Doing => Move::Contact(from, to),
        }
    }
}
