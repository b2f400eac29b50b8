//! What requests are answered.
ghost use Rattle.std.specs.Prelude.{◌≡◌, ◌≤◌, length, take};

use access::operation_set::OperationSet;
use access::refusal::Refusal;
use judge::step::Step;

/// How many steps a broken property is shown by at most: no more than there are contexts.
pub const MOST_STEPS: usize = 256;

/// The steps by which a broken property is shown: the first `count` of an array, since an answer takes no heap memory.
#[derive(Clone, Copy, Drop)]
pub struct ShownSteps {
    pub(crate) steps: [Step; MOST_STEPS],
    pub(crate) count: usize,
    ghost within: { count ≤ length steps },
}

impl ShownSteps {
    /// The steps, in working order.
    pub fn all(&self) -> &[Step]
        ensures { result.now ≡ take self.now.count self.now.steps }
    {
        &self.steps[..self.count]
    }
}

/// The answer to a request.
#[derive(Clone, Copy, Drop)]
pub enum Answer {
    Accepted,
    Refused(Refusal),
    Guaranteed,
    Broken(ShownSteps),
    Number(u32),
    Operations(OperationSet),
}
