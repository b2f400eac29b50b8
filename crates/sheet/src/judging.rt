//! A property that stands is judged.
ghost use Rattle.std.specs.Prelude.{◌≡◌, length, replicate};
ghost use Rattle.access.specs.Refusals.{answer};
ghost use Rattle.sheet.specs.Book.{refusal};
ghost use Rattle.sheet.specs.Entries.{in_order};
ghost use Rattle.sheet.specs.Held.{held};
ghost use Rattle.sheet.specs.Shown.{shown};
ghost use Rattle.sheet.specs.Judging.{Judges};
ghost use Rattle.sheet.specs.declared.request.Request.TheVariants.{Judge};

use crate::sheet::Sheet;
use access::policy::Policy;
use access::refusal::Refusal;
use judge::judging::judge;
use judge::moves::Moves;
use judge::regime::Regime;
use judge::seek::is_short;
use judge::step::Step;
use judge::verdict::Verdict;
use search::breadth_first::Place;
use search::lent::Cleared;

/// A sheet, with the moves that its legal runs make worked out once, for any number of judgings.
#[derive(Drop)]
pub struct Judging<'a, P: Policy> {
    sheet: &'a Sheet<P>,
    moves: Moves<'a, P>,
    ghost policy: { moves.regime.policy.now ≡ sheet.now.policy },
    ghost grants: { moves.regime.grants.now ≡ in_order (held sheet.now.grants) 0 32 },
}

impl<'a, P: Policy> Judging<'a, P> {
    pub fn of(sheet: &'a Sheet<P>) -> Judging<'a, P>
        ensures { result.sheet.now ≡ sheet.now }
    {
        let regime = Regime {
            policy: &sheet.policy,
            grants: sheet.grants.all(),
        };
        Judging {
            sheet,
            moves: Moves::of(regime),
        }
    }

    /// Judges a property: guaranteed, or broken in so many steps, which then stand in front of `steps` in working order. For n
    /// contexts it takes ticks and places of 2n each, and steps of n. The ticks are handed back all zero in any case.
    // Three slices, as `judge` takes them.
    pub fn judge(
        &self,
        number: u16,
        ticks: &mut [u8],
        places: &mut [Place],
        steps: &mut [Step],
    ) -> Result<Verdict, Refusal>
        ensures answer { Judges (shown self.now.sheet.now) number ticks.old places.old places.new steps.old steps.new result }
        ensures ticks { ticks.new ≡ replicate (length ticks.old) 0 }
    {
        match self.sheet.properties.standing(number) {
            Ok(property) => judge(&self.moves, property, ticks, places, steps),
            Err(why) => {
                let _cleared = Cleared::over(ticks);
                Err(why)
            }
        }
    }
}

impl<P: Policy> Sheet<P> {
    /// Checks that a property stands under a number, and then that the lent memory is long enough to judge it.
    fn check_judging(
        &self,
        number: u16,
        ticks: &[u8],
        places: &[Place],
        steps: &[Step],
    ) -> Result<(), Refusal>
        ensures { result ≡ answer (refusal (shown self.now) (Judge number (length ticks.now) (length places.now) (length steps.now))) }
    {
        self.properties.standing(number)?;
        if is_short(2, self.policy.contexts(), ticks, places, steps) {
            return Err(Refusal::ShortMemory);
        }
        Ok(())
    }

    /// Judges a property over moves that are worked out for it alone.
    // The moves are large, and at its entry a function pays for the size of what it holds: so this is one of its own.
    #[inline(never)]
    fn judge_alone(
        &self,
        number: u16,
        ticks: &mut [u8],
        places: &mut [Place],
        steps: &mut [Step],
    ) -> Result<Verdict, Refusal>
        ensures answer { Judges (shown self.now) number ticks.old places.old places.new steps.old steps.new result }
        ensures ticks { ticks.new ≡ replicate (length ticks.old) 0 }
    {
        Judging::of(self).judge(number, ticks, places, steps)
    }

    /// Judges one property, as `Judging` judges many.
    pub fn judge(
        &self,
        number: u16,
        ticks: &mut [u8],
        places: &mut [Place],
        steps: &mut [Step],
    ) -> Result<Verdict, Refusal>
        ensures answer { Judges (shown self.now) number ticks.old places.old places.new steps.old steps.new result }
        ensures ticks { ticks.new ≡ replicate (length ticks.old) 0 }
    {
        // First, so that no moves are worked out for a call that is refused.
        if let Err(why) = self.check_judging(number, ticks, places, steps) {
            ticks.fill(0);
            return Err(why);
        }
        self.judge_alone(number, ticks, places, steps)
    }
}
