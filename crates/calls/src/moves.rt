//! Movement in time: all of it goes from a time to a time.
ghost use Rattle.std.specs.Prelude.{◌≤◌, length, ◌-ℤ◌, MatchResult};
ghost use Rattle.motion.specs.Memory.{state_length, work_length};
ghost use Rattle.calls.specs.Outcomes.{Arrived, Gone, Leads};

use crate::{Answer, Player};
use motion::{Refusal, Turn};

/// Gives the turn of the lever that leads from a time to a time.
fn turn_between(from: i64, to: i64) -> Turn
    ensures { Leads result (to -ℤ from) }
{
    let steps = to.abs_diff(from);
    if to < from {
        Turn::Back(steps)
    } else {
        Turn::Forward(steps)
    }
}

impl Player {
    /// Makes steps or steps back until the time is `to`.
    pub(crate) fn travel_to(
        &mut self,
        to: i64,
        state: &mut [u64],
        work: &mut [u64],
    ) -> Result<(), Refusal>
        requires state { state_length self.old.system.count ≤ length state.old }
        requires work { work_length self.old.system.count ≤ length work.old }
        ensures { MatchResult result (λ _. Gone to self.old self.new state.old state.new work.old work.new) (λ _. ⊥) }
    {
        self.system.turn(turn_between(self.time, to), state, work)?;
        self.time = to;
        Ok(())
    }

    /// Goes to a time, if there is one, and answers with it; else answers with the refusal.
    pub(crate) fn arrive(
        &mut self,
        to: Option<i64>,
        refusal: Refusal,
        state: &mut [u64],
        work: &mut [u64],
    ) -> Result<Answer, Refusal>
        requires state { state_length self.old.system.count ≤ length state.old }
        requires work { work_length self.old.system.count ≤ length work.old }
        ensures { Arrived to refusal result self.old self.new state.old state.new work.old work.new }
    {
        let to = to.ok_or(refusal)?;
        self.travel_to(to, state, work)?;
        Ok(Answer::Time(to))
    }
}
