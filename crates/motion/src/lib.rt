//! Motion: a step, a step back and rows of them, over words that are lent. The state belongs to the time.

#![tactic(auto)]

ghost use Rattle.std.specs.Prelude.{◌≡◌, ◌<◌, ◌⊎◌, length, MatchResult, OnOk};
ghost use Rattle.motion.specs.Memory.{state_of};
ghost use Rattle.motion.specs.Outcomes.{Outcome, ShareOutcome, Timed};
ghost use Rattle.motion.specs.Systems.{Made, step_of, back_of, stepped};
ghost use Rattle.motion.specs.Travel.{turned, travel as travelled};

use crate::mover::Mover;
use distance::Softening;
use words::Mass;

mod body;
mod checks;
mod drift;
mod kick;
mod members;
mod mover;
mod refusal;
mod share;
mod steps;
mod system;
pub mod theorems;
mod turn;

pub use checks::check_sum;
pub use refusal::Refusal;
pub use share::in_share;
pub use system::System;
pub use turn::{Direction, Turn};

impl System {
    /// The most bodies that a system has.
    pub const MOST_BODIES: usize = 64;

    /// Makes a system of bodies with these masses, or refuses where there are none or more than 64.
    pub fn new(softening: Softening, masses: &[Mass]) -> Result<System, Refusal>
        ensures { MatchResult result (Made softening.value masses.now) (λ e. (e ≡ Refusal.Bodies) × ((length masses.now ≡ 0) ⊎ (64 < length masses.now))) }
    {
        let count = masses.len();
        if count == 0 || count > System::MOST_BODIES {
            return Err(Refusal::Bodies);
        }
        let mut all = [masses[0]; System::MOST_BODIES];
        all[0..count].copy_from_slice(masses);
        Ok(System {
            count,
            softening,
            masses: all,
        })
    }

    /// Gives the number of bodies.
    pub fn count(&self) -> usize
        ensures { result ≡ self.now.count }
    {
        self.count
    }

    /// Makes a row of turns. `state` holds the 6 words of each body, `work` a word for each pair of bodies, which may be
    /// anything; what lies behind them is not touched.
    pub fn travel(&self, turns: &[Turn], state: &mut [u64], work: &mut [u64]) -> Result<(), Refusal>
        ensures outcome { Outcome self.now (travelled (step_of self.now) (back_of self.now) turns.now) result state.old state.new work.old work.new }
        ensures timed { OnOk result (Timed self.now turns.now (state_of self.now.count state.old) (state_of self.now.count state.new)) }
    {
        let pairs = self.count * (self.count - 1) / 2;
        let halves = state.split_at_mut_checked(6 * self.count);
        let (words, _behind) = halves.ok_or(Refusal::StateShort)?;
        let halves = work.split_at_mut_checked(pairs);
        let (roots, _behind) = halves.ok_or(Refusal::WorkShort)?;
        self.make_turns(turns, words, roots);
        Ok(())
    }

    /// Makes one turn of the lever.
    pub fn turn(&self, turn: Turn, state: &mut [u64], work: &mut [u64]) -> Result<(), Refusal>
        ensures { Outcome self.now (turned (step_of self.now) (back_of self.now) turn) result state.old state.new work.old work.new }
    {
        self.travel(&[turn], state, work)
    }

    /// Works out a step, or a step back, for the bodies of a share alone. `work` has room for the words of a state, and
    /// holds the new words of these bodies after it, in their places; those of the other bodies are of no account.
    pub fn step_share(
        &self,
        share: &[bool],
        direction: Direction,
        state: &[u64],
        work: &mut [u64],
    ) -> Result<(), Refusal>
        ensures { ShareOutcome self.now (stepped direction self.now) share.now result state.now work.old work.new }
    {
        let needed = 6 * self.count;
        let words = state.get(..needed).ok_or(Refusal::StateShort)?;
        let halves = work.split_at_mut_checked(needed);
        let (copy, _behind) = halves.ok_or(Refusal::WorkShort)?;
        copy.copy_from_slice(words);
        let mover = Mover {
            system: self,
            direction,
        };
        mover.advance_share(share, copy);
        Ok(())
    }

    /// Makes a step.
    pub fn step(&self, state: &mut [u64], work: &mut [u64]) -> Result<(), Refusal>
        ensures { Outcome self.now (step_of self.now) result state.old state.new work.old work.new }
    {
        self.turn(Turn::Forward(1), state, work)
    }

    /// Makes a step back.
    pub fn step_back(&self, state: &mut [u64], work: &mut [u64]) -> Result<(), Refusal>
        ensures { Outcome self.now (back_of self.now) result state.old state.new work.old work.new }
    {
        self.turn(Turn::Back(1), state, work)
    }
}

#[cfg(test)]
mod tests {
    use super::*;
    use std::test::Fail;

    const FAR: u64 = 1 << 60;

    // Bodies of masses 2 and 1, with the least softening. `run` says why it is written out here too.
    fn pair() -> Option<System> {
        let masses = [Mass::new(2)?, Mass::new(1)?];
        System::new(Softening::new(Softening::LEAST)?, &masses).ok()
    }

    #[test]
    fn a_pair_goes_there_and_back(rt: HostRuntime) -> Result<(), Fail> {
        let system = pair().ok_or("no pair")?;
        // Two words behind the state, which stay.
        let mut state = [0, 0, 0, 0, 0, 0, FAR, 0, 0, 0, 0, 0, 8, 9];
        let mut work = [u64::MAX, 7];
        system.step(&mut state, &mut work)?;
        assert_eq!(rt; [state[0], state[1], state[6]], [1023, 2046, FAR - 2046]);
        system.turn(Turn::Forward(2), &mut state, &mut work)?;
        assert_eq!(rt; [state[0], state[1], state[6]], [6138, 6138, FAR - 12276]);
        system.step_back(&mut state, &mut work)?;
        system.travel(&[Turn::Back(4), Turn::Forward(2)], &mut state, &mut work)?;
        assert_eq!(rt; state, [0, 0, 0, 0, 0, 0, FAR, 0, 0, 0, 0, 0, 8, 9]);
        assert_eq!(rt; work[1], 7);
        Ok(())
    }

    #[test]
    fn short_slices_are_refused(rt: HostRuntime) -> Result<(), Fail> {
        let system = pair().ok_or("no pair")?;
        let mut short = [1; 11];
        let mut state = [1; 12];
        assert_eq!(rt; system.step(&mut short, &mut []), Err(Refusal::StateShort));
        assert_eq!(rt; system.step(&mut state, &mut []), Err(Refusal::WorkShort));
        assert_eq!(rt; short, [1; 11]);
        assert_eq!(rt; state, [1; 12]);
        Ok(())
    }

    fn uniform(count: usize) -> Option<System> {
        let masses = [Mass::new(1023)?; 65];
        if count > 65 {
            return None;
        }
        System::new(Softening::new(Softening::MOST)?, &masses[0..count]).ok()
    }

    #[test]
    fn systems_have_1_to_64_bodies(rt: HostRuntime) {
        assert!(rt; uniform(0).is_none());
        assert!(rt; uniform(64).is_some());
        assert!(rt; uniform(65).is_none());
    }

    #[test]
    fn sums_turn_words_by_their_place(rt: HostRuntime) {
        assert_eq!(rt; check_sum(&[1, 1, 1 << 63]), 1 ^ 2 ^ 2);
    }
}
