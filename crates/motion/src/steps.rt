//! Steps, and rows of them, over words that are exactly those of the state and of its roots.
ghost use Rattle.std.specs.Prelude.{◌≡◌, ◌*◌, length};
ghost use Rattle.motion.specs.Memory.{state_of, work_length};
ghost use Rattle.motion.specs.Systems.{stepped, step_of, back_of};
ghost use Rattle.motion.specs.Travel.{again, travel};

use crate::System;
use crate::members::Everyone;
use crate::mover::Mover;
use crate::turn::{Direction, Turn};

impl Mover<'_> {
    /// Makes a step, or a step back.
    // `advance_share` says why the two orders stand there once more.
    fn advance(&self, state: &mut [u64], roots: &mut [u64])
        requires state { length state.old ≡ 6 * self.now.system.now.count }
        requires roots { length roots.old ≡ work_length self.now.system.now.count }
        ensures { state_of self.now.system.now.count state.new ≡ stepped self.now.direction self.now.system.now (state_of self.now.system.now.count state.old) }
    {
        match self.direction {
            Direction::Ahead => {
                self.kick_all(state, roots);
                self.drift(&Everyone, state);
            }
            Direction::Behind => {
                self.drift(&Everyone, state); // A step back does first what a step does last.
                self.kick_all(state, roots);
            }
        }
    }

    /// Makes so many steps, or so many steps back.
    fn repeat(&self, count: u64, state: &mut [u64], roots: &mut [u64])
        requires state { length state.old ≡ 6 * self.now.system.now.count }
        requires roots { length roots.old ≡ work_length self.now.system.now.count }
        ensures { state_of self.now.system.now.count state.new ≡ again (stepped self.now.direction self.now.system.now) count (state_of self.now.system.now.count state.old) }
    {
        for _ in 0..count {
            self.advance(state, roots);
        }
    }
}

impl System {
    /// Makes a row of turns.
    pub(crate) fn make_turns(&self, turns: &[Turn], state: &mut [u64], roots: &mut [u64])
        requires state { length state.old ≡ 6 * self.now.count }
        requires roots { length roots.old ≡ work_length self.now.count }
        ensures { state_of self.now.count state.new ≡ travel (step_of self.now) (back_of self.now) turns.now (state_of self.now.count state.old) }
    {
        let ahead = Mover {
            system: self,
            direction: Direction::Ahead,
        };
        let behind = Mover {
            system: self,
            direction: Direction::Behind,
        };
        for turn in turns {
            match *turn {
                Turn::Forward(count) => ahead.repeat(count, state, roots),
                Turn::Back(count) => behind.repeat(count, state, roots),
            }
        }
    }
}
