//! Checkpoints in memory: sixteen, each kept or not, with a time and the words of a state.
ghost use Rattle.std.specs.Prelude.{◌≡◌, ◌+◌, ◌*◌, ◌<◌, ◌≤◌, ◌∷◌, length, Some, None, MatchOption};
ghost use Rattle.std.specs.Int.{w64};
ghost use mir.Val.{of_z};
ghost use Rattle.motion.specs.Memory.{state_length};
ghost use Rattle.calls.specs.Checkpoints.{checkpoint_length, checkpoints_length, kept_in, kept_words, HoldsTime};

use crate::Player;
use motion::System;
use words::read_signed;

/// How many checkpoints there are.
pub(crate) const CHECKPOINTS: usize = 16;

/// Gives the words of a checkpoint of a system.
pub(crate) fn checkpoint_size(system: &System) -> usize
    ensures { result ≡ checkpoint_length system.now.count }
{
    6 * system.count() + 2
}

/// Writes a checkpoint: that it is kept, its time, and the words of its state.
fn write_checkpoint(words: &mut [u64], time: i64, state: &[u64])
    requires { length words.old ≡ length state.now + 2 }
    ensures { words.new ≡ 1 ∷ of_z w64 time ∷ state.now }
{
    // A flag and a time in front of a state, and no `Option`: the caller lends words, and these are their layout.
    words[0] = 1;
    words[1] = time.cast_unsigned();
    words[2..].copy_from_slice(state);
}

impl Player {
    /// Keeps the time and the state under a number.
    pub(crate) fn keep(&self, number: u8, state: &[u64], checkpoints: &mut [u64])
        requires number { number < 16 }
        requires state { state_length self.now.system.count ≤ length state.now }
        requires checkpoints { checkpoints_length self.now.system.count ≤ length checkpoints.old }
        ensures { checkpoints.new ≡ kept_words self.now.system.count number self.now.time state.now checkpoints.old }
    {
        let size = checkpoint_size(&self.system);
        let at = usize::from(number) * size;
        let state = &state[..6 * self.count()];
        write_checkpoint(&mut checkpoints[at..at + size], self.time, state);
    }

    /// Gives the time that is kept under a number, if one is.
    pub(crate) fn kept_time(&self, number: u8, checkpoints: &[u64]) -> Option<i64>
        requires { checkpoints_length self.now.system.count ≤ length checkpoints.now }
        ensures { MatchOption result (kept_in self.now.system.count checkpoints.now number ≡ None) (λ t. HoldsTime t (kept_in self.now.system.count checkpoints.now number)) }
    {
        let number = usize::from(number);
        let at = number * checkpoint_size(&self.system);
        let kept = number < CHECKPOINTS && checkpoints[at] != 0;
        kept.then(|| read_signed(checkpoints[at + 1]))
    }
}
