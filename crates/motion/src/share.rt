//! Steps of some bodies alone: those of a share.
ghost use Rattle.std.specs.Prelude.{◌≡◌, ◌*◌, ◌<◌, length};
ghost use Rattle.motion.specs.Changes.{Received, Pulled, ShareKicked, member, ShareHolds};
ghost use Rattle.motion.specs.Memory.{state_of};
ghost use Rattle.motion.specs.Systems.{stepped};

use crate::body::kick;
use crate::members::Everyone;
use crate::mover::Mover;
use crate::turn::Direction;

/// Where the search for a root starts if none is known: most pairs are about so far apart.
const ROOT_START: u64 = 1 << 20;

/// Tells whether a share holds a body; none behind its end.
pub fn in_share(share: &[bool], body: usize) -> bool
    ensures { result ≡ member share.now body }
{
    share.get(body).is_some_and(|held| *held)
}

impl Mover<'_> {
    /// Makes a step, or a step back, for the bodies of a share. The words of the other bodies are of no account after it.
    pub(crate) fn advance_share(&self, share: &[bool], state: &mut [u64])
        requires { length state.old ≡ 6 * self.now.system.now.count }
        ensures { ShareHolds self.now.system.now.count share.now (stepped self.now.direction self.now.system.now (state_of self.now.system.now.count state.old)) state.new }
    {
        // Not one function with `advance`: its contract over a closure that kicks would be longer than the two orders.
        match self.direction {
            Direction::Ahead => {
                self.kick_share(share, state);
                self.drift(&share, state);
            }
            Direction::Behind => {
                self.drift(&Everyone, state);
                self.kick_share(share, state);
            }
        }
    }

    /// Gives body `b` the impulse from body `j`.
    fn receive(&self, b: usize, j: usize, state: &mut [u64])
        requires body { b < self.now.system.now.count }
        requires other { j < self.now.system.now.count }
        requires state { length state.old ≡ 6 * self.now.system.now.count }
        ensures { Received self.now.system.now self.now.direction b j state.old state.new }
    {
        let impulse = self.system.impulse(b, j, state, ROOT_START);
        kick(
            &mut state[6 * b..6 * b + 6],
            impulse.on_axes,
            self.direction,
        );
    }

    /// Gives body `b` the impulses from all bodies; that from itself is none.
    fn pull(&self, b: usize, state: &mut [u64])
        requires body { b < self.now.system.now.count }
        requires state { length state.old ≡ 6 * self.now.system.now.count }
        ensures { Pulled self.now.system.now self.now.direction b self.now.system.now.count state.old state.new }
    {
        // By number: nothing of a body but its number is wanted here.
        for j in 0..self.system.count {
            self.receive(b, j, state);
        }
    }

    /// Gives the bodies of a share their impulses.
    fn kick_share(&self, share: &[bool], state: &mut [u64])
        requires { length state.old ≡ 6 * self.now.system.now.count }
        ensures { ShareKicked self.now.system.now self.now.direction share.now self.now.system.now.count state.old state.new }
    {
        // By number: nothing of a body but its number is wanted here.
        for b in 0..self.system.count {
            if in_share(share, b) {
                self.pull(b, state);
            }
        }
    }
}
