//! Bodies move by their momenta.
ghost use Rattle.std.specs.Prelude.{◌≡◌, ◌*◌, length};
ghost use Rattle.motion.specs.Changes.{AllDrifted};

use crate::body::drift;
use crate::members::Members;
use crate::mover::Mover;

impl Mover<'_> {
    /// Changes the positions of these bodies by their momenta.
    pub(crate) fn drift<M: Members>(&self, members: &M, state: &mut [u64])
        requires { length state.old ≡ 6 * self.now.system.now.count }
        ensures { AllDrifted self.now.system.now self.now.direction (M.has members.now) self.now.system.now.count state.old state.new }
    {
        for (b, mass) in self.system.masses().iter().enumerate() {
            if members.has(b) {
                drift(&mut state[6 * b..6 * b + 6], *mass, self.direction);
            }
        }
    }
}
