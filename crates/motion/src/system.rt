//! A system: the softening and the masses of its bodies.
ghost use Rattle.std.specs.Prelude.{◌≡◌, ◌≤◌, length, take};

use distance::Softening;
use words::Mass;

/// A system of 1 to 64 bodies. Masses behind the last body's are of no account.
// The count stands beside the array, since a system is copied, which no list of the library can be.
#[derive(Clone, Copy, PartialEq, Eq, Debug)]
pub struct System {
    pub(crate) count: usize,
    pub(crate) softening: Softening,
    pub(crate) masses: [Mass; 64],
    ghost least: { 1 ≤ count },
    ghost most: { count ≤ 64 },
}

impl System {
    /// Gives the masses of the bodies.
    pub(crate) fn masses(&self) -> &[Mass]
        ensures masses { result.now ≡ take self.now.count self.now.masses }
        ensures count { length result.now ≡ self.now.count }
    {
        &self.masses[..self.count]
    }
}
