//! Numbers whose type states their range.
ghost use Rattle.std.specs.Prelude.{◌≡◌, ◌^◌, ◌<◌, ◌≤◌, ◌⊎◌, MatchOption};

/// A number from `LEAST` to `MOST`.
#[derive(Clone, Copy, PartialEq, Eq, PartialOrd, Ord, Debug)]
pub struct Ranged<const LEAST: u64, const MOST: u64> {
    value: u64,
    ghost least: { LEAST ≤ value },
    ghost most: { value ≤ MOST },
}

impl<const LEAST: u64, const MOST: u64> Ranged<LEAST, MOST> {
    /// Takes a number, or nothing where it is out of the range.
    pub fn new(value: u64) -> Option<Self>
        ensures { MatchOption result ((value < LEAST) ⊎ (MOST < value)) (λ r. r.value ≡ value) }
    {
        if value >= LEAST && value <= MOST {
            Some(Ranged { value })
        } else {
            None
        }
    }

    /// Gives the number.
    pub fn value(self) -> u64
        ensures { result ≡ self.entry.value }
    {
        self.value
    }
}

/// The mass of a body: a whole number from 1 to 1,023.
pub type Mass = Ranged<1, 1023>;

impl Mass {
    /// The least mass.
    pub const LEAST: Mass = Ranged { value: 1 };
}

/// The softening of a system: what is added to every squared distance, so that no distance is 0. From 2^20 to 2^40.
pub type Softening = Ranged<0x10_0000, 0x100_0000_0000>;

impl Softening {
    /// The least softening.
    pub const LEAST: u64 = 1 << 20;
    /// The largest softening.
    pub const MOST: u64 = 1 << 40;

    /// Gives the least and the largest softening. Its contract is what holds the two constants to their values.
    pub fn ends() -> (u64, u64)
        ensures least { result.0 ≡ 2 ^ 20 }
        ensures most { result.1 ≡ 2 ^ 40 }
    {
        (Softening::LEAST, Softening::MOST)
    }
}
