//! Random words and calls.
ghost use Rattle.std.specs.Prelude.{◌<◌, ◌≤◌};

use calls::Call;
use rand_core::{Rng, SeedableRng};
use rand_xoshiro::SplitMix64;

/// Words at which something turns: ends of the range, and the unit of separations.
const EDGES: [u64; 11] = [
    0,
    1,
    (1 << 44) - 1,
    1 << 44,
    (1 << 44) + 1,
    (1 << 63) - 1,
    1 << 63,
    (1 << 63) + 1,
    u64::MAX - (1 << 44),
    u64::MAX - 1,
    u64::MAX,
];

/// A source of random words. Its `as` lose nothing, since the check proves the bounds; `try_from` would need an `unwrap` at each.
#[derive(Drop)]
pub struct Random {
    source: SplitMix64,
}

impl Random {
    pub fn new(seed: u64) -> Random {
        Random {
            source: SplitMix64::seed_from_u64(seed),
        }
    }

    pub fn draw(&mut self) -> u64 {
        self.source.next_u64()
    }

    pub fn below(&mut self, bound: u64) -> u64
        requires { 1 ≤ bound }
        ensures { result < bound }
    {
        self.draw() % bound
    }

    /// Gives a word, half of the time one of the edges.
    pub fn word(&mut self) -> u64 {
        match EDGES.get(self.below(22) as usize) {
            Some(edge) => *edge,
            None => self.draw(),
        }
    }

    pub fn words(&mut self) -> [u64; 3] {
        [self.word(), self.word(), self.word()]
    }

    /// Gives a call to a system of so many bodies, now and then one that is to be refused.
    // Not one function with `any_call` of `coding` and that of `log_tests`: each draws its numbers in an order of its own, and
    // another order would be another test.
    pub fn call(&mut self, bodies: u8) -> Call {
        let steps = self.below(6) as u32;
        let mark = match self.below(4) {
            0 => self.below(17) as u8,
            _ => self.below(3) as u8,
        };
        match self.below(5) {
            0 => Call::Forward(steps),
            1 => Call::Back(steps),
            2 => Call::Mark(mark),
            3 => Call::GoTo(mark),
            _ => Call::Read {
                body: self.below(u64::from(bodies) + 1) as u8,
                axis: self.below(4) as u8,
            },
        }
    }
}
