//! Turns of the lever, and the direction in which time runs.
ghost use Rattle.std.specs.Prelude.{◌≡◌};
ghost use Rattle.motion.specs.Changes.{moved as moved_by, opposite as opposite_of};

use words::{difference, sum};

/// A turn of the lever: so many steps forward, or so many back.
#[derive(Clone, Copy, PartialEq, Eq, Debug)]
pub enum Turn {
    Forward(u64),
    Back(u64),
}

/// Where time runs to.
#[derive(Clone, Copy, PartialEq, Eq, Debug)]
pub enum Direction {
    Ahead,
    Behind,
}

impl Direction {
    pub(crate) fn opposite(self) -> Direction
        ensures { result ≡ opposite_of self }
    {
        match self {
            Direction::Ahead => Direction::Behind,
            Direction::Behind => Direction::Ahead,
        }
    }

    /// Adds `by` to a word, or takes it away where time runs back.
    pub(crate) fn moved(self, word: u64, by: u64) -> u64
        ensures { result ≡ moved_by self word by }
    {
        match self {
            Direction::Ahead => sum(word, by),
            Direction::Behind => difference(word, by),
        }
    }
}
