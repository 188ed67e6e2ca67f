//! A player: a system and the time since its opening.
ghost use Rattle.std.specs.Prelude.{◌≡◌};

use motion::System;

/// A system that is played, and its time. The words of its state and of its checkpoints are lent to each call.
#[derive(Clone, Copy, PartialEq, Eq, Debug)]
pub struct Player {
    pub(crate) system: System,
    pub(crate) time: i64,
}

impl Player {
    /// Gives the number of bodies.
    pub fn count(&self) -> usize
        ensures { result ≡ self.now.system.count }
    {
        self.system.count()
    }

    /// Gives the time: steps less steps back since the opening.
    pub fn time(&self) -> i64
        ensures { result ≡ self.now.time }
    {
        self.time
    }
}
