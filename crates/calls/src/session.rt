//! A player with the words that are lent to it.
ghost use Rattle.std.specs.Prelude.{◌≡◌, length};
ghost use Rattle.motion.specs.Refusals.{good};
ghost use Rattle.calls.specs.SystemBytes.{room_told};

use crate::Player;

/// A player with the words that are lent to it, which suffice for its system.
// It is written as a literal where a player was opened: of slices that a function hands on within its result, and that it may
// also refuse, a caller's proof knows only the lengths. `open`, `Player::obey` and whole rows take the slices one by one, since
// they refuse those that are too short.
#[derive(Drop)]
pub struct Session<'a> {
    pub player: Player,
    /// The words of the state.
    pub state: &'a mut [u64],
    /// The words of the checkpoints.
    pub checkpoints: &'a mut [u64],
    /// Words to work in.
    pub work: &'a mut [u64],
    ghost room: { room_told player.system.count (length state.now) (length checkpoints.now) (length work.now) ≡ good tt },
}
