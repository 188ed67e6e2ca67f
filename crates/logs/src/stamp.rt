//! What stands behind a call in a log: the time and the check sum after it.
ghost use Rattle.std.specs.Prelude.{◌≡◌, ◌*◌, ◌≤◌, ◌++◌, length, OnOk};
ghost use Rattle.words.specs.Bytes.{number_at, bytes_of};
ghost use Rattle.motion.specs.Memory.{state_of};
ghost use Rattle.calls.specs.Sessions.{machine_in_session};
ghost use Rattle.logs.specs.Logs.{state_sum, time_word};

use calls::{Player, Session};
use motion::check_sum;
use std::alloc::AllocError;
use words::{number_in, write_number};

/// The words of a time and of a check sum.
#[derive(Clone, Copy, PartialEq, Eq)]
pub(crate) struct Stamp {
    time: u64,
    sum: u64,
}

impl Stamp {
    /// Gives the stamp of a session.
    pub(crate) fn of(session: &Session<'_>) -> Stamp
        ensures time { result.time ≡ time_word session.now.player.time }
        ensures sum { result.sum ≡ state_sum session.now.player.system.count (machine_in_session session.now).state }
    {
        Stamp {
            time: session.player.time().cast_unsigned(),
            sum: state_sum(&session.player, session.state),
        }
    }

    /// Reads the stamp in sixteen bytes.
    pub(crate) fn read(bytes: &[u8; 16]) -> Stamp
        ensures time { result.time ≡ number_at 8 bytes.now 0 }
        ensures sum { result.sum ≡ number_at 8 bytes.now 8 }
    {
        Stamp {
            time: number_in(&bytes[..8]),
            sum: number_in(&bytes[8..]),
        }
    }

    /// Appends the sixteen bytes of the stamp.
    pub(crate) fn encode(self, log: &mut Vec<u8>) -> Result<(), AllocError>
        ensures { OnOk result (log.new.items ≡ log.old.items ++ (bytes_of 8 self.time ++ bytes_of 8 self.sum)) }
    {
        append_word(log, self.time)?;
        append_word(log, self.sum)
    }
}

/// Gives the check sum of a player's state.
// It takes the slice and no session: what lies behind a field is not known to be words, and the sum is one of words.
fn state_sum(player: &Player, state: &[u64]) -> u64
    requires { 6 * player.now.system.count ≤ length state.now }
    ensures { result ≡ state_sum player.now.system.count (state_of player.now.system.count state.now) }
{
    check_sum(&state[..6 * player.count()])
}

/// Appends the eight bytes of a word.
fn append_word(log: &mut Vec<u8>, word: u64) -> Result<(), AllocError>
    ensures { OnOk result (log.new.items ≡ log.old.items ++ bytes_of 8 word) }
{
    // Not `to_le_bytes`: `write_number` states how numbers stand in bytes, and so a log holds to that.
    let mut bytes = [0; 8];
    write_number(&mut bytes, word);
    log.extend_from_slice(&bytes)
}
