//! Checking a log: its calls are made anew, and each time and check sum is compared.
ghost use Rattle.std.specs.Prelude.{◌≡◌, ℕ, ◌+◌, ◌<◌, ◌≤◌, length, Some, MatchResult, ◌≢◌, slice_index, slice_set};
ghost use Rattle.motion.specs.Refusals.{good, refused, number_of, place_of};
ghost use Rattle.calls.specs.Machine.{Machine, Rules, rules_of};
ghost use Rattle.calls.specs.Reports.{BehindSame, opening_told};
ghost use Rattle.calls.specs.Sessions.{Kept, machine_in_session};
ghost use Rattle.calls.specs.SystemBytes.{count_in, room_told};
ghost use Rattle.logs.specs.Checking.{Acceptance, accepted_text, checked, ended_told, log_in, log_told};
ghost use Rattle.logs.specs.Checks.{Compared, EndsAs};
ghost use Rattle.logs.specs.InSessions.{FoundIn};
ghost use Rattle.logs.specs.Logs.{FirstWrong, InStamp, Log};

use crate::stamp::Stamp;
use calls::{Call, Player, Session};
use motion::Refusal;
use std::fmt;
use std::ops::ControlFlow;

/// What is told of a log that is accepted.
#[derive(Clone, Copy, PartialEq, Eq, Debug)]
pub struct Accepted {
    /// The calls that were answered.
    pub calls: usize,
    /// The time after them.
    pub time: i64,
    /// The refusal of the last call, if the log ends in one.
    pub refusal: Option<Refusal>,
}

impl fmt::Display for Accepted {
    ghost output = { λ accepted. Some (accepted_text accepted) };

    fn fmt<W: fmt::Write>(&self, f: &mut fmt::Formatter<W>) -> fmt::Result {
        write!(f, "accepted {} calls time {}", self.calls, self.time)?;
        match self.refusal {
            None => Ok(()),
            Some(refusal) => write!(f, " ended by {refusal}"),
        }
    }
}

/// Checks a log: makes its calls anew, and accepts it if every time and every check sum is right. Otherwise tells the first
/// fault. The slices are lent as to `Player::open`, as room to work in.
pub fn check_log(
    bytes: &[u8],
    state: &mut [u64],
    checkpoints: &mut [u64],
    work: &mut [u64],
) -> Result<Accepted, Refusal>
    ensures answer { checked result ≡ log_in bytes.now (opening_told bytes.now (length state.old) (length checkpoints.old) (length work.old)) }
    ensures right { MatchResult result (λ _. Log bytes.now) (λ refusal. number_of refusal ≡ 10 → FirstWrong bytes.now (place_of refusal)) }
    ensures accepts { room_told (count_in bytes.now) (length state.old) (length checkpoints.old) (length work.old) ≡ good tt → Log bytes.now → (told : Acceptance) × (checked result ≡ good told) }
    ensures refuses { room_told (count_in bytes.now) (length state.old) (length checkpoints.old) (length work.old) ≡ good tt → (j : ℕ) → FirstWrong bytes.now j → checked result ≡ refused 10 j }
    ensures altered { (j i byte : ℕ) → InStamp bytes.now j i → byte < 256 → (byte ≢ slice_index bytes.now i) → log_in (slice_set bytes.now i byte) (good tt) ≡ refused 10 j }
    ensures behind { BehindSame (count_in bytes.now) state.old state.new checkpoints.old checkpoints.new work.old work.new }
{
    let player = Player::open_in_front(bytes, state, checkpoints, work)?;
    let from = player.system_size();
    let mut session = Session {
        player,
        state,
        checkpoints,
        work,
    };
    check_calls(&mut session, bytes, from)
}

/// Checks the calls from `from` on.
fn check_calls(session: &mut Session<'_>, bytes: &[u8], from: usize) -> Result<Accepted, Refusal>
    ensures answer { checked result ≡ log_told (rules_of session.old.player.system) bytes.now (length bytes.now) 0 from (machine_in_session session.old) }
    ensures kept { Kept session.old session.new }
{
    let mut at = from;
    let mut calls = 0;
    // No `Row`: behind a call stands its stamp, and the next one begins behind that.
    while at < bytes.len() {
        match check_call(session, bytes, calls, at)? {
            ControlFlow::Continue(next) => at = next,
            ControlFlow::Break(refusal) => return Ok(accept(&session.player, calls, Some(refusal))),
        }
        calls += 1;
    }
    Ok(accept(&session.player, calls, None))
}

/// Tells what is accepted, at the player's time.
fn accept(player: &Player, calls: usize, refusal: Option<Refusal>) -> Accepted
    ensures { result ≡ record { calls = calls; time = player.now.time; refusal = refusal } }
{
    Accepted {
        calls,
        time: player.time(),
        refusal,
    }
}

/// Makes call `number`, whose bytes begin at `at`, and looks at what stands behind it. Gives where the next call begins, or
/// the refusal that the log ends in.
fn check_call(
    session: &mut Session<'_>,
    bytes: &[u8],
    number: usize,
    at: usize,
) -> Result<ControlFlow<Refusal, usize>, Refusal>
    requires { at < length bytes.now }
    ensures found { FoundIn bytes.now number at session.old session.new result }
    ensures kept { Kept session.old session.new }
{
    let call = match Call::decode(bytes, number, at) {
        Ok(call) => call,
        Err(refusal) => {
            // Of a call of a kind that there is not, a log has the kind alone.
            if let Refusal::Kind(_) = refusal {
                return check_end(bytes, at + 1, refusal);
            }
            return Err(refusal);
        }
    };
    let end = at + call.size();
    match session.obey(call, number) {
        Ok(_) => check_stamp(session, bytes, number, end),
        Err(refusal) => check_end(bytes, end, refusal),
    }
}

/// Looks whether the bytes end where a refused call does.
fn check_end(
    bytes: &[u8],
    end: usize,
    refusal: Refusal,
) -> Result<ControlFlow<Refusal, usize>, Refusal>
    ensures { (rules : Rules) (k : ℕ) (m : Machine) → EndsAs (ended_told rules bytes.now k m end (number_of refusal) (place_of refusal)) k m refusal result }
{
    if end < bytes.len() {
        return Err(Refusal::Length(end));
    }
    Ok(ControlFlow::Break(refusal))
}

/// Compares the time and the check sum behind call `number`, at `at`, with those of the player.
fn check_stamp(
    session: &Session<'_>,
    bytes: &[u8],
    number: usize,
    at: usize,
) -> Result<ControlFlow<Refusal, usize>, Refusal>
    requires { at ≤ length bytes.now }
    ensures { Compared (rules_of session.now.player.system) bytes.now number at (machine_in_session session.now) result }
{
    let Some(stamp) = bytes[at..].first_chunk() else {
        return Err(Refusal::Length(bytes.len()));
    };
    if Stamp::read(stamp) != Stamp::of(session) {
        return Err(Refusal::Record(number));
    }
    Ok(ControlFlow::Continue(at + 16))
}
