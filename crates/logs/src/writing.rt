//! Writing a log of calls that are made.
ghost use Rattle.std.specs.Prelude.{◌≡◌, ℕ, List, slice_index, [], ◌∷◌, ◌++◌, length, IfSome, IfOk, vec_items, OnOk, if◌then◌else◌, ◌==◌};
ghost use Rattle.std.specs.Option.{option_map};
ghost use Rattle.motion.specs.Refusals.{number_of};
ghost use Rattle.calls.specs.Machine.{rules_of};
ghost use Rattle.calls.specs.Reports.{BehindSame, opening_told};
ghost use Rattle.calls.specs.Rows.{IsRead};
ghost use Rattle.calls.specs.Sessions.{Kept, machine_in_session};
ghost use Rattle.calls.specs.SystemBytes.{count_in};
ghost use Rattle.logs.specs.InSessions.{RecordedIn};
ghost use Rattle.logs.specs.Logs.{Log};
ghost use Rattle.logs.specs.Writing.{written_from, written_in};

use crate::stamp::Stamp;
use calls::{Call, Player, Row, Session};
use motion::Refusal;
use std::alloc::{AllocError, Global};
use std::ops::ControlFlow;

/// Writes the log of the calls behind the system in front of `bytes`, as they are made; nothing where the system is refused.
/// Where memory for the log is wanting, some of the calls may have been made. The slices are lent as to `Player::open`, as
/// room to work in.
pub fn write_log(
    heap: Global,
    bytes: &[u8],
    state: &mut [u64],
    checkpoints: &mut [u64],
    work: &mut [u64],
) -> Result<Option<Vec<u8>>, AllocError>
    ensures log { IfOk result (λ log. option_map vec_items log ≡ written_in bytes.now (opening_told bytes.now (length state.old) (length checkpoints.old) (length work.old))) }
    ensures right { IfOk result (λ log. IfSome log (λ items. Log items.items)) }
    ensures behind { BehindSame (count_in bytes.now) state.old state.new checkpoints.old checkpoints.new work.old work.new }
{
    let Ok(player) = Player::open_in_front(bytes, state, checkpoints, work) else {
        return Ok(None);
    };
    let from = player.system_size();
    let mut log = bytes[..from].to_vec(heap)?;
    let mut session = Session {
        player,
        state,
        checkpoints,
        work,
    };
    write_calls(&mut session, bytes, from, &mut log)?;
    Ok(Some(log))
}

/// Makes the calls from `from` on, and appends the record of each.
fn write_calls(
    session: &mut Session<'_>,
    bytes: &[u8],
    from: usize,
    log: &mut Vec<u8>,
) -> Result<(), AllocError>
    ensures log { OnOk result (log.new.items ≡ log.old.items ++ written_from (rules_of session.old.player.system) bytes.now (length bytes.now) 0 from (machine_in_session session.old)) }
    ensures kept { Kept session.old session.new }
{
    for (number, at, call) in Row::new(bytes, from) {
        if write_call(session, number, call, bytes[at], log)?.is_break() {
            break;
        }
    }
    Ok(())
}

/// Makes call `number`, whose bytes begin with `first`, if it could be read, and appends its record. The log ends with a call
/// that is refused.
fn write_call(
    session: &mut Session<'_>,
    number: usize,
    call: Result<Call, Refusal>,
    first: u8,
    log: &mut Vec<u8>,
) -> Result<ControlFlow<()>, AllocError>
    ensures log { IfOk result (λ flow. (bytes : List ℕ) (at to : ℕ) → IsRead bytes number at call to → first ≡ slice_index bytes at → RecordedIn bytes number at to flow session.old session.new log.old.items log.new.items) }
    ensures kept { Kept session.old session.new }
{
    let call = match call {
        Ok(call) => call,
        Err(refusal) => {
            write_fault(first, refusal, log)?;
            return Ok(ControlFlow::Break(()));
        }
    };
    let answer = session.obey(call, number);
    call.encode(log)?;
    match answer {
        Ok(_) => {
            Stamp::of(session).encode(log)?;
            Ok(ControlFlow::Continue(()))
        }
        Err(_) => Ok(ControlFlow::Break(())),
    }
}

/// Appends the first byte of what is no call, if it is a kind that there is not; a log has nothing else of it.
fn write_fault(first: u8, refusal: Refusal, log: &mut Vec<u8>) -> Result<(), AllocError>
    ensures { OnOk result (log.new.items ≡ log.old.items ++ (if number_of refusal == 4 then first ∷ [] else [])) }
{
    if let Refusal::Kind(_) = refusal {
        log.push(first)?;
    }
    Ok(())
}
