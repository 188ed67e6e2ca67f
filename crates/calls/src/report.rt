//! Whole rows of calls, and the text that tells of them.
ghost use Rattle.std.specs.Prelude.{◌≡◌, ℕ, List, [], ◌++◌, length, IfOk, string_bytes, MatchResult};
ghost use Rattle.calls.specs.Calls.{row_in};
ghost use Rattle.calls.specs.Machine.{rules_of};
ghost use Rattle.calls.specs.Reports.{BehindSame, RowTold, Left, end_told, rest_of, opening_told, trace_in};
ghost use Rattle.calls.specs.Rows.{IsRead};
ghost use Rattle.calls.specs.Sessions.{GoesOnIn, Kept, StopsIn, machine_in_session};
ghost use Rattle.calls.specs.SystemBytes.{count_in};
ghost use Rattle.calls.specs.Trace.{ending, lines, trace};

use crate::{Answer, Call, Player, Row, Session};
use motion::Refusal;
use std::alloc::{AllocError, Global};

/// What a run tells.
#[derive(PartialEq, Eq, Debug, Drop)]
pub struct Report {
    /// A line for each call, and one for a refusal.
    pub text: String,
    /// The refusal that the run ended with, if it did.
    pub refusal: Option<Refusal>,
}

/// Opens the system in front of `bytes`, makes the calls behind it, up to the last or to one that is refused, and tells of
/// them in lines. Where memory for the text is wanting, some of the calls may have been made.
pub fn run_calls(
    heap: Global,
    bytes: &[u8],
    state: &mut [u64],
    checkpoints: &mut [u64],
    work: &mut [u64],
) -> Result<Report, AllocError>
    ensures text { IfOk result (λ report. string_bytes report.text ≡ lines (trace_in bytes.now (opening_told bytes.now (length state.old) (length checkpoints.old) (length work.old)))) }
    ensures refusal { IfOk result (λ report. end_told report.refusal ≡ ending (trace_in bytes.now (opening_told bytes.now (length state.old) (length checkpoints.old) (length work.old)))) }
    ensures left { IfOk result (λ _. Left bytes.now (opening_told bytes.now (length state.old) (length checkpoints.old) (length work.old)) state.old state.new checkpoints.old checkpoints.new work.old work.new) }
    ensures behind { BehindSame (count_in bytes.now) state.old state.new checkpoints.old checkpoints.new work.old work.new }
{
    let mut text = String::new(heap);
    let refusal = play(bytes, &mut text, state, checkpoints, work)?;
    if let Some(refusal) = refusal {
        writeln!(text, "{refusal}")?;
    }
    Ok(Report { text, refusal })
}

/// Opens the system and makes the calls; appends a line for each answer.
fn play(
    bytes: &[u8],
    text: &mut String,
    state: &mut [u64],
    checkpoints: &mut [u64],
    work: &mut [u64],
) -> Result<Option<Refusal>, AllocError>
    requires { string_bytes text.old ≡ [] }
    ensures text { IfOk result (λ refusal. lines (trace_in bytes.now (opening_told bytes.now (length state.old) (length checkpoints.old) (length work.old))) ≡ string_bytes text.new ++ lines (rest_of refusal)) }
    ensures refusal { IfOk result (λ refusal. end_told refusal ≡ ending (trace_in bytes.now (opening_told bytes.now (length state.old) (length checkpoints.old) (length work.old)))) }
    ensures left { IfOk result (λ _. Left bytes.now (opening_told bytes.now (length state.old) (length checkpoints.old) (length work.old)) state.old state.new checkpoints.old checkpoints.new work.old work.new) }
    ensures behind { BehindSame (count_in bytes.now) state.old state.new checkpoints.old checkpoints.new work.old work.new }
{
    match Player::open_in_front(bytes, state, checkpoints, work) {
        Ok(player) => {
            let calls = Row::new(bytes, player.system_size());
            let mut session = Session {
                player,
                state,
                checkpoints,
                work,
            };
            session.make_calls(calls, text)
        }
        Err(refusal) => Ok(Some(refusal)),
    }
}

impl Session<'_> {
    /// Makes call `number`, if it could be read.
    fn make_call(&mut self, number: usize, call: Result<Call, Refusal>) -> Result<Answer, Refusal>
        ensures made { (bytes : List ℕ) (at to : ℕ) → IsRead bytes number at call to → MatchResult result (λ answer. GoesOnIn bytes number at answer to self.old self.new) (λ refusal. StopsIn bytes number at refusal self.old self.new) }
        ensures kept { Kept self.old self.new }
    {
        self.obey(call?, number)
    }

    /// Makes the calls of a row, up to the last or to one that is refused, and appends a line for each answer.
    fn make_calls(
        &mut self,
        calls: Row<'_>,
        text: &mut String,
    ) -> Result<Option<Refusal>, AllocError>
        requires calls { calls.number ≡ 0 }
        requires text { string_bytes text.old ≡ [] }
        ensures told { IfOk result (λ refusal. RowTold (trace (rules_of self.old.player.system) (machine_in_session self.old) 0 (row_in calls.entry.bytes.now calls.entry.at)) (machine_in_session self.old) (string_bytes text.new) (machine_in_session self.new) refusal) }
        ensures kept { Kept self.old self.new }
    {
        for (number, _, call) in calls {
            match self.make_call(number, call) {
                Ok(answer) => writeln!(text, "{answer}")?,
                Err(refusal) => return Ok(Some(refusal)),
            }
        }
        Ok(None)
    }
}
