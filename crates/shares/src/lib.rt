//! Shares: two computers work out the bodies of their shares, send each other rows of bytes, and hold one state.

#![tactic(auto)]

ghost use Rattle.std.specs.Prelude.{◌≡◌, ◌*◌, ◌<◌, ◌≤◌, length, take, drop, MatchResult};
ghost use Rattle.motion.specs.Memory.{state_of, state_length};
ghost use Rattle.motion.specs.Refusals.{told};
ghost use Rattle.motion.specs.Systems.{stepped};
ghost use Rattle.shares.specs.Rows.{Sent, sending};
ghost use Rattle.shares.specs.Taking.{Taken, taking};
ghost use Rattle.shares.specs.Together.{Together, Shared, RoomLeft, RowsOf, merged, lent_together};

use crate::rows::{ROW, complement, count_members, write_rows};
use crate::taking::{check_rows, take_rows};
use motion::{Direction, Refusal, System};

mod rows;
mod taking;

/// A step, or a step back, that two computers share: the first has the bodies of `first`, the second all others.
#[derive(Clone, Copy, PartialEq, Eq, Debug)]
pub struct SharedStep {
    pub direction: Direction,
    pub first: [bool; 64],
}

/// Looks whether a slice of this length is as long as is needed.
fn check_length(length: usize, needed: usize, refusal: Refusal) -> Result<(), Refusal>
    ensures { MatchResult result (λ _. needed ≤ length) (λ e. (length < needed) × (e ≡ refusal)) }
{
    if length < needed {
        return Err(refusal);
    }
    Ok(())
}

/// Works out a step, or a step back, for the bodies of a share, and writes their rows, in ascending order. Gives the number
/// of bytes. `work` has room for the words of a state, which may be anything.
pub fn work_out(
    system: &System,
    share: &[bool],
    direction: Direction,
    state: &[u64],
    work: &mut [u64],
    rows: &mut [u8],
) -> Result<usize, Refusal>
    ensures answer { told result ≡ sending system.now.count share.now (length state.now) (length work.old) (length rows.old) }
    ensures rows { MatchResult result (λ sent. Sent system.now.count share.now (stepped direction system.now (state_of system.now.count state.now)) sent rows.old rows.new) (λ _. rows.new ≡ rows.old) }
    ensures work { MatchResult result (λ _. drop (state_length system.now.count) work.new ≡ drop (state_length system.now.count) work.old) (λ _. work.new ≡ work.old) }
{
    let count = system.count();
    let words = 6 * count;
    check_length(state.len(), words, Refusal::StateShort)?;
    check_length(work.len(), words, Refusal::WorkShort)?;
    let needed = ROW * count_members(share, count);
    check_length(rows.len(), needed, Refusal::RowsShort)?;
    system.step_share(share, direction, state, work)?;
    write_rows(share, &work[..words], &mut rows[..needed]);
    Ok(needed)
}

/// Takes in the rows of both computers together, in any order: each body must have exactly one. Nothing is written unless
/// all rows are right.
pub fn take_in(system: &System, rows: &[u8], state: &mut [u64]) -> Result<(), Refusal>
    ensures answer { told result ≡ taking system.now.count rows.now (length state.old) }
    ensures state { MatchResult result (λ _. Taken system.now.count rows.now state.old state.new) (λ _. state.new ≡ state.old) }
{
    let count = system.count();
    let words = 6 * count;
    check_length(state.len(), words, Refusal::StateShort)?;
    check_rows(rows, count)?;
    take_rows(rows, &mut state[..words]);
    Ok(())
}

/// Carries the states of two computers through a row of shared steps: each works out the bodies of its share from its own
/// state, and both take in the rows of both. `work` has room for the words of a state, `rows` for 49 bytes a body.
pub fn together(
    system: &System,
    steps: &[SharedStep],
    first: &mut [u64],
    second: &mut [u64],
    work: &mut [u64],
    rows: &mut [u8],
) -> Result<(), Refusal>
    ensures answer { told result ≡ lent_together system.now.count (length first.old) (length second.old) (length work.old) (length rows.old) }
    ensures states { MatchResult result (λ _. Together system.now steps.now first.old first.new second.old second.new) (λ _. (first.new ≡ first.old) × (second.new ≡ second.old)) }
    ensures room { MatchResult result (λ _. RoomLeft system.now.count work.old work.new rows.old rows.new) (λ _. (work.new ≡ work.old) × (rows.new ≡ rows.old)) }
{
    let count = system.count();
    check_length(first.len(), 6 * count, Refusal::StateShort)?;
    check_length(second.len(), 6 * count, Refusal::StateShort)?;
    check_length(work.len(), 6 * count, Refusal::WorkShort)?;
    check_length(rows.len(), ROW * count, Refusal::RowsShort)?;
    for step in steps {
        share_step(system, *step, first, second, work, rows)?;
    }
    Ok(())
}

/// Makes one shared step.
// The four slices are passed one by one: a struct of them would serve this function and `gather` alone, and the contracts of
// both would have to keep four references.
fn share_step(
    system: &System,
    shared: SharedStep,
    first: &mut [u64],
    second: &mut [u64],
    work: &mut [u64],
    rows: &mut [u8],
) -> Result<(), Refusal>
    requires first { 6 * system.now.count ≤ length first.old }
    requires second { 6 * system.now.count ≤ length second.old }
    requires work { 6 * system.now.count ≤ length work.old }
    requires rows { 49 * system.now.count ≤ length rows.old }
    ensures states { MatchResult result (λ _. Shared system.now shared first.old first.new second.old second.new) (λ _. ⊥) }
    ensures room { MatchResult result (λ _. RoomLeft system.now.count work.old work.new rows.old rows.new) (λ _. ⊥) }
{
    let size = gather(system, shared, first, second, work, rows)?;
    take_in(system, &rows[..size], first)?;
    take_in(system, &rows[..size], second)?;
    Ok(())
}

/// Has both computers work out their shares, and writes the rows of the first and then those of the second.
fn gather(
    system: &System,
    shared: SharedStep,
    first: &[u64],
    second: &[u64],
    work: &mut [u64],
    rows: &mut [u8],
) -> Result<usize, Refusal>
    requires first { 6 * system.now.count ≤ length first.now }
    requires second { 6 * system.now.count ≤ length second.now }
    requires work { 6 * system.now.count ≤ length work.old }
    requires rows { 49 * system.now.count ≤ length rows.old }
    ensures rows { MatchResult result (λ size. (size ≤ length rows.new) × RowsOf system.now.count (merged system.now shared (state_of system.now.count first.now) (state_of system.now.count second.now)) (take size rows.new)) (λ _. ⊥) }
    ensures room { MatchResult result (λ _. RoomLeft system.now.count work.old work.new rows.old rows.new) (λ _. ⊥) }
{
    let share = shared.first;
    let mut others = [false; 64];
    complement(&share, &mut others);
    let sent = work_out(system, &share, shared.direction, first, work, rows)?;
    let more = work_out(
        system,
        &others,
        shared.direction,
        second,
        work,
        &mut rows[sent..],
    )?;
    Ok(sent + more)
}

#[cfg(test)]
mod tests {
    use super::*;
    use distance::Softening;
    use motion::Turn;
    use std::test::Fail;
    use words::Mass;

    const FAR: u64 = 1 << 60;

    // Bodies of masses 2 and 1, with the least softening. `run` says why it is written out here too.
    fn pair() -> Option<System> {
        let masses = [Mass::new(2)?, Mass::new(1)?];
        System::new(Softening::new(Softening::LEAST)?, &masses).ok()
    }

    // Two computers work out a body each, and take in the rows of both: the second body's first.
    fn exchange(
        system: &System,
        direction: Direction,
        state: &mut [u64],
        rows: &mut [u8; 98],
    ) -> Result<(), Refusal> {
        let mut work = [u64::MAX; 12];
        work_out(
            system,
            &[true, false],
            direction,
            state,
            &mut work,
            &mut rows[49..],
        )?;
        work_out(
            system,
            &[false, true],
            direction,
            state,
            &mut work,
            &mut rows[..49],
        )?;
        take_in(system, rows, state)
    }

    #[test]
    fn shares_hold_one_state_there_and_back(rt: HostRuntime) -> Result<(), Fail> {
        let system = pair().ok_or("no pair")?;
        // Two words behind the state, which stay.
        let mut state = [0, 0, 0, 0, 0, 0, FAR, 0, 0, 0, 0, 0, 8, 9];
        let mut alone = state;
        let mut rows = [255; 98];
        system.step(&mut alone, &mut [0])?;
        exchange(&system, Direction::Ahead, &mut state, &mut rows)?;
        assert_eq!(rt; [state[0], state[1], state[6]], [1023, 2046, FAR - 2046]);
        assert_eq!(rt; state, alone);
        exchange(&system, Direction::Behind, &mut state, &mut rows)?;
        assert_eq!(rt; state, [0, 0, 0, 0, 0, 0, FAR, 0, 0, 0, 0, 0, 8, 9]);
        Ok(())
    }

    #[test]
    fn a_share_sends_49_bytes_for_each_body(rt: HostRuntime) -> Result<(), Fail> {
        let system = pair().ok_or("no pair")?;
        let state = [0, 0, 0, 0, 0, 0, FAR, 0, 0, 0, 0, 0];
        let mut work = [0; 12];
        let mut rows = [7; 99];
        assert_eq!(rt;
            work_out(&system, &[], Direction::Ahead, &state, &mut work, &mut []),
            Ok(0)
        );
        assert_eq!(rt;
            work_out(
                &system,
                &[true, true],
                Direction::Ahead,
                &state,
                &mut work,
                &mut rows,
            ),
            Ok(98)
        );
        // Momentum 2046 = 254 + 7 * 256 of body 0, then body 1, and a byte behind that stays.
        assert_eq!(rt;
            [rows[0], rows[1], rows[2], rows[49], rows[98]],
            [0, 254, 7, 1, 7]
        );
        Ok(())
    }

    // Works out both bodies.
    fn work_out_both(
        system: &System,
        state: &[u64],
        work: &mut [u64],
        rows: &mut [u8],
    ) -> Result<usize, Refusal> {
        work_out(system, &[true, true], Direction::Ahead, state, work, rows)
    }

    #[test]
    fn short_slices_are_refused(rt: HostRuntime) -> Result<(), Fail> {
        let system = pair().ok_or("no pair")?;
        let state = [1; 12];
        let mut work = [2; 12];
        let mut rows = [3; 97];
        assert_eq!(rt;
            work_out_both(&system, &state[0..11], &mut work, &mut rows),
            Err(Refusal::StateShort)
        );
        assert_eq!(rt;
            work_out_both(&system, &state, &mut work[0..11], &mut rows),
            Err(Refusal::WorkShort)
        );
        assert_eq!(rt;
            work_out_both(&system, &state, &mut work, &mut rows),
            Err(Refusal::RowsShort)
        );
        assert_eq!(rt; work, [2; 12]);
        assert_eq!(rt; [rows[0], rows[49]], [3, 3]);
        Ok(())
    }

    #[test]
    fn wrong_rows_are_refused(rt: HostRuntime) -> Result<(), Fail> {
        let system = pair().ok_or("no pair")?;
        let mut state = [5; 12];
        let mut rows = [0; 98];
        assert_eq!(rt; take_in(&system, &rows, &mut state), Err(Refusal::Row(1)));
        rows[0] = 2;
        assert_eq!(rt; take_in(&system, &rows, &mut state), Err(Refusal::Row(0)));
        rows[0] = 1;
        assert_eq!(rt;
            take_in(&system, &rows[0..49], &mut state),
            Err(Refusal::Row(1))
        );
        assert_eq!(rt;
            take_in(&system, &rows[0..97], &mut state),
            Err(Refusal::Length(97))
        );
        assert_eq!(rt;
            take_in(&system, &rows, &mut state[0..11]),
            Err(Refusal::StateShort)
        );
        assert_eq!(rt; state, [5; 12]);
        take_in(&system, &rows, &mut state)?;
        assert_eq!(rt; state, [0; 12]);
        Ok(())
    }

    // Three steps on, one back and one on: the first computer has nobody, then the second body twice, all, and nobody again.
    fn changing_shares() -> [SharedStep; 5] {
        let nobody = SharedStep {
            direction: Direction::Ahead,
            first: [false; 64],
        };
        let mut other = nobody;
        other.first[1] = true;
        let everyone = SharedStep {
            direction: Direction::Behind,
            first: [true; 64],
        };
        [nobody, other, other, everyone, nobody]
    }

    #[test]
    fn two_computers_hold_the_state_of_one(rt: HostRuntime) -> Result<(), Fail> {
        let system = pair().ok_or("no pair")?;
        let mut first = [0, 5, 7, 0, 0, 0, FAR, 0, 0, 0, 9, 0];
        let mut second = first;
        let mut alone = first;
        let steps = changing_shares();
        together(
            &system,
            &steps,
            &mut first,
            &mut second,
            &mut [0; 12],
            &mut [0; 98],
        )?;
        system.travel(
            &[Turn::Forward(3), Turn::Back(1), Turn::Forward(1)],
            &mut alone,
            &mut [0],
        )?;
        assert_eq!(rt; first, alone);
        assert_eq!(rt; second, alone);
        assert_eq!(rt;
            together(
                &system,
                &steps,
                &mut first,
                &mut second,
                &mut [0; 12],
                &mut [0; 97],
            ),
            Err(Refusal::RowsShort)
        );
        Ok(())
    }
}
