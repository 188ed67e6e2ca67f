//! A player obeys one call.
ghost use Rattle.std.specs.Prelude.{◌≡◌, ℕ, ◌*◌, ◌≤◌, List, length, MatchResult};
ghost use Rattle.motion.specs.Memory.{state_length};
ghost use Rattle.motion.specs.Refusals.{told};
ghost use Rattle.calls.specs.Checkpoints.{checkpoints_length, kept_words, machine_of};
ghost use Rattle.calls.specs.Machine.{rules_of, provided, obey as obeying};
ghost use Rattle.calls.specs.Outcomes.{Obeyed, Untouched};
ghost use Rattle.calls.specs.Sessions.{Kept, ObeyedIn, UntouchedIn, machine_in_session};
ghost use Rattle.calls.specs.SystemBytes.{room_told};

use crate::checkpoints::{CHECKPOINTS, checkpoint_size};
use crate::{Answer, Call, Player, Session};
use motion::{Refusal, System};
use words::read_signed;

/// Looks whether slices of these lengths suffice for a system.
pub(crate) fn check_room(
    system: &System,
    state: usize,
    checkpoints: usize,
    work: usize,
) -> Result<(), Refusal>
    ensures { told result ≡ room_told system.now.count state checkpoints work }
{
    let count = system.count();
    if state < 6 * count {
        return Err(Refusal::StateShort);
    }
    if checkpoints < CHECKPOINTS * checkpoint_size(system) {
        return Err(Refusal::CheckpointsShort);
    }
    // The number of pairs, as in `motion`: a public function for this product would have a contract longer than it is.
    if work < count * count.saturating_sub(1) / 2 {
        return Err(Refusal::WorkShort);
    }
    Ok(())
}

impl Player {
    /// Obeys call `number`: makes exactly the steps that it says, or refuses it and changes nothing. `state` holds the 6 words
    /// of each body, `checkpoints` the words of sixteen checkpoints, `work` a word for each pair of bodies, which may be
    /// anything; what lies behind them is not touched.
    pub fn obey(
        &mut self,
        call: Call,
        number: usize,
        state: &mut [u64],
        checkpoints: &mut [u64],
        work: &mut [u64],
    ) -> Result<Answer, Refusal>
        ensures answer { told result ≡ provided (room_told self.old.system.count (length state.old) (length checkpoints.old) (length work.old)) (obeying (rules_of self.old.system) (machine_of self.old state.old checkpoints.old) number call).answer }
        ensures left { MatchResult result (λ _. Obeyed number call self.old self.new state.old state.new checkpoints.old checkpoints.new work.old work.new) (λ _. Untouched self.old self.new state.old state.new checkpoints.old checkpoints.new work.old work.new) }
    {
        check_room(&self.system, state.len(), checkpoints.len(), work.len())?;
        let time = self.time;
        match call {
            Call::Forward(steps) => {
                let to = time.checked_add(i64::from(steps));
                self.arrive(to, Refusal::Time(number), state, work)
            }
            Call::Back(steps) => {
                let to = time.checked_sub(i64::from(steps));
                self.arrive(to, Refusal::Time(number), state, work)
            }
            Call::Mark(mark) => self.mark(mark, number, state, checkpoints),
            Call::GoTo(mark) => {
                let to = self.kept_time(mark, checkpoints);
                self.arrive(to, Refusal::Checkpoint(number), state, work)
            }
            Call::Read { body, axis } => self.read(body, axis, number, state),
        }
    }

    /// Keeps the time and the state under a number.
    // Here, in `read` and in what `obey` calls each function is lent the slices that it is about, and no session: what is not
    // lent, or not to be written, stays, and no clause has to say so.
    fn mark(
        &self,
        mark: u8,
        number: usize,
        state: &[u64],
        checkpoints: &mut [u64],
    ) -> Result<Answer, Refusal>
        requires state { state_length self.now.system.count ≤ length state.now }
        requires checkpoints { checkpoints_length self.now.system.count ≤ length checkpoints.old }
        ensures answer { told result ≡ (obeying (rules_of self.now.system) (machine_of self.now state.now checkpoints.old) number (Call.Mark mark)).answer }
        ensures left { MatchResult result (λ _. checkpoints.new ≡ kept_words self.now.system.count mark self.now.time state.now checkpoints.old) (λ _. checkpoints.new ≡ checkpoints.old) }
    {
        if usize::from(mark) >= CHECKPOINTS {
            return Err(Refusal::Checkpoint(number));
        }
        self.keep(mark, state, checkpoints);
        Ok(Answer::Time(self.time))
    }

    /// Tells the position and the momentum of a body along an axis.
    fn read(&self, body: u8, axis: u8, number: usize, state: &[u64]) -> Result<Answer, Refusal>
        requires { state_length self.now.system.count ≤ length state.now }
        ensures { (checkpoints : List ℕ) → told result ≡ (obeying (rules_of self.now.system) (machine_of self.now state.now checkpoints) number (Call.Read body axis)).answer }
    {
        let body = usize::from(body);
        let axis = usize::from(axis);
        if body >= self.count() || axis >= 3 {
            return Err(Refusal::Absent(number));
        }
        let at = 6 * body + 2 * axis;
        Ok(Answer::Reading {
            time: self.time,
            position: read_signed(state[at]),
            momentum: read_signed(state[at + 1]),
        })
    }
}

impl Session<'_> {
    /// Obeys call `number` as `Player::obey` does; no slice can be too short.
    pub fn obey(&mut self, call: Call, number: usize) -> Result<Answer, Refusal>
        ensures answer { told result ≡ (obeying (rules_of self.old.player.system) (machine_in_session self.old) number call).answer }
        ensures left { MatchResult result (λ _. ObeyedIn number call self.old self.new) (λ _. UntouchedIn self.old self.new) }
        ensures kept { Kept self.old self.new }
    {
        self.player
            .obey(call, number, self.state, self.checkpoints, self.work)
    }
}
