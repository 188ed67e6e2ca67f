//! Words that are lent.
use crate::random::Random;
use calls::{Answer, Call, Player, Report, run_calls};
use motion::Refusal;
use std::alloc::{AllocError, Global};
use std::process::Abort;

/// Words that suffice for every system, and some behind them; they hold anything when they are made.
#[derive(Clone, PartialEq, Debug, Drop)]
pub struct Lent {
    pub state: Vec<u64>,
    pub checkpoints: Vec<u64>,
    pub work: Vec<u64>,
}

fn anything(heap: Global, random: &mut Random, count: usize) -> Result<Vec<u64>, AllocError> {
    (0..count).map(|_| random.draw()).collect(heap)
}

/// Gives the words of sixteen checkpoints of so many bodies.
pub fn checkpoints_size(count: u8) -> usize {
    16 * (6 * usize::from(count) + 2)
}

impl Lent {
    pub fn new(heap: Global) -> Result<Lent, AllocError> {
        let mut random = Random::new(5);
        Ok(Lent {
            state: anything(heap, &mut random, 390)?,
            checkpoints: anything(heap, &mut random, 6200)?,
            work: anything(heap, &mut random, 2020)?,
        })
    }

    pub fn open(&mut self, bytes: &[u8]) -> Result<Player, Refusal> {
        Player::open(
            bytes,
            self.state.as_mut_slice(),
            self.checkpoints.as_mut_slice(),
            self.work.as_slice(),
        )
    }

    pub fn open_in_front(&mut self, bytes: &[u8]) -> Result<Player, Refusal> {
        Player::open_in_front(
            bytes,
            self.state.as_mut_slice(),
            self.checkpoints.as_mut_slice(),
            self.work.as_slice(),
        )
    }

    pub fn obey(
        &mut self,
        player: &mut Player,
        call: Call,
        number: usize,
    ) -> Result<Answer, Refusal> {
        player.obey(
            call,
            number,
            self.state.as_mut_slice(),
            self.checkpoints.as_mut_slice(),
            self.work.as_mut_slice(),
        )
    }

    pub fn run(&mut self, heap: Global, bytes: &[u8]) -> Result<Report, AllocError> {
        run_calls(
            heap,
            bytes,
            self.state.as_mut_slice(),
            self.checkpoints.as_mut_slice(),
            self.work.as_mut_slice(),
        )
    }

    /// Looks whether what lies behind the words that so many bodies use is as it was.
    pub fn check_behind(&self, rt: &impl Abort, before: &Lent, count: u8) {
        let bodies = usize::from(count);
        let state = 6 * bodies;
        let checkpoints = checkpoints_size(count);
        let work = bodies * bodies.saturating_sub(1) / 2;
        assert_eq!(rt; self.state.get(state..), before.state.get(state..));
        assert_eq!(rt;
            self.checkpoints.get(checkpoints..),
            before.checkpoints.get(checkpoints..)
        );
        assert_eq!(rt; self.work.get(work..), before.work.get(work..));
    }

    /// Adds up the momenta of so many bodies along an axis.
    pub fn momentum(&self, count: u8, axis: u8) -> u64 {
        let words = self.state.iter().take(6 * usize::from(count));
        let momenta = words.skip(2 * usize::from(axis) + 1).step_by(6);
        momenta.fold(0, |sum: u64, momentum| sum.wrapping_add(*momentum))
    }
}
