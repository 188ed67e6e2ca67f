//! Random rows of calls to random systems: whatever was called, the state is that of the time.
use crate::lent::{Lent, checkpoints_size};
use crate::random::Random;
use crate::sky::Sky;
use calls::{Answer, Call, Player};
use motion::{Refusal, Turn};
use std::collections::BTreeMap;
use std::process::Abort;
use std::test::*;

/// A time, and a copy of the words lent for the state.
#[derive(Debug, Drop)]
struct Kept {
    time: i64,
    state: Vec<u64>,
}

/// A player, its time, and what it was told to keep, under the seed that made its system.
#[derive(Drop)]
struct Lesson {
    seed: u64,
    count: u8,
    player: Player,
    lent: Lent,
    time: i64,
    kept: BTreeMap<u8, Kept>,
}

impl Lesson {
    /// Tells what a read should answer, if there is such a body and axis.
    // Not one function with that of the program `run`: a test works it out by itself.
    fn reading(&self, body: u8, axis: u8) -> Option<Answer> {
        let (bodies, _) = self.lent.state.as_slice().as_chunks::<6>();
        let bodies = bodies.get(..usize::from(self.count))?;
        let (axes, _) = bodies.get(usize::from(body))?.as_chunks::<2>();
        let [position, momentum] = axes.get(usize::from(axis))?;
        Some(Answer::Reading {
            time: self.time,
            position: position.cast_signed(),
            momentum: momentum.cast_signed(),
        })
    }

    /// Tells what a call should answer.
    fn expected(&self, call: Call, number: usize) -> Result<Answer, Refusal> {
        let time = match call {
            Call::Forward(steps) => self.time.wrapping_add(i64::from(steps)),
            Call::Back(steps) => self.time.wrapping_sub(i64::from(steps)),
            Call::Mark(mark) if mark > 15 => return Err(Refusal::Checkpoint(number)),
            Call::Mark(_) => self.time,
            Call::GoTo(mark) => self
                .kept
                .get(&mark)
                .ok_or(Refusal::Checkpoint(number))?
                .time,
            Call::Read { body, axis } => {
                return self.reading(body, axis).ok_or(Refusal::Absent(number));
            }
        };
        Ok(Answer::Time(time))
    }

    /// Makes a call, and looks what it answers and what it leaves.
    fn make(&mut self, rt: &impl Abort, call: Call, number: usize) -> Result<(), Fail> {
        let seed = self.seed;
        let before = self.lent.clone()?;
        let expected = self.expected(call, number);
        let answer = self.lent.obey(&mut self.player, call, number);
        assert_eq!(rt; answer, expected, "seed {seed}");
        let Ok(Answer::Time(time)) = expected else {
            assert_eq!(rt; &self.lent, &before, "seed {seed}");
            return Ok(());
        };
        self.time = time;
        match call {
            Call::Mark(mark) => {
                let state = self.lent.state.clone()?;
                self.kept.insert(mark, Kept { time, state })?;
            }
            Call::GoTo(mark) => {
                let kept = self.kept.get(&mark).ok_or("nothing is kept")?;
                assert_eq!(rt; &self.lent.state, &kept.state, "seed {seed}");
            }
            _ => {}
        }
        Ok(())
    }

    /// Looks whether the words are those of the time, by turns from the opening, and what lies behind them stays.
    fn check_time(
        &self,
        rt: &(impl Abort + AllocGlobal),
        sky: &Sky,
        opened: &Lent,
    ) -> Result<(), Fail> {
        let heap = rt.alloc();
        let seed = self.seed;
        let mut there = opened.clone()?;
        let steps = self.time.unsigned_abs();
        let turn = if self.time < 0 {
            Turn::Back(steps)
        } else {
            Turn::Forward(steps)
        };
        sky.system(heap)?.turn(turn, there.state.as_mut_slice(), there.work.as_mut_slice())?;
        assert_eq!(rt; &self.lent.state, &there.state, "seed {seed}");
        // By number, which is all that is wanted of an axis.
        for axis in 0..3 {
            assert_eq!(rt;
                self.lent.momentum(self.count, axis),
                opened.momentum(self.count, axis),
                "seed {seed}"
            );
        }
        self.lent.check_behind(rt, opened, self.count);
        Ok(())
    }
}

/// Opens a system, and looks what the lent words hold.
fn open(rt: &(impl Abort + AllocGlobal), seed: u64, sky: &Sky) -> Result<Lesson, Fail> {
    let heap = rt.alloc();
    let count = sky.count()?;
    let before = Lent::new(heap)?;
    let mut lent = before.clone()?;
    let player = lent.open(sky.bytes(heap)?.as_slice())?;
    assert!(rt; lent.state.starts_with(sky.words(heap)?.as_slice()));
    let mut checkpoints = lent.checkpoints.iter().take(checkpoints_size(count));
    assert!(rt; checkpoints.all(|word| *word == 0));
    lent.check_behind(rt, &before, count);
    Ok(Lesson {
        seed,
        count,
        player,
        lent,
        time: 0,
        kept: BTreeMap::new(heap),
    })
}

/// Makes a random row of calls to a random system, and looks at each call and at the end.
fn play(rt: &(impl Abort + AllocGlobal), seed: u64) -> Result<(), Fail> {
    let heap = rt.alloc();
    let mut random = Random::new(seed);
    let sky = Sky::random(heap, &mut random)?;
    let mut lesson = open(rt, seed, &sky)?;
    let opened = lesson.lent.clone()?;
    for number in 0..60 {
        let call = random.call(lesson.count);
        lesson.make(rt, call, number)?;
    }
    lesson.check_time(rt, &sky, &opened)
}

#[test]
fn the_state_belongs_to_the_time(rt: HostRuntime) -> Result<(), Fail> {
    for seed in 0..200 {
        play(&rt, seed)?;
    }
    Ok(())
}

/// Runs a random row of calls, and looks whether the text and the words are those of its calls made one by one.
fn run(rt: &(impl Abort + AllocGlobal), seed: u64) -> Result<(), Fail> {
    let heap = rt.alloc();
    let mut random = Random::new(seed);
    let sky = Sky::random(heap, &mut random)?;
    let mut bytes = sky.bytes(heap)?;
    let mut lent = Lent::new(heap)?;
    let mut player = lent.open(bytes.as_slice())?;
    let mut text = String::new(heap);
    let mut refusal = None;
    for number in 0..20 {
        let call = random.call(sky.count()?);
        call.encode(&mut bytes)?;
        if refusal.is_some() {
            continue;
        }
        match lent.obey(&mut player, call, number) {
            Ok(answer) => writeln!(text, "{answer}")?,
            Err(error) => {
                writeln!(text, "{error}")?;
                refusal = Some(error);
            }
        }
    }
    let mut other = Lent::new(heap)?;
    let report = other.run(heap, bytes.as_slice())?;
    assert_eq!(rt; report.text.as_str(), text.as_str(), "seed {seed}");
    assert_eq!(rt; report.refusal, refusal, "seed {seed}");
    assert_eq!(rt; &other, &lent, "seed {seed}");
    Ok(())
}

#[test]
fn a_row_tells_what_its_calls_answer(rt: HostRuntime) -> Result<(), Fail> {
    for seed in 0..200 {
        run(&rt, seed)?;
    }
    Ok(())
}
