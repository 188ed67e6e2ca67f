//! What the tests share: systems and rows of calls in bytes, and a log written and checked in room for eight bodies.
use calls::Call;
use logs::{Accepted, check_log, write_log};
use motion::Refusal;
use rand_core::{Rng, SeedableRng};
use rand_xoshiro::SplitMix64;
use std::alloc::{AllocError, Global};
use std::test::Fail;

/// A place where a log may end: behind its system, or behind the record of a call.
#[derive(Clone, Copy)]
pub struct Stop {
    /// The length of the log up to here.
    pub end: usize,
    /// The time here.
    pub time: i64,
}

/// A time that is kept under a number.
#[derive(Clone, Copy)]
struct Kept {
    mark: u8,
    time: i64,
}

/// A system with calls behind it, all of which are answered, and what is known of its log.
#[derive(Drop)]
pub struct Lever {
    pub bytes: Vec<u8>,
    pub bodies: u8,
    /// The system's end, and then that of each call's record.
    pub stops: Vec<Stop>,
    /// The times that were kept; the last of a number holds.
    // A list and no map: a random call picks one by its place.
    kept: Vec<Kept>,
}

impl Lever {
    /// Takes the bytes of a system, at time 0.
    pub fn new(heap: Global, bodies: u8, bytes: Vec<u8>) -> Result<Lever, AllocError> {
        let end = bytes.len();
        Ok(Lever {
            bytes,
            bodies,
            stops: vec![in heap; Stop { end, time: 0 }]?,
            kept: Vec::new(heap),
        })
    }

    /// Gives the last place where its log may end.
    pub fn last(&self) -> Stop {
        let none = Stop { end: 0, time: 0 };
        self.stops.as_slice().last().copied().unwrap_or(none)
    }

    /// Gives the number of its calls.
    pub fn calls(&self) -> usize {
        self.stops.len().saturating_sub(1)
    }

    /// Gives the time that is kept under a number.
    fn kept_time(&self, mark: u8) -> i64 {
        let mut newest_first = self.kept.iter().rev();
        newest_first
            .find(|kept| kept.mark == mark)
            .map_or(0, |kept| kept.time)
    }

    /// Adds a call, and what is known of its record.
    pub fn add(&mut self, call: Call) -> Result<(), AllocError> {
        let Stop { end, time } = self.last();
        let time = match call {
            Call::Forward(steps) => time.saturating_add(i64::from(steps)),
            Call::Back(steps) => time.saturating_sub(i64::from(steps)),
            Call::Mark(mark) => {
                self.kept.push(Kept { mark, time })?;
                time
            }
            Call::GoTo(mark) => self.kept_time(mark),
            Call::Read { .. } => time,
        };
        let end = end.saturating_add(call.size()).saturating_add(16);
        self.stops.push(Stop { end, time })?;
        call.encode(&mut self.bytes)
    }

    /// Gives a random call that will be answered; it keeps no mark above 14.
    fn random_call(&self, random: &mut SplitMix64) -> Call {
        // That `as` loses nothing is proved here and below: `try_from` would need an `unwrap`.
        let steps = (random.next_u64() % 5) as u32;
        let mark = (random.next_u64() % 15) as u8;
        let body = (random.next_u64() % 256) as u8;
        let pick = (random.next_u64() as usize).checked_rem(self.kept.len());
        match random.next_u64() % 5 {
            0 => Call::Forward(steps),
            1 => Call::Back(steps),
            2 => Call::Mark(mark),
            3 => match self.kept.as_slice().get(pick.unwrap_or(0)) {
                Some(kept) => Call::GoTo(kept.mark),
                None => Call::Mark(mark),
            },
            _ => Call::Read {
                body: body.checked_rem(self.bodies).unwrap_or(0),
                axis: (random.next_u64() % 3) as u8,
            },
        }
    }
}

/// Appends words.
fn put(bytes: &mut Vec<u8>, words: &[u64]) -> Result<(), AllocError> {
    for word in words {
        bytes.extend_from_slice(&word.to_le_bytes())?;
    }
    Ok(())
}

/// Masses 2 and 1 at rest, 2^60 apart on the first axis, with the least softening: forward 3, back 2, read 0 0.
pub fn worked_pair(heap: Global) -> Result<Lever, AllocError> {
    let mut bytes = Vec::new(heap);
    bytes.push(2)?;
    put(&mut bytes, &[1 << 20])?;
    bytes.extend_from_slice(&[2, 0])?;
    put(&mut bytes, &[0; 6])?;
    bytes.extend_from_slice(&[1, 0])?;
    put(&mut bytes, &[1 << 60, 0, 0, 0, 0, 0])?;
    let mut lever = Lever::new(heap, 2, bytes)?;
    lever.add(Call::Forward(3))?;
    lever.add(Call::Back(2))?;
    lever.add(Call::Read { body: 0, axis: 0 })?;
    Ok(lever)
}

/// A random system of 1 to 8 bodies, with twelve random calls that are answered.
pub fn random_lever(heap: Global, seed: u64) -> Result<Lever, AllocError> {
    let mut random = SplitMix64::seed_from_u64(seed);
    let bodies = (1 + random.next_u64() % 8) as u8;
    let mut bytes = Vec::new(heap);
    bytes.push(bodies)?;
    put(&mut bytes, &[(1 << 20) + random.next_u64() % (1 << 39)])?;
    for _ in 0..bodies {
        let mass = (1 + random.next_u64() % 1023) as u16;
        bytes.extend_from_slice(&mass.to_le_bytes())?;
        for _ in 0..3 {
            put(&mut bytes, &[random.next_u64()])?;
        }
        for _ in 0..3 {
            put(&mut bytes, &[random.next_u64() >> 16])?;
        }
    }
    let mut lever = Lever::new(heap, bodies, bytes)?;
    for _ in 0..12 {
        let call = lever.random_call(&mut random);
        lever.add(call)?;
    }
    Ok(lever)
}

/// Writes the log of a system and calls.
pub fn log_of(heap: Global, bytes: &[u8]) -> Result<Vec<u8>, Fail> {
    let log = write_log(heap, bytes, &mut [7; 48], &mut [7; 800], &mut [7; 28])?;
    Ok(log.ok_or("the system is refused")?)
}

/// Checks a log.
pub fn verdict(log: &[u8]) -> Result<Accepted, Refusal> {
    check_log(log, &mut [7; 48], &mut [7; 800], &mut [7; 28])
}
