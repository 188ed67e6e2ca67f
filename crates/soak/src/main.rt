//! Goes forward and back with a random system of 64 bodies, and tells whether the words of the opening are back.

#![tactic(auto)]

use anyhow::{Context, Result, bail};
use distance::Softening;
use motion::{System, Turn, check_sum};
use rand_core::{Rng, SeedableRng};
use rand_xoshiro::SplitMix64;
use std::alloc::Global;
use std::time::{Duration, Instant};
use std::{array, env};
use words::Mass;

const HELP: &str = "usage: soak STEPS SEED [words]

Makes a random system of 64 bodies from SEED, goes STEPS steps forward and STEPS steps back, and tells the
check sum of the state in the opening, in the middle and after, and whether the words of the opening are back.
With `words` it lists the words of the middle too. The time goes to standard error.";

/// A system and the words of its opening state.
#[derive(Drop)]
struct Opening {
    system: System,
    state: Vec<u64>,
}

/// What the command line asks for.
#[derive(Clone, Copy)]
struct Request {
    steps: u64,
    seed: u64,
    words: bool,
}

/// Gives any mass.
fn random_mass(random: &mut SplitMix64) -> Option<Mass> {
    Mass::new(1 + random.next_u64() % 1023)
}

/// Gives a position anywhere, and a momentum of 48 bits.
fn random_words(random: &mut SplitMix64) -> [u64; 2] {
    let position = random.next_u64();
    let momentum = random.next_u64().cast_signed() >> 16;
    [position, momentum.cast_unsigned()]
}

/// Makes a random system with its opening state.
fn random_opening(heap: Global, seed: u64) -> Result<Opening> {
    let mut random = SplitMix64::seed_from_u64(seed);
    let span = Softening::MOST - Softening::LEAST + 1;
    let softening = Softening::new(Softening::LEAST + random.next_u64() % span).context(
        "a softening out of range",
    )?;
    let masses: [Mass; System::MOST_BODIES] = array::try_from_fn(|_| {
        random_mass(&mut random).context("a mass out of range")
    })?;
    let state = (0..3 * System::MOST_BODIES)
        .flat_map(|_| random_words(&mut random))
        .collect(heap)?;
    let system = System::new(softening, &masses)
        .ok()
        .context("a system out of range")?;
    Ok(Opening { system, state })
}

fn read_number(text: &str) -> Result<u64> {
    // Without `ok`, what `parse` has to say would be told too. `run` has these two lines with its own type and text.
    let number = text.parse().ok();
    number.context("STEPS and SEED are numbers below 2^64 (soak --help tells more)")
}

/// Reads the words of the command line; nothing where help is asked for.
fn read_request(args: &[String]) -> Result<Option<Request>> {
    let (steps, seed, words) = match args {
        [_, word] if word.as_str() == "--help" => return Ok(None),
        [_, steps, seed] => (steps, seed, false),
        [_, steps, seed, word] if word.as_str() == "words" => (steps, seed, true),
        _ => bail!("usage: soak STEPS SEED [words] (soak --help tells more)"),
    };
    let steps = read_number(steps.as_str())?;
    let seed = read_number(seed.as_str())?;
    Ok(Some(Request { steps, seed, words }))
}

/// Makes a turn and tells how long it took.
fn timed_turn(
    rt: &HostRuntime,
    system: &System,
    turn: Turn,
    state: &mut [u64],
    work: &mut [u64],
) -> Result<Duration> {
    let start = Instant::now(rt)?;
    let answer = system.turn(turn, state, work);
    let time = start.elapsed(rt)?;
    answer.ok().context("the turn was refused")?;
    Ok(time)
}

/// Goes there and back, and tells the sums on the way.
fn soak(
    rt: &HostRuntime,
    request: &Request,
    system: &System,
    state: &mut [u64],
    work: &mut [u64],
) -> Result<Duration> {
    let opening = check_sum(state);
    println!(rt; "opening {opening:016x}")?;
    let there = timed_turn(rt, system, Turn::Forward(request.steps), state, work)?;
    if request.words {
        for word in state.iter() {
            println!(rt; "{word}")?;
        }
    }
    let middle = check_sum(state);
    println!(rt; "middle {middle:016x}")?;
    let back = timed_turn(rt, system, Turn::Back(request.steps), state, work)?;
    let after = check_sum(state);
    println!(rt; "after {after:016x}")?;
    there.checked_add(back).context("the time is out of range")
}

fn run(rt: &HostRuntime) -> Result<()> {
    let args: Vec<String> = env::args(rt)?.collect(rt.alloc())?;
    let Some(request) = read_request(args.as_slice())? else {
        println!(rt; "{HELP}")?;
        return Ok(());
    };
    let Opening { system, mut state } = random_opening(rt.alloc(), request.seed)?;
    let opening = state.clone()?;
    let mut work = vec![in rt.alloc(); 0u64; 2016]?;
    let time = soak(
        rt,
        &request,
        &system,
        state.as_mut_slice(),
        work.as_mut_slice(),
    )?;
    if state == opening {
        println!(rt; "the words of the opening are back")?;
    } else {
        println!(rt; "the words of the opening are not back")?;
    }
    tell_time(rt, request.steps.saturating_mul(2), time)
}

/// Tells on standard error how long the steps took, in milliseconds, and each of them, in nanoseconds.
fn tell_time(rt: &HostRuntime, steps: u64, time: Duration) -> Result<()> {
    let whole = time.as_millis();
    let each = time.as_nanos().checked_div(u128::from(steps)).unwrap_or(0);
    eprintln!(rt; "{steps} steps in {whole} ms, {each} ns a step")?;
    Ok(())
}

fn main(rt: HostRuntime) -> Result<()> {
    run(&rt)
}
