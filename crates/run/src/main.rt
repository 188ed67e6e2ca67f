//! Moves a system that is built in by turns of the lever, and prints a line for each.

#![tactic(auto)]

ghost use Rattle.std.specs.Prelude.{◌<◌, IfOk, length};

use anyhow::{Context, Result, bail};
use distance::Softening;
use motion::{System, Turn};
use std::env;
use words::{Mass, read_signed};

const HELP: &str = "usage: run CALL...

A CALL is one of: forward STEPS, back STEPS, read BODY AXIS.
Moves two bodies of masses 2 and 1, softening 2^20, at rest on the first axis at 0 and 2^60, and prints the
time after each call, with place and drive where a body is read.";

/// What the operator asks for: to make a turn, or to read a body along an axis.
#[derive(Clone, Copy)]
enum Call {
    Turn(Turn),
    Read { body: u32, axis: u32 },
}

/// The built-in system: two bodies of masses 2 and 1, with the least softening.
// Tests of `motion` and `shares` make it as well: one function for all would be a public one for tests alone.
fn pair() -> Option<System> {
    let masses = [Mass::new(2)?, Mass::new(1)?];
    System::new(Softening::new(Softening::LEAST)?, &masses).ok()
}

fn read_number(text: &str) -> Result<u32> {
    // Without `ok`, what `parse` has to say would be told too. `soak` has these two lines with its own type and text.
    let number = text.parse().ok();
    number.context("a number is wanted, 0 to 4294967295; run --help tells more")
}

/// Reads the call that stands first, and gives the words behind it.
fn read_call(words: &[String]) -> Result<(Call, &[String])>
    ensures { IfOk result (λ r. length r.1.now < length words.now) }
{
    let [word, number, rest @ ..] = words else {
        bail!("a call has a word and a number; run --help tells more");
    };
    let number = read_number(number.as_str())?;
    match (word.as_str(), rest) {
        ("forward", _) => Ok((Call::Turn(Turn::Forward(u64::from(number))), rest)),
        ("back", _) => Ok((Call::Turn(Turn::Back(u64::from(number))), rest)),
        ("read", [axis, rest @ ..]) => {
            let axis = read_number(axis.as_str())?;
            Ok((Call::Read { body: number, axis }, rest))
        }
        _ => bail!("not a call: run --help tells which there are"),
    }
}

/// The time after a turn, if it is in range.
fn time_after(time: i64, turn: Turn) -> Option<i64> {
    match turn {
        Turn::Forward(steps) => time.checked_add_unsigned(steps),
        Turn::Back(steps) => time.checked_sub_unsigned(steps),
    }
}

/// Place and drive of a body along an axis, if there are such.
fn place_and_drive(state: &[u64], body: u32, axis: u32) -> Option<(i64, i64)> {
    let (bodies, _) = state.as_chunks::<6>();
    let (axes, _) = bodies.get(usize::try_from(body).ok()?)?.as_chunks::<2>();
    let [place, drive] = axes.get(usize::try_from(axis).ok()?)?;
    Some((read_signed(*place), read_signed(*drive)))
}

fn run(rt: &HostRuntime, system: &System, mut words: &[String]) -> Result<()> {
    let mut state = [0; 12];
    state[6] = 1 << 60;
    let mut work = [0; 1];
    let mut time = 0;
    while !words.is_empty() {
        let (call, rest) = read_call(words)?;
        words = rest;
        match call {
            Call::Turn(turn) => {
                time = time_after(time, turn).context("the time is out of range")?;
                system
                    .turn(turn, &mut state, &mut work)
                    .ok()
                    .context("the turn is refused")?;
                println!(rt; "time {time}")?;
            }
            Call::Read { body, axis } => {
                let read = place_and_drive(&state, body, axis);
                let (place, drive) = read.context("no such body or axis")?;
                println!(rt; "time {time} place {place} drive {drive}")?;
            }
        }
    }
    Ok(())
}

fn main(rt: HostRuntime) -> Result<()> {
    let args: Vec<String> = env::args(&rt)?.collect(rt.alloc())?;
    match args.as_slice() {
        [_, words @ ..] if words.first().is_some_and(|word| word.as_str() != "--help") => {
            let system = pair().context("the system is out of range")?;
            run(&rt, &system, words)
        }
        _ => {
            println!(rt; "{HELP}")?;
            Ok(())
        }
    }
}
