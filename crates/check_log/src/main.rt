//! Checks a log, and tells whether it is accepted.

#![tactic(auto)]

use input::{InputError, Request, Words, behind_first, finish, read_input};
use logs::check_log;
use motion::Refusal;
use std::env;
use std::process::ExitCode;

const HELP: &str = "usage: check_log [FILE...]

Reads the files one after the other, or standard input where none is named, as a log: the bytes of a system, and
each call with the time and the check sum after it. Makes the calls anew, and says `accepted N calls time T`, with
the refusal that ended it if one did, or `refused NUMBER at PLACE` for the first fault, with exit status 1.";

/// Checks the log in the files of these names, and prints the verdict. Gives the refusal, if it is refused.
fn check(rt: &HostRuntime, names: &[String]) -> Result<Option<Refusal>, InputError> {
    let bytes = read_input(rt, names)?;
    let mut words = Words::new(rt.alloc())?;
    let verdict = check_log(
        bytes.as_slice(),
        words.state.as_mut_slice(),
        words.checkpoints.as_mut_slice(),
        words.work.as_mut_slice(),
    );
    match verdict {
        Ok(accepted) => {
            println!(rt; "{accepted}")?;
            Ok(None)
        }
        Err(refusal) => {
            println!(rt; "{refusal}")?;
            Ok(Some(refusal))
        }
    }
}

/// Does what the command line asks for.
fn start(rt: &HostRuntime) -> Result<Option<Refusal>, InputError> {
    let args: Vec<String> = env::args(rt)?.collect(rt.alloc())?;
    match Request::read(behind_first(args.as_slice())) {
        Request::Help => {
            println!(rt; "{HELP}")?;
            Ok(None)
        }
        Request::ByOption(option, _) => Err(InputError::NoOption {
            option: option.clone()?,
            program: "check_log",
        }),
        Request::Files(names) => check(rt, names),
    }
}

fn main(rt: HostRuntime) -> ExitCode {
    finish(&rt, "check_log", start(&rt))
}
