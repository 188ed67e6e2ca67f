//! Reads a system and the calls behind it, makes the calls, and prints a line for each.

#![tactic(auto)]

use calls::run_calls;
use input::{InputError, Request, Words, behind_first, finish, read_input};
use logs::write_log;
use motion::Refusal;
use std::alloc::AllocError;
use std::process::ExitCode;
use std::{env, fs, io};
use thiserror::Error;

const HELP: &str = "usage: run_files [--log LOG] [FILE...]

Reads the files one after the other, or standard input where none is named: the bytes of a system, then those of
calls. Makes the calls, and prints a line for each: the time after it, with place and drive where a body is read.
A refusal is told as `refused NUMBER at PLACE`; the run stops there, and the exit status is 1.
With --log it also writes a log of the calls to the file LOG, which check_log can check.";

/// Why there is no answer, or no log.
#[derive(Debug, Drop, Error)]
enum RunError {
    #[error("--log wants the name of a file (run_files --help tells more)")]
    NoLogName,
    #[error("a system that is refused has no log")]
    NoLog,
    #[error("cannot write {name}: {cause}")]
    Write { name: String, cause: io::Error },
    #[error(transparent)]
    Input(#[from] InputError),
    #[error(transparent)]
    Io(#[from] io::Error),
    #[error(transparent)]
    Memory(#[from(alloc)] AllocError),
}

/// Makes the calls in `bytes`, and prints their lines. Gives the refusal that the run ended with, if it did.
fn run(rt: &HostRuntime, bytes: &[u8]) -> Result<Option<Refusal>, RunError> {
    let mut words = Words::new(rt.alloc())?;
    let report = run_calls(
        rt.alloc(),
        bytes,
        words.state.as_mut_slice(),
        words.checkpoints.as_mut_slice(),
        words.work.as_mut_slice(),
    )?;
    rt.print(report.text.as_str())?;
    Ok(report.refusal)
}

/// Makes the calls in `bytes` once more, and writes their log to a file.
fn record(rt: &HostRuntime, bytes: &[u8], name: &String) -> Result<(), RunError> {
    let mut words = Words::new(rt.alloc())?;
    let log = write_log(
        rt.alloc(),
        bytes,
        words.state.as_mut_slice(),
        words.checkpoints.as_mut_slice(),
        words.work.as_mut_slice(),
    )?;
    let log = log.ok_or(RunError::NoLog)?;
    fs::write(rt, name.as_str(), log.as_slice()).try_map_err(|cause| {
        Ok(RunError::Write {
            name: name.clone()?,
            cause,
        })
    })
}

/// Makes the calls in the files of all names but the first, which is that of the log.
fn run_with_log(rt: &HostRuntime, names: &[String]) -> Result<Option<Refusal>, RunError> {
    let (log, names) = names.split_first().ok_or(RunError::NoLogName)?;
    let bytes = read_input(rt, names)?;
    let refusal = run(rt, bytes.as_slice())?;
    record(rt, bytes.as_slice(), log)?;
    Ok(refusal)
}

/// Does what the command line asks for.
fn start(rt: &HostRuntime) -> Result<Option<Refusal>, RunError> {
    let args: Vec<String> = env::args(rt)?.collect(rt.alloc())?;
    match Request::read(behind_first(args.as_slice())) {
        Request::Help => {
            println!(rt; "{HELP}")?;
            Ok(None)
        }
        Request::ByOption(option, names) if option.as_str() == "--log" => run_with_log(rt, names),
        Request::ByOption(option, _) => Err(InputError::NoOption {
            option: option.clone()?,
            program: "run_files",
        }
        .into()),
        Request::Files(names) => {
            let bytes = read_input(rt, names)?;
            run(rt, bytes.as_slice())
        }
    }
}

fn main(rt: HostRuntime) -> ExitCode {
    finish(&rt, "run_files", start(&rt))
}
