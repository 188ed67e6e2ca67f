//! What the programs on files share: what their command line asks for, their input, the words that they lend, and their end.

#![tactic(auto)]

ghost use Rattle.std.specs.Prelude.{◌≡◌, ◌≤◌, ◌↔◌, drop, IfOk, vec_len, Ok, None};
ghost use Rattle.std.specs.Process.{exit_status};
ghost use Rattle.input.specs.Requests.{Asks};

use std::alloc::{AllocError, Global};
use std::fmt::InlineText;
use std::io::Read;
use std::process::ExitCode;
use std::{fmt, fs, io};
use thiserror::Error;

/// The most bytes that are told of an error.
const ERROR_ROOM: usize = 120;

/// What the words of a command line ask for.
pub enum Request<'a> {
    /// To tell what the program does.
    Help,
    /// To do what this option is for, with the words behind it.
    ByOption(&'a String, &'a [String]),
    /// To work on the files of these names, or on standard input where there are none.
    Files(&'a [String]),
}

/// Why a program on files has no answer. It holds whole names, however long they are; `finish` tells so much as has room.
#[derive(Debug, Drop, Error)]
pub enum InputError {
    #[error("there is no option {option} ({program} --help tells more)")]
    NoOption {
        option: String,
        program: &'static str,
    },
    #[error("cannot read standard input: {0}")]
    StandardInput(io::Error),
    #[error("cannot read {name}: {cause}")]
    File {
        name: String,
        cause: io::Error,
    },
    #[error(transparent)]
    Io(#[from] io::Error),
    #[error(transparent)]
    Memory(#[from(alloc)] AllocError),
}

/// Gives the words behind the first, which is the program's name.
pub fn behind_first(args: &[String]) -> &[String]
    ensures { result.now ≡ drop 1 args.now }
{
    match args {
        [_, rest @ ..] => rest,
        [] => args,
    }
}

impl Request<'_> {
    /// Reads the words behind the program's name.
    pub fn read(words: &[String]) -> Request
        ensures { Asks words.now result }
    {
        match words {
            [word, ..] if word.as_str() == "--help" => Request::Help,
            [word, rest @ ..] if word.as_str().starts_with("--") => Request::ByOption(word, rest),
            _ => Request::Files(words),
        }
    }
}

/// Reads the files of these names one after the other as one row of bytes, or standard input where no file is named.
pub fn read_input(rt: &HostRuntime, names: &[String]) -> Result<Vec<u8>, InputError> {
    let mut bytes = Vec::new(rt.alloc());
    if names.is_empty() {
        rt.stdin()
            .read_to_end(&mut bytes)
            .map_err(InputError::StandardInput)?;
    }
    for name in names {
        let part = fs::read(rt, name.as_str()).try_map_err(|cause| {
            Ok(InputError::File {
                name: name.clone()?,
                cause,
            })
        })?;
        bytes.extend_from_slice(part.as_slice())?;
    }
    Ok(bytes)
}

/// Gives the exit status of a program that ends so: 0 where nothing is refused, else 1. An error is told behind the program's
/// name: a text of more than 120 bytes is cut, and ends in three dots.
pub fn finish<R: Drop, E: fmt::Display + Drop>(
    rt: &HostRuntime,
    program: &str,
    end: Result<Option<R>, E>,
) -> ExitCode
    ensures success { exit_status result ≡ 0 ↔ end ≡ Ok None }
    ensures failure { exit_status result ≤ 1 }
{
    match end {
        Ok(None) => ExitCode::SUCCESS,
        Ok(Some(_)) => ExitCode::FAILURE,
        Err(error) => {
            let text = InlineText::<{ ERROR_ROOM }>::of(error);
            // Where even this cannot be written, the exit status is all that can tell.
            let _told = eprintln!(rt; "{program}: {}", text.as_str()).is_ok();
            ExitCode::FAILURE
        }
    }
}

/// Words that suffice for every system. They are lent one by one, since whoever moves a system takes slices, which a caller
/// may cut.
#[derive(Drop)]
pub struct Words {
    pub state: Vec<u64>,
    pub checkpoints: Vec<u64>,
    pub work: Vec<u64>,
}

impl Words {
    /// Makes them: for 64 bodies the words of a state, of sixteen checkpoints, and one for each pair.
    pub fn new(heap: Global) -> Result<Words, AllocError>
        ensures { IfOk result (λ words. (vec_len words.state ≡ 384) × (vec_len words.checkpoints ≡ 6176) × (vec_len words.work ≡ 2016)) }
    {
        Ok(Words {
            state: vec![in heap; 0u64; 384]?,
            checkpoints: vec![in heap; 0u64; 6176]?,
            work: vec![in heap; 0u64; 2016]?,
        })
    }
}
