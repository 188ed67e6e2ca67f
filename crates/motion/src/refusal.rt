//! What is refused. The number and the place of each case stand in one definition, `Refusals`.
ghost use Rattle.std.specs.Prelude.{◌≡◌, Some};
ghost use Rattle.motion.specs.Refusals.{number_of, place_of, refusal_line};

use std::error::Error;
use std::fmt;

/// Why something is refused.
#[derive(Clone, Copy, PartialEq, Eq, Debug)]
pub enum Refusal {
    /// Bytes end too early or go on: the length, or the first byte too many.
    Length(usize),
    /// No bodies, or more than 64.
    Bodies,
    /// A softening or a mass out of its range: its first byte.
    Range(usize),
    /// A kind of call that there is not: the call.
    Kind(usize),
    /// A checkpoint above 15, or one that was not kept: the call.
    Checkpoint(usize),
    /// A body or an axis that does not exist: the call.
    Absent(usize),
    /// A time out of range: the call.
    Time(usize),
    /// The slice lent for the state is too short.
    StateShort,
    /// The slice lent for checkpoints is too short.
    CheckpointsShort,
    /// The slice lent for work is too short.
    WorkShort,
    /// The slice lent for the rows of a share is too short.
    RowsShort,
    /// A row of shares whose body is there twice or does not exist; or, at the number of rows, a body without a row.
    Row(usize),
    /// A log whose time or check sum differs: the call.
    Record(usize),
}

impl Refusal {
    /// Gives the number of the refusal.
    // Numbers and places are those of the rules, and are printed.
    pub fn number(self) -> u64
        ensures { result ≡ number_of self }
    {
        match self {
            Refusal::Length(_) => 1,
            Refusal::Bodies => 2,
            Refusal::Range(_) => 3,
            Refusal::Kind(_) => 4,
            Refusal::Checkpoint(_) => 5,
            Refusal::Absent(_) => 6,
            Refusal::Time(_) => 7,
            Refusal::StateShort
            | Refusal::CheckpointsShort
            | Refusal::WorkShort
            | Refusal::RowsShort => 8,
            Refusal::Row(_) => 9,
            Refusal::Record(_) => 10,
        }
    }

    /// Gives the place that the refusal tells.
    pub fn place(self) -> usize
        ensures { result ≡ place_of self }
    {
        match self {
            Refusal::Length(at) | Refusal::Range(at) => at,
            Refusal::Kind(call)
            | Refusal::Checkpoint(call)
            | Refusal::Absent(call)
            | Refusal::Time(call)
            | Refusal::Record(call) => call,
            Refusal::Bodies | Refusal::StateShort => 0,
            Refusal::CheckpointsShort => 1,
            Refusal::WorkShort => 2,
            Refusal::RowsShort => 3,
            Refusal::Row(row) => row,
        }
    }
}

impl fmt::Display for Refusal {
    ghost output = { λ refusal. Some (refusal_line refusal) };

    fn fmt<W: fmt::Write>(&self, f: &mut fmt::Formatter<W>) -> fmt::Result {
        let number = self.number();
        let place = self.place();
        write!(f, "refused {number} at {place}")
    }
}

impl Error for Refusal {}
