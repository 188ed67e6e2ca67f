//! What calls answer.
ghost use Rattle.std.specs.Prelude.{Some};
ghost use Rattle.calls.specs.Answers.{answer_text};

use std::fmt;

/// What a call answers.
#[derive(Clone, Copy, PartialEq, Eq, Debug)]
pub enum Answer {
    /// The time after the call.
    Time(i64),
    /// The time, and a body's position and momentum along an axis.
    Reading {
        time: i64,
        position: i64,
        momentum: i64,
    },
}

impl fmt::Display for Answer {
    ghost output = { λ answer. Some (answer_text answer) };

    fn fmt<W: fmt::Write>(&self, f: &mut fmt::Formatter<W>) -> fmt::Result {
        match *self {
            Answer::Time(time) => write!(f, "time {time}"),
            Answer::Reading {
                time,
                position,
                momentum,
            } => write!(f, "time {time} place {position} drive {momentum}"),
        }
    }
}
