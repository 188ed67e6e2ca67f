//! A row of calls in bytes, one behind the other.
ghost use Rattle.std.specs.Prelude.{◌≡◌, ◌-◌, ◌≤◌, length};
ghost use Rattle.std.specs.Iterator.{at_most};
ghost use Rattle.calls.specs.Rows.{NextCall};

use crate::Call;
use motion::Refusal;

/// The calls from a place in bytes on, each with its number and the place where it begins, up to bytes that are refused.
#[derive(Drop)]
pub struct Row<'a> {
    /// The bytes that hold them.
    pub bytes: &'a [u8],
    /// The number of the next call.
    pub number: usize,
    /// Where it begins.
    pub at: usize,
    ghost counted: { number ≤ at },
}

impl<'a> Row<'a> {
    /// Begins at a place, with call 0.
    pub fn new(bytes: &'a [u8], at: usize) -> Row<'a>
        ensures bytes { result.bytes.now ≡ bytes.now }
        ensures number { result.number ≡ 0 }
        ensures at { result.at ≡ at }
    {
        Row {
            bytes,
            number: 0,
            at,
        }
    }
}

impl<'a> Iterator for Row<'a> {
    type Item = (usize, usize, Result<Call, Refusal>);

    ghost next_gives = { λ row item after. NextCall row.bytes.now row.number row.at item after.bytes.now after.number after.at };

    ghost remaining = { λ row. at_most (length row.bytes.now - row.at) };

    fn next(&mut self) -> Option<Self::Item> {
        if self.at >= self.bytes.len() {
            return None;
        }
        let number = self.number;
        let at = self.at;
        let call = Call::decode(self.bytes, number, at);
        self.at = match call {
            Ok(call) => at + call.size(),
            Err(_) => self.bytes.len(),
        };
        self.number = number + 1;
        Some((number, at, call))
    }
}
