//! Calls from bytes and to bytes.
ghost use Rattle.std.specs.Prelude.{◌≡◌, ℕ, ◌+◌, ◌≤◌, List, ◌∷◌, ◌++◌, length, take, drop, is_ok, IfOk, if◌then◌else◌, OnOk};
ghost use Rattle.words.specs.Bytes.{bytes_of};
ghost use Rattle.motion.specs.Refusals.{good, told};
ghost use Rattle.calls.specs.Calls.{call_at, size_of, bytes_of_call};

use crate::Call;
use motion::Refusal;
use std::alloc::AllocError;

impl Call {
    /// Reads call `number`, whose bytes begin at `at`. Refuses a kind that there is not, and then bytes that end too early.
    pub fn decode(bytes: &[u8], number: usize, at: usize) -> Result<Call, Refusal>
        ensures answer { told result ≡ call_at bytes.now number at }
        ensures within { IfOk result (λ call. at + size_of call ≤ length bytes.now) }
        ensures undone { IfOk result (λ call. take (size_of call) (drop at bytes.now) ≡ bytes_of_call call) }
    {
        // The kinds are numbers of the file format: an enum of them beside `Call`, with its conversions, would only name these
        // five arms once more.
        match bytes.get(at..).unwrap_or(&[]) {
            &[1, a, b, c, d, ..] => Ok(Call::Forward(u32::from_le_bytes([a, b, c, d]))),
            &[2, a, b, c, d, ..] => Ok(Call::Back(u32::from_le_bytes([a, b, c, d]))),
            &[3, mark, ..] => Ok(Call::Mark(mark)),
            &[4, mark, ..] => Ok(Call::GoTo(mark)),
            &[5, body, axis, ..] => Ok(Call::Read { body, axis }),
            [] | [1..=5, ..] => Err(Refusal::Length(bytes.len())),
            _ => Err(Refusal::Kind(number)),
        }
    }

    /// Appends the call's bytes. Where memory is wanting nothing is appended.
    pub fn encode(self, bytes: &mut Vec<u8>) -> Result<(), AllocError>
        ensures items { bytes.new.items ≡ (if is_ok result then bytes.old.items ++ bytes_of_call self else bytes.old.items) }
        ensures undone { OnOk result ((k : ℕ) (more : List ℕ) → call_at (bytes.new.items ++ more) k (length bytes.old.items) ≡ good self) }
    {
        // The numbers of the kinds are those of the file format, as in `decode`.
        match self {
            Call::Forward(steps) => bytes.extend_from_slice(&with_steps(1, steps)),
            Call::Back(steps) => bytes.extend_from_slice(&with_steps(2, steps)),
            Call::Mark(mark) => bytes.extend_from_slice(&[3, mark]),
            Call::GoTo(mark) => bytes.extend_from_slice(&[4, mark]),
            Call::Read { body, axis } => bytes.extend_from_slice(&[5, body, axis]),
        }
    }

    /// Gives the number of the call's bytes.
    pub fn size(self) -> usize
        ensures { result ≡ size_of self }
    {
        match self {
            Call::Forward(_) | Call::Back(_) => 5,
            Call::Mark(_) | Call::GoTo(_) => 2,
            Call::Read { .. } => 3,
        }
    }
}

/// Gives the bytes of a kind and a number of steps.
fn with_steps(kind: u8, steps: u32) -> [u8; 5]
    ensures { result ≡ kind ∷ bytes_of 4 steps }
{
    let [a, b, c, d] = steps.to_le_bytes();
    [kind, a, b, c, d]
}
