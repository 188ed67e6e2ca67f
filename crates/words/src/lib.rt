//! Words of 64 bits: sums and differences that wrap, the reading with sign, its size, division toward 0, and numbers in bytes.

#![tactic(auto)]

ghost use Rattle.std.specs.Prelude.{◌≡◌, ℕ, ◌^◌, ◌<◌, ◌≤◌};
ghost use Rattle.std.specs.Int.{w64, Width};
ghost use mir.Val.{bits};
ghost use Rattle.words.specs.Numbers.{Lawful};
ghost use Rattle.words.specs.Signed.{signed, size, divided, ReadsSigned};
ghost use Rattle.words.specs.Words.{words, plus, less};

mod bytes;
mod ranged;

pub use bytes::{number_in, write_number};
pub use ranged::{Mass, Ranged, Softening};

/// Adds two words modulo 2^64.
pub fn sum(a: u64, b: u64) -> u64
    ensures { result ≡ plus 64 a b }
{
    a.wrapping_add(b)
}

/// Takes `b` from `a` modulo 2^64.
pub fn difference(a: u64, b: u64) -> u64
    ensures { result ≡ less 64 a b }
{
    a.wrapping_sub(b)
}

/// Reads a word with sign: -2^63 to 2^63 - 1.
pub fn read_signed(word: u64) -> i64
    ensures { result ≡ signed w64 word }
{
    word.cast_signed()
}

/// Gives the size of a word read with sign: 0 to 2^63, which is the size of -2^63.
pub fn size_of_signed(word: u64) -> u64
    ensures { result ≡ size w64 word }
{
    read_signed(word).unsigned_abs()
}

/// Divides a word read with sign by a mass, toward 0.
pub fn divided_by(word: u64, mass: Mass) -> u64
    ensures { result ≡ divided w64 word mass.value }
{
    // `as` loses nothing here, which its type proves: `i64::try_from` would add an error that never comes.
    (read_signed(word) / mass.value() as i64).cast_unsigned()
}

/// Words of every width are numbers whose sum and difference undo each other.
pub fn words_are_lawful()
    ensures { (k : ℕ) → Lawful (words k) }
{}

/// The signed reading, the size and the division are as said, at every width, for every word and every divisor from 1 on.
pub fn words_read_signed()
    ensures { (w : Width) (n m : ℕ) → n < 2 ^ bits w → 1 ≤ m → ReadsSigned w n m }
{}

#[cfg(test)]
mod tests {
    use super::*;

    const LOWEST: u64 = 1 << 63;

    // The word of a negative number, by its size.
    fn minus(size: u64) -> u64 {
        0u64.wrapping_sub(size)
    }

    #[test]
    fn sums_wrap_and_come_back(rt: HostRuntime) {
        assert_eq!(rt; sum(u64::MAX, 3), 2);
        assert_eq!(rt; difference(2, 3), u64::MAX);
    }

    #[test]
    fn signs_and_sizes(rt: HostRuntime) {
        assert_eq!(rt; read_signed(LOWEST), i64::MIN);
        assert_eq!(rt; read_signed(LOWEST - 1), i64::MAX);
        assert_eq!(rt; size_of_signed(LOWEST), LOWEST);
        assert_eq!(rt; size_of_signed(minus(5)), 5);
    }

    fn quotient(word: u64, mass: u64) -> Option<u64> {
        Some(divided_by(word, Mass::new(mass)?))
    }

    #[test]
    fn division_is_toward_zero(rt: HostRuntime) {
        assert_eq!(rt; quotient(LOWEST, 1), Some(LOWEST));
        assert_eq!(rt; quotient(LOWEST, 3), Some(minus(3074457345618258602)));
        assert_eq!(rt; quotient(LOWEST, 1023), Some(minus(9016003946094600)));
        assert_eq!(rt; quotient(minus(5), 3), Some(minus(1)));
        assert_eq!(rt; quotient(5, 3), Some(1));
    }

    #[test]
    fn masses_have_a_range(rt: HostRuntime) {
        assert!(rt; Mass::new(0).is_none());
        assert!(rt; Mass::new(1024).is_none());
    }

    #[test]
    fn numbers_are_read_low_byte_first(rt: HostRuntime) {
        assert_eq!(rt; number_in(&[]), 0);
        assert_eq!(rt; number_in(&[3, 0, 1]), 65539);
        assert_eq!(rt; number_in(&[5, 0, 0, 0, 0, 0, 0, 0, 7]), 5);
    }

    #[test]
    fn numbers_are_written_and_read_back(rt: HostRuntime) {
        let mut word = [0; 8];
        write_number(&mut word, u64::MAX - 1);
        assert_eq!(rt; number_in(&word), u64::MAX - 1);
        let mut byte = [0];
        write_number(&mut byte, 513);
        assert_eq!(rt; byte, [1]);
    }
}
