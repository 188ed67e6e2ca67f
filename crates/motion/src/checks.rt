//! The check sum of a state.
ghost use Rattle.std.specs.Prelude.{◌≡◌};
ghost use Rattle.motion.specs.Checks.{check_sum};

/// Gives the exclusive-or of all words, each turned to the left by its place modulo 64.
pub fn check_sum(words: &[u64]) -> u64
    ensures { result ≡ check_sum words.now }
{
    let mut sum = 0;
    for (k, word) in words.iter().enumerate() {
        // Below 64, so `as` loses nothing, which is proved: `u32::try_from` would add an error that never comes.
        sum ^= word.rotate_left((k % 64) as u32);
    }
    sum
}
