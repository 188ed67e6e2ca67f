//! A body's six words: for each axis its position and behind it its momentum.
// They come as slices of six, and no arrays: a part that is lent to be written is a slice, and as an array it would be an
// `Option` that always is there.
ghost use Rattle.std.specs.Prelude.{◌≡◌, ◌*◌, length, slice_index};
ghost use Rattle.distance.specs.Axes.{by_axis, along};
ghost use Rattle.motion.specs.Changes.{Kicked, Drifted};

use crate::turn::Direction;
use words::{Mass, divided_by};

/// Gives the position among a body's words.
pub(crate) fn position(words: &[u64]) -> [u64; 3]
    requires { length words.now ≡ 6 }
    ensures { result ≡ by_axis (λ a. slice_index words.now (2 * a)) }
{
    [words[0], words[2], words[4]]
}

/// Changes the momenta among a body's words by an impulse.
pub(crate) fn kick(words: &mut [u64], impulse: [u64; 3], direction: Direction)
    requires { length words.old ≡ 6 }
    ensures { Kicked direction (along impulse) words.old words.new }
{
    for (a, by) in impulse.iter().enumerate() {
        words[2 * a + 1] = direction.moved(words[2 * a + 1], *by);
    }
}

/// Changes the positions among a body's words by its momenta.
pub(crate) fn drift(words: &mut [u64], mass: Mass, direction: Direction)
    requires { length words.old ≡ 6 }
    ensures { Drifted direction mass.value words.old words.new }
{
    // By number: of the words that are written through `as_chunks_mut` a proof knows none.
    for a in 0..3 {
        let way = divided_by(words[2 * a + 1], mass);
        words[2 * a] = direction.moved(words[2 * a], way);
    }
}
