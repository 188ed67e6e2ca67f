//! The distance of two bodies: separations on the axes, the squared distance, its whole root and its weight.

#![tactic(auto)]

ghost use Rattle.std.specs.Prelude.{◌≡◌, ℕ, ◌+◌, ◌*◌, ◌^◌, ◌<◌, ◌≤◌};
ghost use Rattle.distance.specs.Axes.{by_axis, along};
ghost use Rattle.distance.specs.Distance.{separation as separation_of, squared_distance, weight as weight_of, Bounded};
ghost use Rattle.distance.specs.Root.{WholeRoot, whole_root};

pub use words::Softening;
use words::size_of_signed;

/// No whole root of a word is larger.
const ROOT_MAX: u64 = 0xffff_ffff;

/// What a weight is a part of.
const WEIGHT_SCALE: u64 = 1 << 62;

/// Gives the separation on an axis where positions differ by `difference`: its size in units of 2^44, at most 2^19.
pub fn separation(difference: u64) -> u64
    ensures value { result ≡ separation_of difference }
    ensures bound { result ≤ 2 ^ 19 }
{
    size_of_signed(difference) >> 44
}

/// Finds the whole root of `square` step by step. Every `start` leads to it; one near the root takes fewer steps.
pub fn root(square: u64, start: u64) -> u64
    ensures largest { WholeRoot square result }
    ensures value { result ≡ whole_root square }
{
    let guess = start.max(1).min(ROOT_MAX);
    if guess * guess <= square && square - guess * guess <= 2 * guess {
        return guess;
    }
    let mut root = newton(square, guess);
    while root * root > square {
        root = newton(square, root);
    }
    root
}

/// One step of Newton's method: never below the whole root, and below a `guess` whose square is beyond `square`.
fn newton(square: u64, guess: u64) -> u64
    requires least { 1 ≤ guess }
    requires most { guess < 2 ^ 32 }
    ensures beyond { square < (result + 1) * (result + 1) }
    ensures bound { result < 2 ^ 32 }
    ensures falls { square < guess * guess → result < guess }
{
    (guess.saturating_add(square / guess) / 2).min(ROOT_MAX)
}

/// How far two bodies are apart: what the impulse between them is made of.
#[derive(Clone, Copy, PartialEq, Eq, Debug)]
pub struct Distance {
    /// The separation on each axis.
    pub separations: [u64; 3],
    /// The whole root of the squared distance.
    pub root: u64,
    /// The weight of the squared distance.
    pub weight: u64,
}

impl Distance {
    /// Measures the distance of two bodies by the differences of their positions. The root is looked for from `start`.
    pub fn new(differences: [u64; 3], softening: Softening, start: u64) -> Distance
        ensures separations { result.separations ≡ by_axis (λ a. separation_of (along differences a)) }
        ensures root { result.root ≡ whole_root (squared_distance softening.value (along differences)) }
        ensures weight { result.weight ≡ weight_of (squared_distance softening.value (along differences)) }
        ensures bounds { Bounded softening.value (along differences) }
    {
        let [d0, d1, d2] = differences;
        let separations = [separation(d0), separation(d1), separation(d2)];
        let squared = squared_distance(separations, softening);
        let root = root(squared, start);
        Distance {
            separations,
            root,
            weight: WEIGHT_SCALE / (squared * root),
        }
    }
}

/// Adds the squares of three separations and the softening.
fn squared_distance(separations: [u64; 3], softening: Softening) -> u64
    requires { (a : ℕ) → a < 3 → along separations a ≤ 2 ^ 19 }
    ensures { result ≡ along separations 0 * along separations 0 + along separations 1 * along separations 1 + along separations 2 * along separations 2 + softening.value }
{
    let [e0, e1, e2] = separations;
    e0 * e0 + e1 * e1 + e2 * e2 + softening.value()
}

#[cfg(test)]
mod tests {
    use super::*;

    #[test]
    fn separations_go_by_size(rt: HostRuntime) {
        assert_eq!(rt; separation(1 << 63), 1 << 19);
        assert_eq!(rt; separation(u64::MAX), 0);
        assert_eq!(rt; separation((1 << 63) - 1), (1 << 19) - 1);
    }

    #[test]
    fn every_start_leads_to_the_root(rt: HostRuntime) {
        for start in [0, 1, 9, 10, 11, 65543, u64::MAX] {
            assert_eq!(rt; root(0, start), 0);
            assert_eq!(rt; root(99, start), 9);
            assert_eq!(rt; root(100, start), 10);
            assert_eq!(rt; root(4296015872, start), 65543);
            assert_eq!(rt; root(u64::MAX, start), 0xffff_ffff);
        }
    }

    #[test]
    fn softenings_have_a_range(rt: HostRuntime) {
        assert!(rt; Softening::new((1 << 20) - 1).is_none());
        assert!(rt; Softening::new((1 << 40) + 1).is_none());
    }

    // Root and weight of a distance.
    fn root_and_weight(differences: [u64; 3], softening: u64) -> Option<(u64, u64)> {
        let distance = Distance::new(differences, Softening::new(softening)?, 1);
        Some((distance.root, distance.weight))
    }

    #[test]
    fn both_ends_of_the_softening(rt: HostRuntime) {
        let near = root_and_weight([0, 0, 0], Softening::LEAST);
        assert_eq!(rt; near, Some((1 << 10, 1 << 32)));
        let far = root_and_weight([1 << 63, 1 << 63, 1 << 63], Softening::MOST);
        assert_eq!(rt; far, Some((1387135, 1)));
    }
}
