//! The impulse that one body gives another in a step, on all three axes.

#![tactic(auto)]

ghost use Rattle.std.specs.Prelude.{◌≡◌, ℕ, ◌*◌, ◌/◌, ◌^◌, ◌<◌, ◌≤◌};
ghost use Rattle.distance.specs.Axes.{by_axis, along};
ghost use Rattle.distance.specs.Distance.{squared_distance};
ghost use Rattle.distance.specs.Root.{whole_root};
ghost use Rattle.impulse.specs.Impulse.{impulse as impulse_of, with_sign_of, way, SmallFactors, PairOfImpulses};

use distance::{Distance, Softening};
use words::{Mass, difference};

/// The word of -2^63, which is its own opposite.
const HALF: u64 = 1 << 63;

/// A body's mass and its position on the three axes.
#[derive(Clone, Copy, PartialEq, Eq, Debug)]
pub struct Body {
    pub mass: Mass,
    pub position: [u64; 3],
}

/// What one body gives another in a step.
#[derive(Clone, Copy, PartialEq, Eq, Debug)]
pub struct Impulse {
    /// The impulse on each axis, a word read with sign.
    pub on_axes: [u64; 3],
    /// The root of the squared distance: a good start for the next root of the same pair.
    pub root: u64,
}

/// Gives the impulse on `body` from `other`. The root of their distance is looked for from `start`.
pub fn impulse_on(body: Body, other: Body, softening: Softening, start: u64) -> Impulse
    ensures value { result.on_axes ≡ by_axis (impulse_of softening.value body.mass.value other.mass.value (along body.position) (along other.position)) }
    ensures root { result.root ≡ whole_root (squared_distance softening.value (way (along body.position) (along other.position))) }
    ensures pair { (a : ℕ) → a < 3 → PairOfImpulses softening.value body.mass.value other.mass.value (along body.position) (along other.position) a }
{
    let differences = way_between(body.position, other.position);
    let distance = Distance::new(differences, softening, start);
    let masses = body.mass.value() * other.mass.value();
    let [d0, d1, d2] = differences;
    let [e0, e1, e2] = distance.separations;
    let on_axes = [
        along_axis(d0, e0, distance.weight, masses),
        along_axis(d1, e1, distance.weight, masses),
        along_axis(d2, e2, distance.weight, masses),
    ];
    Impulse {
        on_axes,
        root: distance.root,
    }
}

/// A body gives itself no impulse.
pub fn no_impulse_on_itself()
    ensures { (softening m n a : ℕ) (here : ℕ → ℕ) → here a < 2 ^ 64 → impulse_of softening m n here here a ≡ 0 }
{}

/// Gives the way from one position to another, on each axis.
fn way_between(here: [u64; 3], there: [u64; 3]) -> [u64; 3]
    ensures { result ≡ by_axis (way (along here) (along there)) }
{
    let [x0, x1, x2] = here;
    let [y0, y1, y2] = there;
    [difference(y0, x0), difference(y1, x1), difference(y2, x2)]
}

/// Gives the impulse along one axis.
fn along_axis(difference: u64, separation: u64, weight: u64, masses: u64) -> u64
    requires { SmallFactors separation weight masses }
    ensures { result ≡ with_sign_of difference (separation * weight / 2 ^ 20 * masses) }
{
    with_sign_of(difference, ((separation * weight) >> 20) * masses)
}

/// Gives `size` the sign of `difference`, and 0 where that is -2^63. It has no branch, since signs come at random.
fn with_sign_of(difference: u64, size: u64) -> u64
    ensures { result ≡ with_sign_of difference size }
{
    let sign = u64::from(difference < HALF).wrapping_sub(u64::from(difference > HALF));
    size.wrapping_mul(sign)
}

#[cfg(test)]
mod tests {
    use super::*;

    const FAR: u64 = 1 << 60;

    fn body(mass: u64, x: u64, y: u64, z: u64) -> Option<Body> {
        let mass = Mass::new(mass)?;
        Some(Body {
            mass,
            position: [x, y, z],
        })
    }

    // The impulse on the first body from the second, with the least softening.
    fn on_first(first: Option<Body>, second: Option<Body>) -> Option<[u64; 3]> {
        let softening = Softening::new(Softening::LEAST)?;
        Some(impulse_on(first?, second?, softening, 1).on_axes)
    }

    #[test]
    fn a_pair_pulls_together(rt: HostRuntime) {
        assert_eq!(rt;
            on_first(body(2, 0, 0, 0), body(1, FAR, 0, 0)),
            Some([2046, 0, 0])
        );
        let back = 0u64.wrapping_sub(2046);
        assert_eq!(rt;
            on_first(body(1, FAR, 0, 0), body(2, 0, 0, 0)),
            Some([back, 0, 0])
        );
    }

    #[test]
    fn none_across_half_of_space(rt: HostRuntime) {
        assert_eq!(rt;
            on_first(body(2, 0, 7, 7), body(1, 1 << 63, 7, 7)),
            Some([0, 0, 0])
        );
    }

    #[test]
    fn none_at_one_place(rt: HostRuntime) {
        assert_eq!(rt;
            on_first(body(1023, 5, 6, 7), body(1023, 5, 6, 7)),
            Some([0, 0, 0])
        );
    }

    #[test]
    fn masses_multiply(rt: HostRuntime) {
        let light = on_first(body(1, 0, 0, 0), body(1, 0, FAR, 0));
        assert_eq!(rt; light, Some([0, 1023, 0]));
        let heavy = on_first(body(1023, 0, 0, 0), body(1023, 0, FAR, 0));
        assert_eq!(rt; heavy, Some([0, 1023 * 1023 * 1023, 0]));
    }
}
