//! Impulses of all pairs of bodies, each pair worked out once and given to both.
ghost use Rattle.std.specs.Prelude.{◌≡◌, ℕ, ◌*◌, ◌<◌, length};
ghost use Rattle.distance.specs.Axes.{by_axis, along};
ghost use Rattle.words.specs.Words.{plus};
ghost use Rattle.motion.specs.Changes.{impulse_at, Exchanged, RowExchanged, AllKicked};
ghost use Rattle.motion.specs.Memory.{position_at, work_length};
ghost use Rattle.motion.specs.Systems.{mass_of};

use crate::System;
use crate::body::{kick, position};
use crate::mover::Mover;
use impulse::{Body, Impulse, impulse_on};

impl System {
    /// Gives a body's mass and position.
    // That a body is below the count is asked here and by what calls this: a type for such numbers could not name the system
    // whose bodies it counts.
    fn body(&self, body: usize, state: &[u64]) -> Body
        requires body { body < self.now.count }
        requires state { length state.now ≡ 6 * self.now.count }
        ensures mass { result.mass.value ≡ mass_of self.now body }
        ensures position { result.position ≡ by_axis (position_at state.now body) }
    {
        Body {
            mass: self.masses()[body],
            position: position(&state[6 * body..6 * body + 6]),
        }
    }

    /// Works out the impulse on body `i` from body `j`. The root of their distance is looked for from `start`.
    pub(crate) fn impulse(&self, i: usize, j: usize, state: &[u64], start: u64) -> Impulse
        requires first { i < self.now.count }
        requires second { j < self.now.count }
        requires state { length state.now ≡ 6 * self.now.count }
        ensures value { (a : ℕ) → a < 3 → along result.on_axes a ≡ impulse_at self.now state.now a i j }
        ensures cancels { (a : ℕ) → a < 3 → plus 64 (along result.on_axes a) (impulse_at self.now state.now a j i) ≡ 0 }
    {
        impulse_on(
            self.body(i, state),
            self.body(j, state),
            self.softening,
            start,
        )
    }
}

impl Mover<'_> {
    /// Has two bodies give each other their impulses. The root of their distance is looked for from `start`, and handed back.
    fn exchange(&self, i: usize, j: usize, state: &mut [u64], start: u64) -> u64
        requires first { i < self.now.system.now.count }
        requires second { j < i }
        requires state { length state.old ≡ 6 * self.now.system.now.count }
        ensures { Exchanged self.now.system.now self.now.direction i j state.old state.new }
    {
        let direction = self.direction;
        let impulse = self.system.impulse(i, j, state, start);
        kick(&mut state[6 * i..6 * i + 6], impulse.on_axes, direction);
        kick(
            &mut state[6 * j..6 * j + 6],
            impulse.on_axes,
            direction.opposite(),
        );
        impulse.root
    }

    /// Has body `i` and each body before it give each other their impulses. `roots` are those of these pairs.
    fn exchange_row(&self, i: usize, state: &mut [u64], roots: &mut [u64])
        requires body { i < self.now.system.now.count }
        requires state { length state.old ≡ 6 * self.now.system.now.count }
        requires roots { length roots.old ≡ i }
        ensures { RowExchanged self.now.system.now self.now.direction i i state.old state.new }
    {
        for (j, root) in roots.iter_mut().enumerate() {
            *root = self.exchange(i, j, state, *root);
        }
    }

    /// Has all bodies give each other their impulses. `roots` are those of all pairs, row by row.
    pub(crate) fn kick_all(&self, state: &mut [u64], roots: &mut [u64])
        requires state { length state.old ≡ 6 * self.now.system.now.count }
        requires roots { length roots.old ≡ work_length self.now.system.now.count }
        ensures { AllKicked self.now.system.now self.now.direction self.now.system.now.count state.old state.new }
    {
        let mut rest = roots;
        // By number: nothing of a body but its number is wanted here.
        for i in 0..self.system.count {
            let (row, later) = rest.split_at_mut(i);
            self.exchange_row(i, state, row);
            rest = later;
        }
    }
}
