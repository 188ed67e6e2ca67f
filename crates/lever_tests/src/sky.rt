//! Systems with their openings, and what they are in bytes, in words, and as systems that move.
use crate::random::Random;
use distance::Softening;
use motion::System;
use std::alloc::{AllocError, Global};
use std::test::*;
use words::Mass;

/// A body in the opening.
#[derive(Clone, Copy)]
pub struct Body {
    pub mass: u16,
    pub positions: [u64; 3],
    pub momenta: [u64; 3],
}

impl Body {
    /// Gives its words as they lie in memory: for each axis the position and the momentum.
    fn words(&self) -> [u64; 6] {
        let [x, y, z] = self.positions;
        let [along_x, along_y, along_z] = self.momenta;
        [x, along_x, y, along_y, z, along_z]
    }
}

/// A system and its opening.
#[derive(Drop)]
pub struct Sky {
    pub softening: u64,
    pub bodies: Vec<Body>,
}

impl Sky {
    /// The number of the pair's bytes.
    pub const PAIR_SIZE: usize = 109;

    /// The worked pair: masses 2 and 1, the least softening, at rest, 2^60 apart.
    pub fn pair(heap: Global) -> Result<Sky, AllocError> {
        let near = Body {
            mass: 2,
            positions: [0; 3],
            momenta: [0; 3],
        };
        let far = Body {
            mass: 1,
            positions: [1 << 60, 0, 0],
            momenta: [0; 3],
        };
        Ok(Sky {
            softening: Softening::LEAST,
            bodies: [near, far].to_vec(heap)?,
        })
    }

    /// Makes a system of so many bodies of one mass, at rest at one place.
    pub fn uniform(
        heap: Global,
        softening: u64,
        mass: u16,
        count: usize,
    ) -> Result<Sky, AllocError> {
        let body = Body {
            mass,
            positions: [0; 3],
            momenta: [0; 3],
        };
        Ok(Sky {
            softening,
            bodies: vec![in heap; body; count]?,
        })
    }

    /// Makes a random system of 1 to 64 bodies; now and then two bodies are at the same place.
    pub fn random(heap: Global, random: &mut Random) -> Result<Sky, AllocError> {
        let span = Softening::MOST - Softening::LEAST;
        let softening = match random.below(4) {
            0 => Softening::LEAST,
            1 => Softening::MOST,
            _ => Softening::LEAST + random.below(span + 1),
        };
        let mut bodies: Vec<Body> = Vec::new(heap);
        for _ in 0..1 + random.below(64) {
            let positions = match bodies.last() {
                Some(body) if random.below(8) == 0 => body.positions,
                _ => random.words(),
            };
            bodies.push(Body {
                // The check proves that `as` loses nothing.
                mass: 1 + random.below(1023) as u16,
                positions,
                momenta: random.words(),
            })?;
        }
        Ok(Sky { softening, bodies })
    }

    pub fn count(&self) -> Result<u8, Fail> {
        Ok(u8::try_from(self.bodies.len())?)
    }

    /// Gives the bytes of the system.
    pub fn bytes(&self, heap: Global) -> Result<Vec<u8>, Fail> {
        let mut bytes = Vec::new(heap);
        bytes.push(self.count()?)?;
        bytes.extend_from_slice(&self.softening.to_le_bytes())?;
        for body in self.bodies.iter() {
            bytes.extend_from_slice(&body.mass.to_le_bytes())?;
            for word in body.positions.iter().chain(body.momenta.iter()) {
                bytes.extend_from_slice(&word.to_le_bytes())?;
            }
        }
        Ok(bytes)
    }

    /// Gives the words of the opening as they lie in memory.
    pub fn words(&self, heap: Global) -> Result<Vec<u64>, AllocError> {
        self.bodies
            .iter()
            .flat_map(|body| body.words())
            .collect(heap)
    }

    /// Gives the system without its opening.
    pub fn system(&self, heap: Global) -> Result<System, Fail> {
        let softening = Softening::new(self.softening).ok_or("a softening out of range")?;
        let masses: Vec<Mass> = self
            .bodies
            .iter()
            .map(|body| -> Result<Mass, Fail> {
                Ok(Mass::new(u64::from(body.mass)).ok_or("a mass out of range")?)
            })
            .try_collect(heap)?;
        Ok(System::new(softening, masses.as_slice())?)
    }
}
