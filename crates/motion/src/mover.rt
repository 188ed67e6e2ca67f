//! A system whose time runs ahead or back.
use crate::System;
use crate::turn::Direction;

/// Moves the bodies of a system in one direction of time, in words that are lent.
// The words are no field: each contract would keep their reference and the mover, two clauses for one on their length.
#[derive(Clone, Copy)]
pub(crate) struct Mover<'a> {
    pub(crate) system: &'a System,
    pub(crate) direction: Direction,
}
