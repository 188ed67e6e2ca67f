//! Tests of the library `calls`: every refusal at its place, the limits that are taken, random rows of calls, calls in bytes,
//! and the worked pair. A time out of range, refusal 7, is left to the proof: a row of calls that comes to it makes 2^63 steps.

#![tactic(auto)]

#[cfg(test)]
mod bad_calls;
#[cfg(test)]
mod bad_systems;
#[cfg(test)]
mod coding;
#[cfg(test)]
mod lent;
#[cfg(test)]
mod marks;
#[cfg(test)]
mod random;
#[cfg(test)]
mod rooms;
#[cfg(test)]
mod rows;
#[cfg(test)]
mod sky;
#[cfg(test)]
mod worked;
