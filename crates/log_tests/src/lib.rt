//! Tests of logs: those that are written are accepted, and every kind of damage is told at its place.

#![tactic(auto)]

#[cfg(test)]
mod damage;
#[cfg(test)]
mod levers;
#[cfg(test)]
mod written;
