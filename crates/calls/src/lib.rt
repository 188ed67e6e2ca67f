//! Calls: a system in bytes, the calls of the operator, checkpoints, and whole rows of calls.

#![tactic(auto)]

mod answer;
mod call;
mod checkpoints;
mod coding;
mod moves;
mod obeying;
mod opening;
mod player;
mod report;
mod row;
mod session;
pub mod theorems;

pub use answer::Answer;
pub use call::Call;
pub use player::Player;
pub use report::{Report, run_calls};
pub use row::Row;
pub use session::Session;
