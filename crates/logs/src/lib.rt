//! Logs: each call with the time and the check sum that it led to, written and checked.

#![tactic(auto)]

mod checking;
mod stamp;
mod writing;

pub use checking::{Accepted, check_log};
pub use writing::write_log;
