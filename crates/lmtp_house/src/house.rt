//! A server: its lanes, each in a thread, and its mailboxes' workers in theirs.

mod channels;
pub mod fault;
mod handed;
mod memory;
mod plan;
pub mod report;
pub mod run;
mod serving;
pub mod sizes;

pub use fault::HouseFault;
pub use report::{HouseReport, Room, has_failed};
pub use run::run_house;
pub use sizes::{Sizes, is_size};
