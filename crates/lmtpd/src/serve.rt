//! The server that the program's words ask for: its run, and what is said of that.

mod asked;
mod checked;
mod filled;
mod numbers;
mod report;

pub use filled::{ServeDone, serve_filled};
pub use report::report_served;
