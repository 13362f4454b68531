//! A lane of an LMTP server: it serves clients, one after another, and delivers what they send.
//!
//! A server's threads use `lane_run`: unless a channel was gone, the sender to each worker thread gave what the lane's
//! conversations owe the thread's mailboxes, and each copy's reply is of its own slip; the lane's observer was told of
//! each reply and each end. `TcpVisits` are the clients of a listener, until an end is asked for. It never knows of
//! workers or spools, of which it has its ends of their channels, nor what an observer shows.
#![tactic(auto)]

mod clock;
mod delivery;
mod desk;
mod exchange;
mod incoming;
mod report;
mod run;
mod setting;
mod slow;
mod tcp;
mod visits;

pub use clock::Clock;
pub use desk::Desk;
pub use report::LaneReport;
pub use run::{lane_run, lane_run_at};
pub use slow::SlowMailboxes;
pub use tcp::{Endpoint, Listener, SystemClock, TcpVisits, WAIT_MS, tcp_visits};
pub use visits::Visits;
