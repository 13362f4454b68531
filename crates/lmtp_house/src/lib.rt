//! An LMTP server (RFC 2033): its lanes, each in a thread, and its mailboxes' workers in theirs.
//!
//! The programs use `run_house`: where it returns Ok, each mailbox got of each lane what its conversations owe it, what
//! the threads did is a run of the model, and each observer was told of it. The names of `lmtp_talk` and `lmtp_lane`
//! that they need are handed on here. It never knows what clients, spools, gates, clock and observers really are: they
//! are handed in.
#![tactic(auto)]

mod house;

pub use house::{HouseFault, HouseReport, Room, Sizes, has_failed, is_size, run_house};
pub use lmtp_lane::{
    Clock, Desk, Endpoint, LaneReport, Listener, SlowMailboxes, SystemClock, TcpVisits, Visits,
    WAIT_MS, lane_run, lane_run_at, tcp_visits,
};
pub use lmtp_talk::{
    Arrived, Came, Client, Delivery, Dialogue, EndCause, Observer, Outbox, Pause, Peer, PeerFault,
    ReadBuffer, Traffic, serve,
};
pub use lmtp_threads::{Tally, Watched};
