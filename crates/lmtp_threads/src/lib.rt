//! The lanes and the worker threads of a server, and all channels of one kind between them.
//!
//! The house uses what all lanes have served and what was stored in all mailboxes, each at its own ends of the channels,
//! and of each channel its senders, its receiver and what it was closed with. It never compares the lanes with the
//! workers; a crew never knows what its tasks do, or a grid what its channels carry.
#![tactic(auto)]

mod beside;
mod brought_back;
mod by_thread;
mod channels;
mod columns;
mod crew;
mod grid;
mod lanes;
mod quotas;
mod shared;
mod tally;
mod watched;
mod worker_job;
mod workers;

pub use beside::{WAITING_ROOM, room_beside};
pub use brought_back::{WorkerColumns, WorkerReports};
pub use channels::{Closing, open_channels, settle_all};
pub use columns::Columns;
pub use crew::{Crew, Refused, Task};
pub use lanes::{LaneColumns, LaneJob, Lanes};
pub use shared::Shared;
pub use tally::Tally;
pub use watched::Watched;
pub use worker_job::WorkerJob;
pub use workers::{Workers, Working};
