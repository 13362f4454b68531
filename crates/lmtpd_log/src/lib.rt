//! What is logged of a server: each copy that was answered, each command that was refused, each conversation that
//! ended, each mailbox that failed or is in use.
//!
//! Its logs are observers: a `LineLog` sees the conversations of a lane, a `MailboxLog` the turns at a mailbox, and
//! both show lines, as the crate `log` does. They know of clients and files what they are told, and nothing of the
//! program's words.
#![tactic(auto)]

mod addresses;
mod condition;
mod history;
mod keeping;
mod lane_log;
pub mod laws;
mod letter;
mod line_log;
mod line_setting;
mod line_sink;
mod log_sink;
mod mailbox_line;
mod mailbox_log;
mod mailbox_sink;
mod naming;
mod pairs;
mod setting;
mod unserved;
mod verb;
mod words;

pub use lane_log::{LaneLog, LaneLogs, lane_logs};
pub use line_log::LineLog;
pub use line_setting::LineSetting;
pub use line_sink::LineSink;
pub use log_sink::LogSink;
pub use mailbox_line::MailboxLine;
pub use mailbox_log::MailboxLog;
pub use mailbox_sink::MailboxSink;
pub use pairs::Line;
