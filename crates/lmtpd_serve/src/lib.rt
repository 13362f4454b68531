//! A server's run over a listener and spools, and what it says of it.
//!
//! The program uses that a server ran, what each worker counted, and whether the last turn at a mailbox broke. It never
//! knows which words asked for it, which kind of socket listens, or which files the spools are.
#![tactic(auto)]

mod busy;
mod conversations;
mod hanging;
mod lane_clock;
mod lines;
mod moment;
mod run;
mod saying;
mod served;
mod turn_gate;
mod watching;

pub use conversations::Conversations;
pub use hanging::watch_stop;
pub use lines::{Trouble, write_trouble_lines};
pub use lmtp_house::{Endpoint, Listener, Sizes, Tally, WAIT_MS, Watched};
pub use run::serve_run;
pub use served::{Served, ServerEnding};
