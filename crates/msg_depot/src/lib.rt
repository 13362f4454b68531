//! Messages by slot, shared by threads, and the holds on them, whose weights lie in the words of a table.
//!
//! Lanes and workers use that `read` gives the sealed bytes of the hold, for as long as it is held, and that holds are
//! split and released without the lock. Only this crate names the arena. It never knows of mailboxes, recipients or
//! channels.
#![tactic(auto)]

mod depot;
mod hold;
mod keeper;
mod rule;
mod steps;
mod token;
mod view;
mod words;

pub use depot::{Blank, Depot};
pub use keeper::{Keeper, NoRoom};
pub use rule::HoldRule;
pub use token::{Board, DepotName, Draft, Hold, Spent};
pub use view::{Claim, Entry, Kind, Opening, Phase, View};
