//! What a site is named and serves, and commands as they are read for it.
//!
//! The layers above use that `read_command`, `Reading::command_at` and `Site::find` each equal their definition. It never
//! knows what came before a command, what is done with it, or what is replied.
#![tactic(auto)]

mod alphabet;
mod box_names;
mod command;
mod cut;
mod first_addresses;
mod names;
mod offers;
mod parameters;
mod path;
mod reading;
mod rules;
mod site;

pub use command::{Command, Target, read_command, read_command_at};
pub use mail_world::{BadCommand, Extensions};
pub use reading::Reading;
pub use site::{Site, SiteFault, is_delimiter};
