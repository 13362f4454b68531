//! What `serve --listen` opens: a TCP address, a Unix socket, or the socket that the program was started with; and what
//! the service manager is told of it that started the program.
//!
//! The program uses which address a text names, a listener of that kind, and the file that goes at the end. It never
//! knows of lanes and conversations: of the server it has the traits of a listener and a stream alone.
#![tactic(auto)]

mod client;
mod fault;
mod inherited;
mod listen_address;
mod manager;
mod opened;
mod server;
mod socket_file;
mod socket_lock;
mod unix;

pub use client::ClientSocket;
pub use fault::{ListenFault, Reason};
pub use listen_address::{ListenAddress, SMTP_PORT, listen_address_of};
pub use manager::{Manager, Told};
pub use opened::{Opened, open};
pub use server::ServerSocket;
pub use socket_file::SocketFile;
