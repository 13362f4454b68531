//! What the service manager is told that started the program, as sd_notify(3) has it: that it listens, and that it stops.
//! It is told by a datagram to the Unix socket that the environment names.

ghost use Rattle.std.specs.Prelude.{◌≤◌, IfSome};

use crate::fault::last_error;
use libc::net::{AF_UNIX, MSG_DONTWAIT, MSG_NOSIGNAL, SOCK_CLOEXEC, SOCK_DGRAM, sendto, socket};
use std::env::{Env, FillError};
use std::io;
use std::io::ErrorKind;
use std::time::{Clock, Duration};

/// Where the environment names the socket.
const NAMED_IN: &str = "NOTIFY_SOCKET";

/// The bytes of an address as the system's calls take one, and those before the name of a Unix socket.
const ADDRESS_SIZE: usize = 128;

const FAMILY_SIZE: usize = 2;

/// The bytes that the name of a Unix socket may have: a path ends with NUL.
const NAME_SIZE: usize = 107;

/// How often a manager is told again whose socket is full, and the pause before: a second in all.
const TRIES: u32 = 20;

const PAUSE_MS: u64 = 50;

/// The service manager, where the environment names one.
#[derive(Clone, Copy)]
pub struct Manager {
    address: Option<Address>,
}

// Where it is told.
#[derive(Clone, Copy)]
struct Address {
    bytes: [u8; ADDRESS_SIZE],
    // the bytes of the name
    size: usize,
}

/// What the manager is told.
#[derive(Clone, Copy, PartialEq, Eq)]
pub enum Told {
    Listening,
    Stopping,
}

impl Manager {
    /// The one that the environment names, and none where it names none.
    pub fn named<R: Env>(rt: &R) -> Option<Manager> {
        let mut name = [0; NAME_SIZE];
        match rt.var(NAMED_IN, &mut name) {
            Ok(0) | Err(FillError::NotPresent) => None,
            Ok(size) => Some(Manager {
                address: address_of(&name[..size]),
            }),
            Err(FillError::TooLong) => Some(Manager { address: None }),
        }
    }

    /// Tells it. An error says why it can't be told; the name may be none of a socket.
    pub fn tell<C: Clock>(&self, clock: &C, told: Told) -> io::Result<()> {
        let Some(address) = self.address else {
            return Err(io::Error::from(ErrorKind::InvalidInput));
        };
        for _ in 0..TRIES {
            match send(&address, text_of(told)) {
                Err(error) if error.kind() == ErrorKind::WouldBlock => {
                    clock.sleep(Duration::from_millis(PAUSE_MS));
                }
                ended => return ended,
            }
        }
        send(&address, text_of(told))
    }
}

fn text_of(told: Told) -> &'static [u8] {
    match told {
        Told::Listening => b"READY=1",
        Told::Stopping => b"STOPPING=1",
    }
}

// A path from the root, or, with `@` before it, a name that no file has, before which the system has a NUL.
fn address_of(name: &[u8]) -> Option<Address>
    ensures { IfSome result (λ address. address.size ≤ 107) }
{
    if name.len() > NAME_SIZE || !matches!(name.first(), Some(b'/' | b'@')) {
        return None;
    }
    let mut bytes = [0; ADDRESS_SIZE];
    bytes[0] = AF_UNIX as u8;
    bytes[FAMILY_SIZE..FAMILY_SIZE + name.len()].copy_from_slice(name);
    if name[0] == b'@' {
        bytes[FAMILY_SIZE] = 0;
    }
    Some(Address {
        bytes,
        size: name.len(),
    })
}

// Sends the text as one datagram; it never waits.
fn send(address: &Address, text: &[u8]) -> io::Result<()> {
    // the address has room for no more
    let size = (FAMILY_SIZE + address.size.min(NAME_SIZE)) as u32;
    // Safe: a family and a kind that there are.
    let fd = unsafe { socket(AF_UNIX, SOCK_DGRAM | SOCK_CLOEXEC, 0) };
    if fd < 0 {
        return Err(last_error());
    }
    // Safe: the system reads the text and as many bytes of the address as it has, and raises no signal.
    let sent = unsafe { sendto(fd, text, MSG_NOSIGNAL | MSG_DONTWAIT, &address.bytes, size) };
    let ended = if sent < 0 { Err(last_error()) } else { Ok(()) };
    libc::close(fd);
    ended
}
