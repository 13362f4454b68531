//! The limits of the server, one constant each: definitions and code cite these and no number of their own.

/// A command line, with its CRLF, in bytes.
pub const LINE_LIMIT: usize = 1024;

/// A reverse or forward path without its route and brackets, in bytes.
pub const PATH_LIMIT: usize = 254;

/// A client's name, a host's name, a domain, in bytes.
pub const NAME_LIMIT: usize = 255;

/// A mailbox's name where it is given by itself, in bytes.
pub const GIVEN_NAME_LIMIT: usize = 32;

/// The local part in a mailbox's name that a list has, in bytes (RFC 5321, 4.5.3.1.1).
pub const LISTED_LOCAL_LIMIT: usize = 64;

/// Any mailbox's name, in bytes: an address with the longest local part and the longest domain.
pub const BOX_NAME_LIMIT: usize = 320;

/// A message with its CRLFs and without the dots of transparency, in bytes, where a site names no other limit.
pub const MESSAGE_LIMIT: u32 = 1_048_576;

/// The least limit that a site may name for its messages, in bytes (RFC 5321, 4.5.3.1.7, asks for 64 KiB).
pub const LEAST_MESSAGE_LIMIT: u32 = 65_536;

/// The largest one.
pub const LARGEST_MESSAGE_LIMIT: u32 = 268_435_456;

/// How many bytes a line of a message counts at most where malformed ones are refused: mutt reads a mailbox by 8,191
/// bytes, and takes what follows them for a line of its own.
pub const COUNTED_LINE_LIMIT: usize = 8_190;

/// How many bytes a CR counts that is no line's end: a mark behind it gains six.
pub const LONE_CR_COUNT: usize = 7;

/// The digits of a SIZE parameter.
pub const SIZE_DIGIT_LIMIT: usize = 20;

/// The recipients of one transaction.
pub const RECIPIENT_LIMIT: usize = 1_000;

/// The mailboxes of a site.
pub const BOX_LIMIT: usize = 65_536;

/// The transactions that one lane may number, from 1.
pub const NUMBER_LIMIT: u32 = 4_294_967_295;

/// The reads of one conversation.
pub const READ_LIMIT: u32 = 4_294_967_295;

/// The lanes of a server.
pub const LANE_LIMIT: u32 = 64;

/// The bytes of a block.
pub const BLOCK_SIZE: usize = 4096;

/// The blocks of an arena.
pub const BLOCK_LIMIT: u32 = 65_536;

/// The last generation of a slot, which is retired after it: 2^48 - 1.
pub const LAST_GENERATION: u64 = 281_474_976_710_655;

/// The bytes of a message that a worker reads at once.
pub const WORKER_BUFFER_SIZE: usize = BLOCK_SIZE;

/// The bytes of a message that a lane takes from its data at once.
pub const DATA_BUFFER_SIZE: usize = BLOCK_SIZE;

/// The bytes at a mailbox's end that tell what mends it.
pub const TAIL_SIZE: usize = 4096;

/// The slots of an arena.
pub const SLOT_LIMIT: u32 = 64;

/// The copies that a mailbox's channel may hold.
pub const CAPACITY_LIMIT: u32 = 1024;

/// The seconds that a turn at a mailbox is waited for.
pub const LOCK_WAIT_LIMIT: u32 = 3_600;

/// The permission bits that a mailbox's file may have.
pub const MODE_LIMIT: u32 = 0o777;
