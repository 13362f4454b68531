//! How many copies may wait beside the channel of a thread that has several mailboxes.

ghost use Rattle.std.specs.Prelude.{◌≡◌};
ghost use Rattle.lmtp_threads.specs.OwnChannel.{room_beside};

use mail_post::WORKER_THREADS;

/// How many copies a thread's list holds, and one more for each lane.
pub const WAITING_ROOM: usize = 64;

/// How many copies may wait beside each thread's channel, for so many mailboxes and lanes: none where each mailbox has a
/// thread of its own.
pub fn room_beside(boxes: usize, lanes: u32) -> usize
    ensures { result ≡ room_beside boxes lanes }
{
    if boxes <= WORKER_THREADS as usize {
        0
    } else {
        WAITING_ROOM + lanes as usize
    }
}
