//! Whether a largest message has room.

ghost use Rattle.std.specs.Prelude.{◌≡◌, ◌*◌};
ghost use Rattle.mail_world.specs.declared.limits.TheConstants.{BLOCK_SIZE};
ghost use Rattle.lmtpd_setup.specs.Setup.{is_short};

use lmtpd_words::ServeWords;
use log::{Log, error};
use mail_world::limits::BLOCK_SIZE;

/// Says in the log where all blocks together can't hold one largest message: it would be answered `452` each time, and
/// the relay would try it again for days.
pub fn tell_of_room<G: Log>(words: &ServeWords<'_>, log: &G) {
    if is_short(words) {
        let room = room_of(words);
        let limit = words.site.message_limit;
        error!(log; target: "lmtpd", room, limit; "a largest message has no room");
    }
}

// Whether they can't.
fn is_short(words: &ServeWords<'_>) -> bool
    ensures { result ≡ is_short words.now }
{
    room_of(words) < u64::from(words.site.message_limit)
}

// The bytes of all blocks.
fn room_of(words: &ServeWords<'_>) -> u64
    ensures { result ≡ words.now.blocks * BLOCK_SIZE }
{
    u64::from(words.blocks) * BLOCK_SIZE as u64
}
