//! Where a lane asks for the time.

ghost use Rattle.std.specs.Prelude.{ℕ};

use crate::slow::SlowMailboxes;
use std::sync::Wait;

/// Tells the time. A clock says which moments it may answer, and a lane's account says that its moments are such. What
/// all lanes share besides, which mailboxes are slow, comes with it.
pub trait Clock: SlowMailboxes + Drop {
    // the moments that it may answer
    ghost May: { Self → ℕ → Type 0 };

    /// The seconds since 1970.
    fn unix<R: Wait>(&self, rt: &R) -> u32
        ensures { May self.now result };
}
