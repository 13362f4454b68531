//! Where a lane begins.

use std::marker::Brand;

/// Stands for a lane's site, for the moments that its clock may answer, and for its ends as they were before. They are
/// known only when the program runs, but they stay: so contracts take them from a type, and `lane_run` picks them.
/// Nothing of it is left in the program.
pub trait LaneStart {
    ghost use Rattle.std.specs.Prelude.{ℕ};
    ghost use Rattle.mail_world.specs.Site.{Site};
    ghost use Rattle.lmtp_lane.specs.LaneExchange.{LaneEnds};

    ghost site: { Site };

    // the moments that the clock may answer
    ghost May: { ℕ → Type 0 };

    // its ends before its first conversation
    ghost ends: { LaneEnds };
}

// Whoever passes `Brand` may pick others.
impl LaneStart for Brand {
    ghost use Rattle.std.specs.Prelude.{⊤, [], None, false};
    ghost use Rattle.lmtp_lane.specs.LaneStart.{no_inbox};

    ghost site = { record {
      host = [];
      domains = [];
      boxes = [];
      message_limit = 0;
      recipient_delimiter = None;
      utf8 = false;
      renames_marks = false;
      refuses_malformed = false;
      rejects_over_quota = false;
      tells_busy = false;
    } };

    ghost May = { λ moment. ⊤ };

    ghost ends = { record { lane = 0; senders = []; inbox = no_inbox; gone = false } };
}
