//! What an old mailbox needs at its end before a record may follow.
ghost use Rattle.std.specs.Prelude.{OnOk, OnErr};
ghost use Rattle.mbox_spool.specs.Mending.{HasMended, HasNotMended};

use crate::append::append_each;
use crate::spool::{Spool, SpoolFault};
use crate::tail::what_mends;

/// Mends an old mailbox whose tail is torn, as a crash within a record leaves it, so that a record may follow (RFC
/// 4155, Appendix A): fills up a From line that breaks off, ends the last line, and the empty line after it. It takes
/// 44 bytes at most. To an empty spool it appends nothing.
pub fn mend<S: Spool>(spool: &mut S) -> Result<(), SpoolFault>
    ensures ok { OnOk result (HasMended (S.state spool.old) (S.state spool.new)) }
    ensures err { OnErr result (HasNotMended (S.state spool.old) (S.state spool.new)) }
{
    let (missing, lfs) = what_mends(spool.tail());
    append_each(spool, &[missing, lfs])
}
