//! Texts that a spool takes in as many parts as it likes.
ghost use Rattle.std.specs.Prelude.{flat_map, OnOk, OnErr};
ghost use Rattle.mbox_spool.specs.Spool.{SpoolTook, SpoolFailed};

use crate::spool::{Spool, SpoolFault};

// Appends the pieces one after the other.
pub(crate) fn append_each<S: Spool>(spool: &mut S, pieces: &[&[u8]]) -> Result<(), SpoolFault>
    ensures ok { OnOk result
        (SpoolTook (S.state spool.old) (S.state spool.new) (flat_map (λ piece. piece.now) pieces.now)) }
    ensures err { OnErr result
        (SpoolFailed (S.state spool.old) (S.state spool.new) (flat_map (λ piece. piece.now) pieces.now)) }
{
    for piece in pieces {
        append_all(spool, piece)?;
    }
    Ok(())
}

/// Appends all the bytes.
pub fn append_all<S: Spool>(spool: &mut S, bytes: &[u8]) -> Result<(), SpoolFault>
    ensures ok { OnOk result (SpoolTook (S.state spool.old) (S.state spool.new) bytes.now) }
    ensures err { OnErr result (SpoolFailed (S.state spool.old) (S.state spool.new) bytes.now) }
{
    let mut rest = bytes;
    while !rest.is_empty() {
        let n = spool.append(rest)?;
        rest = &rest[n..];
    }
    Ok(())
}
