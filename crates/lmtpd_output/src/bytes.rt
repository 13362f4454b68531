//! All of the bytes to a writer, or a prefix of them and a failure.

ghost use Rattle.std.specs.Prelude.{◌≡◌, ◌++◌, length, flat_map, OnOk, OnErr};
ghost use Rattle.std.specs.Io.KnownBytes.{Appends, Keeps};
ghost use Rattle.lmtpd_output.specs.Output.{IsCutOff};

use std::io::Write;
use thiserror::Error;

/// A write failed, or took nothing.
#[derive(Clone, Copy, Debug, PartialEq, Eq, Error)]
#[error("a write failed")]
pub struct WriteFault;

/// Writes all of the bytes. After a fault the writer has gained a prefix of them.
pub fn write_bytes<W: Write>(writer: &mut W, bytes: &[u8]) -> Result<(), WriteFault>
    ensures ok { OnOk result (Appends (W.contents writer.old) (W.contents writer.new) bytes.now) }
    ensures err { OnErr result (IsCutOff (W.contents writer.old) (W.contents writer.new) bytes.now) }
{
    let mut rest = bytes;
    while !rest.is_empty() {
        match writer.write(rest) {
            Ok(0) => return Err(WriteFault),
            Ok(size) => rest = &rest[size..],
            Err(_) => return Err(WriteFault),
        }
    }
    Ok(())
}

/// Writes the pieces one after the other. After a fault the writer has gained a prefix of them.
pub fn write_each<W: Write>(writer: &mut W, pieces: &[&[u8]]) -> Result<(), WriteFault>
    ensures ok { OnOk result (Appends (W.contents writer.old) (W.contents writer.new)
        (flat_map (λ piece. piece.now) pieces.now)) }
    ensures err { OnErr result (IsCutOff (W.contents writer.old) (W.contents writer.new)
        (flat_map (λ piece. piece.now) pieces.now)) }
{
    for piece in pieces {
        write_bytes(writer, piece)?;
    }
    Ok(())
}

/// Has the writer hand on what it holds back.
pub fn hand_on<W: Write>(writer: &mut W) -> Result<(), WriteFault>
    ensures { Keeps (W.contents writer.old) (W.contents writer.new) }
{
    match writer.flush() {
        Ok(()) => Ok(()),
        Err(_) => Err(WriteFault),
    }
}
