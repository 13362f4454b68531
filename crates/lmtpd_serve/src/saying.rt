//! What a server says on standard output, before its first client and after its last.

ghost use Rattle.std.specs.Prelude.{◌≡◌, length, IfOk, OnOk, OnErr};
ghost use Rattle.std.specs.Io.KnownBytes.{Appends};
ghost use Rattle.lmtpd_output.specs.Output.{IsCutOff, IsListed};
ghost use Rattle.lmtpd_serve.specs.Served.{IsAnnounced, ListsOn, counts_text};

use super::lines::{endpoint_line, write_counts};
use lmtp_house::{Listener, Tally};
use lmtp_text::Site;
use lmtpd_output::{WriteFault, hand_on, write_bytes};
use std::alloc::{AllocError, Global};
use std::io::Write;

/// What came of saying where the server listens.
#[derive(Clone, Copy)]
pub struct Announced {
    /// The listener can't tell where it listens.
    pub is_unknown: bool,
    /// A write failed.
    pub is_cut: bool,
}

/// Says where the server listens, before a client is taken.
pub fn announce<L: Listener, W: Write>(
    alloc: Global,
    listener: &L,
    writer: &mut W,
) -> Result<Announced, AllocError>
    ensures { IfOk result
        (λ announced. IsAnnounced announced.is_unknown (W.contents writer.old) (W.contents writer.new)
        announced.is_cut) }
{
    let Ok(endpoint) = listener.endpoint() else {
        return Ok(Announced {
            is_unknown: true,
            is_cut: false,
        });
    };
    let line = endpoint_line(alloc, endpoint)?;
    let is_cut = is_line_cut(line.as_bytes(), writer);
    Ok(Announced {
        is_unknown: false,
        is_cut,
    })
}

/// Says what was stored, unless a write has failed before, and says whether one has failed now.
pub fn is_cut<W: Write>(was_cut: bool, site: &Site, tallies: &[Tally], writer: &mut W) -> bool
    requires { length tallies.now ≡ length site.now.boxes }
    ensures { ListsOn was_cut (counts_text site.now.boxes tallies.now)
        (W.contents writer.old) (W.contents writer.new) result }
{
    if was_cut {
        return true;
    }
    are_counts_cut(site, tallies, writer)
}

// Says a line, and whether a write has failed.
fn is_line_cut<W: Write>(line: &[u8], writer: &mut W) -> bool
    ensures { IsListed line.now (W.contents writer.old) (W.contents writer.new) result }
{
    say_line(line, writer).is_err()
}

#[tactic(auto, using(lmtpd_output::proofs::Handed::whole_kept, lmtpd_output::proofs::Handed::whole_cut))]
fn say_line<W: Write>(line: &[u8], writer: &mut W) -> Result<(), WriteFault>
    ensures ok { OnOk result (Appends (W.contents writer.old) (W.contents writer.new) line.now) }
    ensures err { OnErr result (IsCutOff (W.contents writer.old) (W.contents writer.new) line.now) }
{
    write_bytes(writer, line)?;
    hand_on(writer)
}

// Says of each mailbox how many copies it stored, and whether a write has failed.
fn are_counts_cut<W: Write>(site: &Site, tallies: &[Tally], writer: &mut W) -> bool
    requires { length tallies.now ≡ length site.now.boxes }
    ensures { IsListed (counts_text site.now.boxes tallies.now)
        (W.contents writer.old) (W.contents writer.new) result }
{
    say_counts(site, tallies, writer).is_err()
}

#[tactic(auto, using(lmtpd_output::proofs::Handed::whole_kept, lmtpd_output::proofs::Handed::whole_cut))]
fn say_counts<W: Write>(site: &Site, tallies: &[Tally], writer: &mut W) -> Result<(), WriteFault>
    requires { length tallies.now ≡ length site.now.boxes }
    ensures ok { OnOk result (Appends (W.contents writer.old) (W.contents writer.new)
        (counts_text site.now.boxes tallies.now)) }
    ensures err { OnErr result (IsCutOff (W.contents writer.old) (W.contents writer.new)
        (counts_text site.now.boxes tallies.now)) }
{
    write_counts(writer, site, tallies)?;
    hand_on(writer)
}
