//! A record of a mailbox, written while its message comes: the From line, the trace lines, and the message with the
//! marks of its head renamed, where the site has that, and its From lines quoted.
ghost use Rattle.std.specs.Prelude.{◌≡◌, ℕ, List, [], ◌∷◌, ◌++◌, IfOk, OnOk, OnErr, if◌then◌else◌};
ghost use Rattle.mail_world.specs.Records.{quoted_text, stored_text};
ghost use Rattle.mail_world.specs.Marks.{marked};
ghost use Rattle.mail_world.specs.Text.{lf, unix};
ghost use Rattle.mail_writing.specs.Calendar.{civil_at};
ghost use Rattle.mbox_record.specs.Envelope.{head_text};
ghost use Rattle.mbox_spool.specs.Spool.{SpoolTook, SpoolFailed};
ghost use Rattle.mbox_spool.specs.Quoted.{quoted_owed};
ghost use Rattle.mbox_marks.specs.Marking.{marks_owed};
ghost use Rattle.mbox_spool.specs.Writing.{Writes, Fails};
ghost use Rattle.mbox_record.specs.Writing.{bytes_owed, WritesPiece, FailsPiece};
ghost use Rattle.mbox_marks.specs.declared.marking.Place.TheVariants.{Line, Body};

use crate::envelope::Envelope;
use crate::head::RecordHead;
use lmtp_text::Site;
use mbox_marks::{Held, Place, WAS, find_mark};
use mbox_spool::{QuotedText, Spool, SpoolFault, append_all};
use std::marker::Model;

mod counting;

/// Writes the record of a message that comes in pieces. Of the message it holds back 15 bytes at most: a CR, a prefix
/// of a line's `From `, or the beginning of a field that may be a mark.
#[derive(Drop)]
pub struct RecordWriter {
    quoted: QuotedText,
    place: Place,
    held: Held,
}

impl Model for RecordWriter {
    ghost use Rattle.mbox_record.specs.Writing.{Writer, IsWriter};

    ghost Value = { Writer };

    ghost view = { λ w. record { quoted = w.quoted; place = w.place; held = w.held } };

    ghost invariant = { λ w. IsWriter (record { quoted = w.quoted; place = w.place; held = w.held }) };
}

impl RecordWriter {
    /// Writes the From line and the trace lines (RFC 4155, Appendix A; RFC 5321, 4.4).
    pub fn begin<S: Spool>(
        spool: &mut S,
        site: &Site,
        envelope: &Envelope,
    ) -> Result<RecordWriter, SpoolFault>
        ensures ok { OnOk result
            (SpoolTook (S.state spool.old) (S.state spool.new) (head_text civil_at site.now envelope.now)) }
        ensures new { IfOk result
            (λ writer. (text : List ℕ) → bytes_owed writer text ≡ quoted_text (stored_text site.now text)) }
        ensures err { OnErr result
            (SpoolFailed (S.state spool.old) (S.state spool.new) (head_text civil_at site.now envelope.now)) }
    {
        RecordWriter::after(spool, &RecordHead::of(site, envelope))
    }

    /// Writes the head, after which the message comes.
    pub fn after<S: Spool>(spool: &mut S, head: &RecordHead) -> Result<RecordWriter, SpoolFault>
        ensures ok { OnOk result (SpoolTook (S.state spool.old) (S.state spool.new) head.now.text) }
        ensures new { IfOk result (λ writer. (text : List ℕ)
            → bytes_owed writer text ≡ quoted_text (if head.now.renames_marks then marked (unix text) else unix text)) }
        ensures err { OnErr result (SpoolFailed (S.state spool.old) (S.state spool.new) head.now.text) }
    {
        append_all(spool, head.text())?;
        Ok(RecordWriter::at_text(head.renames_marks()))
    }

    // At the beginning of the message.
    pub(crate) fn at_text(renames_marks: bool) -> RecordWriter
        ensures { (text : List ℕ)
            → bytes_owed result text ≡ quoted_text (if renames_marks then marked (unix text) else unix text) }
    {
        RecordWriter {
            quoted: QuotedText::new(),
            place: first_place(renames_marks),
            held: Held::of(b""),
        }
    }

    /// Writes what is sure of the message's bytes, with LF for CRLF and one more `>` before a From line, and with
    /// `X-Was-` before a mark of its head, where the site has these renamed. The piece may end anywhere. After a fault
    /// the spool holds a prefix of the record, and the writer is gone.
    pub fn piece<S: Spool>(self, spool: &mut S, piece: &[u8]) -> Result<RecordWriter, SpoolFault>
        ensures ok { IfOk result (λ writer. WritesPiece (S.state spool.old) (S.state spool.new) self writer piece.now) }
        ensures err { OnErr result (FailsPiece (S.state spool.old) (S.state spool.new) self piece.now) }
    {
        let mut writer = self;
        let mut rest = piece;
        while !rest.is_empty() {
            if writer.held.is_empty() {
                return write_bytes(writer.quoted, writer.place, spool, rest);
            }
            let held = writer.held.with(rest[0]);
            writer = write_bytes(writer.quoted, writer.place, spool, held.as_slice())?;
            rest = &rest[1..];
        }
        Ok(writer)
    }

    /// Writes what is left of the message, with LF after a last line that has none, and the empty line that ends a
    /// record.
    pub fn end<S: Spool>(self, spool: &mut S) -> Result<(), SpoolFault>
        ensures ok { OnOk result (SpoolTook (S.state spool.old) (S.state spool.new) (bytes_owed self [] ++ lf ∷ [])) }
        ensures err { OnErr result
            (SpoolFailed (S.state spool.old) (S.state spool.new) (bytes_owed self [] ++ lf ∷ [])) }
    {
        let quoted = self.quoted.piece(spool, self.held.as_slice())?;
        quoted.end(spool)
    }
}

fn first_place(renames_marks: bool) -> Place
    ensures { result ≡ if renames_marks then Line else Body }
{
    if renames_marks {
        Place::Line
    } else {
        Place::Body
    }
}

// Writes bytes of the message but those that are held back then.
fn write_bytes<S: Spool>(
    quoted: QuotedText,
    place: Place,
    spool: &mut S,
    bytes: &[u8],
) -> Result<RecordWriter, SpoolFault>
    ensures ok { IfOk result (λ writer. Writes (S.state spool.old) (S.state spool.new)
        (λ rest. quoted_owed quoted (marks_owed place (bytes.now ++ rest))) (bytes_owed writer)) }
    ensures err { OnErr result (Fails (S.state spool.old) (S.state spool.new)
        (λ rest. quoted_owed quoted (marks_owed place (bytes.now ++ rest)))) }
{
    let mut quoted = quoted;
    let mut rest = bytes;
    let mut found = find_mark(place, rest);
    while found.is_mark {
        quoted = quoted.piece(spool, &rest[..found.at])?;
        quoted = quoted.piece(spool, WAS)?;
        rest = &rest[found.at..];
        found = find_mark(Place::Inside, rest);
    }
    quoted = quoted.piece(spool, &rest[..found.at])?;
    Ok(RecordWriter {
        quoted,
        place: found.place,
        held: Held::of(&rest[found.at..]),
    })
}
