//! The lines of a file, with what was found of it, and that of one that was read without its lock.

ghost use Rattle.std.specs.Prelude.{◌≡◌, OnOk, OnErr};
ghost use Rattle.std.specs.Io.KnownBytes.{Appends};
ghost use Rattle.lmtpd_output.specs.Output.{IsCutOff};
ghost use Rattle.lmtpd_check.specs.Checked.{bad_line, finding_line, finding_text, nul_line, number_line, place_line, unlocked_line, unlocked_lines};

use crate::checked::Finding;
use itoa::Buffer;
use lmtpd_output::{WriteFault, hand_on, write_each};
use mbox_check::{BadForm, NulAt};
use std::io::Write;

/// Says of each file that was read without its lock that it was. After a fault the writer has gained a prefix of
/// these lines.
pub fn write_unlocked_lines<E: Write>(error: &mut E, names: &[&str]) -> Result<(), WriteFault>
    ensures ok { OnOk result (Appends (E.contents error.old) (E.contents error.new) (unlocked_lines names.now)) }
    ensures err { OnErr result (IsCutOff (E.contents error.old) (E.contents error.new) (unlocked_lines names.now)) }
{
    for name in names {
        write_unlocked(error, name)?;
    }
    Ok(())
}

fn write_unlocked<E: Write>(error: &mut E, name: &str) -> Result<(), WriteFault>
    ensures ok { OnOk result (Appends (E.contents error.old) (E.contents error.new) (unlocked_line name.now)) }
    ensures err { OnErr result (IsCutOff (E.contents error.old) (E.contents error.new) (unlocked_line name.now)) }
{
    write_each(
        error,
        &[b"lmtpd: ", name.as_bytes(), b" read without its lock\n"],
    )
}

/// Writes what is said of a file, and has the writer hand it on. After a fault the writer has gained a prefix of that.
#[tactic(auto, using(lmtpd_output::proofs::Handed::whole_kept, lmtpd_output::proofs::Handed::whole_cut))]
pub fn write_finding<W: Write>(
    writer: &mut W,
    name: &str,
    finding: Finding,
) -> Result<(), WriteFault>
    ensures ok { OnOk result (Appends (W.contents writer.old) (W.contents writer.new)
        (finding_text name.now finding)) }
    ensures err { OnErr result (IsCutOff (W.contents writer.old) (W.contents writer.new)
        (finding_text name.now finding)) }
{
    write_lines(writer, name, finding)?;
    // what it holds back would be told too late where a large file follows
    hand_on(writer)
}

#[tactic(auto, using(crate::proofs::After::fails_after))]
fn write_lines<W: Write>(writer: &mut W, name: &str, finding: Finding) -> Result<(), WriteFault>
    ensures ok { OnOk result (Appends (W.contents writer.old) (W.contents writer.new)
        (finding_text name.now finding)) }
    ensures err { OnErr result (IsCutOff (W.contents writer.old) (W.contents writer.new)
        (finding_text name.now finding)) }
{
    write_line(writer, name, finding)?;
    write_nul(writer, name, finding.nul())
}

fn write_line<W: Write>(writer: &mut W, name: &str, finding: Finding) -> Result<(), WriteFault>
    ensures ok { OnOk result (Appends (W.contents writer.old) (W.contents writer.new)
        (finding_line name.now finding)) }
    ensures err { OnErr result (IsCutOff (W.contents writer.old) (W.contents writer.new)
        (finding_line name.now finding)) }
{
    match finding {
        Finding::Letters(count, _) => write_number(writer, name, b" letters ", count),
        Finding::Form(bad, _) => write_bad(writer, name, bad),
        Finding::Unread => write_each(writer, &[name.as_bytes(), b" cannot read\n"]),
    }
}

fn write_bad<W: Write>(writer: &mut W, name: &str, bad: BadForm) -> Result<(), WriteFault>
    ensures ok { OnOk result (Appends (W.contents writer.old) (W.contents writer.new) (bad_line name.now bad)) }
    ensures err { OnErr result (IsCutOff (W.contents writer.old) (W.contents writer.new) (bad_line name.now bad)) }
{
    match bad {
        BadForm::NoFromLine { place } => write_number(writer, name, b" no From line at ", place),
        BadForm::NoEmptyLine {
            place,
            letter,
            start,
        } => write_place(writer, name, b" no empty line at ", place, letter, start),
    }
}

fn write_nul<W: Write>(writer: &mut W, name: &str, nul: Option<NulAt>) -> Result<(), WriteFault>
    ensures ok { OnOk result (Appends (W.contents writer.old) (W.contents writer.new) (nul_line name.now nul)) }
    ensures err { OnErr result (IsCutOff (W.contents writer.old) (W.contents writer.new) (nul_line name.now nul)) }
{
    match nul {
        Some(nul) => write_place(writer, name, b" NUL at ", nul.place, nul.letter, nul.start),
        None => Ok(()),
    }
}

// A line with a place, which letter has it, and where that begins.
fn write_place<W: Write>(
    writer: &mut W,
    name: &str,
    said: &[u8],
    place: u64,
    letter: u64,
    start: u64,
) -> Result<(), WriteFault>
    ensures ok { OnOk result (Appends (W.contents writer.old) (W.contents writer.new)
        (place_line name.now said.now place letter start)) }
    ensures err { OnErr result (IsCutOff (W.contents writer.old) (W.contents writer.new)
        (place_line name.now said.now place letter start)) }
{
    let mut places = Buffer::new();
    let mut letters = Buffer::new();
    let mut starts = Buffer::new();
    let pieces: [&[u8]; 8] = [
        name.as_bytes(),
        said,
        places.format(place).as_bytes(),
        b" in letter ",
        letters.format(letter).as_bytes(),
        b" at ",
        starts.format(start).as_bytes(),
        b"\n",
    ];
    write_each(writer, &pieces)
}

// A line that ends in a number.
fn write_number<W: Write>(
    writer: &mut W,
    name: &str,
    said: &[u8],
    number: u64,
) -> Result<(), WriteFault>
    ensures ok { OnOk result (Appends (W.contents writer.old) (W.contents writer.new)
        (number_line name.now said.now number)) }
    ensures err { OnErr result (IsCutOff (W.contents writer.old) (W.contents writer.new)
        (number_line name.now said.now number)) }
{
    let mut digits = Buffer::new();
    let number = digits.format(number);
    write_each(writer, &[name.as_bytes(), said, number.as_bytes(), b"\n"])
}
