//! A message as a client sends it (RFC 5321, 4.5.2).

ghost use Rattle.std.specs.Prelude.{◌≡◌, ◌∷◌, ◌++◌, length, take, MatchOption, OnOk, OnErr};
ghost use Rattle.mail_world.specs.Data.{dot, stuffed, with_dots};
ghost use Rattle.mail_world.specs.Text.{cr, lf, crlf, EmptyOrEndsIn};
ghost use Rattle.lmtp_wire.specs.Runs.{CutsRun, GoesOnFrom};

use memchr::memmem;
use std::alloc::AllocError;

/// Adds the message with its dots doubled and the line of the lone dot after it. Where memory is lacking, nothing is
/// added. It reserves room for a message without dots of transparency, and more as they come.
pub fn stuff(message: &[u8], out: &mut Vec<u8>) -> Result<(), AllocError>
    requires { EmptyOrEndsIn crlf message.now }
    ensures ok { OnOk result (out.new.items ≡ out.old.items ++ stuffed message.now) }
    ensures memory { OnErr result (out.new.items ≡ out.old.items) }
{
    let before = out.len();
    match add_stuffed(message, out) {
        Ok(()) => Ok(()),
        Err(fault) => {
            out.truncate(before);
            Err(fault)
        }
    }
}

// Adds it, or a prefix of it where memory is lacking.
fn add_stuffed(message: &[u8], out: &mut Vec<u8>) -> Result<(), AllocError>
    ensures ok { OnOk result (out.new.items ≡ out.old.items ++ stuffed message.now) }
    ensures memory { OnErr result (GoesOnFrom out.old.items out.new.items) }
{
    out.reserve(message.len().saturating_add(3))?;
    add_first_dot(message, out)?;
    let mut rest = message;
    while let Some((run, after)) = cut_run(rest) {
        out.extend_from_slice(run)?;
        out.extend_from_slice(b"..")?;
        rest = after;
    }
    out.extend_from_slice(rest)?;
    out.extend_from_slice(b".\r\n")?;
    Ok(())
}

// A dot before the one that the message begins with. From there on dots are doubled after a CRLF that is read.
fn add_first_dot(message: &[u8], out: &mut Vec<u8>) -> Result<(), AllocError>
    ensures ok { OnOk result
        (out.new.items ++ with_dots lf dot message.now ≡ out.old.items ++ with_dots cr lf message.now) }
    ensures ahead { OnOk result (GoesOnFrom out.old.items out.new.items) }
    ensures memory { OnErr result (out.new.items ≡ out.old.items) }
{
    if !message.starts_with(b".") {
        return Ok(());
    }
    out.extend_from_slice(b".")?;
    Ok(())
}

// The text up to the next CRLF that a dot follows, and what stands after the dot.
fn cut_run(text: &[u8]) -> Option<(&[u8], &[u8])>
    ensures { MatchOption result (with_dots lf dot text.now ≡ text.now) (λ cut. CutsRun text.now cut.0.now cut.1.now) }
{
    let n = memmem::find(text, b"\r\n.")?;
    Some((&text[..n + 2], &text[n + 3..]))
}
