//! What stands in the log of a text: printable ASCII alone, so that nobody's text ends a line or begins one.

ghost use Rattle.std.specs.Prelude.{◌≡◌, All};
ghost use Rattle.percent_encoding.specs.Iter.{encoded_text};
ghost use Rattle.lmtpd_output.specs.Printable.{IsPrintable, printable_text, Escapes};

use percent_encoding::{CONTROLS, PercentEncode, percent_encode};
use std::fmt;
use std::fmt::{Display, Formatter, Write};

/// The text, which may be any bytes, with `%` and two hexadecimal digits in place of each that isn't printable ASCII.
pub fn printable(text: &[u8]) -> PercentEncode<'_>
    ensures text { encoded_text result ≡ printable_text text.now }
    ensures clean { All IsPrintable (encoded_text result) }
    ensures same { All IsPrintable text.now → encoded_text result ≡ text.now }
{
    percent_encode(text, CONTROLS)
}

/// Shows what the value shows, but for what isn't printable.
#[derive(Clone, Copy, Drop)]
pub(crate) struct Escaped<D>(pub D);

impl<D: Display> Display for Escaped<D> {
    ghost use Rattle.std.specs.Prelude.{option_map};

    ghost output = { λ shown. option_map printable_text (D.output shown.0) };

    fn fmt<W: Write>(&self, f: &mut Formatter<W>) -> fmt::Result {
        let mut out = Escaping { out: f };
        out.write(&self.0)
    }
}

// Hands on what is printable of what is written.
struct Escaping<'f, W> {
    out: &'f mut Formatter<W>,
}

impl<'f, W> Drop for Escaping<'f, W> {
    fn drop(self)
        ensures { self.exit.0.now ≡ self.entry.out.now }
    {
        let Self { out: _ } = self;
    }
}

impl<'f, W: Write> Write for Escaping<'f, W> {
    ghost write_str_gives = { Escapes W.write_str_gives };

    fn write_str(&mut self, text: &str) -> fmt::Result {
        self.out.write(printable(text.as_bytes()))
    }
}
