//! Where a lane's log shows its lines.

ghost use Rattle.std.specs.Prelude.{◌≡◌, [], ◌∷◌, ◌++◌, List};
ghost use Rattle.lmtpd_log.specs.Line.{Line, line_of};

use crate::pairs::Line;

/// What shows lines of lanes.
pub trait LineSink: Drop {
    // the lines that it has shown
    ghost shown: { Self → List Line };

    /// Shows one line.
    fn show(&mut self, line: Line)
        ensures { shown self.new ≡ shown self.old ++ line_of line ∷ [] };

    /// Shows that a domain isn't served, which is no line of a command's own.
    fn show_unserved(&mut self, domain: &[u8])
        ensures { shown self.new ≡ shown self.old };
}
