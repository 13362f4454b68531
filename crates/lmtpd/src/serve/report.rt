//! What the program says of a server that ran.

ghost use Rattle.std.specs.Prelude.{◌≡◌, ◌++◌, OnOk, OnErr};
ghost use Rattle.std.specs.Io.KnownBytes.{Appends};
ghost use Rattle.lmtpd.specs.Lacking.{server_fault};
ghost use Rattle.lmtpd_setup.specs.Lines.{line_after, status_after};
ghost use Rattle.lmtpd_output.specs.Output.{IsCutOff, IsListed};
ghost use Rattle.lmtpd_serve.specs.Served.{trouble_lines};

use crate::lacking::server_fault;
use lmtpd_output::WriteFault;
use lmtpd_serve::{Served, write_trouble_lines};
use lmtpd_setup::{Exit, Fault, status_after, write_fault};
use std::io::Write;

/// Says on `error` which mailboxes are over their quota, and then what is lacking, if anything is, and gives the
/// status.
pub fn report_served<E: Write>(served: &Served, is_journal: bool, error: &mut E) -> Exit
    ensures status { result.status ≡ status_after (server_fault served.now.ending) }
    ensures lines { IsListed (trouble_lines served.now ++ line_after is_journal (server_fault served.now.ending))
        (E.contents error.old) (E.contents error.new) result.cut }
{
    let fault = server_fault(served.ending);
    Exit {
        status: status_after(fault),
        cut: write_lines(served, fault, is_journal, error).is_err(),
    }
}

// Says both; after a fault of the writer nothing.
#[tactic(auto, using(crate::proofs::AfterLines::fails_after))]
fn write_lines<E: Write>(
    served: &Served,
    fault: Option<Fault>,
    is_journal: bool,
    error: &mut E,
) -> Result<(), WriteFault>
    ensures ok { OnOk result (Appends (E.contents error.old) (E.contents error.new)
        (trouble_lines served.now ++ line_after is_journal fault)) }
    ensures err { OnErr result (IsCutOff (E.contents error.old) (E.contents error.new)
        (trouble_lines served.now ++ line_after is_journal fault)) }
{
    write_trouble_lines(error, served)?;
    write_fault(fault, is_journal, error)
}
