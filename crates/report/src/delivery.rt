// A finished line goes out in one step, or not at all.
ghost use Rattle.std.specs.Prelude.{◌≡◌};
ghost use Rattle.report.specs.Reports.{delivered};

use crate::written::Written;
use rules::{Cause, Fault, Origin};

// Writes a line of any text to the front of the buffer. One that does not fit leaves the buffer as it was; `told` is the refusal that one that fits reports.
pub fn write_line(out: &mut [u8], line: &[u8], told: Option<Fault>) -> Written
    ensures buffer { out.new ≡ (delivered line.now told out.old).buffer }
    ensures report { result ≡ (delivered line.now told out.old).report }
{
    if out.len() < line.len() {
        return Written {
            len: 0,
            fault: Some(Origin::Output.fault(Cause::BufferShort, line.len())),
        };
    }
    out[..line.len()].copy_from_slice(line);
    Written {
        len: line.len(),
        fault: told,
    }
}
