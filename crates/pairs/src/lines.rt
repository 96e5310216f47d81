// The line of a verdict.
ghost use Rattle.std.specs.Prelude.{◌≡◌, ◌≤◌, length};
ghost use Rattle.report.specs.Reports.{delivered};
ghost use Rattle.pairs.specs.VerdictLines.{fault_in, line_of_verdict};

use report::{Written, write_line, write_refusal};
use rules::Fault;
use runs::Verdict;

// Writes APART, MEET, NONE where there is no verdict, or the refusal, as one line. A line that does not fit leaves the buffer as it was.
// `within` as in a session's report.
pub fn write_verdict(out: &mut [u8], verdict: Option<Result<Verdict, Fault>>) -> Written
    ensures buffer { out.new ≡ (delivered (line_of_verdict verdict) (fault_in verdict) out.old).buffer }
    ensures report { result ≡ (delivered (line_of_verdict verdict) (fault_in verdict) out.old).report }
    ensures within { result.len ≤ length out.old }
{
    match verdict {
        Some(Ok(Verdict::Apart)) => write_line(out, b"APART\n", None),
        Some(Ok(Verdict::Meet)) => write_line(out, b"MEET\n", None),
        Some(Err(fault)) => write_refusal(out, fault),
        None => write_line(out, b"NONE\n", None),
    }
}
