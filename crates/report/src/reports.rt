// The two lines of a report: a result and a refusal.
ghost use Rattle.std.specs.Prelude.{◌≡◌, ℕ, ◌<◌, take, ℤ, Some, None};
ghost use Rattle.report.specs.Reports.{line_of_result, line_of_fault, delivered};
ghost use Rattle.report.specs.Meanings.{ResultLine, RefusalLine, TheOnly};

use crate::delivery::write_line;
use crate::written::Written;
use arrayvec::ArrayString;
use itoa::Buffer;
use rules::Fault;

// Room for the longest line, which is 84 bytes long.
const ROOM: usize = 96;

// Piece by piece: tried `write!` with `Display`, whose contract does not say that it succeeds, so that a case would be left open.
fn result_line(numerator: i64, denominator: u64, degree: usize, radius: i64) -> ArrayString<ROOM>
    ensures { result.bytes ≡ line_of_result numerator denominator degree radius }
{
    let mut digits = Buffer::new();
    let mut line = ArrayString::new();
    line.push_str(digits.format(numerator));
    line.push(' ');
    line.push_str(digits.format(denominator));
    line.push(' ');
    line.push_str(digits.format(degree));
    line.push(' ');
    line.push_str(digits.format(radius));
    line.push('\n');
    line
}

fn refusal_line(fault: Fault) -> ArrayString<ROOM>
    ensures { result.bytes ≡ line_of_fault fault }
{
    let mut digits = Buffer::new();
    let mut line = ArrayString::new();
    line.push_str("REFUSED ");
    line.push_str(digits.format(fault.cause.number()));
    line.push(' ');
    line.push_str(fault.layer.name());
    line.push(' ');
    line.push_str(digits.format(fault.place));
    line.push('\n');
    line
}

// Writes the value, its denominator, its degree and its radius. A line that does not fit leaves the buffer as it was.
// `reads` and `tells` say that the bytes written mean these numbers, that no other bytes do, and that they mean no other numbers.
// Four numbers and no struct: the estimate that holds them belongs to `runs`, and a report needs faults alone.
pub fn write_result(
    out: &mut [u8],
    numerator: i64,
    denominator: u64,
    degree: usize,
    radius: i64,
) -> Written
    ensures buffer { out.new ≡ (delivered (line_of_result numerator denominator degree radius) None out.old).buffer }
    ensures report { result ≡ (delivered (line_of_result numerator denominator degree radius) None out.old).report }
    ensures reads { 0 < result.len → TheOnly (ResultLine numerator denominator degree radius) (take result.len out.new) }
    ensures tells { 0 < result.len → (a : ℤ) (b d : ℕ) (e : ℤ) → ResultLine a b d e (take result.len out.new) → (a ≡ numerator) × (b ≡ denominator) × (d ≡ degree) × (e ≡ radius) }
{
    let line = result_line(numerator, denominator, degree, radius);
    write_line(out, line.as_str().as_bytes(), None)
}

// Writes the number, the layer and the place of a refusal, likewise.
pub fn write_refusal(out: &mut [u8], fault: Fault) -> Written
    ensures buffer { out.new ≡ (delivered (line_of_fault fault) (Some fault) out.old).buffer }
    ensures report { result ≡ (delivered (line_of_fault fault) (Some fault) out.old).report }
    ensures reads { 0 < result.len → TheOnly (RefusalLine fault) (take result.len out.new) }
    ensures tells { 0 < result.len → (other : Fault) → RefusalLine other (take result.len out.new) → other ≡ fault }
{
    let line = refusal_line(fault);
    write_line(out, line.as_str().as_bytes(), Some(fault))
}
