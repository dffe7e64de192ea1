// What the programs print of a job, written into a lent slice: its listing or its page. 01, "Figures to hold to"; 02, No. 3.
#![tactic(auto)]

ghost use Rattle.std.specs.Prelude.{◌≡◌, false, ◌+◌, ◌*◌, ◌≤◌, length};
ghost use Rattle.slices.specs.Written.{WritesAtMost};
ghost use Rattle.printing.specs.Answers.{page_too_wide};
ghost use Rattle.report.specs.Printed.{printed_of};
ghost use Rattle.report.specs.Listing.{listing_of, TotalsOf};
ghost use Rattle.report.specs.Page.{rows_text};

use capacity::RunError;
use totals::Totals;

// The greatest job, in bytes.
pub const MOST_BYTES: usize = 65536;

// The longest text of a job: 1,024 rows of 168 bytes, and the totals of 82.
pub const MOST_TEXT: usize = 172114;

// Refusal 10: the job is greater. A number and no case of an enum: the line of a refusal prints numbers.
const TOO_LONG: u64 = 10;

// The rows of these totals, as a page or as a listing. A flag and one `if`: a trait would need a type for each of the two, and a law that
// both texts depend on the first rows alone. What is asked of rows and slice is no struct: it would hold both for a single call.
fn put_text(rows: &[i64], totals: Totals, paged: bool, out: &mut [u8]) -> usize
    requires words { 8 * totals.rows ≤ length rows.now }
    requires totals { TotalsOf rows.now totals }
    requires narrow { page_too_wide rows.now totals.rows ≡ false }
    requires room { 168 * totals.rows + 82 ≤ length out.old }
    ensures { WritesAtMost (168 * totals.rows + 82) out.old 0 (rows_text paged rows.now totals.rows) out.new result }
{
    if paged {
        capacity::page(rows, totals.rows, out).unwrap_or(0)
    } else {
        text::put_listing(out, rows, totals)
    }
}

// What is printed of a job, from the start of the slice; answers its length. There is room for 1,024 rows. The slice's length is asked for
// by a clause, and not by an array type, which would ask more: a caller may have a longer slice.
pub fn printed_text(job: &[u8], paged: bool, out: &mut [u8]) -> usize
    requires { 172114 ≤ length out.old }
    ensures { WritesAtMost 172114 out.old 0 (printed_of (rows_text paged) job.now) out.new result }
{
    if job.len() > MOST_BYTES {
        return text::put_refused(out, TOO_LONG, 0);
    }
    let mut rows = [0i64; 8192];
    match capacity::run(job, &mut rows) {
        Ok(totals) => put_text(&rows, totals, paged, out),
        Err(error) => {
            // refusal 9 prints the rows needed
            let offset = match error {
                RunError::Refused(refused) => refused.offset,
                RunError::TooShort(needed) => needed,
            };
            text::put_refused(out, u64::from(error.number()), offset as u64)
        }
    }
}

// Its listing, likewise.
pub fn listing_text(job: &[u8], out: &mut [u8]) -> usize
    requires { 172114 ≤ length out.old }
    ensures { WritesAtMost 172114 out.old 0 (listing_of job.now) out.new result }
{
    printed_text(job, false, out)
}
