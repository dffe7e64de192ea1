// The text of the listing program: the lines of rows, totals and refusals, and the listing written into a lent slice.
// 01, "Figures to hold to".
#![tactic(auto)]

ghost use Rattle.std.specs.Prelude.{◌≡◌, ◌++◌, ◌+◌, ◌*◌, ◌≤◌, length};
ghost use Rattle.arrayvec.specs.ArrayString.{array_string_len};
ghost use Rattle.text.specs.Decimal.{decimal, signed_decimal};
ghost use Rattle.text.specs.Lines.{row_line, row_words, rows_text, totals_line, refused_line, listing_text};
ghost use Rattle.slices.specs.Written.{Writes, WritesAtMost};

use arrayvec::ArrayString;
use itoa::Buffer;
use totals::Totals;

// A word, and the text after it. By `itoa`: no clause of `write!` says that it succeeds, so with it this function could fail.
fn push_word(line: &mut ArrayString<168>, word: i64, after: &str)
    requires { array_string_len line.old + (20 + length after.now) ≤ 168 }
    ensures text { line.new.bytes ≡ line.old.bytes ++ (signed_decimal word ++ after.now) }
    ensures short { array_string_len line.new ≤ array_string_len line.old + (20 + length after.now) }
{
    line.push_str(Buffer::new().format(word));
    line.push_str(after);
}

// The line of a row.
fn row_line(row: &[i64; 8]) -> ArrayString<168>
    ensures { result.bytes ≡ row_line row.now }
{
    let mut line = ArrayString::new();
    for word in &row[..7] {
        push_word(&mut line, *word, " ");
    }
    push_word(&mut line, row[7], "\n");
    line
}

// A label, and the number after it. Not one function with `push_word`: there the text stands behind, and the number is an i64.
fn push_labelled<const N: usize>(line: &mut ArrayString<N>, label: &str, value: u64)
    requires { array_string_len line.old + (length label.now + 20) ≤ N }
    ensures text { line.new.bytes ≡ line.old.bytes ++ (label.now ++ decimal value) }
    ensures short { array_string_len line.new ≤ array_string_len line.old + (length label.now + 20) }
{
    line.push_str(label);
    line.push_str(Buffer::new().format(value));
}

// The totals: rows, rows failed, checks failed.
fn totals_line(rows: u64, failed: u64, checks: u64) -> ArrayString<82>
    ensures { result.bytes ≡ totals_line rows failed checks }
{
    let mut line = ArrayString::new();
    push_labelled(&mut line, "rows ", rows);
    push_labelled(&mut line, " failed ", failed);
    push_labelled(&mut line, " checks ", checks);
    line.push('\n');
    line
}

// A refusal.
fn refused_line(number: u64, offset: u64) -> ArrayString<50>
    ensures { result.bytes ≡ refused_line number offset }
{
    let mut line = ArrayString::new();
    push_labelled(&mut line, "refused ", number);
    push_labelled(&mut line, " ", offset);
    line.push('\n');
    line
}

// A text from a position on; answers the position after it. The slice and the position are no struct: a caller has them apart.
pub fn put_text(out: &mut [u8], at: usize, text: &[u8]) -> usize
    requires { at + length text.now ≤ length out.old }
    ensures { Writes out.old at text.now out.new result }
{
    let end = at + text.len();
    out[at..end].copy_from_slice(text);
    end
}

// The line of one of the rows.
pub fn put_row(out: &mut [u8], at: usize, rows: &[i64], row: usize) -> usize
    requires words { 8 * row + 8 ≤ length rows.now }
    requires room { at + 168 ≤ length out.old }
    ensures { WritesAtMost 168 out.old at (row_line (row_words rows.now row)) out.new result }
{
    let line = row_line(&slices::first_rows(rows, row + 1)[row]);
    put_text(out, at, line.as_str().as_bytes())
}

// The lines of the first rows, of a slice that may be longer: so their number is given too.
pub fn put_rows(out: &mut [u8], at: usize, rows: &[i64], count: usize) -> usize
    requires words { 8 * count ≤ length rows.now }
    requires room { at + 168 * count ≤ length out.old }
    ensures { WritesAtMost (168 * count) out.old at (rows_text rows.now count) out.new result }
{
    let first = slices::first_rows(rows, count);
    let mut next = at;
    for row in first {
        next = put_text(out, next, row_line(row).as_str().as_bytes());
    }
    next
}

// The line of the totals.
pub fn put_totals(out: &mut [u8], at: usize, rows: u64, failed: u64, checks: u64) -> usize
    requires { at + 82 ≤ length out.old }
    ensures { WritesAtMost 82 out.old at (totals_line rows failed checks) out.new result }
{
    put_text(
        out,
        at,
        totals_line(rows, failed, checks).as_str().as_bytes(),
    )
}

// The listing of an accepted job, from the start of the slice: the rows of these totals, then the totals. Answers its length. A caller with
// a position hands in the slice from there on.
pub fn put_listing(out: &mut [u8], rows: &[i64], totals: Totals) -> usize
    requires words { 8 * totals.rows ≤ length rows.now }
    requires room { 168 * totals.rows + 82 ≤ length out.old }
    ensures { WritesAtMost (168 * totals.rows + 82) out.old 0 (listing_text rows.now totals.rows totals.failed totals.checks) out.new result }
{
    let at = put_rows(out, 0, rows, totals.rows);
    put_totals(out, at, totals.rows as u64, totals.failed, totals.checks)
}

// The line of a refusal, likewise from the start of the slice. Answers its length. The refusal is a number, as the line prints it.
pub fn put_refused(out: &mut [u8], number: u64, offset: u64) -> usize
    requires { 50 ≤ length out.old }
    ensures { WritesAtMost 50 out.old 0 (refused_line number offset) out.new result }
{
    put_text(out, 0, refused_line(number, offset).as_str().as_bytes())
}
