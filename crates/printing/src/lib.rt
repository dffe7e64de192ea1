// The call `page`: rows of results as the lines of a printed page, written into a lent slice. It has no `requires`. 02, No. 3.
#![tactic(auto)]

ghost use Rattle.std.specs.Prelude.{◌≡◌, Err, false, ◌*◌, ◌≤◌, ◌<◌, leb, length, replicate, not, ◌&&◌};
ghost use Rattle.std.specs.Int.Signed.{le_z};
ghost use Rattle.slices.specs.Written.{Writes};
ghost use Rattle.text.specs.Lines.{space};
ghost use Rattle.printing.specs.Page.{widths, right_aligned, page_line, feed_after, page_text, page_length};
ghost use Rattle.printing.specs.Answers.{too_wide, any_too_wide, page_too_wide, page_answer, page_of, bytes_after};

const FORM_FEED: u8 = 12;

// Why no page is printed. `page_answer` gives 02's number, offset and rows of each.
#[derive(Clone, Copy, Debug, PartialEq, Eq)]
pub enum PageError {
    // Refusal 9: the rows needed.
    TooFewWords(usize),
    // Refusal 12: a value needs more than its width less one character.
    TooWide,
    // Refusal 11: the slice cannot hold the page.
    TooShort,
}

impl PageError {
    // Its number in 02.
    pub fn number(self) -> u32
        ensures { result ≡ (page_answer (Err self)).number }
    {
        match self {
            PageError::TooFewWords(_) => 9,
            PageError::TooWide => 12,
            PageError::TooShort => 11,
        }
    }
}

// ---- one row

// The characters of words 0 to 7.
const WIDTHS: [usize; 8] = [7, 3, 13, 13, 13, 13, 13, 5];

// The values of words 0 to 7 that are not too wide, from the least to the greatest: of as many characters as the width less one.
const FITTING: [(i64, i64); 8] = [
    (-99_999, 999_999),
    (-9, 99),
    (-99_999_999_999, 999_999_999_999),
    (-99_999_999_999, 999_999_999_999),
    (-99_999_999_999, 999_999_999_999),
    (-99_999_999_999, 999_999_999_999),
    (-99_999_999_999, 999_999_999_999),
    (-999, 9_999),
];

// Whether a value is outside of these two. A value is not printed to see what it takes: that took up to half of a page's time.
fn too_wide(value: i64, fitting: (i64, i64)) -> bool
    ensures { result ≡ not (le_z fitting.0 value && le_z value fitting.1) }
{
    !(fitting.0..=fitting.1).contains(&value)
}

// Whether a value of a row is too wide. The closure's clause is of the value itself: without it, it would be of the value's bits.
fn row_too_wide(row: &[i64; 8]) -> bool
    ensures { result ≡ any_too_wide widths row.now }
{
    row.iter().zip(&FITTING).any(
        |(value, fitting)|
            ensures { result ≡ not (le_z fitting.entry.now.0 value.entry.now && le_z value.entry.now fitting.entry.now.1) }
        { too_wide(*value, *fitting) },
    )
}

// A value, right-aligned in a field of blanks: its size up to the end of the field, and a minus before it where it is negative.
fn put_value(field: &mut [u8], value: i64)
    requires narrow { too_wide (length field.old) value ≡ false }
    requires blank { field.old ≡ replicate (length field.old) space }
    ensures { field.new ≡ right_aligned (length field.old) value }
{
    let end = field.len();
    let first = itoa::write_digits(value.unsigned_abs(), field, end);
    if value < 0 {
        field[first - 1] = b'-';
    }
}

// The line of a row: blanks, in them its values side by side, each in its width, and a line feed. The blanks are put at once: field by
// field each is a call of `memset`, and a page takes 1.5 to 2 times the time.
fn put_line(line: &mut [u8], row: &[i64; 8])
    requires narrow { any_too_wide widths row.now ≡ false }
    requires room { length line.old ≡ 81 }
    ensures { line.new ≡ page_line row.now }
{
    line.fill(b' ');
    // where the next field begins: the sum of the widths so far, which `zip` does not give
    let mut at = 0;
    for (value, width) in row.iter().zip(&WIDTHS) {
        let end = at + *width;
        put_value(&mut line[at..end], *value);
        at = end;
    }
    line[at] = b'\n';
}

// ---- the page

// Whether a value of the first n rows is too wide. Rows and their number come as the two values that C gives.
fn page_too_wide(rows: &[i64], n: usize) -> bool
    requires { 8 * n ≤ length rows.now }
    ensures { result ≡ page_too_wide rows.now n }
{
    slices::first_rows(rows, n).iter().any(row_too_wide)
}

// Whether the page of n rows fits into so many bytes. 81·n may not fit 64 bits.
fn holds(room: usize, n: usize) -> bool
    ensures { result ≡ leb (page_length n) room }
{
    let feeds = n.saturating_sub(1) / 50;
    81 * n as u128 + feeds as u128 <= room as u128
}

// What stands between the first lines and the next one; answers the position after it. The slice and the position are no struct: this
// function alone takes both.
fn put_feed(out: &mut [u8], at: usize, lines: usize) -> usize
    requires { at < length out.old }
    ensures { Writes out.old at (feed_after lines) out.new result }
{
    if lines == 0 || lines % 50 != 0 {
        return at;
    }
    out[at] = FORM_FEED;
    at + 1
}

// The page of the first n rows, from the start of the slice; answers its length.
fn put_page(rows: &[i64], n: usize, out: &mut [u8]) -> usize
    requires words { 8 * n ≤ length rows.now }
    requires narrow { page_too_wide rows.now n ≡ false }
    requires room { page_length n ≤ length out.old }
    ensures { Writes out.old 0 (page_text rows.now n) out.new result }
{
    let first = slices::first_rows(rows, n);
    let mut at = 0;
    for (lines, row) in first.iter().enumerate() {
        let line = put_feed(out, at, lines);
        at = line + 81;
        put_line(&mut out[line..at], row);
    }
    at
}

// The page of the first n rows, written from the slice's first byte on. 8·n may not fit a word, so the slice's whole rows are compared
// with n.
pub fn page(rows: &[i64], n: usize, bytes: &mut [u8]) -> Result<usize, PageError>
    ensures answer { page_answer result ≡ page_of rows.now n (length bytes.old) }
    ensures bytes { bytes.new ≡ bytes_after rows.now n bytes.old }
{
    if rows.len() / 8 < n {
        return Err(PageError::TooFewWords(n));
    }
    if page_too_wide(rows, n) {
        return Err(PageError::TooWide);
    }
    if !holds(bytes.len(), n) {
        return Err(PageError::TooShort);
    }
    Ok(put_page(rows, n, bytes))
}
