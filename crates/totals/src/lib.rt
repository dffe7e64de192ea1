// The totals of rows: how many they are, the rows failed and the checks failed. 01, "Calls"; 02, No. 8.
#![tactic(auto)]

ghost use Rattle.std.specs.Prelude.{true, ◌≡◌, ◌*◌, ◌≤◌, length};
ghost use Rattle.totals.specs.Rows.{good_verdict, checks_of};
ghost use Rattle.totals.specs.Counted.{counted_in, GoodRows};

// Rows; of these the rows failed; and their checks failed.
#[derive(Clone, Copy)]
pub struct Totals {
    pub rows: usize,
    pub failed: u64,
    pub checks: u64,
}

// The checks that failed in a row: the ones of its verdict, which in its range has eight bits.
fn checks_failed(verdict: i64) -> u64
    requires { good_verdict verdict ≡ true }
    ensures { result ≡ checks_of verdict }
{
    u64::from((verdict as u8).count_ones())
}

// The totals of the first n rows, whose verdicts are in their range. The slice may be longer: so their number is
// given too.
pub fn count(rows: &[i64], n: usize) -> Totals
    requires room { 8 * n ≤ length rows.now }
    requires verdicts { GoodRows rows.now n }
    ensures { result ≡ counted_in rows.now n }
{
    let first = slices::first_rows(rows, n);
    let mut totals = Totals {
        rows: n,
        failed: 0,
        checks: 0,
    };
    for row in first {
        let verdict = row[7];
        totals.failed += u64::from(verdict != 0);
        totals.checks += checks_failed(verdict);
    }
    totals
}
