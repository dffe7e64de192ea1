// The calls: size, fault, run, take-down, write, write_block and page. None has a `requires`. 01, "Calls"; 02, No. 2, No. 3, No. 7 and
// No. 8.
// The papers leave no value of these calls free: each answer, each lent word and each lent byte is promised by equation.
#![tactic(auto)]

ghost use Rattle.std.specs.Prelude.{◌≡◌, Err, true, length};
ghost use Rattle.capacity.specs.Calls.{run_answer, run_of, rows_after, Writes};
ghost use Rattle.capacity.specs.DemandThree.{DemandThree};
ghost use Rattle.capacity.specs.declared.RunError.TheVariants.{Refused as refused};

use job::Refused;
use totals::Totals;

// A job's row count, or its refusal; its fault, where it is refused.
pub use job::{fault, size};
// The page of the first n rows, written from the slice's first byte on.
pub use printing::page;
// Take-down of one soil value.
pub use soil::take_down;
// The bytes of one command, or of a block of storeys, written from the slice's first byte on.
pub use writing::{write, write_block};

// Why run writes no rows. `run_answer` gives 01's number, offset and rows of each case.
#[derive(Clone, Copy, Debug, PartialEq, Eq)]
pub enum RunError {
    Refused(Refused),
    // Refusal 9: the rows needed.
    TooShort(usize),
}

impl RunError {
    // Its number in 01.
    pub fn number(self) -> u32
        ensures { result ≡ (run_answer (Err self)).number }
    {
        match self {
            RunError::Refused(refused) => refused.refusal.number(),
            RunError::TooShort(_) => 9,
        }
    }
}

impl From<Refused> for RunError {
    ghost from_gives = { λ r e. e ≡ refused r };

    fn from(refused: Refused) -> RunError {
        RunError::Refused(refused)
    }
}

// The rows of a job, where it is accepted and there is room for all.
fn write_rows(job: &[u8], rows: &mut [i64])
    ensures { Writes job.now rows.old rows.new }
{
    let mut joints = [None; 256];
    // the first pass met no refusal, nor does this one
    let _ = job::walk(job, job::first_place(), job::WHOLE_JOB, &mut joints, rows);
}

// The rows of a job, their number, the rows failed and the checks failed.
pub fn run(job: &[u8], rows: &mut [i64]) -> Result<Totals, RunError>
    ensures answer { run_answer result ≡ run_of job.now (length rows.old) }
    ensures words { rows.new ≡ rows_after job.now rows.old }
    ensures demand3 { (run_answer result).accepted ≡ true → DemandThree job.now rows.new }
{
    let n = job::pass(job)?;
    if rows.len() / 8 < n {
        return Err(RunError::TooShort(n));
    }
    write_rows(job, rows);
    Ok(totals::count(&*rows, n))
}
