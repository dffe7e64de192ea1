// The calls for programs in other languages: include/eak_capacity.h declares them. None has a `requires`, and each contract is
// that of the same call in `capacity`, its answer as a struct. 01, "Calls".
#![tactic(auto)]

ghost use Rattle.std.specs.Prelude.{◌≡◌, true, false, length};
ghost use Rattle.soil.specs.Answers.{answer_of};
ghost use Rattle.soil.specs.Taken.{take_down};
ghost use Rattle.job.specs.Answers.{row_count_answer, size_of, fault_answer, fault_of};
ghost use Rattle.printing.specs.Answers.{page_answer, page_of, bytes_after as page_after};
ghost use Rattle.capacity.specs.Calls.{run_answer, run_of, rows_after};
ghost use Rattle.capacity.specs.DemandThree.{DemandThree};
ghost use Rattle.capacity_c.specs.Exported.{job_answer, ran_answer, fault_found, soil_answer, printed_answer};

use capacity::RunError;
use job::{JobFault, Refused};
use printing::PageError;
use totals::Totals;

mod writes; // writes.rt: the calls that write a command

// C has no type for one of several cases: an answer has the refusal's number beside the values, and 0 where there is none.

// The answer of size.
#[repr(C)]
#[derive(Clone, Copy, Default)]
pub struct JobAnswer {
    pub accepted: bool,
    pub number: u32,
    pub offset: usize,
    pub rows: usize,
}

// The answer of run.
#[repr(C)]
#[derive(Clone, Copy, Default)]
pub struct RanAnswer {
    pub accepted: bool,
    pub number: u32,
    pub offset: usize,
    pub rows: usize,
    pub failed: u64,
    pub checks: u64,
    pub needed: usize,
}

// The answer of take-down.
#[repr(C)]
#[derive(Clone, Copy, Default)]
pub struct SoilAnswer {
    pub number: u32,
    pub offset: u32,
    pub value: u32,
}

// The answer of fault.
#[repr(C)]
#[derive(Clone, Copy, Default)]
pub struct FaultFound {
    pub number: u32,
    pub offset: usize,
    pub command: u32,
    pub operand: u32,
}

// The answer of page.
#[repr(C)]
#[derive(Clone, Copy, Default)]
pub struct PrintedAnswer {
    pub number: u32,
    pub offset: usize,
    pub rows: usize,
    pub bytes: usize,
}

impl From<Result<usize, Refused>> for JobAnswer {
    ghost from_gives = { λ r a. a ≡ job_answer (row_count_answer r) };

    fn from(size: Result<usize, Refused>) -> JobAnswer {
        match size {
            Ok(rows) => JobAnswer {
                accepted: true,
                rows,
                ..JobAnswer::default()
            },
            Err(refused) => JobAnswer {
                number: refused.refusal.number(),
                offset: refused.offset,
                ..JobAnswer::default()
            },
        }
    }
}

impl From<Result<Totals, RunError>> for RanAnswer {
    ghost from_gives = { λ r a. a ≡ ran_answer (run_answer r) };

    fn from(ran: Result<Totals, RunError>) -> RanAnswer {
        match ran {
            Ok(totals) => RanAnswer {
                accepted: true,
                rows: totals.rows,
                failed: totals.failed,
                checks: totals.checks,
                ..RanAnswer::default()
            },
            Err(error @ RunError::Refused(refused)) => RanAnswer {
                number: error.number(),
                offset: refused.offset,
                ..RanAnswer::default()
            },
            Err(error @ RunError::TooShort(needed)) => RanAnswer {
                number: error.number(),
                needed,
                ..RanAnswer::default()
            },
        }
    }
}

impl From<Option<JobFault>> for FaultFound {
    ghost from_gives = { λ f a. a ≡ fault_found (fault_answer f) };

    fn from(fault: Option<JobFault>) -> FaultFound {
        match fault {
            None => FaultFound::default(),
            Some(found) => FaultFound {
                number: found.refused.refusal.number(),
                offset: found.refused.offset,
                command: u32::from(found.command),
                operand: found.refused.refusal.operand(),
            },
        }
    }
}

impl From<Option<u32>> for SoilAnswer {
    ghost from_gives = { λ t a. a ≡ soil_answer (answer_of t) };

    #[tactic(auto, unfolding(soil::specs::Answers::answer_of, soil::specs::Answers::accepted, soil::specs::Answers::refused))]
    fn from(taken: Option<u32>) -> SoilAnswer {
        match taken {
            Some(value) => SoilAnswer {
                value,
                ..SoilAnswer::default()
            },
            // take-down refuses with 5 alone
            None => SoilAnswer {
                number: 5,
                ..SoilAnswer::default()
            },
        }
    }
}

impl From<Result<usize, PageError>> for PrintedAnswer {
    ghost from_gives = { λ p a. a ≡ printed_answer (page_answer p) };

    fn from(page: Result<usize, PageError>) -> PrintedAnswer {
        match page {
            Ok(bytes) => PrintedAnswer {
                bytes,
                ..PrintedAnswer::default()
            },
            Err(error @ PageError::TooFewWords(rows)) => PrintedAnswer {
                number: error.number(),
                rows,
                ..PrintedAnswer::default()
            },
            Err(error) => PrintedAnswer {
                number: error.number(),
                ..PrintedAnswer::default()
            },
        }
    }
}

// A job's row count, or its refusal.
#[unsafe(no_mangle)]
pub extern "C" fn eak_size(job: &[u8]) -> JobAnswer
    ensures { result ≡ job_answer (size_of job.now) }
{
    JobAnswer::from(capacity::size(job))
}

// The fault of a job, with the operand at fault; all 0 where it is accepted.
#[unsafe(no_mangle)]
pub extern "C" fn eak_fault(job: &[u8]) -> FaultFound
    ensures { result ≡ fault_found (fault_of job.now) }
{
    FaultFound::from(capacity::fault(job))
}

// The rows of a job, their number, the rows failed and the checks failed.
#[unsafe(no_mangle)]
pub extern "C" fn eak_run(job: &[u8], rows: &mut [i64]) -> RanAnswer
    ensures answer { result ≡ ran_answer (run_of job.now (length rows.old)) }
    ensures words { rows.new ≡ rows_after job.now rows.old }
    ensures demand3 { result.accepted ≡ true → DemandThree job.now rows.new }
{
    RanAnswer::from(capacity::run(job, rows))
}

// The page of the first n rows, written from the slice's first byte on.
#[unsafe(no_mangle)]
pub extern "C" fn eak_page(rows: &[i64], n: usize, bytes: &mut [u8]) -> PrintedAnswer
    ensures answer { result ≡ printed_answer (page_of rows.now n (length bytes.old)) }
    ensures bytes { bytes.new ≡ page_after rows.now n bytes.old }
{
    PrintedAnswer::from(capacity::page(rows, n, bytes))
}

// Take-down of one soil value. Any 32 bits may come as the value: a NaN is not at most its limit, so it is refused like the rest.
#[unsafe(no_mangle)]
pub extern "C" fn eak_take_down(kind: u8, value: f32) -> SoilAnswer
    ensures { result ≡ soil_answer (take_down kind value) }
{
    SoilAnswer::from(capacity::take_down(kind, value))
}

// The version of these calls: 10,000 times the major number, 100 times the minor one, and the patch; the header's EAK_VERSION.
#[unsafe(no_mangle)]
pub extern "C" fn eak_version() -> u32
    ensures { result ≡ 40200 }
{
    40200
}
