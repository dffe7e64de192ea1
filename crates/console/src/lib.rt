// A program that prints a job: the job on its input, its listing or its page on its output. 01, "Figures to hold to"; 02, No. 3.
#![tactic(auto)]

ghost use Rattle.std.specs.Prelude.{OnOk};
ghost use Rattle.std.specs.Io.KnownBytes.{Appends};
ghost use Rattle.report.specs.Printed.{printed_of};
ghost use Rattle.report.specs.Page.{rows_text};
ghost use Rattle.console.specs.Output.{Prints, LeavesUnlessRead};

use arrayvec::ArrayString;
use std::env::{Env, FillError};
use std::fmt::Write as _;
use std::io::{Read, Write};
use std::{fmt, io};

// What failed: the read of the job, or the write of what is printed of it.
#[derive(Clone, Copy)]
pub enum Failure {
    Input(io::Error),
    Output(io::Error),
}

// The system's reason without the number that stands after it.
fn reason(text: &str) -> &str {
    match text.rsplit_once(" (os error ") {
        Some((reason, _)) => reason,
        None => text,
    }
}

impl fmt::Display for Failure {
    fn fmt<W: fmt::Write>(&self, f: &mut fmt::Formatter<W>) -> fmt::Result {
        let (stream, error) = match self {
            Failure::Input(error) => ("input", error),
            Failure::Output(error) => ("output", error),
        };
        let mut text = ArrayString::<320>::new();
        let _ = write!(text, "{error}");
        let reason = reason(text.as_str());
        write!(f, "standard {stream}: {reason}")
    }
}

// The text is made as a whole and written at once.
fn print_text<W: Write>(job: &[u8], paged: bool, writer: &mut W) -> io::Result<()>
    ensures { OnOk result (Appends (W.contents writer.old) (W.contents writer.new) (printed_of (rows_text paged) job.now)) }
{
    let mut out = [0u8; report::MOST_TEXT];
    let n = report::printed_text(job, paged, &mut out);
    writer.write_all(&out[..n])
}

// Where the read failed, nothing is written. One byte more is read than the greatest job has, so that a longer input is seen.
pub fn print_input<R: Read, W: Write>(
    reader: &mut R,
    paged: bool,
    writer: &mut W,
) -> Result<(), Failure>
    ensures ok { OnOk result (Prints paged (R.remaining reader.old) (W.contents writer.old) (W.contents writer.new)) }
    ensures err { LeavesUnlessRead (W.contents writer.old) (W.contents writer.new) result }
{
    let mut buffer = [0u8; report::MOST_BYTES + 1];
    let n = input::read_all(reader, &mut buffer).map_err(Failure::Input)?;
    print_text(&buffer[..n], paged, writer).map_err(Failure::Output)
}

fn has_argument(rt: &impl Env) -> bool {
    !matches!(rt.arg(1, &mut []), Err(FillError::NotPresent))
}

// A program: its name, and whether it prints the page of the job or its listing, a flag as `report::printed_text` takes it.
#[derive(Clone, Copy)]
pub struct Program<'a> {
    pub name: &'a str,
    pub paged: bool,
}

impl Program<'_> {
    // What it prints of the job on standard input. An argument names no job. The program says so and ends: it neither waits for a
    // terminal nor prints another file than the one named. Where standard error fails too, nobody can be told.
    pub fn print<R: Read, E: Write>(&self, rt: &(impl Env + Print), input: &mut R, errors: &mut E) {
        let name = self.name;
        if has_argument(rt) {
            let _ = writeln!(
                errors,
                "{name}: takes no argument; a job is read from standard input: {name} < FILE"
            );
        } else if let Err(failure) = print_input(input, self.paged, &mut io::writer(rt)) {
            let _ = writeln!(errors, "{name}: {failure}");
        }
    }
}
