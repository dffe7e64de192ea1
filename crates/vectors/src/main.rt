// Runs the vectors that its arguments name. Of each NAME it makes the listing of the job in the file NAME.job and compares it, byte
// by byte, with the file NAME.out. It prints each name that does not agree, and then how many agree.
#![tactic(auto)]

ghost use Rattle.std.specs.Prelude.{◌≤◌, length};
ghost use Rattle.input.specs.Reading.{bytes_read};
ghost use Rattle.vectors.specs.Agreement.{Agreement};

use arrayvec::ArrayString;
use std::env::{Env, FillError};
use std::rt::Files;
use std::{fs, io, str};

// Whether a text is the listing of a job.
fn agrees(job: &[u8], text: &[u8]) -> bool
    ensures { Agreement job.now text.now result }
{
    let mut out = [0u8; report::MOST_TEXT];
    let n = report::listing_text(job, &mut out);
    &out[..n] == text
}

// The bytes of the file whose path is a name and an ending.
fn read_file(rt: &impl Files, name: &str, ending: &str, buffer: &mut [u8]) -> io::Result<usize>
    ensures { bytes_read result ≤ length buffer.new }
{
    let mut path = ArrayString::<4096>::new();
    for part in [name, ending] {
        path.try_push_str(part)
            .map_err(|_| io::Error::from(io::ErrorKind::InvalidFilename))?;
    }
    let mut file = fs::open(rt, path.as_str())?;
    input::read_all(&mut file, buffer)
}

// Whether a vector agrees.
fn vector_agrees(rt: &impl Files, name: &[u8]) -> io::Result<bool> {
    let name = str::from_utf8(name).map_err(|_| io::Error::from(io::ErrorKind::InvalidFilename))?;
    let mut job = [0u8; report::MOST_BYTES + 1];
    let mut text = [0u8; report::MOST_TEXT + 1];
    let job_end = read_file(rt, name, ".job", &mut job)?;
    let text_end = read_file(rt, name, ".out", &mut text)?;
    Ok(agrees(&job[..job_end], &text[..text_end]))
}

// A write that fails changes no count.
fn tell(rt: &impl Print, name: &[u8]) {
    let _ = rt.write_all(name);
    let _ = rt.write_all(b" does not agree\n");
}

// Whether the vector that an argument names agrees; tells its name where not. One that cannot be read does not, as of a name that is
// too long for a path.
fn run_vector(rt: &(impl Files + Env + Print), argument: usize) -> bool {
    let mut buffer = [0u8; 4096];
    let length = rt.arg(argument, &mut buffer).unwrap_or(buffer.len());
    let name = &buffer[..length];
    let agree = vector_agrees(rt, name).unwrap_or(false);
    if !agree {
        tell(rt, name);
    }
    agree
}

// How many vectors agree, of as many arguments.
fn run_vectors(rt: &(impl Files + Env + Print), count: usize) -> usize {
    (1..=count)
        .filter(|argument| run_vector(rt, *argument))
        .count()
}

// Whether an argument is given. In `console` too: a crate that both programs share would be longer than this line.
fn has_argument(rt: &impl Env, argument: usize) -> bool {
    !matches!(rt.arg(argument, &mut []), Err(FillError::NotPresent))
}

// How many arguments follow the program's name.
fn argument_count(rt: &impl Env) -> usize {
    (1..usize::MAX)
        .take_while(|argument| has_argument(rt, *argument))
        .count()
}

fn main(rt: HostRuntime) {
    let count = argument_count(&rt);
    let agree = run_vectors(&rt, count);
    let _ = println!(rt; "{agree} of {count} vectors agree");
}
