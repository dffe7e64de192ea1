// All bytes of a reader, up to the size of a buffer; the end of the input is told from a read that failed.
#![tactic(auto)]

ghost use Rattle.std.specs.Prelude.{◌≡◌, ◌<◌, ◌≤◌, length, take, IfOk};
ghost use Rattle.std.specs.Io.KnownBytes.{Consumes, IsAtEnd};
ghost use Rattle.input.specs.Reading.{bytes_read};

use std::io;
use std::io::Read;

// One read; 0 bytes at the end of the input.
fn read_some<R: Read>(reader: &mut R, buffer: &mut [u8]) -> io::Result<usize>
    ensures bound { bytes_read result ≤ length buffer.new }
    ensures bytes { IfOk result (λ n. Consumes (R.remaining reader.old) (R.remaining reader.new) (take n buffer.new)) }
    ensures end { 0 < length buffer.old → IfOk result (λ n. n ≡ 0 → IsAtEnd (R.remaining reader.new)) }
{
    reader.read(buffer)
}

// Reads to the end of the input, or until the buffer is full: then there may be more. The loop is by hand, as the library's `read_to_end`
// needs a heap.
pub fn read_all<R: Read>(reader: &mut R, buffer: &mut [u8]) -> io::Result<usize>
    ensures bound { bytes_read result ≤ length buffer.new }
    ensures bytes { IfOk result (λ n. Consumes (R.remaining reader.old) (R.remaining reader.new) (take n buffer.new)) }
    ensures end { IfOk result (λ n. n < length buffer.new → IsAtEnd (R.remaining reader.new)) }
{
    let mut have: usize = 0;
    while have < buffer.len() {
        let more = read_some(reader, &mut buffer[have..])?;
        if more == 0 {
            return Ok(have);
        }
        have += more;
    }
    Ok(have)
}
