// Reading a stream to its end, by read after read. A read that fails is told apart from the end: what
// it had read so far would pass for a whole input.
ghost use Rattle.std.specs.Prelude.{◌≤◌, length, IfOk};

use std::io;
use std::io::Read;

// Reads until the stream ends, the buffer is full or a read fails. How many bytes stand at the start of
// the buffer: all of the stream, or as many as there is room for. A read gives as many bytes as it
// likes, so that there is no range to go over.
pub fn read_all(stream: &mut impl Read, buf: &mut [u8]) -> io::Result<usize>
    ensures { IfOk result (λ count. count ≤ length buf.new) }
{
    let mut done = 0;
    while done < buf.len() {
        match stream.read(&mut buf[done..])? {
            0 => return Ok(done),
            more => done += more,
        }
    }
    Ok(done)
}
