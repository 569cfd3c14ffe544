// Reading an input into a buffer, and writing a buffer to an output: to the end, or until a call fails. The library's `read_exact` and `write_all` say
// little of what a call that fails leaves, so these are loops over one call; each goes by what the call took, and not by one.
#![tactic(auto)]

ghost use Rattle.std.specs.Prelude.{◌≡◌, ◌<◌, length, take, IfOk, OnOk, OnErr, IfSome, Some, Ok, []};
ghost use Rattle.std.specs.Io.{ReadsAtMost, WritesAtMost};
ghost use Rattle.std.specs.Io.KnownBytes.{Appends, Consumes, IsAtEnd, WriteAppends};
ghost use Rattle.input.specs.Part.{AppendsPart, ConsumesPart};

use std::io;
use std::io::{ErrorKind, Read, Write};

// Reads until the buffer is full or the input ends, and returns how many bytes it put at the start of the buffer. On an empty buffer it makes no
// call. A call that fails ends it: what was read before stands at the start of the buffer, and the failed call read nothing.
pub fn read_full<R: Read>(input: &mut R, buffer: &mut [u8]) -> io::Result<usize>
    ensures prefix_len { ReadsAtMost result buffer.new }
    ensures bytes { IfOk result (λ n. Consumes (R.remaining input.old) (R.remaining input.new) (take n buffer.new)) }
    ensures known { IfSome (R.remaining input.old) (λ xs. IfOk result (λ n. take n buffer.new ≡ take (length buffer.new) xs)) }
    ensures end { IfOk result (λ n. n < length buffer.new → IsAtEnd (R.remaining input.new)) }
    ensures err { OnErr result (ConsumesPart (R.remaining input.old) (R.remaining input.new) buffer.new) }
{
    let mut done = 0;
    while done < buffer.len() {
        let n = input.read(&mut buffer[done..])?;
        if n == 0 {
            break;
        }
        done += n;
    }
    Ok(done)
}

// Writes all of the bytes. A call that fails, or takes none of them, ends it: what was written before are the first of the bytes, and the failed call
// wrote nothing. On no bytes it makes no call.
pub fn write_full<W: Write>(output: &mut W, bytes: &[u8]) -> io::Result<()>
    ensures bytes { OnOk result (Appends (W.contents output.old) (W.contents output.new) bytes.now) }
    ensures err { OnErr result (AppendsPart (W.contents output.old) (W.contents output.new) bytes.now) }
{
    let mut done = 0;
    while done < bytes.len() {
        let taken = output.write(&bytes[done..])?;
        if taken == 0 {
            return Err(io::Error::from(ErrorKind::WriteZero));
        }
        done += taken;
    }
    Ok(())
}
