// A program's standard input and output: all of the one read into a lent buffer, and bytes written to the other. Where that fails, a line on standard error
// says why; a program's own message goes there as well. No contract can say which bytes standard input gives, or which reach standard output.
#![tactic(auto)]

ghost use Rattle.std.specs.Prelude.{◌≡◌, ℕ, ◌<◌, ◌≤◌, ◌^◌, length, take, IfOk, None};
ghost use Rattle.std.specs.Io.{ReadsAtMost};
ghost use Rattle.std.specs.Io.KnownBytes.{Consumes, IsAtEnd};
ghost use Rattle.standard_io.specs.Input.{Within, Counted};

use std::convert::AsSlice;
use std::io;
use std::io::{Read, Write};

// One byte more than a list may have, so that a longer one is known.
pub const LIST_SPACE: usize = 65537;

// Reads to the end, or until buf is full, and returns how many bytes now stand at its start. A read of nothing is the end.
fn read_whole<R: Read>(from: &mut R, buf: &mut [u8]) -> io::Result<usize>
    ensures counted { ReadsAtMost result buf.new }
    ensures bytes { IfOk result (λ n. Consumes (R.remaining from.old) (R.remaining from.new) (take n buf.new)) }
    ensures end { IfOk result (λ n. n < length buf.new → IsAtEnd (R.remaining from.new)) }
{
    let mut at: usize = 0;
    // kept: each turn reads as many bytes as the reader has, so no iterator gives the offsets
    while at < buf.len() {
        let n = from.read(&mut buf[at..])?;
        if n == 0 {
            return Ok(at);
        }
        at += n;
    }
    Ok(at)
}

// A failed read, which standard error is told of, gives nothing.
fn read_failed<R: Eprint>(rt: &R, e: io::Error) -> Option<usize>
    ensures { result ≡ None }
{
    let _ = eprintln!(rt; "standard input: {e}");
    None
}

// Reads standard input to its end, or until buf is full: whether there is more is then not known. A read of nothing is the end, so on a terminal it is given once.
// The answer is how many bytes were read; none where a read failed: standard error is told why, and what was read before counts for nothing.
pub fn read_all<R: io::Input + Eprint>(rt: &R, buf: &mut [u8]) -> Option<usize>
    ensures counted { Counted result buf.new }
    ensures within { Within result (length buf.old) }
{
    match read_whole(&mut rt.reader(), buf) {
        Ok(n) => Some(n),
        Err(e) => read_failed(rt, e),
    }
}

// Writes all of text to standard output and answers whether all was written, so that a program that writes in pieces can stop at the first failure.
// Where that fails, standard error is told why; some of text may have been written. No contract can say what was written, so none says what the answer means.
// kept: a bool: the error is told here, and a Result of two units would say no more.
pub fn write_all<R: Print + Eprint>(rt: &R, text: &[u8]) -> bool {
    match io::writer(rt).write_all(text) {
        Ok(()) => true,
        Err(e) => {
            let _ = eprintln!(rt; "standard output: {e}");
            false
        }
    }
}

// Writes all of message to standard error. Where that fails there is nowhere left to tell it.
pub fn tell(rt: &HostRuntime, message: &[u8]) {
    let _ = io::writer(&rt.stderr()).write_all(message);
}

// Reads standard input into SPACE bytes and does the work with what was read; nothing where it can't be read.
pub fn with_input<const SPACE: usize, F: FnOnce(&[u8])>(rt: &HostRuntime, work: F)
    requires callable { F.IsAlwaysCallable work }
    requires space { SPACE < 2 ^ 63 }
{
    let mut input = [0; SPACE];
    if let Some(n) = read_all(rt, &mut input) {
        work(&input[..n]);
    }
}

// Reads standard input into SPACE bytes and writes the text of what was read to standard output; nothing where it can't be read. `put` makes the text in the room for it and answers how many
// bytes it has.
pub fn print_text<const SPACE: usize, T: AsSlice<u8>, F: FnOnce(&[u8], &mut T) -> usize>(
    rt: &HostRuntime,
    room: &mut T,
    put: F,
)
    requires callable { F.IsAlwaysCallable put }
    requires within { (input : _) (before : _) (n : ℕ) (after : _) → F.post put input before n after → n ≤ length (T.items after.now) }
    requires space { SPACE < 2 ^ 63 }
{
    let mut input = [0; SPACE];
    if let Some(n) = read_all(rt, &mut input) {
        let k = put(&input[..n], room);
        write_all(rt, &room.as_slice()[..k]);
    }
}
