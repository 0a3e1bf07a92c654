// What the programs share: standard input read, bytes and numbers written.
//
// Where a reader's bytes are known, the contracts say which were read. What reaches standard output cannot be said in a
// contract (docs/DECISIONS.md): the calls that write are safe and end.
#![tactic(auto)]

ghost use Rattle.std.specs.Prelude.{◌≡◌, ◌-◌, ◌≤◌, ◌<◌, length, take, drop, false};
ghost use Rattle.std.specs.Io.KnownBytes.{Consumes, IsAtEnd};

use std::io::Read;

// ---------------------------------------------------------------------------
// Reading

// What was read: how many bytes stand at the front of the buffer, and whether a read failed.
#[derive(Clone, Copy)]
pub struct Got {
    pub size: usize,
    pub failed: bool,
}

// Reads once. Where that fails, nothing was read.
pub fn read_once<R: Read>(input: &mut R, chunk: &mut [u8]) -> Got
    ensures within { result.size ≤ length chunk.new }
    ensures bytes { Consumes (R.remaining input.old) (R.remaining input.new) (take result.size chunk.new) }
    ensures end { result.failed ≡ false → result.size ≡ 0 → 0 < length chunk.new → IsAtEnd (R.remaining input.new) }
{
    match input.read(chunk) {
        Ok(size) => Got {
            size,
            failed: false,
        },
        Err(_) => Got {
            size: 0,
            failed: true,
        },
    }
}

// Reads until the buffer is full, the input ends or a read fails.
pub fn read_full<R: Read>(input: &mut R, buf: &mut [u8]) -> Got
    ensures within { result.size ≤ length buf.new }
    ensures bytes { Consumes (R.remaining input.old) (R.remaining input.new) (take result.size buf.new) }
    ensures end { result.failed ≡ false → result.size < length buf.new → IsAtEnd (R.remaining input.new) }
{
    let mut done = 0;
    let mut failed = false;
    // No `for`: a turn reads into what is left of the buffer, however much the last one read.
    while done < buf.len() {
        match input.read(&mut buf[done..]) {
            Ok(0) => break,
            Ok(size) => done += size,
            Err(_) => {
                failed = true;
                break;
            }
        }
    }
    Got { size: done, failed }
}

// ---------------------------------------------------------------------------
// Writing

// Writes a text to standard output; whether all of it was written.
pub fn say(rt: &impl Print, s: &[u8]) -> bool {
    rt.write_all(s).is_ok()
}

// Writes a number to standard output, in decimal digits.
pub fn say_number(rt: &impl Print, n: usize) {
    let _ = rt.print(n);
}

// Writes a text to standard output, or one line to standard error where that fails; whether all of it was written.
pub fn publish(rt: &(impl Print + Eprint), s: &[u8]) -> bool {
    if say(rt, s) {
        return true;
    }
    let _ = rt.eprintln("standard output could not be written");
    false
}

// Writes to standard error that a read failed.
pub fn unread(rt: &impl Eprint) {
    let _ = rt.eprintln("standard input could not be read");
}
