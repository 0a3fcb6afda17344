// This crate reads a reader whole and writes a buffer whole. A signal is no error, and neither is a short read or a short write.
#![tactic(auto)]

ghost use Rattle.std.specs.Prelude.{◌≤◌, ◌-◌, ◌≡◌, IfOk, length, take, drop};
ghost use Rattle.std.specs.Io.KnownBytes.{Appends, ReadConsumes, WriteAppends};
ghost use Rattle.streams.specs.Stream.{AtMost, Gave};

use std::io;
use std::io::ErrorKind;

// A read or a write that signals break off so many times in a row has failed.
const TRIES: usize = 65536;

// Makes one read, and makes it again where a signal broke it off. No bytes are the end of the input. `write_once` is the same of a write:
// a function of both would take the call as a closure, and a relation that every answer of the closure has.
fn read_once<R: io::Read>(reader: &mut R, buf: &mut [u8]) -> io::Result<usize>
    ensures bytes { IfOk result (λ n. n ≤ length buf.old) }
    ensures known { ReadConsumes (R.remaining reader.old) (R.remaining reader.new) result buf.new }
{
    for _ in 1..TRIES {
        match reader.read(buf) {
            Err(e) if e.kind() == ErrorKind::Interrupted => {}
            read => return read,
        }
    }
    reader.read(buf)
}

// Makes one read into the buffer from a position on; the bytes before it stay as they are.
fn read_from<R: io::Read>(reader: &mut R, buf: &mut [u8], from: usize) -> io::Result<usize>
    requires { from ≤ length buf.old }
    ensures bytes { IfOk result (λ n. n ≤ length buf.old - from) }
    ensures before { take from buf.new ≡ take from buf.old }
    ensures known { ReadConsumes (R.remaining reader.old) (R.remaining reader.new) result (drop from buf.new) }
{
    read_once(reader, &mut buf[from..])
}

// An error's words, without the number that follows those of the system.
fn words_of(text: &str) -> &str {
    text.split_once(" (os error ")
        .map_or(text, |(words, _)| words)
}

// Says on standard error what failed and why.
fn tell(rt: &(impl Eprint + AllocGlobal), what: &str, error: io::Error) {
    let _ = match format!(in rt.alloc(); "{error}") {
        Ok(text) => eprintln!(rt; "{what}: {}", words_of(&text)),
        Err(_) => eprintln!(rt; "{what}: {error}"),
    };
}

// Reads until the input ends or the buffer is full, and answers how many bytes came. Where a read fails, it says why on standard
// error and answers nothing.
pub fn read_all<R: io::Read>(
    reader: &mut R,
    rt: &(impl Eprint + AllocGlobal),
    buf: &mut [u8],
) -> Option<usize>
    ensures bytes { AtMost (length buf.old) result }
    ensures known { Gave (R.remaining reader.old) (R.remaining reader.new) buf.new result }
{
    // A loop by hand: a turn goes on by what its read gave, and `read_exact` has no answer for an input that ends early.
    let mut done: usize = 0;
    while done < buf.len() {
        match read_from(reader, buf, done) {
            Ok(0) => return Some(done),
            Ok(n) => done += n,
            Err(e) => {
                tell(rt, "standard input", e);
                return None;
            }
        }
    }
    Some(done)
}

// Makes one write, and makes it again where a signal broke it off. It answers how many bytes went out.
fn write_once<W: io::Write>(writer: &mut W, buf: &[u8]) -> io::Result<usize>
    ensures bytes { IfOk result (λ n. n ≤ length buf.now) }
    ensures known { WriteAppends (W.contents writer.old) (W.contents writer.new) result buf.now }
{
    for _ in 1..TRIES {
        match writer.write(buf) {
            Err(e) if e.kind() == ErrorKind::Interrupted => {}
            written => return written,
        }
    }
    writer.write(buf)
}

// Writes all of the buffer and answers how many bytes went out. Where a write fails or takes nothing, it stops there and says why
// on standard error.
pub fn write_all<W: io::Write>(
    writer: &mut W,
    rt: &(impl Eprint + AllocGlobal),
    buf: &[u8],
) -> usize
    ensures bytes { result ≤ length buf.now }
    ensures known { Appends (W.contents writer.old) (W.contents writer.new) (take result buf.now) }
{
    // A loop by hand: a turn goes on by what its write took, and the library's `write_all` does not say how much that was in all.
    let mut done: usize = 0;
    while done < buf.len() {
        match write_once(writer, &buf[done..]) {
            Ok(0) => {
                tell(rt, "standard output", io::Error::from(ErrorKind::WriteZero));
                return done;
            }
            Ok(n) => done += n,
            Err(e) => {
                tell(rt, "standard output", e);
                return done;
            }
        }
    }
    done
}
