// Standard input and output for the programs. What the system refuses is said on standard error, with its reason.
#![tactic(auto)]

ghost use Rattle.std.specs.Prelude.{◌≡◌, ◌≤◌, length, take};
ghost use Rattle.console.specs.Within.{Within};
ghost use Rattle.console.specs.Read.{ReadBehind, ReadFull};

use std::io::{Error, Read};

// Says on standard error what the system refused, and why.
pub fn fail(rt: &impl Eprint, what: &str, why: &Error) {
    let _ = eprintln!(rt; "{what}: {why}");
}

// One read into the buffer from `done` on: so many bytes, 0 at the end of the input; or none, as the system refused.
fn read_on<R: Read>(rt: &impl Eprint, reader: &mut R, buf: &mut [u8], done: usize) -> Option<usize>
    requires { done ≤ length buf.old }
    ensures within { Within result done (length buf.old) }
    ensures kept { take done buf.new ≡ take done buf.old }
    ensures bytes { ReadBehind result done (R.remaining reader.old) (R.remaining reader.new) buf.new }
{
    reader
        .read(&mut buf[done..])
        .inspect_err(|why| fail(rt, "standard input", why))
        .ok()
}

// Reads until the buffer is full or the input ends, and says how many bytes that are; or none, as the system refused.
// The reader is standard input, `rt.stdin()`, or what a test takes for it.
pub fn read_input<R: Read>(rt: &impl Eprint, reader: &mut R, buf: &mut [u8]) -> Option<usize>
    ensures within { Within result 0 (length buf.old) }
    ensures bytes { ReadFull result (R.remaining reader.old) (R.remaining reader.new) buf.new }
{
    let mut done = 0;
    while done < buf.len() {
        let more = read_on(rt, reader, buf, done)?;
        if more == 0 {
            break;
        }
        done += more;
    }
    Some(done)
}

// Prints the text.
pub fn print(rt: &(impl Print + Eprint), text: &[u8]) {
    if let Err(why) = rt.write_all(text) {
        fail(rt, "standard output", &why);
    }
}
