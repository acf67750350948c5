// The line that the program prints of a part, or of a refusal. specs/Line.antt says its bytes.
#![tactic(auto)]

ghost use Rattle.std.specs.Prelude.{◌++◌, ◌+◌, ◌<◌, ◌≤◌, length};
ghost use Rattle.log_line.specs.Line.{digits, decimal, line, refused_line};
ghost use Rattle.log_line.specs.Put.{Put};

// What the line tells of a part.
#[derive(Drop)]
pub struct Facts {
    pub corners: usize,
    pub levels: usize,
    pub umbrellas: usize,
    pub stems: usize,
    pub rows: usize,
    pub columns: usize,
}

// Writes n in decimal at `at`, and says where it ends.
fn put_digits(out: &mut [u8], at: usize, n: usize) -> usize
    requires { at + length (digits 20 n) ≤ length out.old }
    ensures { Put (digits 20 n) out.old at out.new result }
{
    if n < 10 {
        out[at] = b'0' + n as u8;
        return at + 1;
    }
    let next = put_digits(out, at, n / 10);
    out[next] = b'0' + (n % 10) as u8;
    next + 1
}

// Writes the bytes of a word at `at`, and says where it ends.
pub fn put_word(out: &mut [u8], at: usize, word: &[u8]) -> usize
    requires { at + length word.now ≤ length out.old }
    ensures { Put word.now out.old at out.new result }
{
    let end = at + word.len();
    out[at..end].copy_from_slice(word);
    end
}

// Writes a word and a number behind it.
pub fn put_field(out: &mut [u8], at: usize, word: &[u8], n: usize) -> usize
    requires { at + length word.now + 20 ≤ length out.old }
    ensures text { Put (word.now ++ decimal n) out.old at out.new result }
    ensures within { result ≤ at + length word.now + 20 }
{
    let next = put_word(out, at, word);
    put_digits(out, next, n)
}

// Writes the line of a part, and says how long it is.
pub fn put_line(f: Facts, out: &mut [u8]) -> usize
    requires { 256 ≤ length out.old }
    ensures { Put (line f) out.old 0 out.new result }
{
    let a = put_field(out, 0, b"part - corners ", f.corners);
    let b = put_field(out, a, b" levels ", f.levels);
    let c = put_field(out, b, b" umbrellas ", f.umbrellas);
    let d = put_field(out, c, b" stems ", f.stems);
    let e = put_field(out, d, b" rows ", f.rows);
    let g = put_field(out, e, b" columns ", f.columns);
    put_word(out, g, b"\n")
}

// Writes the line of a refusal, and says how long it is.
pub fn put_refused(number: usize, out: &mut [u8]) -> usize
    requires { 256 ≤ length out.old }
    ensures { Put (refused_line number) out.old 0 out.new result }
{
    let a = put_field(out, 0, b"refused ", number);
    put_word(out, a, b"\n")
}
