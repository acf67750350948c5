// What the program unbend does with its input: the text to be printed, however long the input is.
// No chart is longer than 20,465 bytes, so the first 20,466 bytes of a longer input get the refusal of the whole (`long_described` in proofs/Theorems.antt).
ghost use Rattle.std.specs.Prelude.{List, ℕ, ◌≤◌, length, take};
ghost use Rattle.codec.specs.Input.{Begins};
ghost use Rattle.log_line.specs.Put.{Put};
ghost use Rattle.chart_text.specs.Text.{described};

use crate::{TEXT_ROOM, describe};

// Room for an input: one byte more than the longest chart has.
pub const INPUT_ROOM: usize = 20466;

// Writes what is said of the chart that is the first `end` of the bytes lent, and says how long it is.
fn describe_first(lent: &[u8], end: usize, out: &mut [u8; TEXT_ROOM]) -> usize
    requires { end ≤ length lent.now }
    ensures text { Put (described (take end lent.now)) out.old 0 out.new result }
    ensures within { result ≤ 163840 }
{
    describe(&lent[..end], out)
}

// Writes what is said of an input, of which the first `size` bytes lent are all, or the first 20,466 bytes if it is longer.
pub fn describe_input(lent: &[u8; INPUT_ROOM], size: usize, out: &mut [u8; TEXT_ROOM]) -> usize
    ensures text { (input : List ℕ) → Begins lent.now size input → Put (described input) out.old 0 out.new result }
    ensures within { result ≤ 163840 }
{
    describe_first(lent, size.min(INPUT_ROOM), out)
}
