// Every operation without record lists, for C: numbers and byte runs in, one number out. include/bend.h declares them.
// The low 16 bits of an answer are the number, 0 or that of a refusal. Above it stands the length of what was written, or for Plan the levels,
// umbrellas and stems, 16 bits each, or for Cut the two lengths, 16 bits each, or for a list of edits the place of the sheet left, in 16 bits, and its length,
// or for the nearest bar its corner and one.
#![tactic(auto)]

ghost use Rattle.std.specs.Prelude.{◌≡◌, List, ℕ, ◌<◌};
ghost use Rattle.codec.specs.Numbered.{number_of};
ghost use Rattle.codec.specs.Answer.{written, answered, packed, Packable};
ghost use Rattle.codec.specs.TwoOutputs.{written_both, answered_both, packed_both, BothPackable};
ghost use Rattle.sheet.specs.Sheet.{ordered};
ghost use Rattle.edit.specs.Rules.{add_ear, remove_ear, flip};
ghost use Rattle.edit.specs.Calls.{edited};
ghost use Rattle.edit.specs.Tables.{edit_of};
ghost use Rattle.seam.specs.Join.{joined_sheets};
ghost use Rattle.cut.specs.Cut.{cut_sheet};
ghost use Rattle.edit_list.specs.Result.{ran_of, result_of, packed_run, Tellable};
ghost use Rattle.draw.specs.Answer.{drawn};
ghost use Rattle.draw.specs.Label.{labelled};
ghost use Rattle.nearest.specs.Cells.{cell};
ghost use Rattle.chart_reader.specs.Reader.{chart_read};
ghost use Rattle.chart_reader.specs.Follow.{nearest_bar, followed_of, value_of, packed_found};
ghost use Rattle.plan.specs.Answer.{planned, planned_of, packed_plan};

use codec::Refusal;
use edit::held::Edit;
use edit_list::{Left, Place};
use nearest::Cell;
use plan::Totals;

// The functions below that C calls differ in little but their names and contracts: they are the C interface, as include/bend.h declares it.

// The number of a refusal: all of an answer that is refused.
fn refused(refusal: Refusal) -> u64
    ensures { result ≡ number_of refusal }
{
    u64::from(refusal.number())
}

// The answer in one number.
fn pack(answer: Result<usize, Refusal>) -> u64
    requires { Packable answer }
    ensures { (out : List ℕ) → result ≡ packed (answered answer out) }
{
    answer.map_or_else(refused, |size| size as u64 * 65536)
}

// Set in order.
#[tactic(auto, using(codec::proofs::Answers::packable, sheet::proofs::Size::ordered_size))]
#[unsafe(no_mangle)]
pub extern "C" fn bend_normalize(sheet: &[u8], out: &mut [u8]) -> u64
    ensures answer { result ≡ packed (written (ordered sheet.now) out.old) }
    ensures bytes { out.new ≡ (written (ordered sheet.now) out.old).bytes }
{
    pack(sheet_writer::normalize(sheet, out))
}

// An edit.
#[tactic(auto, using(codec::proofs::Answers::packable, edit::proofs::Size::edited_size))]
fn pack_edit(sheet: &[u8], e: Edit, out: &mut [u8]) -> u64
    ensures answer { result ≡ packed (written (edited (edit_of e) sheet.now) out.old) }
    ensures bytes { out.new ≡ (written (edited (edit_of e) sheet.now) out.old).bytes }
{
    pack(edit::edit(sheet, e, out))
}

// Add a corner on a side.
#[unsafe(no_mangle)]
pub extern "C" fn bend_add_ear(sheet: &[u8], side: usize, out: &mut [u8]) -> u64
    ensures answer { result ≡ packed (written (edited (add_ear side) sheet.now) out.old) }
    ensures bytes { out.new ≡ (written (edited (add_ear side) sheet.now) out.old).bytes }
{
    pack_edit(sheet, Edit::AddEar(side), out)
}

// Take off a corner.
#[unsafe(no_mangle)]
pub extern "C" fn bend_remove_ear(sheet: &[u8], corner: usize, out: &mut [u8]) -> u64
    ensures answer { result ≡ packed (written (edited (remove_ear corner) sheet.now) out.old) }
    ensures bytes { out.new ≡ (written (edited (remove_ear corner) sheet.now) out.old).bytes }
{
    pack_edit(sheet, Edit::RemoveEar(corner), out)
}

// Turn a diagonal, named in either order.
#[unsafe(no_mangle)]
pub extern "C" fn bend_flip(sheet: &[u8], a: usize, b: usize, out: &mut [u8]) -> u64
    ensures answer { result ≡ packed (written (edited (flip a b) sheet.now) out.old) }
    ensures bytes { out.new ≡ (written (edited (flip a b) sheet.now) out.old).bytes }
{
    pack_edit(sheet, Edit::Flip(a, b), out)
}

// Join the second part to the first along a side of the first.
#[tactic(auto, using(codec::proofs::Answers::packable, seam::proofs::Answers::joined_size))]
#[unsafe(no_mangle)]
pub extern "C" fn bend_join(first: &[u8], second: &[u8], side: usize, out: &mut [u8]) -> u64
    ensures answer { result ≡ packed (written (joined_sheets first.now second.now side) out.old) }
    ensures bytes { out.new ≡ (written (joined_sheets first.now second.now side) out.old).bytes }
{
    pack(seam::join(first, second, side, out))
}

// The answer with two outputs in one number.
fn pack_both(answer: Result<(usize, usize), Refusal>) -> u64
    requires { BothPackable answer }
    ensures { (out ys : List ℕ) → result ≡ packed_both (answered_both answer out ys) }
{
    answer.map_or_else(refused, |(k, m)| k as u64 * 65536 + m as u64 * 4294967296)
}

// Cut along the diagonal between a and b, named in either order.
#[tactic(auto, using(codec::proofs::TwoOutputs::packable_both, cut::proofs::Answers::cut_sizes))]
#[unsafe(no_mangle)]
pub extern "C" fn bend_cut(
    sheet: &[u8],
    a: usize,
    b: usize,
    inner: &mut [u8],
    rest: &mut [u8],
) -> u64
    ensures answer { result ≡ packed_both (written_both (cut_sheet sheet.now a b) inner.old rest.old) }
    ensures inner { inner.new ≡ (written_both (cut_sheet sheet.now a b) inner.old rest.old).answer.bytes }
    ensures rest { rest.new ≡ (written_both (cut_sheet sheet.now a b) inner.old rest.old).second }
{
    pack_both(cut::cut(sheet, a, b, inner, rest))
}

// The answer of a list of edits in one number.
#[tactic(auto, using(edit_list::proofs::Packed::packed_first, edit_list::proofs::Packed::packed_buffer, edit_list::proofs::Packed::packed_no_run))]
fn pack_run(answer: Result<Left, Refusal>) -> u64
    requires { Tellable answer }
    ensures { (front back outs : List ℕ) → result ≡ packed_run (ran_of answer front back outs) }
{
    answer.map_or_else(refused, |left| match left.place {
        Place::First => 0,
        Place::Front => 65536 + left.size as u64 * 4294967296,
        Place::Back => 131072 + left.size as u64 * 4294967296,
    })
}

// A list of edits, run over two buffers; the number of each edit is written to `numbers`, in two bytes.
#[unsafe(no_mangle)]
pub extern "C" fn bend_run_edits(
    first: &[u8],
    list: &[u8],
    front: &mut [u8],
    back: &mut [u8],
    numbers: &mut [u8],
) -> u64
    ensures answer { result
        ≡ packed_run (result_of first.now list.now front.old back.old numbers.old) }
    ensures front { front.new
        ≡ (result_of first.now list.now front.old back.old numbers.old).front }
    ensures back { back.new
        ≡ (result_of first.now list.now front.old back.old numbers.old).back }
    ensures numbers { numbers.new
        ≡ (result_of first.now list.now front.old back.old numbers.old).outs }
{
    pack_run(edit_list::run(first, list, front, back, numbers))
}

// The answer of Plan in one number.
fn pack_plan(answer: Result<Totals, Refusal>) -> u64
    ensures { result ≡ packed_plan (planned_of answer) }
{
    answer.map_or_else(refused, |t| {
        u64::from(t.levels) * 65536
            + u64::from(t.umbrellas) * 4294967296
            + u64::from(t.stems) * 281474976710656
    })
}

// Plan.
#[unsafe(no_mangle)]
pub extern "C" fn bend_plan(sheet: &[u8]) -> u64
    ensures { result ≡ packed_plan (planned sheet.now) }
{
    pack_plan(plan::plan(sheet))
}

// Draw, without the bar list.
#[tactic(auto, using(codec::proofs::Answers::packable, draw::proofs::Size::drawn_size))]
#[unsafe(no_mangle)]
pub extern "C" fn bend_draw(sheet: &[u8], out: &mut [u8]) -> u64
    ensures answer { result ≡ packed (written (drawn sheet.now) out.old) }
    ensures bytes { out.new ≡ (written (drawn sheet.now) out.old).bytes }
{
    pack(draw::draw(sheet, out))
}

// Draw on a label, without the bar list.
#[tactic(auto, using(codec::proofs::Answers::packable, draw::proofs::Size::labelled_size))]
#[unsafe(no_mangle)]
pub extern "C" fn bend_draw_label(sheet: &[u8], out: &mut [u8]) -> u64
    ensures answer { result ≡ packed (written (labelled sheet.now) out.old) }
    ensures bytes { out.new ≡ (written (labelled sheet.now) out.old).bytes }
{
    pack(draw::draw_label(sheet, out))
}

// Read a chart.
#[tactic(auto, using(codec::proofs::Answers::packable, chart_reader::proofs::Size::chart_read_size))]
#[unsafe(no_mangle)]
pub extern "C" fn bend_read_chart(chart: &[u8], out: &mut [u8]) -> u64
    ensures answer { result ≡ packed (written (chart_read chart.now) out.old) }
    ensures bytes { out.new ≡ (written (chart_read chart.now) out.old).bytes }
{
    pack(chart_reader::read_chart(chart, out))
}

// The answer of the nearest bar in one number.
fn pack_found(answer: Result<Option<usize>, Refusal>) -> u64
    requires { value_of (followed_of answer).found < 281474976710656 }
    ensures { result ≡ packed_found (followed_of answer) }
{
    answer.map_or_else(refused, |found| found.map_or(0, |x| (x as u64 + 1) * 65536))
}

// The nearest bar: the corner of the bar nearest the first of two cells of a row or column of a chart.
#[tactic(auto, using(chart_reader::proofs::Following::found_small))]
#[unsafe(no_mangle)]
pub extern "C" fn bend_nearest_bar(
    chart: &[u8],
    row: usize,
    column: usize,
    to_row: usize,
    to_column: usize,
) -> u64
    ensures { result ≡ packed_found (nearest_bar chart.now (cell row column, cell to_row to_column)) }
{
    let p = Cell { row, column };
    let q = Cell {
        row: to_row,
        column: to_column,
    };
    pack_found(chart_reader::follow::nearest_bar(chart, p, q))
}
