// The operation Draw, for a tape and for a label: the chart of a sheet's part, and its bars in a lent list of records; and what the program does with its
// input (program.rt, line.rt). The columns and rows come from the crate drawing, the bytes from chart_writer, the records from bar_list.
// specs/Answer.antt says what the operation answers, specs/Label.antt the same with a limit of rows.
#![tactic(auto)]

ghost use Rattle.std.specs.Prelude.{◌≡◌, true, false, List, map, ℕ, ◌≤◌, length};
ghost use Rattle.polygon.specs.Tree.{Tree};
ghost use Rattle.codec.specs.Answer.{answered, written};
ghost use Rattle.codec.specs.TwoOutputs.{answered_both, written_both};
ghost use Rattle.keys.specs.Keys.{edges_of};
ghost use Rattle.sheet.specs.Sheet.{read_sheet};
ghost use Rattle.umbrella.specs.Best.{best};
ghost use Rattle.levels.specs.Kept.{Filled};
ghost use Rattle.chart.specs.Chart.{chart, closed, chart_of};
ghost use Rattle.chart.specs.declared.Bar.{Bar};
ghost use Rattle.chart.specs.Decode.{bar_of};
ghost use Rattle.draw.specs.Answer.{drawn, drawn_with_bars};
ghost use Rattle.draw.specs.Label.{Keeps, charted_both_within, labelled, labelled_with_bars};
ghost use Rattle.draw.specs.WithBars.{filled_by, RecordsFit};
ghost use Rattle.draw.specs.Charted.{limit_of, stopped, unless_stopped, Wrote};

use bar_list::fill_bars;
use chart::Bar;
use chart_writer::write_chart;
use codec::Refusal;
use drawing::closing::close;
use drawing::walk::COLUMNS;
use drawing::{Size, place};
use keys::{CORNERS, DIAGONALS};
use levels::Tables;
use sheet::part::Part;
use sheet::reader::read_sheet;

pub mod line;
pub mod program;

// The most rows that the chart of a label may have. A tape's may have any number: it has no limit.
const LABEL_ROWS: usize = 15;

// The answer for a chart, and how many columns and rows it has.
#[derive(Clone, Copy)]
struct Charted {
    written: Result<usize, Refusal>,
    size: Size,
}

// Whether so many rows keep a limit.
fn keeps(limit: Option<usize>, rows: usize) -> bool
    ensures yes { result ≡ true → Keeps (limit_of limit) rows }
    ensures no { result ≡ false → Keeps (limit_of limit) rows → ⊥ }
{
    limit.is_none_or(|most| rows <= most)
}

// What refuses a chart of so many rows and n bars before its bytes are written: the limit, and then the room for its bars.
fn stop(limit: Option<usize>, rows: usize, n: usize, room: usize) -> Option<Refusal>
    ensures { result ≡ stopped (limit_of limit) rows n room }
{
    let enough = n <= room;
    if !keeps(limit, rows) {
        return Some(Refusal::Rows);
    }
    if !enough {
        return Some(Refusal::Room);
    }
    None
}

// Writes the chart of the part of n corners whose tables are filled, if it keeps the limit, `room` records hold its bars and the output is long enough.
// Rows without bars are left out once everything has its place.
fn write_part(
    n: usize,
    tables: &Tables,
    limit: Option<usize>,
    room: usize,
    out: &mut [u8],
) -> Charted
    requires least { 3 ≤ n }
    requires filled { (t : Tree) × Filled n t tables.now.tree tables.now.depths tables.now.root }
    ensures { (t : Tree) → Filled n t tables.now.tree tables.now.depths tables.now.root
        → Wrote (limit_of limit) room (closed (chart (best t))) out.old out.new result }
{
    let mut columns = [0u16; COLUMNS];
    let mut rows = [0u16; CORNERS];
    let placed = place(n, tables, &mut columns, &mut rows);
    let w = placed.columns;
    let height = close(&mut rows[..n], placed.rows);
    let size = Size {
        columns: w,
        rows: height,
    };
    if let Some(why) = stop(limit, height, n, room) {
        return Charted {
            written: Err(why),
            size,
        };
    }
    Charted {
        written: write_chart(n, height, &tables.tree, &columns[..w], &rows, out),
        size,
    }
}

// Writes the chart of a part, by the keys of its diagonals, if nothing stops it.
fn draw_part(
    part: &Part,
    keys: &[u32],
    limit: Option<usize>,
    room: usize,
    out: &mut [u8],
) -> Result<usize, Refusal>
    requires { edges_of keys.now ≡ part.now.ds }
    ensures { answered result out.new
        ≡ written (unless_stopped (limit_of limit) room (chart_of part.now)) out.old }
{
    let n = part.head().n;
    let mut tables = Tables::new();
    tables.fill(keys, n);
    write_part(n, &tables, limit, room, out).written
}

// Writes the chart of a sheet, if it keeps the limit, the output is long enough and `room` records hold its bars: the one drawing behind all calls.
fn draw_within(
    sheet: &[u8],
    limit: Option<usize>,
    out: &mut [u8],
    room: usize,
) -> Result<(usize, usize), Refusal>
    ensures answer { (bars : List Bar) → length bars ≡ room
        → answered_both result out.new (map bar_of (filled_by result out.new bars))
        ≡ written_both (charted_both_within (limit_of limit) (read_sheet sheet.now)) out.old (map bar_of bars) }
    ensures fits { RecordsFit result room (length out.old) }
{
    let mut bends = [0u32; DIAGONALS];
    let mut keys = [0u32; DIAGONALS];
    let part = read_sheet(sheet, &mut bends, &mut keys)?;
    let n = part.head().n;
    let size = draw_part(&part, &keys[..n - 3], limit, room, out)?;
    Ok((size, n))
}

// Writes the chart of a sheet and fills the records of its bars, if it keeps the limit: the one drawing behind the calls with a bar list.
fn draw_bars(
    sheet: &[u8],
    limit: Option<usize>,
    out: &mut [u8],
    bars: &mut [Bar],
) -> Result<(usize, usize), Refusal>
    ensures { answered_both result out.new (map bar_of bars.new)
        ≡ written_both (charted_both_within (limit_of limit) (read_sheet sheet.now)) out.old (map bar_of bars.old) }
{
    let drawn = draw_within(sheet, limit, out, bars.len())?;
    fill_bars(out, drawn.1, bars);
    Ok(drawn)
}

// What may not change: the six calls below have the names that README.md and docs/DECISIONS.md give them; each is a thin call of the one drawing.
// The drawing of a sheet for a tape.
pub fn draw_for(sheet: &[u8], out: &mut [u8], room: usize) -> Result<(usize, usize), Refusal>
    ensures answer { (bars : List Bar) → length bars ≡ room
        → answered_both result out.new (map bar_of (filled_by result out.new bars))
        ≡ drawn_with_bars sheet.now out.old (map bar_of bars) }
    ensures fits { RecordsFit result room (length out.old) }
{
    draw_within(sheet, None, out, room)
}

// And for a label.
pub fn label_for(sheet: &[u8], out: &mut [u8], room: usize) -> Result<(usize, usize), Refusal>
    ensures answer { (bars : List Bar) → length bars ≡ room
        → answered_both result out.new (map bar_of (filled_by result out.new bars))
        ≡ labelled_with_bars sheet.now out.old (map bar_of bars) }
    ensures fits { RecordsFit result room (length out.old) }
{
    draw_within(sheet, Some(LABEL_ROWS), out, room)
}

// Draw, without the bar list: room for the bars of any part.
pub fn draw(sheet: &[u8], out: &mut [u8]) -> Result<usize, Refusal>
    ensures { answered result out.new ≡ written (drawn sheet.now) out.old }
{
    draw_for(sheet, out, CORNERS).map(|(size, _)| size)
}

// Draw on a label, without the bar list.
pub fn draw_label(sheet: &[u8], out: &mut [u8]) -> Result<usize, Refusal>
    ensures { answered result out.new ≡ written (labelled sheet.now) out.old }
{
    label_for(sheet, out, CORNERS).map(|(size, _)| size)
}

// Draw, with the bar list.
pub fn draw_with_bars(
    sheet: &[u8],
    out: &mut [u8],
    bars: &mut [Bar],
) -> Result<(usize, usize), Refusal>
    ensures { answered_both result out.new (map bar_of bars.new)
        ≡ drawn_with_bars sheet.now out.old (map bar_of bars.old) }
{
    draw_bars(sheet, None, out, bars)
}

// Draw on a label, with the bar list.
pub fn draw_label_with_bars(
    sheet: &[u8],
    out: &mut [u8],
    bars: &mut [Bar],
) -> Result<(usize, usize), Refusal>
    ensures { answered_both result out.new (map bar_of bars.new)
        ≡ labelled_with_bars sheet.now out.old (map bar_of bars.old) }
{
    draw_bars(sheet, Some(LABEL_ROWS), out, bars)
}
