// An encoded list of edits, run over two lent buffers (specs/Script.antt has the encoding and its refusals, specs/Desk.antt the state while it runs).
// Each edit reads the sheet that the last taken one wrote, or the first sheet, and writes the buffer in which that sheet does not lie.
#![tactic(auto)]

ghost use Rattle.std.specs.Prelude.{◌≡◌, true, false, ◌*◌, ◌≤◌, length};
ghost use Rattle.polygon.specs.Polygon.{Polygon};
ghost use Rattle.sheet.specs.Sheet.{read_sheet, held};
ghost use Rattle.edit.specs.Tables.{edit_of};
ghost use Rattle.edit_list.specs.Script.{count, edit_at, edit_by, script_of, Kinds, Rooms};
ghost use Rattle.edit_list.specs.Desk.{answer_of, begin, other, desk_after, desk_step, numbers_of};
ghost use Rattle.edit_list.specs.Result.{AsModel, numbered, place_number, ran_of, result_of};
ghost use Rattle.edit_list.specs.Steps.{desk_by, desk_in, number_after, SheetLies, Spacious, Lent};

use codec::{Refusal, get32, put16};
use edit::edit;
use edit::held::Edit;

// How many bytes an edit of a list has.
const EDIT: usize = 13;

// Where a sheet lies: it is the first sheet, or it stands in the front or the back buffer.
#[derive(Clone, Copy, Debug, PartialEq, Eq)]
pub enum Place {
    First,
    Front,
    Back,
}

impl Place {
    // The buffer that an edit writes which reads the sheet here.
    fn other(self) -> Place
        ensures { place_number result ≡ other (place_number self) }
    {
        match self {
            Place::Front => Place::Back,
            Place::First | Place::Back => Place::Front,
        }
    }
}

// The sheet left, which the next edit reads: where it lies, and its length.
#[derive(Clone, Copy, Debug, PartialEq, Eq)]
pub struct Left {
    pub place: Place,
    pub size: usize,
}

// Whether each kind is known.
fn kinds_known(list: &[u8]) -> bool
    ensures { (result ≡ true → Kinds list.now) × (result ≡ false → ¬ Kinds list.now) }
{
    list.chunks_exact(EDIT).all(|edit| edit[0] <= 2)
}

// Whether each length to lend is at most `front` and at most `back`.
fn rooms_fit(list: &[u8], front: usize, back: usize) -> bool
    ensures { (result ≡ true → Rooms list.now front back) × (result ≡ false → ¬ Rooms list.now front back) }
{
    let most = front.min(back);
    list.chunks_exact(EDIT).all(|edit| get32(edit, 9) <= most)
}

// An edit by its kind and its numbers.
fn edit_by(kind: u8, a: usize, b: usize) -> Edit
    ensures { edit_of result ≡ edit_by kind a b }
{
    match kind {
        0 => Edit::AddEar(a),
        1 => Edit::RemoveEar(a),
        _ => Edit::Flip(a, b),
    }
}

// An edit, and the length that it lends, by its bytes.
fn edit_in(bytes: &[u8]) -> (Edit, usize)
    requires { 13 ≤ length bytes.now }
    ensures { (edit_of result.0, result.1) ≡ edit_at bytes.now 0 }
{
    let e = edit_by(bytes[0], get32(bytes, 1), get32(bytes, 5));
    (e, get32(bytes, 9))
}

// One edit, from the sheet left to the buffer in which it does not lie.
fn lend(
    first: &[u8],
    front: &mut [u8],
    back: &mut [u8],
    left: Left,
    e: Edit,
    room: usize,
) -> Result<usize, Refusal>
    requires lies { SheetLies (desk_by left front.old back.old) }
    requires room { Spacious room (desk_by left front.old back.old) }
    ensures { Lent first.now (desk_by left front.old back.old) (edit_of e, room) result front.new back.new }
{
    match left.place {
        Place::First => edit(first, e, &mut front[..room]),
        Place::Front => edit(&front[..left.size], e, &mut back[..room]),
        Place::Back => edit(&back[..left.size], e, &mut front[..room]),
    }
}

// What a list of edits runs over: the first sheet, the two lent buffers, and the sheet left.
#[derive(Drop)]
struct Desk<'a, 'b, 'c> {
    first: &'a [u8],
    front: &'b mut [u8],
    back: &'c mut [u8],
    left: Left,
}

impl Desk<'_, '_, '_> {
    // Does an edit, given by its bytes, unless it is refused.
    fn step(&mut self, bytes: &[u8]) -> Result<(), Refusal>
        requires listed { 13 ≤ length bytes.now }
        requires lies { SheetLies (desk_in self.old) }
        requires room { Spacious (edit_at bytes.now 0).1 (desk_in self.old) }
        ensures desk { desk_in self.new ≡ desk_step self.old.first.now (desk_in self.old) (edit_at bytes.now 0) }
        ensures number { number_after result ≡ (answer_of self.old.first.now (desk_in self.old) (edit_at bytes.now 0)).number }
        ensures same_first { self.new.first.now ≡ self.old.first.now }
        ensures same_front { self.new.front.ghost_name ≡ self.old.front.ghost_name }
        ensures same_back { self.new.back.ghost_name ≡ self.old.back.ghost_name }
    {
        let (e, room) = edit_in(bytes);
        let front = &mut *self.front;
        let back = &mut *self.back;
        let size = lend(self.first, front, back, self.left, e, room)?;
        self.left = Left {
            place: self.left.place.other(),
            size,
        };
        Ok(())
    }
}

// All edits of a list that passed the tests.
fn run_all(first: &[u8], list: &[u8], front: &mut [u8], back: &mut [u8], numbers: &mut [u8]) -> Left
    requires rooms { Rooms list.now (length front.old) (length back.old) }
    requires numbers { count list.now * 2 ≤ length numbers.old }
    ensures desk { desk_by result front.new back.new
        ≡ desk_after first.now (begin first.now front.old back.old) (script_of list.now) }
    ensures numbers { numbers.new
        ≡ numbered (numbers_of first.now (begin first.now front.old back.old)
        (script_of list.now)) numbers.old }
{
    let left = Left {
        place: Place::First,
        size: first.len(),
    };
    let mut desk = Desk {
        first,
        front,
        back,
        left,
    };
    for (i, bytes) in list.chunks_exact(EDIT).enumerate() {
        let number = match desk.step(bytes) {
            Ok(()) => 0,
            Err(refusal) => usize::from(refusal.number()),
        };
        put16(numbers, i * 2, number);
    }
    desk.left
}

// Runs a list of edits from the sheet `first`. The number of each edit, 0 if it was taken, is written to `numbers`, in two bytes.
pub fn run(
    first: &[u8],
    list: &[u8],
    front: &mut [u8],
    back: &mut [u8],
    numbers: &mut [u8],
) -> Result<Left, Refusal>
    ensures answer { ran_of result front.new back.new numbers.new
        ≡ result_of first.now list.now front.old back.old numbers.old }
    ensures model { (p : Polygon) → read_sheet first.now ≡ held p
        → (ran_of result front.new back.new numbers.new).number ≡ 0
        → AsModel first.now p list.now numbers.old (ran_of result front.new back.new numbers.new) }
{
    if list.len() % EDIT != 0 {
        return Err(Refusal::ListLength);
    }
    if !kinds_known(list) {
        return Err(Refusal::Kind);
    }
    if numbers.len() < list.len() / EDIT * 2 {
        return Err(Refusal::NumbersRoom);
    }
    if !rooms_fit(list, front.len(), back.len()) {
        return Err(Refusal::Lending);
    }
    Ok(run_all(first, list, front, back, numbers))
}
