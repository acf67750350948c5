// Why an operation refuses, and the number by which it says so.
ghost use Rattle.std.specs.Prelude.{◌≡◌, ◌<◌};
ghost use Rattle.codec.specs.Numbered.{number_of};

// The refusals by their published numbers; include/bend.h says each in full.
#[derive(Clone, Copy, Debug, PartialEq, Eq)]
pub enum Refusal {
    // A sheet's.
    MapByte = 1,
    SheetLength = 2,
    CornerCount = 3,
    PairBit = 4,
    NoDiagonal = 5,
    RepeatedPair = 6,
    Crossing = 7,
    // A lent output is too short.
    Room = 8,
    // A call's and an edit's.
    OutOfRange = 9,
    TooManyCorners = 10,
    Triangle = 11,
    NoEar = 12,
    LacksDiagonal = 13,
    // A chart's.
    ChartForm = 14,
    Bars = 15,
    Strokes = 16,
    Gaps = 17,
    NoPart = 18,
    // A label's.
    Rows = 19,
    // A sheet's angles.
    Angles = 23,
    // A list of edits'.
    ListLength = 32,
    Kind = 33,
    NumbersRoom = 34,
    Lending = 35,
}

impl Refusal {
    // The published number.
    pub fn number(self) -> u16
        ensures number { result ≡ number_of self }
        ensures proper { 0 < result }
    {
        self as u16
    }
}
