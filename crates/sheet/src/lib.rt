// The sheet, reading it with its refusals (reader.rt), and a part in hand (part.rt). The crate sheet_writer writes it in normal order.
// The definitions that the contracts cite are in specs/: Sheet.antt says what a sheet is, Held.antt what the code answers, Hand.antt how it holds a part.
#![tactic(auto)]

pub mod part;
pub mod reader;

// How long the longest sheet is: 1,024 corners, with the four bytes of bit 2 and with angles (`longest` in specs/Sheet.antt).
pub const LONGEST: usize = 6133;

// A part but for its diagonals: how many corners it has, and whether it has angles.
#[derive(Clone, Copy)]
pub struct Head {
    pub n: usize,
    pub angled: bool,
}
