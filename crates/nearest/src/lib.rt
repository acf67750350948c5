// The bars of a chart in order, and the bar nearest a cell.
// bars.rt tests the rule of bars, order.rt puts them in order, question.rt asks for the bar nearest a cell.
// The definitions that the contracts cite are in specs/: Cells.antt and Nearest.antt have the question, BarRule.antt the rule,
// crate chart's Decode.antt the bytes, Held.antt and Order.antt how the code holds bars.
#![tactic(auto)]

pub mod bars;
pub mod order;
pub mod question;

// A cell of a chart.
#[derive(Clone, Copy)]
pub struct Cell {
    pub row: usize,
    pub column: usize,
}

// The bar of a corner: the addresses of its first and last cells (question.rt), and the corner.
#[derive(Clone, Copy)]
pub struct Span {
    pub first: u32,
    pub last: u32,
    pub corner: u16,
}

// The span that a table holds before it is filled.
pub const BLANK: Span = Span {
    first: 0,
    last: 0,
    corner: 0,
};
