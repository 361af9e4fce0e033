// The table of a docket.
use few::Few;
use verdict::limits::{MAX_OBJECTIVES, MAX_ROWS};
use verdict::verdict::Weights;

mod mixtures;
mod pairs;
mod rows;

// The weights of a pricing, and the point that its sweep reached: a part in grains for each objective.
#[derive(Clone, Copy)]
pub struct TableRow {
    pub weights: Weights,
    pub point: [i64; MAX_OBJECTIVES],
}

// Up to sixteen rows, in the order in which they were added.
#[derive(Drop)]
pub struct RowTable {
    rows: Few<TableRow, MAX_ROWS>,
}
