// The rows of a table.
ghost use Rattle.std.specs.Prelude.{◌≡◌, ◌<◌, ◌&&◌, ◌==◌, [], ◌∷◌, ◌++◌, length, if◌then◌else◌, sum, nat_lt, position};
ghost use Rattle.truth.specs.Dockets.{same, number, suffice};
ghost use Rattle.few.specs.Views.{listed};
ghost use Rattle.verdict.specs.Answers.{told_docket, answered};
ghost use Rattle.holdings.specs.Refusals.{shares_refusal, room_refusal};
ghost use Rattle.holdings.specs.Views.{held, rows_in, row_of, table_of};

use crate::objectives::Objectives;
use crate::sums::total;
use crate::table::mixtures::{Mix, Mixture};
use crate::table::{RowTable, TableRow};
use fault::Cause;
use few::Few;
use verdict::faults::{DocketCause, DocketFault};
use verdict::limits::{MAX_OBJECTIVES, MAX_ROWS, MAX_SHARES};
use verdict::verdict::Weights;

fn has_weights(row: &TableRow, weights: &Weights) -> bool
    ensures { result ≡ same (row_of row.now).weights (listed weights.now) }
{
    row.weights.as_slice() == weights.as_slice()
}

impl RowTable {
    pub fn empty() -> RowTable
        ensures { table_of result ≡ [] }
    {
        let blank = TableRow {
            weights: Weights::of(&[]),
            point: [0; MAX_OBJECTIVES],
        };
        RowTable {
            rows: Few::empty(blank),
        }
    }

    pub fn as_slice(&self) -> &[TableRow]
        ensures { result.now ≡ rows_in self.now }
    {
        self.rows.as_slice()
    }

    // The number of the row with these weights.
    fn find(&self, weights: &Weights) -> Option<usize>
        ensures { result ≡ position (λ r. same (row_of r).weights (listed weights.now)) (rows_in self.now) }
    {
        self.as_slice()
            .iter()
            .position(|row| has_weights(row, weights))
    }

    // The number of the row that these weights have or will have; refused where the table is full and has none.
    pub fn check_room(&self, weights: &Weights) -> Result<usize, DocketFault>
        ensures { told_docket result ≡ answered (room_refusal (table_of self.now) (listed weights.now)) (number (listed weights.now) (table_of self.now)) }
    {
        match self.find(weights) {
            Some(row) => Ok(row),
            None if self.rows.len() < MAX_ROWS => Ok(self.rows.len()),
            None => Err(DocketCause::Table.at(MAX_ROWS)),
        }
    }

    // Fills the next row, where `row` is its number and there is room.
    pub fn add(&mut self, row: usize, weights: Weights, point: [i64; MAX_OBJECTIVES])
        ensures { table_of self.new ≡ (if row == length (table_of self.old) && nat_lt row 16 then table_of self.old ++ (record { weights = listed weights; point = point } ∷ []) else table_of self.old) }
    {
        if row == self.rows.len() && row < MAX_ROWS {
            self.rows.push(TableRow { weights, point }).unwrap();
        }
    }

    // The shares of the rows together, from 1 to 1000.
    fn check_shares(&self, shares: &[u16]) -> Result<u16, DocketFault>
        ensures { told_docket result ≡ answered (shares_refusal (length (table_of self.now)) shares.now) (sum shares.now) }
    {
        if shares.len() != self.rows.len() {
            return Err(DocketCause::Shares.at(shares.len()));
        }
        match u16::try_from(total(shares)) {
            Ok(together) if (1..=MAX_SHARES).contains(&usize::from(together)) => Ok(together),
            _ => Err(DocketCause::Shares.at(0)),
        }
    }

    // Whether shares, one for each row and together from 1 to 1000, bring every target.
    pub fn judge(&self, objectives: &Objectives, shares: &[u16]) -> Result<bool, DocketFault>
        ensures { told_docket result ≡ answered (shares_refusal (length (table_of self.now)) shares.now) (suffice (held objectives.now) (table_of self.now) shares.now) }
    {
        let together = self.check_shares(shares)?;
        let mix = Mix {
            rows: self.as_slice(),
            shares,
            together,
        };
        Ok(mix.is_enough(objectives))
    }
}
