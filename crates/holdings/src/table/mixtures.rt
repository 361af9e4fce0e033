// Mixtures of the rows of a table.
ghost use Rattle.std.specs.Prelude.{◌≡◌, ℕ, ◌≤◌, List, map, length, sum, ℤ, pos, slice_index_or};
ghost use Rattle.truth.specs.Dockets.{Priced, part_sum, suffice};
ghost use Rattle.holdings.specs.Views.{held, row_of};

use crate::objectives::Objectives;
use crate::sums::scaled;
use crate::table::TableRow;

impl TableRow {
    // A part of the point; 0 past the last.
    pub(super) fn part(&self, part: usize) -> i64
        ensures { result ≡ slice_index_or self.now.point part (pos 0) }
    {
        self.point.get(part).copied().unwrap_or(0)
    }
}

// Shares of the rows of a table.
pub(super) trait Mixture {
    ghost shares: { Self → List ℕ };

    ghost table: { Self → List Priced };

    // The shares together.
    fn together(&self) -> u16
        ensures { result ≡ sum (shares self.now) };

    // The sum over the rows of share × part.
    fn part_sum(&self, part: usize) -> i128
        ensures { result ≡ part_sum (shares self.now) (table self.now) part };

    // Whether the shares bring every target.
    final fn is_enough(&self, objectives: &Objectives) -> bool
        ensures { result ≡ suffice (held objectives.now) (table self.now) (shares self.now) }
    {
        let together = self.together();
        // Tried as a chain that ends in `all`: its proof did not close.
        for (part, objective) in objectives.as_slice().iter().enumerate() {
            if self.part_sum(part) < scaled(together, objective.target) {
                return false;
            }
        }
        true
    }
}

// Shares, one for each row.
#[derive(Drop)]
pub(super) struct Mix<'a> {
    pub rows: &'a [TableRow],
    pub shares: &'a [u16],
    pub together: u16,
    ghost few: { length rows.now ≤ 16 },
    ghost each: { length shares.now ≡ length rows.now },
    ghost added: { together ≡ sum shares.now },
}

impl<'a> Mixture for Mix<'a> {
    ghost shares = { λ mix. mix.shares.now };

    ghost table = { λ mix. map row_of mix.rows.now };

    fn together(&self) -> u16 {
        self.together
    }

    fn part_sum(&self, part: usize) -> i128 {
        let mut sum = 0;
        for (row, share) in self.rows.iter().zip(self.shares) {
            sum += scaled(*share, row.part(part));
        }
        sum
    }
}
