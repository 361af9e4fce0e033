// Mixtures of two rows.
ghost use Rattle.std.specs.Prelude.{◌≡◌, ◌<◌, ◌≤◌, [], ◌∷◌, map, length, find};
ghost use Rattle.std.specs.Option.{option_map};
ghost use Rattle.truth.specs.Dockets.{suffice, paired, pairings};
ghost use Rattle.few.specs.Views.{listed};
ghost use Rattle.holdings.specs.Pairs.{shares_from, partner_shares};
ghost use Rattle.holdings.specs.Views.{held, row_of, table_of};

use crate::objectives::Objectives;
use crate::sums::scaled;
use crate::table::mixtures::Mixture;
use crate::table::{RowTable, TableRow};
use verdict::limits::MAX_ROWS;
use verdict::verdict::Shares;

// Two rows, the first with some share of 1000 and the second with the rest.
#[derive(Drop)]
struct Pair<'a> {
    rows: &'a [TableRow],
    first: usize,
    second: usize,
    share: u16,
    ghost few: { length rows.now ≤ 16 },
    ghost rising: { first < second },
    ghost inside: { second < length rows.now },
    ghost small: { share ≤ 1000 },
}

impl<'a> Mixture for Pair<'a> {
    ghost shares = { λ pair. paired (length pair.rows.now) pair.first pair.second pair.share };

    ghost table = { λ pair. map row_of pair.rows.now };

    fn together(&self) -> u16 {
        1000
    }

    fn part_sum(&self, part: usize) -> i128 {
        scaled(self.share, self.rows[self.first].part(part))
            + scaled(1000 - self.share, self.rows[self.second].part(part))
    }
}

impl<'a> Pair<'a> {
    // The shares of all rows: none of those that are not of the pair.
    fn shares(&self) -> Shares
        ensures { listed result ≡ paired (length self.now.rows.now) self.now.first self.now.second self.now.share }
    {
        let mut each = [0; MAX_ROWS];
        each[self.second] = 1000 - self.share;
        each[self.first] = self.share;
        Shares::of(&each[..self.rows.len()])
    }
}

// Two rows, one before the other.
#[derive(Drop)]
struct Partners<'a> {
    rows: &'a [TableRow],
    first: usize,
    second: usize,
    ghost few: { length rows.now ≤ 16 },
    ghost rising: { first < second },
    ghost inside: { second < length rows.now },
}

impl<'a> Partners<'a> {
    // The shares with some share of the first, where they bring every target.
    fn try_share(&self, objectives: &Objectives, share: u16) -> Option<Shares>
        requires small { share ≤ 1000 }
        ensures { option_map listed result ≡ find (suffice (held objectives.now) (map row_of self.now.rows.now)) (paired (length self.now.rows.now) self.now.first self.now.second share ∷ []) }
    {
        let pair = Pair {
            rows: self.rows,
            first: self.first,
            second: self.second,
            share,
        };
        if pair.is_enough(objectives) {
            Some(pair.shares())
        } else {
            None
        }
    }

    // The first shares of the two that bring every target.
    fn find_share(&self, objectives: &Objectives) -> Option<Shares>
        ensures { option_map listed result ≡ find (suffice (held objectives.now) (map row_of self.now.rows.now)) (shares_from (length self.now.rows.now) self.now.first self.now.second 0) }
    {
        (0..=1000).find_map(|share| self.try_share(objectives, share))
    }
}

// The first shares of a row and a later one that bring every target.
fn find_partner(rows: &[TableRow], objectives: &Objectives, first: usize) -> Option<Shares>
    requires few { length rows.now ≤ 16 }
    requires inside { first < length rows.now }
    ensures { option_map listed result ≡ find (suffice (held objectives.now) (map row_of rows.now)) (partner_shares (length rows.now) first) }
{
    (first + 1..rows.len()).find_map(
        |second|
            requires few { length rows.now ≤ 16 }
            requires rising { first < second }
            requires inside { second < length rows.now }
        {
            let partners = Partners {
                rows,
                first,
                second,
            };
            partners.find_share(objectives)
        },
    )
}

impl RowTable {
    // The first shares of two rows that bring every target, by the first row, then the second, then its share.
    pub fn find_pair(&self, objectives: &Objectives) -> Option<Shares>
        ensures { option_map listed result ≡ find (suffice (held objectives.now) (table_of self.now)) (pairings (length (table_of self.now))) }
    {
        let rows = self.as_slice();
        (0..rows.len()).find_map(|first| find_partner(rows, objectives, first))
    }
}
