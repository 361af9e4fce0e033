// Settling: the pricings and the mix that look for a verdict on two objectives.
ghost use Rattle.std.specs.Prelude.{◌≡◌, ◌*◌, ◌≤◌, length, fold};
ghost use Rattle.truth.specs.Dockets.{is_open, mixed, settle_mixes, settled};
ghost use Rattle.truth.specs.Calls.{settle, refusal, after, if_taken};
ghost use Rattle.verdict.specs.Answers.{told, told_docket, answered};
ghost use Rattle.verdict.specs.Numbers.{docket_number};
ghost use Rattle.verdict.specs.Verdicts.{verdict_of};
ghost use Rattle.docket.specs.Views.{view};
ghost use Rattle.docket.specs.Settling.{settled_rows};

use crate::docket::Docket;
use fault::Cause;
use mdp::Model;
use plans::Row;
use verdict::faults::{DocketCause, DocketFault};
use verdict::verdict::{Event, Verdict};

// A docket of two objectives while it is settled, and working rows enough for its pricings.
#[derive(Drop)]
struct Settling<'a, M: Model> {
    docket: &'a mut Docket<M>,
    rows: &'a mut [Row],
    ghost lent: { 2 * length (M.Model.table docket.now.model).states ≤ length rows.now },
    ghost two: { length (view docket.now).objectives ≡ 2 },
}

impl<'a, M: Model> Settling<'a, M> {
    ghost use Rattle.truth.specs.Dockets.{toward};
    ghost use Rattle.docket.specs.Stages.{stage, Room, brings, after_price, after_prices, bisections, prices_on, priced_anew};

    // Prices toward the first objective by some weight of 1000, and answers whether its target is brought.
    fn price_toward(&mut self, first: u16) -> bool
        requires room { Room (stage self.old) 1 }
        requires small { first ≤ 1000 }
        ensures answer { result ≡ brings (stage self.old) first }
        ensures after { stage self.new ≡ after_price (stage self.old) (toward first) }
    {
        let target = self.docket.objectives()[0].target;
        let price = self
            .docket
            .price(&[first, 1000 - first], self.rows)
            .unwrap();
        target <= price.point[0]
    }

    // Halves the weights between those that bring the first target and those that do not; each follows from the one before.
    fn bisect(&mut self)
        requires room { Room (stage self.old) (length (bisections (stage self.old))) }
        ensures { stage self.new ≡ after_prices (stage self.old) (bisections (stage self.old)) }
    {
        let mut low: u16 = 0;
        let mut high: u16 = 1000;
        while high - low > 1 && self.docket.is_open() {
            let middle = (low + high) / 2;
            if self.price_toward(middle) {
                high = middle;
            } else {
                low = middle;
            }
        }
    }

    // Prices the other end and then between, while the docket is open.
    fn price_on(&mut self)
        requires room { Room (stage self.old) (length (prices_on (stage self.old))) }
        ensures { stage self.new ≡ after_prices (stage self.old) (prices_on (stage self.old)) }
    {
        if self.docket.is_open() {
            self.price_toward(1000);
            self.bisect();
        }
    }

    // Clears the docket and makes all pricings of a settle.
    fn price_anew(&mut self)
        ensures { stage self.new ≡ priced_anew (stage self.old) }
    {
        self.docket.clear();
        self.price_toward(0);
        self.price_on();
    }
}

impl<M: Model> Docket<M> {
    fn is_open(&self) -> bool
        ensures { result ≡ is_open (view self.now).verdict }
    {
        matches!(self.verdict, Verdict::Open)
    }

    // The verdict once the first pair of rows that brings every target is mixed, if there is one and the docket is open.
    fn judge_pairs(&self) -> Verdict
        ensures { record (view self.now) { verdict = verdict_of result } ≡ fold mixed (view self.now) (settle_mixes (view self.now)) }
    {
        if !self.is_open() {
            return self.verdict;
        }
        let found = self.table.find_pair(&self.objectives);
        self.verdict.after(Event::Mixed(found))
    }

    fn check_settle(&self, lent: usize) -> Result<(), DocketFault>
        ensures { told_docket result ≡ answered (refusal (M.Model.table self.now.model) (view self.now) (settle lent)) tt }
    {
        self.check_lent(lent)?;
        let objectives = self.objectives.as_slice().len();
        if objectives != 2 {
            return Err(DocketCause::Settle.at(objectives));
        }
        Ok(())
    }

    // Clears a docket of two objectives and looks for a verdict: both ends are priced, then weights in between, halving
    // toward the first target, until one refutes; if none does, pairs of rows are mixed by thousandths.
    pub fn settle(&mut self, rows: &mut [Row]) -> Result<Verdict, DocketFault>
        ensures answer { told docket_number verdict_of result ≡ answered (refusal (M.Model.table self.old.model) (view self.old) (settle (length rows.old))) (settled (M.Model.table self.old.model) (view self.old)).verdict }
        ensures after { view self.new ≡ after (M.Model.table self.old.model) (view self.old) (settle (length rows.old)) }
        ensures rows { rows.new ≡ if_taken (refusal (M.Model.table self.old.model) (view self.old) (settle (length rows.old))) (settled_rows (M.Model.table self.old.model) (view self.old) rows.old) rows.old }
        ensures model { self.new.model ≡ self.old.model }
    {
        self.check_settle(rows.len())?;
        Settling { docket: self, rows }.price_anew();
        self.verdict = self.judge_pairs();
        Ok(self.verdict)
    }
}
