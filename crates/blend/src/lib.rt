// Blends: one number from the weighted amounts of a choice's branches.
#![tactic(auto)]

ghost use Rattle.std.specs.Prelude.{◌≡◌, ℕ, ◌+◌, ◌*◌, ◌<◌, ◌≤◌, List, ℤ, pos, unsigned_abs, refl};
ghost use Rattle.std.proofs.Common.{zero-le};
ghost use Rattle.mdp.specs.Limits.{max_divisor};
ghost use Rattle.plans.specs.Blends.{Weighed, Mean, running, Lawful, mean_of, more_by, floor_div, ceiling_div};
ghost use Rattle.plans.proofs.Amounts.{more_within};
ghost use Rattle.plans.proofs.Means.{means_lawful};
ghost use Rattle.blend.specs.Running.{max_amount, MayAdd, MayFinish, Bounded};

use std::marker::PhantomData;

pub trait Blend {
    type Running: Drop;

    ghost none: { Self.Running };

    ghost more: { Self.Running → ℕ → ℤ → Self.Running };

    ghost outcome: { Self.Running → ℕ → ℤ };

    // what the running amounts come to
    ghost mean: { Mean };

    ghost means: { (xs : List Weighed) (d : ℕ) → outcome (running more none xs) d ≡ mean xs d };

    ghost lawful: { Lawful mean };

    // what a running amount may be once the weights so far add up to a number
    ghost after: { Self.Running → ℕ → Type 0 };

    ghost starts: { after none 0 };

    ghost adds: { (r : Self.Running) (n w : ℕ) (a : ℤ) → after r n → n + w ≤ max_divisor → unsigned_abs a ≤ max_amount → after (more r w a) (n + w) };

    fn start() -> Self::Running
        ensures { result ≡ none };

    fn add(running: Self::Running, weight: u16, amount: i64) -> Self::Running
        requires { MayAdd after running weight amount }
        ensures { result ≡ more running weight amount };

    fn finish(running: Self::Running, divisor: u16) -> i64
        requires { MayFinish after running divisor }
        ensures { result ≡ outcome running divisor };
}

// How a sum of weighted amounts is divided by the sum of their weights.
trait Rounding {
    ghost divided: { ℤ → ℕ → ℤ };

    ghost lawful: { Lawful (mean_of (pos 0) more_by divided) };

    fn divide(sum: i64, divisor: u16) -> i64
        requires small { unsigned_abs sum ≤ max_divisor * max_amount }
        requires positive { 0 < divisor }
        ensures { result ≡ divided sum divisor };
}

fn floor_divided(sum: i64, divisor: u16) -> i64
    requires { 0 < divisor }
    ensures value { result ≡ floor_div sum divisor }
    ensures size { unsigned_abs result ≤ unsigned_abs sum }
{
    sum.div_euclid(i64::from(divisor))
}

pub struct Floor {}

impl Rounding for Floor {
    ghost divided = { floor_div };

    ghost lawful = { means_lawful.1 };

    fn divide(sum: i64, divisor: u16) -> i64 {
        floor_divided(sum, divisor)
    }
}

pub struct Ceiling {}

impl Rounding for Ceiling {
    ghost divided = { ceiling_div };

    ghost lawful = { means_lawful.0 };

    fn divide(sum: i64, divisor: u16) -> i64 {
        -floor_divided(-sum, divisor)
    }
}

// The mean of the amounts by their weights.
pub struct WeightedMean<R> {
    rounding: PhantomData<R>,
}

// The mean, rounded up.
pub type Up = WeightedMean<Ceiling>;

// The mean, rounded down.
pub type Down = WeightedMean<Floor>;

impl<R: Rounding> Blend for WeightedMean<R> {
    type Running = i64;

    ghost none = { pos 0 };

    ghost more = { more_by };

    ghost outcome = { R.Rounding.divided };

    ghost mean = { mean_of (pos 0) more_by R.Rounding.divided };

    ghost means = { λ xs d. refl };

    ghost lawful = { R.Rounding.lawful };

    ghost after = { Bounded };

    ghost starts = { zero-le };

    ghost adds = { λ r n w a h room small. more_within max_amount r n w a h small };

    fn start() -> i64 {
        0
    }

    fn add(running: i64, weight: u16, amount: i64) -> i64 {
        running + i64::from(weight) * amount
    }

    fn finish(running: i64, divisor: u16) -> i64 {
        R::divide(running, divisor)
    }
}
