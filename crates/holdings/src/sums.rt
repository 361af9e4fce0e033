// Sums of a few numbers.
ghost use Rattle.std.specs.Prelude.{◌≡◌, ◌^◌, ◌≤◌, length, sum, unsigned_abs};
ghost use Rattle.plans.specs.Totals.{◌·◌};

// A number of times an amount in grains.
pub(crate) fn scaled(times: u16, amount: i64) -> i128
    ensures is { result ≡ times · amount }
    ensures near { unsigned_abs result ≤ 2 ^ 79 }
{
    i128::from(times) * i128::from(amount)
}

// The numbers together.
pub(crate) fn total(numbers: &[u16]) -> usize
    requires few { length numbers.now ≤ 16 }
    ensures { result ≡ sum numbers.now }
{
    numbers.iter().map(|number| usize::from(*number)).sum()
}
