// A few items, kept in place.
#![tactic(auto)]

ghost use Rattle.std.specs.Prelude.{◌≡◌, ◌≤◌, length};

use std::alloc::AllocError;

mod list;

// Up to N items, in the order in which they were put in.
pub struct Few<T, const N: usize> {
    each: [T; N],
    count: usize,
    ghost whole: { length each ≡ N },
    ghost within: { count ≤ N },
}

// By hand: a derive makes no `Clone` of a generic struct with ghost fields.
impl<T: Copy, const N: usize> Copy for Few<T, N> {}

impl<T: Copy, const N: usize> Clone for Few<T, N> {
    ghost is_clone = { λ few copy. copy ≡ few };

    ghost is_infallible = { λ _. Unit {0} };

    fn clone(&self) -> Result<Few<T, N>, AllocError> {
        Ok(*self)
    }
}
