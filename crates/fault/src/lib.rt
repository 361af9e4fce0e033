// Why a call was refused.
#![tactic(auto)]

ghost use Rattle.std.specs.Prelude.{◌≡◌, ℕ, List, Some};
ghost use Rattle.fault.specs.Texts.{fault_text};

use std::fmt;

// The causes of one layer: each has a number, and the layer a word.
// The numbers are an enum's discriminants, and each impl says so by `as`: no `From` reads a discriminant, and a derive of
// the repository's own is refused.
pub trait Cause {
    ghost word: { List ℕ };

    ghost numbered: { Self → ℕ };

    fn layer() -> &'static str
        ensures { result.now ≡ word };

    fn number(&self) -> u8
        ensures { result ≡ numbered self.now };

    // The fault with this cause at a place.
    final fn at(self, place: usize) -> Fault<Self>
    where
        Self: Sized,
        ensures { result ≡ record { cause = self; place = place } }
    {
        Fault { cause: self, place }
    }
}

// A cause, and the place where it was found.
#[derive(Clone, Copy, PartialEq, Eq, Debug)]
pub struct Fault<C> {
    pub cause: C,
    pub place: usize,
}

impl<C: Cause> fmt::Display for Fault<C> {
    ghost output = { λ f. Some (fault_text C.Cause.word (C.Cause.numbered f.cause) f.place) };

    fn fmt<W: fmt::Write>(&self, f: &mut fmt::Formatter<W>) -> fmt::Result {
        let layer = C::layer();
        let number = self.cause.number();
        let place = self.place;
        write!(f, "{layer} {number} {place}")
    }
}
