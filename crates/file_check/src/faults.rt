// Why a file is refused.
ghost use Rattle.std.specs.Prelude.{◌≡◌, codes};
ghost use Rattle.file_check.specs.Numbers.{cause_number};

use fault::{Cause, Fault};

#[derive(Clone, Copy, PartialEq, Eq, Debug)]
pub enum FileCause {
    Size = 1,
    Header = 2,
    Pair = 3,
    Field = 4,
    Sum = 5,
}

pub type FileFault = Fault<FileCause>;

impl Cause for FileCause {
    ghost word = { codes "file" };

    ghost numbered = { cause_number };

    fn layer() -> &'static str {
        "file"
    }

    fn number(&self) -> u8 {
        *self as u8
    }
}
