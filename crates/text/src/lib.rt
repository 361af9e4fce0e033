// A short text that is made in place.
#![tactic(auto)]

ghost use Rattle.std.specs.Prelude.{◌≡◌, [], ◌++◌, length, drop, if◌then◌else◌, Some, None, decimal, nat_le};
ghost use Rattle.std.specs.Fmt.{signed_decimal};
ghost use Rattle.text.specs.Texts.{text_of, followed_by};

use few::Few;

pub const MAX_TEXT: usize = 64;

#[derive(Clone, Copy)]
pub struct Text {
    bytes: Few<u8, MAX_TEXT>,
}

impl Text {
    pub fn new() -> Text
        ensures { text_of result ≡ [] }
    {
        Text {
            bytes: Few::empty(0),
        }
    }

    // Bytes that find no room are left out.
    pub fn push_str(&mut self, word: &str)
        ensures { text_of self.new ≡ followed_by (text_of self.old) word.now }
    {
        self.bytes.extend_from_slice(word.as_bytes());
    }

    // Digits that find no room are left out. `as` loses nothing: the last digit is below ten.
    pub fn push_decimal(&mut self, number: u64)
        ensures { text_of self.new ≡ followed_by (text_of self.old) (decimal number) }
    {
        if number >= 10 {
            self.push_decimal(number / 10);
        }
        self.bytes.extend_from_slice(&[b'0' + (number % 10) as u8]);
    }

    // Behind a sign where it is below zero.
    pub fn push_signed(&mut self, number: i64)
        ensures { text_of self.new ≡ followed_by (text_of self.old) (signed_decimal number) }
    {
        if number < 0 {
            self.push_str("-");
        }
        self.push_decimal(number.unsigned_abs());
    }

    pub fn as_slice(&self) -> &[u8]
        ensures { result.now ≡ text_of self.now }
    {
        self.bytes.as_slice()
    }

    // Writes the text at the front of `out` and answers its length, or writes nothing where it does not fit.
    pub fn write_to(&self, out: &mut [u8]) -> Option<usize>
        ensures answer { result ≡ (if nat_le (length (text_of self.now)) (length out.old) then Some (length (text_of self.now)) else None) }
        ensures out { out.new ≡ (if nat_le (length (text_of self.now)) (length out.old) then text_of self.now ++ drop (length (text_of self.now)) out.old else out.old) }
    {
        let text = self.as_slice();
        let (front, _) = out.split_at_mut_checked(text.len())?;
        front.copy_from_slice(text);
        Some(text.len())
    }
}
