// The first fault of a file.
ghost use Rattle.std.specs.Prelude.{◌≡◌, ℕ, ◌+◌, ◌*◌, ◌^◌, ◌<◌, ◌≤◌, length, OnOk};
ghost use Rattle.file_check.specs.Accepts.{Layout};
ghost use Rattle.file_check.specs.Order.{FirstFault};
ghost use Rattle.file_check.specs.Places.{pair_place};
ghost use Rattle.file_check.specs.Check.{word, header_of, header_at, pair_fits, pairs_at, field_at, reward_fits, rewards_at, branch_at, branches_at, branch_size, choice_at, choices_at, block_end, blocks_at, check_result};

use crate::faults::{FileCause, FileFault};
use fault::Cause;
use mdp::{MAX_BRANCHES, MAX_CHOICES, MAX_COLUMNS, MAX_DIVISOR, MAX_REWARD, MAX_STATES};
use std::ops::Range;

const MAX_FILE: usize = 65535;

// What a file's header says.
#[derive(Clone, Copy)]
struct Header {
    states: u16,
    first: u16,
    divisor: u16,
    columns: u8,
}

// The number in the two bytes at an offset.
// `file_model` has its own: a public function may not require the bytes to be there.
// `byteorder` reads the same from `&bytes[at..]`, which is no plainer.
fn word_at(bytes: &[u8], at: usize) -> u16
    requires { at + 1 < length bytes.now }
    ensures { result ≡ word bytes.now at }
{
    u16::from_le_bytes([bytes[at], bytes[at + 1]])
}

fn header_of(bytes: &[u8]) -> Header
    requires { 8 ≤ length bytes.now }
    ensures { result ≡ header_of bytes.now }
{
    Header {
        states: word_at(bytes, 0),
        first: word_at(bytes, 2),
        divisor: word_at(bytes, 4),
        columns: bytes[6],
    }
}

fn check_header(bytes: &[u8]) -> Result<Header, FileFault>
    requires { 8 ≤ length bytes.now }
    ensures { result ≡ header_at bytes.now }
{
    let header = header_of(bytes);
    if !(1..=MAX_STATES).contains(&usize::from(header.states)) {
        return Err(FileCause::Header.at(0));
    }
    if header.first >= header.states {
        return Err(FileCause::Header.at(2));
    }
    if !(1..=MAX_DIVISOR).contains(&header.divisor) {
        return Err(FileCause::Header.at(4));
    }
    if !(1..=MAX_COLUMNS).contains(&usize::from(header.columns)) {
        return Err(FileCause::Header.at(6));
    }
    if bytes[7] != 0 {
        return Err(FileCause::Header.at(7));
    }
    Ok(header)
}

// Where the pair of a state stands.
pub fn pair_place(state: u16) -> usize
    ensures { result ≡ pair_place state }
{
    8 + 4 * usize::from(state)
}

// How many bytes a branch takes.
pub fn branch_size(columns: u8) -> usize
    ensures { result ≡ branch_size columns }
{
    4 + 2 * usize::from(columns)
}

// Whether a reward in two's complement lies within its limits.
fn fits_reward(bits: u16) -> bool
    ensures { result ≡ reward_fits bits }
{
    bits.cast_signed().unsigned_abs() <= MAX_REWARD
}

// A file up to the end of a state's block.
#[derive(Drop)]
struct Block<'a> {
    bytes: &'a [u8],
    header: Header,
    end: usize,
    ghost inside: { end ≤ length bytes.now },
    ghost short: { end < 2 ^ 16 },
}

// The parts are counted, since their places follow from their numbers: `chunks_exact` would lend the bytes of each, but a
// fault wants the place.
impl Block<'_> {
    // The field of two bytes at an offset.
    fn field(&self, at: usize) -> Result<u16, FileFault>
        requires { at < 2 ^ 20 }
        ensures answer { result ≡ field_at self.now.bytes.now self.now.end at }
        ensures inside { OnOk result (at + 2 ≤ self.now.end) }
    {
        if self.end < at + 2 {
            return Err(FileCause::Field.at(self.end));
        }
        Ok(word_at(self.bytes, at))
    }

    fn check_rewards(&self, from: usize) -> Result<(), FileFault>
        requires { from < 2 ^ 19 }
        ensures { result ≡ rewards_at self.now.bytes.now self.now.end from self.now.header.columns }
    {
        for i in 0..usize::from(self.header.columns) {
            let at = from + 2 * i;
            let bits = self.field(at)?;
            if !fits_reward(bits) {
                return Err(FileCause::Field.at(at));
            }
        }
        Ok(())
    }

    // The weight of the branch at an offset.
    fn check_branch(&self, at: usize) -> Result<u16, FileFault>
        requires { at < 2 ^ 18 }
        ensures { result ≡ branch_at self.now.bytes.now self.now.header self.now.end at }
    {
        let weight = self.field(at)?;
        if !(1..=self.header.divisor).contains(&weight) {
            return Err(FileCause::Field.at(at));
        }
        let next = self.field(at + 2)?;
        if next >= self.header.states {
            return Err(FileCause::Field.at(at + 2));
        }
        self.check_rewards(at + 4)?;
        Ok(weight)
    }

    // The sum of the weights of the branches from an offset on.
    fn check_branches(&self, from: usize, count: u8) -> Result<usize, FileFault>
        requires { from ≤ self.now.end }
        ensures { result ≡ branches_at self.now.bytes.now self.now.header self.now.end from count 0 }
    {
        let size = branch_size(self.header.columns);
        let mut sum = 0;
        for i in 0..usize::from(count) {
            sum += usize::from(self.check_branch(from + i * size)?);
        }
        Ok(sum)
    }

    // The offset after the choice at an offset.
    fn check_choice(&self, at: usize) -> Result<usize, FileFault>
        requires { at < self.now.end }
        ensures { result ≡ choice_at self.now.bytes.now self.now.header self.now.end at }
    {
        let count = self.bytes[at];
        if !(1..=MAX_BRANCHES).contains(&usize::from(count)) {
            return Err(FileCause::Field.at(at));
        }
        let sum = self.check_branches(at + 1, count)?;
        if sum != usize::from(self.header.divisor) {
            return Err(FileCause::Sum.at(at));
        }
        Ok(at + 1 + usize::from(count) * branch_size(self.header.columns))
    }

    fn check_choices(&self, from: usize) -> Result<(), FileFault>
        ensures { result ≡ choices_at self.now.bytes.now self.now.header self.now.end from 8 }
    {
        let mut at = from;
        for _ in 0..MAX_CHOICES {
            if at >= self.end {
                return Ok(());
            }
            at = self.check_choice(at)?;
        }
        if at < self.end {
            return Err(FileCause::Field.at(at));
        }
        Ok(())
    }
}

// A file that has the pairs of all its states.
#[derive(Drop)]
struct File<'a> {
    bytes: &'a [u8],
    header: Header,
    ghost room: { 8 + 4 * header.states ≤ length bytes.now },
    ghost short: { length bytes.now < 2 ^ 16 },
}

// The states are counted for the same reason.
impl File<'_> {
    // Where the block that a state's pair names begins and ends.
    fn block(&self, state: u16) -> Range<usize>
        requires { state < self.now.header.states }
        ensures start { result.start ≡ word self.now.bytes.now (pair_place state) }
        ensures size { result.end ≡ block_end self.now.bytes.now (pair_place state) }
    {
        let pair = pair_place(state);
        let start = usize::from(word_at(self.bytes, pair));
        start..start + usize::from(word_at(self.bytes, pair + 2))
    }

    // Whether the pair of a state names a block that stands at `from`, is not empty and ends within the file.
    fn fits_pair(&self, state: u16, from: usize) -> bool
        requires { state < self.now.header.states }
        ensures { result ≡ pair_fits self.now.bytes.now (pair_place state) from }
    {
        let block = self.block(state);
        block.start == from && !block.is_empty() && block.end <= self.bytes.len()
    }

    fn check_pairs(&self) -> Result<(), FileFault>
        ensures answer { result ≡ pairs_at self.now.bytes.now 8 (8 + 4 * self.now.header.states) self.now.header.states }
        ensures inside { OnOk result ((s : ℕ) → s < self.now.header.states → block_end self.now.bytes.now (pair_place s) ≤ length self.now.bytes.now) }
    {
        let states = self.header.states;
        let mut from = pair_place(states);
        for state in 0..states {
            if !self.fits_pair(state, from) {
                return Err(FileCause::Pair.at(pair_place(state)));
            }
            from = self.block(state).end;
        }
        if from != self.bytes.len() {
            return Err(FileCause::Pair.at(pair_place(states) - 4));
        }
        Ok(())
    }

    fn check_blocks(&self) -> Result<(), FileFault>
        requires { (s : ℕ) → s < self.now.header.states → block_end self.now.bytes.now (pair_place s) ≤ length self.now.bytes.now }
        ensures { result ≡ blocks_at self.now.bytes.now self.now.header 8 self.now.header.states }
    {
        for state in 0..self.header.states {
            let Range { start, end } = self.block(state);
            let block = Block {
                bytes: self.bytes,
                header: self.header,
                end,
            };
            block.check_choices(start)?;
        }
        Ok(())
    }
}

fn first_fault(bytes: &[u8]) -> Result<(), FileFault>
    ensures { result ≡ check_result bytes.now }
{
    if !(8..=MAX_FILE).contains(&bytes.len()) {
        return Err(FileCause::Size.at(0));
    }
    let header = check_header(bytes)?;
    if bytes.len() < pair_place(header.states) {
        return Err(FileCause::Pair.at(8));
    }
    let file = File { bytes, header };
    file.check_pairs()?;
    file.check_blocks()
}

// The first fault of a file in the order of its format, if any; none where the file is that of a table.
pub fn check(bytes: &[u8]) -> Result<(), FileFault>
    ensures answer { result ≡ check_result bytes.now }
    ensures order { FirstFault bytes.now result }
    ensures layout { Layout }
{
    first_fault(bytes)
}
