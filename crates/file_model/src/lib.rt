// A model read from bytes.
#![tactic(auto)]

ghost use Rattle.std.specs.Prelude.{◌≡◌, ℕ, ◌+◌, ◌*◌, ◌^◌, ◌<◌, ◌≤◌, true, length, IfSome, slice_index};
ghost use Rattle.std.specs.List.{slice_get};
ghost use Rattle.std.specs.Option.{option_map};
ghost use Rattle.std.specs.Result.{result_err};
ghost use Rattle.few.specs.Views.{listed};
ghost use Rattle.mdp.specs.Table.{Table};
ghost use Rattle.mdp.specs.Questions.{choice_of, branch_of};
ghost use Rattle.file_check.specs.Check.{word, branch_size, choice_after, check_result};
ghost use Rattle.file_check.specs.Places.{starts_in};
ghost use Rattle.file_check.specs.Decode.{choice_in, decode};
ghost use Rattle.file_check.specs.Accepts.{accepted, Bytes, FileOf, read_table};
ghost use Rattle.file_check.proofs.Accepted.{file_facts};
ghost use Rattle.file_model.specs.Index.{Indexed, Whole, blank_bytes, starts_of, branch_there, all_rewards, whole};

use few::Few;
use file_check::check::{branch_size, check, pair_place};
use file_check::faults::FileFault;
use mdp::{MAX_CHOICES, MAX_COLUMNS, MAX_STATES, Model as DecisionModel, WholeBranch};
use std::array;

// Where the choices of a state stand.
type Starts = Few<u16, MAX_CHOICES>;

// The number in the two bytes at an offset.
// `file_check` has its own: a public function may not require the bytes to be there.
// `byteorder` reads the same from `&bytes[at..]`, which is no plainer.
fn word_at(bytes: &[u8], at: usize) -> u16
    requires { at + 1 < length bytes.now }
    ensures { result ≡ word bytes.now at }
{
    u16::from_le_bytes([bytes[at], bytes[at + 1]])
}

fn index_choices(bytes: &[u8], columns: u8, from: usize, end: usize) -> Starts
    requires { (end ≤ length bytes.now) × (end < 2 ^ 16) }
    ensures { listed result ≡ starts_in bytes.now columns end from 8 }
{
    let mut starts = Few::empty(0);
    let mut at = from;
    // `as` loses nothing: the proof has the bound, where `try_from` would need an `unwrap`.
    while at < end && starts.push(at as u16).is_ok() {
        at += 1 + usize::from(bytes[at]) * branch_size(columns);
    }
    starts
}

// Where the choices of all states stand; there is room for every state.
fn index_file(bytes: &[u8]) -> Few<Starts, MAX_STATES>
    requires { Whole bytes.now }
    ensures { Indexed bytes.now (listed result) }
{
    let mut index = Few::empty(Few::empty(0));
    for state in 0..word_at(bytes, 0) {
        let pair = pair_place(state);
        let from = usize::from(word_at(bytes, pair));
        let end = from + usize::from(word_at(bytes, pair + 2));
        index
            .push(index_choices(bytes, bytes[6], from, end))
            .unwrap();
    }
    index
}

// The file of the blank model: one state, one choice, one branch back with reward 0.
static BLANK: [u8; 19] = [1, 0, 0, 0, 1, 0, 1, 0, 12, 0, 7, 0, 1, 1, 0, 0, 0, 0, 0];

fn blank_file() -> &'static [u8]
    ensures { result.now ≡ blank_bytes }
{
    &BLANK
}

// The model of a file, or the blank model where the file is refused: a refused file has a model too, so no `Result`.
#[derive(Drop)]
pub struct FileModel<'a> {
    bytes: &'a [u8],
    index: Few<Starts, MAX_STATES>,
    fault: Option<FileFault>,
    ghost long: { 8 ≤ length bytes.now },
    ghost sound: { accepted bytes.now ≡ true },
    ghost typed: { Bytes bytes.now },
    ghost indexed: { Indexed bytes.now (listed index) },
}

impl<'a> FileModel<'a> {
    pub fn read(bytes: &'a [u8]) -> FileModel<'a>
        ensures model { decode result.bytes.now ≡ read_table bytes.now }
        ensures fault { result.fault ≡ result_err (check_result bytes.now) }
        ensures encoded { (t : Table) → FileOf bytes.now t → decode result.bytes.now ≡ t }
    {
        match check(bytes) {
            Ok(()) => FileModel::of_accepted(bytes, None),
            Err(fault) => FileModel::of_accepted(blank_file(), Some(fault)),
        }
    }

    fn of_accepted(bytes: &'a [u8], fault: Option<FileFault>) -> FileModel<'a>
        requires { accepted bytes.now ≡ true }
        ensures { (result.bytes.now ≡ bytes.now) × (result.fault ≡ fault) }
    {
        FileModel {
            bytes,
            index: index_file(bytes),
            fault,
        }
    }

    // Why the file was refused, if it was.
    pub fn fault(&self) -> Option<FileFault>
        ensures { result ≡ self.now.fault }
    {
        self.fault
    }

    // Where the choices of a state stand.
    fn starts(&self, state: usize) -> Option<&[u16]>
        ensures { option_map (λ starts. starts.now) result ≡ slice_get (starts_of self.now.bytes.now) state }
    {
        self.index
            .as_slice()
            .get(state)
            .map(|starts| starts.as_slice())
    }

    // Where a choice stands.
    fn choice_at(&self, state: usize, choice: usize) -> Option<usize>
        ensures place { choice_of (decode self.now.bytes.now) state choice ≡ option_map (choice_in self.now.bytes.now (slice_index self.now.bytes.now 6)) result }
        ensures inside { IfSome result (λ a. choice_after self.now.bytes.now (slice_index self.now.bytes.now 6) a ≤ length self.now.bytes.now) }
    {
        self.starts(state)?.get(choice).map(|at| usize::from(*at))
    }

    // A branch where it stands.
    fn branch_at(&self, state: usize, choice: usize, branch: usize) -> Option<BranchAt<'a>>
        ensures { branch_of (decode self.now.bytes.now) state choice branch ≡ option_map (λ b. branch_there b.bytes.now b.at) result }
    {
        let at = self.choice_at(state, choice)?;
        if branch >= usize::from(self.bytes[at]) {
            return None;
        }
        let branch = BranchAt {
            bytes: self.bytes,
            at: at + 1 + branch * branch_size(self.bytes[6]),
        };
        Some(branch)
    }
}

// A branch of a file, where it stands.
#[derive(Drop)]
struct BranchAt<'a> {
    bytes: &'a [u8],
    at: usize,
    ghost long: { 8 ≤ length bytes.now },
    ghost inside: { at + branch_size (slice_index bytes.now 6) ≤ length bytes.now },
}

impl BranchAt<'_> {
    fn weight(&self) -> u16
        ensures { result ≡ (branch_there self.now.bytes.now self.now.at).weight }
    {
        word_at(self.bytes, self.at)
    }

    fn next(&self) -> usize
        ensures { result ≡ (branch_there self.now.bytes.now self.now.at).next }
    {
        usize::from(word_at(self.bytes, self.at + 2))
    }

    fn reward(&self, column: usize) -> Option<i16>
        ensures { result ≡ slice_get (branch_there self.now.bytes.now self.now.at).rewards column }
    {
        if column >= usize::from(self.bytes[6]) {
            return None;
        }
        Some(word_at(self.bytes, self.at + 4 + column * 2).cast_signed())
    }

    // The rewards of all columns, 0 in a column that the model lacks.
    fn rewards(&self) -> [i16; MAX_COLUMNS]
        ensures { result ≡ all_rewards (branch_there self.now.bytes.now self.now.at) }
    {
        array::from_fn(|column| self.reward(column).unwrap_or(0))
    }

    fn whole(&self) -> WholeBranch
        ensures { result ≡ whole (branch_there self.now.bytes.now self.now.at) }
    {
        WholeBranch {
            weight: self.weight(),
            next: self.next(),
            rewards: self.rewards(),
        }
    }
}

impl DecisionModel for FileModel<'_> {
    ghost table = { λ m. decode m.bytes.now };

    ghost facts = { λ m. file_facts m.bytes.now m.sound m.typed };

    fn states(&self) -> usize {
        usize::from(word_at(self.bytes, 0))
    }

    fn first(&self) -> usize {
        usize::from(word_at(self.bytes, 2))
    }

    fn divisor(&self) -> u16 {
        word_at(self.bytes, 4)
    }

    fn columns(&self) -> usize {
        usize::from(self.bytes[6])
    }

    fn choices(&self, state: usize) -> Option<usize> {
        self.starts(state).map(|starts| starts.len())
    }

    fn branches(&self, state: usize, choice: usize) -> Option<usize> {
        self.choice_at(state, choice)
            .map(|at| usize::from(self.bytes[at]))
    }

    fn weight(&self, state: usize, choice: usize, branch: usize) -> Option<u16> {
        self.branch_at(state, choice, branch)
            .map(|branch| branch.weight())
    }

    fn next(&self, state: usize, choice: usize, branch: usize) -> Option<usize> {
        self.branch_at(state, choice, branch)
            .map(|branch| branch.next())
    }

    fn reward(&self, state: usize, choice: usize, branch: usize, column: usize) -> Option<i16> {
        self.branch_at(state, choice, branch)?.reward(column)
    }

    fn branch(&self, state: usize, choice: usize, branch: usize) -> Option<WholeBranch> {
        self.branch_at(state, choice, branch)
            .map(|branch| branch.whole())
    }
}
