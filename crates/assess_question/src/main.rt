// Answers the question in `question.bin` about the model in `model.bin`, both in the present folder.
#![tactic(auto)]

use assessment::assess::{assess, print_fault};
use mdp::MAX_STATES;
use plans::Row;
use std::io::Write;
use std::{fs, io};
use text::MAX_TEXT;

// Two for each state of the largest model.
const ROWS: usize = 2 * MAX_STATES;

fn main(rt: HostRuntime) -> io::Result<()> {
    // A file that cannot be read counts as empty.
    let model = fs::read(&rt, "model.bin").unwrap_or(Vec::new(rt.alloc()));
    let question = fs::read(&rt, "question.bin").unwrap_or(Vec::new(rt.alloc()));
    let mut rows = [Row::ZERO; ROWS];
    let mut print = [0; MAX_TEXT];
    let printed = assess(model.as_slice(), question.as_slice(), &mut rows, &mut print)
        .or_else(|fault| print_fault(fault, &mut print))
        .unwrap_or(0);
    rt.stdout().write_all(&print[..printed.min(MAX_TEXT)])
}
