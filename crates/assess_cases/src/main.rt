// What whole questions print.
#![tactic(auto)]

ghost use Rattle.std.specs.Prelude.{◌<◌, ◌≤◌, length, OnSome};

use anyhow::{Context, ensure};
use assessment::assess::{assess, print_fault};
use mdp::MAX_STATES;
use plans::Row;
use std::fs;
use std::io::Write;
use text::MAX_TEXT;

// Two for each state of the largest model.
const ROWS: usize = 2 * MAX_STATES;

const PRINT_BYTES: usize = 255;

const OLD_ROW: Row = Row {
    ceiling: 7,
    parts: [7; 4],
};

// A question about a model, the working rows that are lent for it, and the room to print.
#[derive(Drop)]
struct Case<'a> {
    name: &'a [u8],
    model: &'a [u8],
    question: &'a [u8],
    lent: u16,
    room: u16,
}

// Takes a number of two bytes off the cases, or nothing where they are cut.
fn read_word(cases: &mut &[u8]) -> Option<u16>
    ensures { OnSome result (length cases.new.now ≤ length cases.old.now) }
{
    let word = cases.split_off(..2)?;
    Some(u16::from_le_bytes(word.try_into().ok()?))
}

// Takes bytes off them that stand behind their number.
fn read_sized<'a>(cases: &mut &'a [u8]) -> Option<&'a [u8]>
    ensures { OnSome result (length cases.new.now ≤ length cases.old.now) }
{
    let size = cases.split_off(..4)?;
    let size = u32::from_le_bytes(size.try_into().ok()?);
    cases.split_off(..usize::try_from(size).ok()?)
}

// Takes the first case off them.
fn read_case<'a>(cases: &mut &'a [u8]) -> Option<Case<'a>>
    ensures { OnSome result (length cases.new.now < length cases.old.now) }
{
    let size = cases.split_off_first()?;
    Some(Case {
        name: cases.split_off(..usize::from(*size))?,
        model: read_sized(cases)?,
        question: read_sized(cases)?,
        lent: read_word(cases)?,
        room: read_word(cases)?,
    })
}

fn show(rt: &HostRuntime, text: &[u8], length: usize) -> anyhow::Result<()> {
    let text = text.get(..length).context("longer than its bytes")?;
    rt.stdout().write_all(text)?;
    Ok(())
}

fn run_case(rt: &HostRuntime, case: &Case) -> anyhow::Result<()> {
    let lent = usize::from(case.lent);
    let room = usize::from(case.room);
    ensure!(
        lent <= ROWS && room <= PRINT_BYTES,
        "more is lent than there is"
    );
    let mut rows = vec![in rt.alloc(); OLD_ROW; lent]?;
    let mut page = vec![in rt.alloc(); 0; room]?;
    rt.stdout().write_all(case.name)?;
    println!(rt; ":")?;
    match assess(
        case.model,
        case.question,
        rows.as_mut_slice(),
        page.as_mut_slice(),
    ) {
        Ok(length) => show(rt, page.as_slice(), length),
        Err(fault) => {
            let mut line = [0; MAX_TEXT];
            let length = print_fault(fault, &mut line).unwrap_or(0);
            show(rt, &line, length)
        }
    }
}

fn run(rt: &HostRuntime) -> anyhow::Result<()> {
    let all = fs::read(rt, "cases.bin")?;
    let mut cases = all.as_slice();
    while !cases.is_empty() {
        let case = read_case(&mut cases).context("cases.bin is cut")?;
        run_case(rt, &case)?;
    }
    Ok(())
}

fn main(rt: HostRuntime) -> anyhow::Result<()> {
    run(&rt)
}
