// The rows of many sweeps over model files.
#![tactic(auto)]

ghost use Rattle.std.specs.Prelude.{◌<◌, length, OnOk, OnSome};

use anyhow::{Context, ensure};
use file_model::FileModel;
use mdp::{MAX_STATES, Model};
use plans::{Objective, Row};
use std::fs;
use sweep::{MAX_OBJECTIVES, sweep};

// Two for each state of the largest model.
const ROWS: usize = 2 * MAX_STATES;

// A model file, and objectives with a weight for each.
#[derive(Drop)]
struct Case<'a> {
    file: &'a [u8],
    objectives: Vec<Objective>,
    weights: Vec<u16>,
}

// Takes a number of two bytes off the cases, or nothing where they are cut.
fn read_word(cases: &mut &[u8]) -> Option<u16>
    ensures { OnSome result (length cases.new.now < length cases.old.now) }
{
    let word = cases.split_off(..2)?;
    Some(u16::from_le_bytes(word.try_into().ok()?))
}

// Takes a model file and the number of objectives off them.
fn read_head<'a>(cases: &mut &'a [u8]) -> Option<(&'a [u8], u8)>
    ensures { OnSome result (length cases.new.now < length cases.old.now) }
{
    let size = read_word(cases)?;
    let file = cases.split_off(..usize::from(size))?;
    Some((file, *cases.split_off_first()?))
}

// Takes an objective and its weight off them.
fn read_objective(cases: &mut &[u8]) -> Option<(Objective, u16)>
    ensures { OnSome result (length cases.new.now < length cases.old.now) }
{
    let objective = Objective {
        column: usize::from(*cases.split_off_first()?),
        bound: usize::from(read_word(cases)?),
        target: 0,
    };
    Some((objective, read_word(cases)?))
}

// Takes the first case off the cases.
fn read_case<'a>(rt: &HostRuntime, cases: &mut &'a [u8]) -> anyhow::Result<Case<'a>>
    ensures { OnOk result (length cases.new.now < length cases.old.now) }
{
    let (file, count) = read_head(cases).context("cases.bin is cut")?;
    ensure!(usize::from(count) <= MAX_OBJECTIVES, "too many objectives");
    let mut objectives = Vec::new(rt.alloc());
    let mut weights = Vec::new(rt.alloc());
    for _ in 0..count {
        let (objective, weight) = read_objective(cases).context("cases.bin is cut")?;
        objectives.push(objective)?;
        weights.push(weight)?;
    }
    Ok(Case {
        file,
        objectives,
        weights,
    })
}

fn show(rt: &HostRuntime, row: Row) -> anyhow::Result<()> {
    let Row {
        ceiling,
        parts: [first, second, third, fourth],
    } = row;
    print!(rt; "{ceiling} {first} {second} {third} {fourth}")?;
    Ok(())
}

fn run_case(rt: &HostRuntime, case: &Case) -> anyhow::Result<()> {
    let model = FileModel::read(case.file);
    let mut rows = [Row::ZERO; ROWS];
    let first = sweep::<FileModel, blend::Up, blend::Down>(
        &model,
        case.objectives.as_slice(),
        case.weights.as_slice(),
        &mut rows,
    )
    .context("a sweep was refused")?;
    show(rt, first)?;
    for half in rows.chunks(model.states().max(1)).take(2) {
        print!(rt; " | ")?;
        show(rt, *half.last().context("no rows")?)?;
    }
    println!(rt; "")?;
    Ok(())
}

fn run(rt: &HostRuntime) -> anyhow::Result<()> {
    let all = fs::read(rt, "cases.bin")?;
    let mut cases = all.as_slice();
    while !cases.is_empty() {
        let case = read_case(rt, &mut cases)?;
        run_case(rt, &case)?;
    }
    Ok(())
}

fn main(rt: HostRuntime) -> anyhow::Result<()> {
    run(&rt)
}
