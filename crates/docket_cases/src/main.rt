// Calls on drafts and dockets, one to a line: what each answers, and what the docket shows after it.
#![tactic(auto)]

ghost use Rattle.std.specs.Prelude.{◌<◌, ◌≤◌, length, OnOk};

use anyhow::{Context, anyhow, bail};
use docket::docket::{Docket, Price};
use docket::draft::Draft;
use fault::{Cause, Fault};
use file_model::FileModel;
use mdp::{MAX_STATES, Model};
use plans::{Objective, Row};
use std::fs;
use verdict::verdict::Verdict;

// The working rows, of which a call is lent the first ones.
const WORK: usize = 2 * MAX_STATES;

const OLD_ROW: Row = Row {
    ceiling: 7,
    parts: [7; 4],
};

// The word that a line begins with, and its numbers.
#[derive(Drop)]
struct Call<'a> {
    word: &'a str,
    numbers: Vec<i64>,
}

fn read_call<'a>(rt: &HostRuntime, line: &'a str) -> anyhow::Result<Call<'a>> {
    let (word, rest) = line.split_once(" ").unwrap_or((line, ""));
    let numbers = rest
        .split_whitespace()
        .map(|number| number.parse::<i64>().map_err(anyhow::Error::from))
        .try_collect(rt.alloc())?;
    Ok(Call { word, numbers })
}

fn small_numbers(rt: &HostRuntime, numbers: &[i64]) -> anyhow::Result<Vec<u16>> {
    numbers
        .iter()
        .map(|number| u16::try_from(*number).map_err(anyhow::Error::from))
        .try_collect(rt.alloc())
}

fn lend(work: &mut [Row], lent: i64) -> anyhow::Result<&mut [Row]> {
    work.get_mut(..usize::try_from(lent)?)
        .context("too many working rows")
}

fn show_small(rt: &HostRuntime, numbers: &[u16]) -> anyhow::Result<()> {
    for number in numbers {
        print!(rt; " {number}")?;
    }
    Ok(())
}

fn show_parts(rt: &HostRuntime, parts: [i64; 4]) -> anyhow::Result<()> {
    let [first, second, third, fourth] = parts;
    print!(rt; " {first} {second} {third} {fourth}")?;
    Ok(())
}

fn show_verdict(rt: &HostRuntime, verdict: Verdict) -> anyhow::Result<()> {
    match verdict {
        Verdict::Open => print!(rt; "  open")?,
        Verdict::Achieved { shares } => {
            print!(rt; "  achieved")?;
            show_small(rt, shares.as_slice())?;
        }
        Verdict::Refuted {
            weights,
            ceiling,
            target_sum,
        } => {
            print!(rt; "  refuted")?;
            show_small(rt, weights.as_slice())?;
            print!(rt; " at {ceiling} below {target_sum}")?;
        }
    }
    Ok(())
}

fn show_docket<M: Model>(rt: &HostRuntime, docket: &Docket<M>, work: Row) -> anyhow::Result<()> {
    show_verdict(rt, docket.verdict())?;
    print!(rt; "; targets")?;
    for objective in docket.objectives() {
        let target = objective.target;
        print!(rt; " {target}")?;
    }
    print!(rt; "; rows")?;
    for row in docket.rows() {
        print!(rt; " |")?;
        show_small(rt, row.weights.as_slice())?;
        print!(rt; " :")?;
        show_parts(rt, row.point)?;
    }
    let Row { ceiling, parts } = work;
    print!(rt; "; work {ceiling}")?;
    show_parts(rt, parts)?;
    println!(rt; "")?;
    Ok(())
}

fn show_fault<C: Cause + Drop>(rt: &HostRuntime, fault: Fault<C>) -> anyhow::Result<()> {
    println!(rt; "fault {fault}")?;
    Ok(())
}

fn show_price(rt: &HostRuntime, price: Price) -> anyhow::Result<()> {
    let Price {
        row,
        ceiling,
        target_sum,
        point,
    } = price;
    print!(rt; "row {row} ceiling {ceiling} target sum {target_sum} point")?;
    show_parts(rt, point)?;
    println!(rt; "")?;
    Ok(())
}

fn make_price<M: Model>(
    rt: &HostRuntime,
    docket: &mut Docket<M>,
    numbers: &[i64],
    work: &mut [Row],
) -> anyhow::Result<()> {
    let [lent, weights @ ..] = numbers else {
        bail!("no rows are lent");
    };
    let weights = small_numbers(rt, weights)?;
    match docket.price(weights.as_slice(), lend(work, *lent)?) {
        Ok(price) => show_price(rt, price),
        Err(fault) => show_fault(rt, fault),
    }
}

fn make_mix<M: Model>(
    rt: &HostRuntime,
    docket: &mut Docket<M>,
    numbers: &[i64],
) -> anyhow::Result<()> {
    let shares = small_numbers(rt, numbers)?;
    match docket.mix(shares.as_slice()) {
        Ok(true) => println!(rt; "yes")?,
        Ok(false) => println!(rt; "no")?,
        Err(fault) => show_fault(rt, fault)?,
    }
    Ok(())
}

fn make_retarget<M: Model>(
    rt: &HostRuntime,
    docket: &mut Docket<M>,
    targets: &[i64],
) -> anyhow::Result<()> {
    match docket.retarget(targets) {
        Ok(()) => println!(rt; "done")?,
        Err(fault) => show_fault(rt, fault)?,
    }
    Ok(())
}

fn make_settle<M: Model>(
    rt: &HostRuntime,
    docket: &mut Docket<M>,
    numbers: &[i64],
    work: &mut [Row],
) -> anyhow::Result<()> {
    let [lent] = numbers else {
        bail!("no rows are lent");
    };
    match docket.settle(lend(work, *lent)?) {
        Ok(Verdict::Open) => println!(rt; "open")?,
        Ok(Verdict::Achieved { .. }) => println!(rt; "achieved")?,
        Ok(Verdict::Refuted { .. }) => println!(rt; "refuted")?,
        Err(fault) => show_fault(rt, fault)?,
    }
    Ok(())
}

fn make_call<M: Model>(
    rt: &HostRuntime,
    docket: &mut Docket<M>,
    line: &str,
    work: &mut [Row],
) -> anyhow::Result<()> {
    let call = read_call(rt, line)?;
    let numbers = call.numbers.as_slice();
    print!(rt; "{line} -> ")?;
    // A table of functions would say the same in another place.
    match call.word {
        "price" => make_price(rt, docket, numbers, work)?,
        "mix" => make_mix(rt, docket, numbers)?,
        "retarget" => make_retarget(rt, docket, numbers)?,
        "settle" => make_settle(rt, docket, numbers, work)?,
        "clear" => {
            docket.clear();
            println!(rt; "done")?;
        }
        _ => bail!("no such call"),
    }
    show_docket(rt, docket, *work.first().context("no rows")?)
}

fn make_add<M: Model>(rt: &HostRuntime, draft: &mut Draft<M>, line: &str) -> anyhow::Result<()> {
    let call = read_call(rt, line)?;
    let [column, bound, target] = call.numbers.as_slice() else {
        bail!("an objective has three numbers");
    };
    let objective = Objective {
        column: usize::try_from(*column)?,
        bound: usize::try_from(*bound)?,
        target: *target,
    };
    print!(rt; "{line} -> ")?;
    match draft.add(objective) {
        Ok(number) => println!(rt; "objective {number}")?,
        Err(fault) => show_fault(rt, fault)?,
    }
    Ok(())
}

fn hex_digit(digit: u8) -> anyhow::Result<u8> {
    match digit {
        b'0'..=b'9' => Ok(digit - b'0'),
        b'a'..=b'f' => Ok(digit - b'a' + 10),
        _ => Err(anyhow!("no hex digit")),
    }
}

fn hex_byte(digits: &[u8]) -> anyhow::Result<u8> {
    let [high, low] = digits else {
        bail!("half a byte");
    };
    Ok(hex_digit(*high)? << 4 | hex_digit(*low)?)
}

// The lines that are left.
#[derive(Drop)]
struct Script<'a> {
    rest: &'a str,
}

impl<'a> Script<'a> {
    fn line(&mut self) -> anyhow::Result<&'a str>
        ensures { OnOk result (length self.new.rest.now < length self.old.rest.now) }
    {
        let (line, rest) = self.rest.split_once("\n").context("calls.txt is cut")?;
        self.rest = rest;
        Ok(line)
    }

    // The next line, or None where it is the last of its part.
    fn line_before(&mut self, last: &str) -> anyhow::Result<Option<&'a str>>
        ensures { OnOk result (length self.new.rest.now < length self.old.rest.now) }
    {
        let line = self.line()?;
        Ok((line != last).then_some(line))
    }
}

// One case: objectives up to `pose`, then calls up to `end`. A part that the script ends before is empty.
fn run_case(rt: &HostRuntime, script: &mut Script, hex: &str) -> anyhow::Result<()>
    ensures { OnOk result (length script.new.rest.now ≤ length script.old.rest.now) }
{
    let bytes: Vec<u8> = hex
        .as_bytes()
        .chunks(2)
        .map(hex_byte)
        .try_collect(rt.alloc())?;
    let mut draft = Draft::over(FileModel::read(bytes.as_slice()));
    if !script.rest.is_empty() {
        while let Some(line) = script.line_before("pose")? {
            make_add(rt, &mut draft, line)?;
        }
    }
    let mut docket = draft.pose();
    let mut work = [OLD_ROW; WORK];
    println!(rt; "pose -> posed")?;
    show_docket(rt, &docket, work[0])?;
    if !script.rest.is_empty() {
        while let Some(line) = script.line_before("end")? {
            make_call(rt, &mut docket, line, &mut work)?;
        }
    }
    Ok(())
}

fn run(rt: &HostRuntime) -> anyhow::Result<()> {
    let text = fs::read_to_string(rt, "calls.txt")?;
    let mut script = Script {
        rest: text.as_str(),
    };
    while !script.rest.is_empty() {
        let line = script.line()?;
        let case = line.strip_prefix("case ").context("no case")?;
        let (name, hex) = case.split_once(" ").context("no model")?;
        println!(rt; "case {name}")?;
        run_case(rt, &mut script, hex)?;
    }
    Ok(())
}

fn main(rt: HostRuntime) -> anyhow::Result<()> {
    run(&rt)
}
