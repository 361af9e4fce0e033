// What the check says of many files, each with its name.
#![tactic(auto)]

ghost use Rattle.std.specs.Prelude.{◌<◌, length, OnOk};

use anyhow::Context;
use file_check::check::check;
use std::fs;

// Takes the name and the file of the first case off the cases.
fn read_case<'a>(cases: &mut &'a [u8]) -> anyhow::Result<(&'a str, &'a [u8])>
    ensures { OnOk result (length cases.new.now < length cases.old.now) }
{
    let size = cases.split_off_first().context("no case")?;
    let name = cases
        .split_off(..usize::from(*size))
        .context("cases.bin is cut")?;
    let size = cases.split_off(..4).context("no size of a file")?;
    let size = u32::from_le_bytes(size.try_into()?);
    let file = cases
        .split_off(..usize::try_from(size)?)
        .context("cases.bin is cut")?;
    Ok((std::str::from_utf8(name)?, file))
}

fn run(rt: &HostRuntime) -> anyhow::Result<()> {
    let all = fs::read(rt, "cases.bin")?;
    let mut cases = all.as_slice();
    while !cases.is_empty() {
        let (name, file) = read_case(&mut cases)?;
        match check(file) {
            Ok(()) => println!(rt; "{name}: ok")?,
            Err(fault) => println!(rt; "{name}: {fault}")?,
        }
    }
    Ok(())
}

fn main(rt: HostRuntime) -> anyhow::Result<()> {
    run(&rt)
}
