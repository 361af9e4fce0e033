// Says what the model file in the present folder holds, or why it was refused.
#![tactic(auto)]

use file_model::FileModel;
use std::{fs, io};
use summary::Summary;

fn main(rt: HostRuntime) -> io::Result<()> {
    // A file that cannot be read counts as empty.
    let bytes = fs::read(&rt, "model.bin").unwrap_or(Vec::new(rt.alloc()));
    let model = FileModel::read(bytes.as_slice());
    match model.fault() {
        Some(fault) => println!(rt; "fault 0 {fault}"),
        None => {
            let summary = Summary::of(&model);
            println!(rt; "{summary}")
        }
    }
}
