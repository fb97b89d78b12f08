// Replays each trace of data/list.txt, and compares with the report that it must give, which tools/replay_trace.py worked out.
#![tactic(auto)]

use report::program::answer;
use std::{fs, io};

fn replays_as_reported(rt: &HostRuntime, name: &str) -> io::Result<bool> {
    let trace = fs::read(rt, format!(in rt.alloc(); "{name}.trace")?)?;
    let report = fs::read(rt, format!(in rt.alloc(); "{name}.report")?)?;
    let output = answer(&trace, rt.alloc())?;
    Ok(output.as_bytes() == report.as_slice())
}

fn main(rt: HostRuntime) -> io::Result<()> {
    let list = fs::read_to_string(&rt, "list.txt")?;
    let mut wrong = 0u32;
    for name in list.lines() {
        if !replays_as_reported(&rt, name)? {
            println!(rt; "{name}: another report")?;
            wrong = wrong.saturating_add(1);
        }
    }
    println!(rt;
        "{} traces, {wrong} with another report",
        list.lines().count()
    )
}
