// Replays a trace: standard input to the report on standard output.
#![tactic(auto)]

use report::program::{MOST_BYTES, answer};
use std::io;
use std::io::{Read, Write};

fn main(rt: HostRuntime) -> io::Result<()> {
    // One byte more than the longest input tells that it is too long.
    let limit = MOST_BYTES as u64 + 1;
    let mut text = Vec::new(rt.alloc());
    let _ = rt.stdin().take(limit).read_to_end(&mut text)?;
    let output = answer(&text, rt.alloc())?;
    rt.stdout().write_all(output.as_bytes())
}
