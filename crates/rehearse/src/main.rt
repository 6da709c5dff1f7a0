//! The rehearsal console: reads a script from standard input, and writes its answers to standard output.
#![tactic(auto)]

use rehearsal::rehearse;
use std::io::{Read, Write};

fn run(rt: &HostRuntime) -> anyhow::Result<()> {
    let heap = rt.alloc();
    let mut input = Vec::new(heap);
    let _ = rt.stdin().read_to_end(&mut input)?;
    let mut text = String::new(heap);
    rehearse(input.as_slice(), heap, &mut text)?;
    let mut out = rt.stdout();
    out.write_all(text.as_bytes())?;
    out.flush()?;
    Ok(())
}

fn main(rt: HostRuntime) -> anyhow::Result<()> {
    run(&rt)
}
