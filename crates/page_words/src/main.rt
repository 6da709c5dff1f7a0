//! Prints a page in words: reads its bytes from standard input and writes a line for each record.
#![tactic(auto)]

use pages::{Reader, Record};
use std::io;
use std::io::Read;

/// A line for each record, and how many there were; where the bytes are no whole record, that is said, and the rest is left.
fn told(rt: &HostRuntime, bytes: &[u8]) -> io::Result<()> {
    let mut reader = Reader::new(bytes);
    // No plainer as `while let`: the count is printed, and the end and damage are told apart.
    for k in 0..u64::MAX {
        match reader.next() {
            Ok(Some(record)) => {
                let Record {
                    kind,
                    lower,
                    higher,
                    n,
                    d,
                } = record;
                println!(rt; "{kind} {lower} {higher} at {n}/{d}")?;
            }
            Ok(None) => return println!(rt; "records: {k}"),
            Err(_) => return println!(rt; "damaged after records: {k}"),
        }
    }
    Ok(())
}

fn main(rt: HostRuntime) -> io::Result<()> {
    let mut bytes: Vec<u8> = Vec::new(rt.alloc());
    let _ = rt.stdin().read_to_end(&mut bytes)?;
    told(&rt, bytes.as_slice())
}
