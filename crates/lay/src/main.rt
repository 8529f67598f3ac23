// Reads plates from standard input, lays them onto one canvas and prints it, or why it refused.
#![tactic(auto)]

use laying::{LONGEST_INPUT, printout};
use std::io;
use std::io::{Read, Write};

fn main(rt: HostRuntime) -> io::Result<()> {
    let heap = rt.alloc();
    let mut input = Vec::new(heap);
    rt.stdin()
        .take(LONGEST_INPUT as u64 + 1)
        .read_to_end(&mut input)?;
    let text = printout(heap, input.as_slice())?;
    if text.is_empty() {
        return rt.eprintln("lay: this version reads no plate yet");
    }
    rt.stdout().write_all(text.as_bytes())
}
