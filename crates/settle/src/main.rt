// Reads two cases from standard input and prints the report of each and the verdict on them.
#![tactic(auto)]

use pairs::{split, verdict, write_verdict};
use session::report;
use std::io;
use std::io::{Read, Write};

// One byte more than the two longest cases, so that a longer input is seen to be too long.
const MOST_INPUT: u64 = 12325;

fn main(rt: HostRuntime) -> io::Result<()> {
    let mut input = Vec::new(rt.alloc());
    rt.stdin().take(MOST_INPUT).read_to_end(&mut input)?;
    let pair = split(input.as_slice());
    // every line fits
    let mut line = [0; 96];
    for input in [pair.first, pair.second] {
        let len = report(input, &mut line).len;
        rt.stdout().write_all(&line[..len])?;
    }
    let len = write_verdict(&mut line, verdict(pair)).len;
    rt.stdout().write_all(&line[..len])
}
