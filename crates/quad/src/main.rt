// Reads an order and a survey from standard input and prints the report.
#![tactic(auto)]

use session::answer;
use std::io;
use std::io::{Read, Write};

// One byte more than the longest order and survey, so that a longer input is seen to be too long.
const MOST_INPUT: u64 = 6163;

fn main(rt: HostRuntime) -> io::Result<()> {
    let mut input = Vec::new(rt.alloc());
    rt.stdin().take(MOST_INPUT).read_to_end(&mut input)?;
    // every report fits
    let mut line = [0; 96];
    let len = answer(input.as_slice(), &mut line).len;
    rt.stdout().write_all(&line[..len])
}
