#![tactic(auto)]

use std::io;

// [H3] The program: reads the byte form of a set from standard input and writes its ranges, or the refusal.
fn main(rt: HostRuntime) -> io::Result<()> {
    program::run(&rt, &mut rt.reader())
}
