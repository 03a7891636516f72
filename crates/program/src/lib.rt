#![tactic(auto)]
// The program: reads an input as the byte form of a set, and writes its ranges or the refusal to standard output. What it writes is
// tested, not proved; all that it decides is decided by forms::read_set.
use std::io;
use std::io::Read;

// The number of ranges of a block, and then each of them as a line.
fn ranges(rt: &impl Print, words: &[u64]) -> io::Result<()> {
    let Some((n, rest)) = words.split_first() else {
        return Ok(());
    };
    println!(rt; "ranges {n}")?;
    for range in rest.chunks_exact(2).take(*n as usize) {
        println!(rt; "{} {}", range[0], range[1])?;
    }
    Ok(())
}

// Reads from the input until it ends or the bytes are full, and answers how many were read.
fn fill(input: &mut impl Read, bytes: &mut [u8]) -> io::Result<usize> {
    let mut done = 0;
    while done < bytes.len() {
        match input.read(&mut bytes[done..])? {
            0 => break,
            n => done += n,
        }
    }
    Ok(done)
}

// [H3] Shows what an input has left: at most 65,536 bytes of it are read, into a block with room for the 3,120 ranges of the longest form
// of that size; of a longer input it says so.
pub fn run(rt: &impl Print, input: &mut impl Read) -> io::Result<()> {
    let mut bytes = [0u8; 65537];
    let n = fill(input, &mut bytes)?;
    if n > 65536 {
        return println!(rt; "input too long");
    }
    let mut words = [0u64; 6241];
    match forms::read_set(&bytes[..n], &mut words) {
        Ok(_) => ranges(rt, &words),
        Err(refusal) => println!(rt; "{refusal}"),
    }
}
