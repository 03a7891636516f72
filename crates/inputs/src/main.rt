#![tactic(auto)]
// [H3] The program on each of the inputs that its arguments name: the input's name, and what the program writes for it.
use std::env::{Env, FillError};
use std::rt::Files;
use std::{fs, io, str};

// Shows the input with this name, or says why it cannot.
fn show(rt: &(impl Files + Print + Eprint), name: &str) -> io::Result<()> {
    match fs::open(rt, name) {
        Ok(mut file) => {
            println!(rt; "{name}")?;
            program::run(rt, &mut file)
        }
        Err(e) => eprintln!(rt; "{name}: {e}"),
    }
}

// Shows the input whose name these bytes are.
fn show_bytes(rt: &(impl Files + Print + Eprint), name: &[u8]) -> io::Result<()> {
    match str::from_utf8(name) {
        Ok(text) => show(rt, text),
        Err(_) => eprintln!(rt; "argument: no text"),
    }
}

fn main(rt: HostRuntime) -> io::Result<()> {
    let mut name = [0u8; 4096];
    for i in 1..usize::MAX {
        match rt.arg(i, &mut name) {
            Ok(n) => show_bytes(&rt, &name[..n])?,
            Err(FillError::NotPresent) => break,
            Err(FillError::TooLong) => eprintln!(rt; "argument: too long")?,
        }
    }
    Ok(())
}
