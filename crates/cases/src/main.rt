#![tactic(auto)]
// Runs the worked numbers that are not in the proved table, and published examples of both checks; writes what each gave.
use answers::{Refusal, Seated};
use std::io;

// A change, and how it was answered.
fn judged(rt: &impl Print, name: &str, answer: Result<(), Refusal>) -> io::Result<()> {
    match answer {
        Ok(_) => println!(rt; "{name}accepted"),
        Err(f) => println!(rt; "{name}{f}"),
    }
}

// A question about a member, and its answer: yes or no, and how many ranges lie wholly below.
fn seated(rt: &impl Print, name: &str, answer: Result<Seated, Refusal>) -> io::Result<()> {
    match answer {
        Ok(Seated::Yes(below)) => println!(rt; "{name}yes, {below} below"),
        Ok(Seated::No(below)) => println!(rt; "{name}no, {below} below"),
        Err(f) => println!(rt; "{name}{f}"),
    }
}

// [W1] Where numbers sit in a set.
fn sits(rt: &impl Print, set: &[u64]) -> io::Result<()> {
    for (name, x) in [
        ("4 in {5..9, 20..29}: ", 4),
        ("9 in {5..9, 20..29}: ", 9),
        ("12 in {5..9, 20..29}: ", 12),
        ("20 in {5..9, 20..29}: ", 20),
        ("30 in {5..9, 20..29}: ", 30),
    ] {
        seated(rt, name, sets::member(set, x))?;
    }
    Ok(())
}

// [N-N] a block of no words as an input.
fn no_input(rt: &impl Print, words: &[u64], out: &mut [u64]) -> io::Result<()> {
    seated(rt, "N member: ", sets::member(&[], 5))?;
    judged(
        rt,
        "N second input of a union: ",
        sets::union(words, &[], out),
    )
}

// The same of a block changed in place, and of an output.
fn no_block(rt: &impl Print, words: &[u64]) -> io::Result<()> {
    judged(rt, "N make empty: ", sets::make_empty(&mut []))?;
    judged(rt, "N insert: ", sets::insert(&mut [], 1, 2))?;
    judged(
        rt,
        "N output of a union: ",
        sets::union(words, words, &mut []),
    )
}

// The check bytes of 0 to a high end, in hexadecimal: which mark they go with, and how the range is written.
fn two(rt: &impl Print, mark: &str, range: &str, check: [u8; 2]) -> io::Result<()> {
    let [b, a] = check;
    println!(rt; "O {mark} check of {range}: {b:02x} {a:02x}")
}

// The check bytes of the range record of the set of 0 to the high end, as it is written: with the new mark.
fn new_check(rt: &impl Print, range: &str, high: u64) -> io::Result<()> {
    let block = [1, 0, high];
    let mut bytes = [0u8; 28];
    match forms::write_set(&block, &mut bytes, 0) {
        Ok(_) => two(rt, "new", range, [bytes[26], bytes[27]]),
        Err(f) => println!(rt; "O new check: {f}"),
    }
}

// The check bytes that these bytes of kind and body have in a record with the old mark.
fn old_check(rt: &impl Print, range: &str, text: &[u8; 17]) -> io::Result<()> {
    let check = checks::check_of(text, checks::OLD_MARK);
    two(rt, "old", range, (check as u16).to_be_bytes())
}

// The check of a published example, as a record with this mark has it.
fn published(rt: &impl Print, text: &str, mark: u16) -> io::Result<()> {
    if text.len() <= 33 {
        let check = checks::check_of(text.as_bytes(), mark);
        println!(rt; "{text}: {check:04x}")?;
    }
    Ok(())
}

// [N-O, Y11, C1] The cases in the order of the file stdout; among them the checks of the records of 0..0 and 0..M under both marks, and
// published ones.
fn main(rt: HostRuntime) -> io::Result<()> {
    let empty = [0u64; 1];
    let mut block = [0u64; 1];
    no_input(&rt, &empty, &mut block)?;
    no_block(&rt, &empty)?;
    let two_ranges = [2u64, 5, 9, 20, 29];
    sits(&rt, &two_ranges)?;
    for (range, text) in [
        (
            "0..0",
            b"\x10\x00\x00\x00\x00\x00\x00\x00\x00\x00\x00\x00\x00\x00\x00\x00\x00",
        ),
        (
            "0..M",
            b"\x10\x00\x00\x00\x00\x00\x00\x00\x00\xff\xff\xff\xff\xff\xff\xff\xff",
        ),
    ] {
        old_check(&rt, range, text)?;
    }
    for (range, high) in [("0..0", 0), ("0..M", blocks::M)] {
        new_check(&rt, range, high)?;
    }
    for text in ["abcde", "abcdef", "abcdefgh"] {
        published(&rt, text, checks::OLD_MARK)?;
    }
    published(&rt, "123456789", checks::NEW_MARK)
}
