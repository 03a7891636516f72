// The byte form of sets, maps, bulletins and signed sets: a form is a value, and one code reads and writes them all, run by run.
#![tactic(auto)]

ghost use Rattle.std.specs.Prelude.{◌≡◌, [], ◌∷◌, ◌++◌, ◌+◌, ◌*◌, ◌≤◌, ◌<◌, length, drop};
ghost use Rattle.answers.specs.Answers.{outcome};
ghost use Rattle.answers.specs.Says.{judged_says, written_says};
ghost use Rattle.answers.specs.Steps.{FirstOf};
ghost use Rattle.blocks.specs.Blocks.{items_of};
ghost use Rattle.numbers.specs.Numbers.{over};
ghost use Rattle.checks.specs.Check.{new_mark};
ghost use Rattle.verdicts.specs.Forms.{form_of};
ghost use Rattle.forms.specs.Calls.{stored_in, read_call, read_set_call, read_map_call, read_bulletin_call};
ghost use Rattle.forms.specs.Calls.{block_refusals, no_space, write_call, write_set_call, write_map_call, write_bulletin_call};
ghost use Rattle.forms.specs.Calls.{read_signed_call, write_signed_call};
ghost use Rattle.forms.specs.Calls.{judge_set_call, form_says, member_of_form_call};
ghost use Rattle.verdicts.specs.Steps.{FormKind, each_of, runs_here};
ghost use Rattle.forms.specs.Steps.{Stores, Puts, count_held};

use answers::{Reason, Refusal};
use verdicts::Form;

// Makes the outputs the blocks of the n and m items of a form that was judged good.
fn store_runs(bytes: &[u8], form: Form, n: usize, m: usize, first: &mut [u64], second: &mut [u64])
    requires { Stores form n m bytes.now first.old second.old }
    ensures { each_of form first.new second.new
        ≡ stored_in (each_of form first.old second.old) (runs_here form n m bytes.now) }
{
    let s = form.layout.width;
    let from = 2 * form.runs + 5;
    runs::store(bytes, from, form.first, s, n, first);
    if form.runs == 1 {
        return;
    }
    let p = from + (8 * s + 5) * n;
    runs::store(bytes, p, form.second, s, m, second);
}

// Reads a form into a block for each run: judges all of it, then fills. The second block is not touched where the form has one run.
fn read_form(bytes: &[u8], first: &mut [u64], second: &mut [u64], form: Form) -> Result<(), Refusal>
    requires { FormKind form }
    ensures { outcome (judged_says result) (each_of form first.new second.new)
        ≡ read_call form bytes.now (each_of form first.old second.old) }
{
    verdicts::judge_form(bytes, form)?;
    let n = numbers::get2(bytes, 3) as usize;
    let m = records::second_count(bytes, form.runs) as usize;
    verdicts::out_refusal(form, first.len(), n, second.len(), m)?;
    store_runs(bytes, form, n, m, first, second);
    Ok(())
}

// Reads the byte form of a set into a block. A refused call changes nothing.
#[tactic(auto, using(verdicts::proofs::Whole::form_kinds))]
pub fn read_set(bytes: &[u8], out: &mut [u64]) -> Result<(), Refusal>
    ensures { outcome (judged_says result) (out.new ∷ []) ≡ read_set_call bytes.now out.old }
{
    let mut none = [0u64; 1];
    read_form(bytes, out, &mut none, verdicts::SET_FORM)
}

// Reads the byte form of a map into a block. A refused call changes nothing.
#[tactic(auto, using(verdicts::proofs::Whole::form_kinds))]
pub fn read_map(bytes: &[u8], out: &mut [u64]) -> Result<(), Refusal>
    ensures { outcome (judged_says result) (out.new ∷ []) ≡ read_map_call bytes.now out.old }
{
    let mut none = [0u64; 1];
    read_form(bytes, out, &mut none, verdicts::MAP_FORM)
}

// Reads the byte form of a signed set into a set block, as the words of its keys. A refused call changes nothing.
#[tactic(auto, using(verdicts::proofs::Whole::form_kinds))]
pub fn read_signed(bytes: &[u8], out: &mut [u64]) -> Result<(), Refusal>
    ensures { outcome (judged_says result) (out.new ∷ []) ≡ read_signed_call bytes.now out.old }
{
    let mut none = [0u64; 1];
    read_form(bytes, out, &mut none, verdicts::SIGNED_FORM)
}

// Reads the byte form of a bulletin into a block of released ranges and one of withdrawn ranges. A refused call changes neither.
#[tactic(auto, using(verdicts::proofs::Whole::form_kinds))]
pub fn read_bulletin(
    bytes: &[u8],
    released: &mut [u64],
    withdrawn: &mut [u64],
) -> Result<(), Refusal>
    ensures { outcome (judged_says result) (released.new ∷ withdrawn.new ∷ [])
        ≡ read_bulletin_call bytes.now released.old withdrawn.old }
{
    read_form(bytes, released, withdrawn, verdicts::BULLETIN_FORM)
}

// The blocks that a form is written from are sound and share no number; or their first refusal: 1, 2, 3 of each, then 14.
fn block_refusal(first: &[u64], second: &[u64], form: Form) -> Result<(), Refusal>
    requires { FormKind form }
    ensures { FirstOf (block_refusals form (each_of form first.now second.now)) result }
{
    blocks::judge(first, form.layout, 0)?;
    if form.runs == 1 {
        return Ok(());
    }
    blocks::judge(second, form.layout, 1)?;
    if searches::share_number(first, second) {
        return Err(Reason::Overlap.at(0));
    }
    Ok(())
}

// The count of the second block of a form, or 0 where the form has one run.
fn second_held(second: &[u64], runs: usize) -> usize
    requires { runs ≤ 1 + length second.now }
    ensures { result ≡ count_held runs second.now }
{
    if 1 < runs {
        return second[0] as usize;
    }
    0
}

// Whether a buffer of len bytes cannot take a form of this size at place p.
fn no_space(p: usize, size: usize, len: usize) -> bool
    ensures { result ≡ no_space p size len }
{
    len < p || len - p < size
}

// Writes the form of the n and m items of the blocks, with the new mark, at the front of the bytes.
fn put_form(first: &[u64], n: usize, second: &[u64], m: usize, bytes: &mut [u8], form: Form)
    requires { Puts form n m first.now second.now bytes.old }
    ensures { bytes.new ≡ over (form_of new_mark form (each_of form (items_of form.layout.width n (drop 1 first.now)) (items_of
        form.layout.width m (drop 1 second.now)))) bytes.old }
{
    let s = form.layout.width;
    let from = 2 * form.runs + 5;
    records::write_start(bytes, form.start, form.runs, n as u64, m as u64);
    runs::write_run(&first[1..], s, n, form.first, &mut bytes[from..]);
    if form.runs == 1 {
        return;
    }
    let p = from + (8 * s + 5) * n;
    runs::write_run(&second[1..], s, m, form.second, &mut bytes[p..]);
}

// Writes a form, from a block for each run, into the bytes from place p on. A refused call changes nothing.
fn write_form(
    first: &[u64],
    second: &[u64],
    bytes: &mut [u8],
    p: usize,
    form: Form,
) -> Result<usize, Refusal>
    requires { FormKind form }
    ensures { outcome (written_says result) (bytes.new ∷ [])
        ≡ write_call form (each_of form first.now second.now) bytes.old p }
{
    block_refusal(first, second, form)?;
    let n = first[0] as usize;
    let m = second_held(second, form.runs);
    let size = 2 * form.runs + 5 + (8 * form.layout.width + 5) * (n + m);
    if no_space(p, size, bytes.len()) {
        return Err(Reason::NoSpace.at(0));
    }
    put_form(first, n, second, m, &mut bytes[p..], form);
    Ok(size)
}

// Writes the byte form of a set into the bytes from place p on, and answers its length. A refused call changes nothing.
#[tactic(auto, using(verdicts::proofs::Whole::form_kinds))]
pub fn write_set(block: &[u64], bytes: &mut [u8], p: usize) -> Result<usize, Refusal>
    ensures { outcome (written_says result) (bytes.new ∷ []) ≡ write_set_call block.now bytes.old p }
{
    write_form(block, block, bytes, p, verdicts::SET_FORM)
}

// Writes the byte form of a map into the bytes from place p on, and answers its length. A refused call changes nothing.
#[tactic(auto, using(verdicts::proofs::Whole::form_kinds))]
pub fn write_map(block: &[u64], bytes: &mut [u8], p: usize) -> Result<usize, Refusal>
    ensures { outcome (written_says result) (bytes.new ∷ []) ≡ write_map_call block.now bytes.old p }
{
    write_form(block, block, bytes, p, verdicts::MAP_FORM)
}

// Writes the byte form of a signed set, from a set block with the words of its keys, into the bytes from place p on, and answers its
// length. A refused call changes nothing.
#[tactic(auto, using(verdicts::proofs::Whole::form_kinds))]
pub fn write_signed(block: &[u64], bytes: &mut [u8], p: usize) -> Result<usize, Refusal>
    ensures { outcome (written_says result) (bytes.new ∷ []) ≡ write_signed_call block.now bytes.old p }
{
    write_form(block, block, bytes, p, verdicts::SIGNED_FORM)
}

// Writes the byte form of a bulletin into the bytes from place p on, and answers its length. A refused call changes nothing.
#[tactic(auto, using(verdicts::proofs::Whole::form_kinds))]
pub fn write_bulletin(
    released: &[u64],
    withdrawn: &[u64],
    bytes: &mut [u8],
    p: usize,
) -> Result<usize, Refusal>
    ensures { outcome (written_says result) (bytes.new ∷ [])
        ≡ write_bulletin_call released.now withdrawn.now bytes.old p }
{
    write_form(released, withdrawn, bytes, p, verdicts::BULLETIN_FORM)
}

// Judges the bytes as the form of a set and stores nothing; answers the number of its ranges.
#[tactic(auto, using(verdicts::proofs::Whole::form_kinds))]
pub fn judge_set(bytes: &[u8]) -> Result<usize, Refusal>
    ensures { outcome (form_says result) [] ≡ judge_set_call bytes.now }
{
    verdicts::judge_form(bytes, verdicts::SET_FORM)?;
    Ok(numbers::get2(bytes, 3) as usize)
}

// Whether x is a member of the set whose byte form the bytes are: 1 member, 0 not, 16 plus the number of the refusal where they are
// not the byte form of a set.
#[tactic(auto, using(verdicts::proofs::Whole::form_kinds))]
pub fn member(bytes: &[u8], x: u64) -> u64
    ensures { result ≡ member_of_form_call bytes.now x }
{
    if let Err(f) = verdicts::judge_form(bytes, verdicts::SET_FORM) {
        return 16 + u64::from(u8::from(f.reason));
    }
    let n = numbers::get2(bytes, 3) as usize;
    u64::from(verdicts::holds(bytes, 0x10, 7, n, x))
}
