// Runs of item records of one kind, at any place of the bytes: judged, stored into a block, written.
#![tactic(auto)]

ghost use Rattle.std.specs.Prelude.{◌≡◌, [], ◌∷◌, ◌+◌, ◌*◌, ◌≤◌, length, drop};
ghost use Rattle.blocks.specs.Blocks.{items_of, words_of, block_of};
ghost use Rattle.numbers.specs.Numbers.{over};
ghost use Rattle.checks.specs.Check.{new_mark};
ghost use Rattle.records.specs.Steps.{ItemKind};
ghost use Rattle.runs.specs.Runs.{run_of, entries_in};
ghost use Rattle.runs.specs.Steps.{RunJudged, Fills};

use answers::Refusal;

// [G3] The n item records from place `from` on are good: the place behind them; or the first refusal.
pub fn judge_run(
    bytes: &[u8],
    from: usize,
    mark: u16,
    kind: u8,
    s: usize,
    n: usize,
) -> Result<usize, Refusal>
    requires { ItemKind kind s × (from ≤ length bytes.now) }
    ensures { RunJudged mark kind s n from bytes.now result }
{
    let mut before = None;
    for i in 0..n {
        let p = from + (8 * s + 5) * i;
        let read = records::read_item(&bytes[p..], mark, kind, s, before);
        let Ok(item) = read else {
            return Err(read.unwrap_err().at(p));
        };
        before = Some(item);
    }
    Ok(from + (8 * s + 5) * n)
}

// Fills the front of out with the words of the n item records at the front of the bytes.
fn fill_records(bytes: &[u8], kind: u8, s: usize, n: usize, out: &mut [u64])
    requires { Fills s n bytes.now out.old }
    ensures { out.new ≡ over (words_of (entries_in kind s n bytes.now)) out.old }
{
    for i in 0..n {
        records::fill_item(&bytes[(8 * s + 5) * i..], kind, s, &mut out[s * i..]);
    }
}

// The same: where every item has two words, the compiler knows how many bytes a record has.
fn fill_run(bytes: &[u8], kind: u8, s: usize, n: usize, out: &mut [u64])
    requires { Fills s n bytes.now out.old }
    ensures { out.new ≡ over (words_of (entries_in kind s n bytes.now)) out.old }
{
    if s == 2 {
        fill_records(bytes, kind, 2, n, out);
    } else {
        fill_records(bytes, kind, s, n, out);
    }
}

// [G4] Writes the n items whose words begin at the front of words as item records with the new mark, at the front of the bytes.
fn write_records(words: &[u64], s: usize, n: usize, kind: u8, bytes: &mut [u8])
    requires { ItemKind kind s × Fills s n bytes.old words.now }
    ensures { bytes.new ≡ over (run_of new_mark kind (items_of s n words.now)) bytes.old }
{
    for i in 0..n {
        let w = s * i;
        records::write_item(&mut bytes[(8 * s + 5) * i..], kind, &words[w..w + s]);
    }
}

// The same: where every item has two words, the compiler knows how many bytes a record has.
pub fn write_run(words: &[u64], s: usize, n: usize, kind: u8, bytes: &mut [u8])
    requires { ItemKind kind s × Fills s n bytes.old words.now }
    ensures { bytes.new ≡ over (run_of new_mark kind (items_of s n words.now)) bytes.old }
{
    if s == 2 {
        write_records(words, 2, n, kind, bytes);
    } else {
        write_records(words, s, n, kind, bytes);
    }
}

// Writes word 0.
fn put_count(out: &mut [u64], n: u64)
    requires { 1 ≤ length out.old }
    ensures { out.new ≡ over (n ∷ []) out.old }
{
    out[0] = n;
}

// Makes out the block of the n items whose records begin at place `from` and were judged good.
pub fn store(bytes: &[u8], from: usize, kind: u8, s: usize, n: usize, out: &mut [u64])
    requires { (from ≤ length bytes.now) × (1 ≤ length out.old) × Fills s n (drop from bytes.now) (drop 1 out.old) }
    ensures { out.new ≡ block_of (length out.old) (entries_in kind s n (drop from bytes.now)) }
{
    put_count(out, n as u64);
    fill_run(&bytes[from..], kind, s, n, &mut out[1..]);
    blocks::clear(out, 1 + s * n);
}
