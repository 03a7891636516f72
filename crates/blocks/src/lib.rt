// Blocks of words: judged, and moved within. A layout says how many words an item takes, two in a set and three in a map.
#![tactic(auto)]

ghost use Rattle.std.specs.Prelude.{◌≡◌, ℕ, ◌+◌, ◌<◌, ◌≤◌, [], ◌∷◌, length, get_or, take, drop};
ghost use Rattle.entries.specs.Build.{pick, same_words};
ghost use Rattle.blocks.specs.Blocks.{items_of, capacity, fine, soundb};
ghost use Rattle.answers.specs.Steps.{FirstOf};
ghost use Rattle.blocks.specs.Calls.{input, output};
ghost use Rattle.blocks.specs.Steps.{item_from, Held, Cleared, Spliced};

use answers::{Reason, Refusal};

// The last number that a word says, 2^64 - 1.
pub const M: u64 = 18446744073709551615;

// How a block is laid out: the words an item takes, and the most items that it holds.
#[derive(Clone, Copy)]
pub struct Layout {
    pub width: usize,
    pub limit: usize,
}

// A set: low and high of each range. A map: low, high and value of each entry.
pub const SET: Layout = Layout {
    width: 2,
    limit: 4095,
};

pub const MAP: Layout = Layout {
    width: 3,
    limit: 2730,
};

// The capacity of a block of len words, of which there is at least one.
pub fn room_for(layout: Layout, len: usize) -> usize
    requires { (2 ≤ layout.width) × (0 < len) }
    ensures { result ≡ capacity layout len }
{
    let c = (len - 1) / layout.width;
    if c < layout.limit { c } else { layout.limit }
}

// One of two counts or places: a choice without a branch.
pub fn chosen(test: bool, then: usize, otherwise: usize) -> usize
    ensures { result ≡ pick test then otherwise }
{
    if test { then } else { otherwise }
}

// Whether len words of a from p on are those of b from q on.
#[tactic(auto, using(crate::proofs::Tests::same_pointwise))]
pub fn same_words(a: &[u64], p: usize, b: &[u64], q: usize, len: usize) -> bool
    requires { (p + len ≤ length a.now) × (q + len ≤ length b.now) }
    ensures { result ≡ same_words (take len (drop p a.now)) (take len (drop q b.now)) }
{
    a[p..p + len] == b[q..q + len]
}

// Whether the item at word p has its low at most its high, and the next one may stand after it: it begins past that high, and
// where it touches it has another value.
#[tactic(auto, using(crate::proofs::Tests::backwards, crate::proofs::Tests::overlaps, crate::proofs::Tests::apart, crate::proofs::Tests::touching))]
fn follows(block: &[u64], s: usize, p: usize) -> bool
    requires { (2 ≤ s) × (p + s + s ≤ length block.now) }
    ensures { result ≡ fine (item_from s block.now p) (item_from s block.now (p + s) ∷ []) }
{
    let low = block[p];
    let high = block[p + 1];
    if high < low {
        return false;
    }
    let next = block[p + s];
    if next <= high {
        return false;
    }
    if 1 < next - high {
        return true;
    }
    !same_words(block, p + 2, block, p + s + 2, s - 2)
}

// Whether the n items of s words are sound: each in order, and each may stand after the one before it.
fn items_sound(block: &[u64], s: usize, n: usize) -> bool
    requires { Held s n block.now }
    ensures { result ≡ soundb (items_of s n (drop 1 block.now)) }
{
    for i in 1..n {
        if !follows(block, s, s * (i - 1) + 1) {
            return false;
        }
    }
    if n == 0 {
        return true;
    }
    let last = s * (n - 1) + 1;
    block[last] <= block[last + 1]
}

// The same, with the words of a range told apart: where every item has two, the compiler knows how far it is to the next.
fn all_sound(block: &[u64], s: usize, n: usize) -> bool
    requires { Held s n block.now }
    ensures { result ≡ soundb (items_of s n (drop 1 block.now)) }
{
    if s == 2 {
        return items_sound(block, 2, n);
    }
    items_sound(block, s, n)
}

// The judge of any words lent as a block at a position of a call: accepted where they are a sound block of the layout, else its refusal.
pub fn judge(block: &[u64], layout: Layout, position: usize) -> Result<(), Refusal>
    requires { 2 ≤ layout.width }
    ensures { FirstOf (input position layout block.now ∷ []) result }
{
    if block.len() == 0 {
        return Err(Reason::NoBlock.at(position));
    }
    let n = block[0] as usize;
    if room_for(layout, block.len()) < n {
        return Err(Reason::Count.at(position));
    }
    if all_sound(block, layout.width, n) {
        return Ok(());
    }
    Err(Reason::Order.at(position))
}

// The first refusal of two blocks that are read, the first of which stands at a position.
#[tactic(auto, using(answers::proofs::Turns::stop_first, answers::proofs::Turns::pass_first))]
pub fn judge_two(
    a: &[u64],
    first: Layout,
    b: &[u64],
    second: Layout,
    position: usize,
) -> Result<(), Refusal>
    requires { (2 ≤ first.width) × (2 ≤ second.width) × (position < 8) }
    ensures { FirstOf (input position first a.now ∷ input (position + 1) second b.now ∷ []) result }
{
    judge(a, first, position)?;
    judge(b, second, position + 1)
}

// The judge of a block of so many words that is to be written, at a position of a call: its old words are not looked at.
#[tactic(auto, using(crate::proofs::Refusing::output_empty, crate::proofs::Refusing::output_some))]
pub fn judge_output(words: usize, position: usize) -> Result<(), Refusal>
    ensures { FirstOf (output position words ∷ []) result }
{
    if words == 0 {
        return Err(Reason::NoBlock.at(position));
    }
    Ok(())
}

// Writes 0 to every word from `from` on.
#[tactic(auto, using(crate::proofs::Copying::cleared_none))]
pub fn clear(block: &mut [u64], from: usize)
    ensures { Cleared block.old from block.new }
{
    if from < block.len() {
        block[from..].fill(0);
    }
}

// Writes new to block from `at` on. The loop needs no function of the host's, as copy_from_slice would (memmove).
fn paste(block: &mut [u64], at: usize, new: &[u64])
    requires { at + length new.now ≤ length block.old }
    ensures len { length block.new ≡ length block.old }
    ensures before { (k : ℕ) → k < at → get_or block.new k 0 ≡ get_or block.old k 0 }
    ensures here { (k : ℕ) → k < length new.now → get_or block.new (at + k) 0 ≡ get_or new.now k 0 }
    ensures after { (k : ℕ) → at + length new.now ≤ k → get_or block.new k 0 ≡ get_or block.old k 0 }
{
    for k in 0..new.len() {
        block[at + k] = new[k];
    }
}

// Puts new in the place of the words from `at` up to `from`: the words before `at` stay, those from `from` up to `end` move behind
// new. Then count is word 0, and every word behind them is 0.
pub fn splice(block: &mut [u64], new: &[u64], at: usize, from: usize, end: usize, count: u64)
    requires { (0 < at) × (from ≤ end) × (end ≤ length block.old) × (end + at + length new.now ≤ length block.old + from) }
    ensures { (length block.new ≡ length block.old)
        × Spliced block.old new.now at from end count block.new }
{
    let to = at + new.len();
    block.copy_within(from..end, to);
    paste(block, at, new);
    block[0] = count;
    clear(block, to + (end - from));
}
