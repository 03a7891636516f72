// One edit in place for sets and maps: an entry put into a block of any layout, or a range taken out of it.
#![tactic(auto)]

ghost use Rattle.std.specs.Prelude.{◌≡◌, suc, ◌+◌, ◌-◌, ◌*◌, ◌<◌, ◌≤◌, min, max, ◌++◌, [], ◌∷◌, ltb, length, get_or, take, drop};
ghost use Rattle.std.proofs.Math.Option.{none, some};
ghost use Rattle.entries.proofs.Put.{trim_end, trim_start, JoinsLeft, JoinsRight};
ghost use Rattle.answers.specs.Answers.{outcome};
ghost use Rattle.answers.specs.Says.{judged_says};
ghost use Rattle.blocks.specs.Blocks.{items_of, block_of};
ghost use Rattle.blocks.specs.Steps.{zero_item};
ghost use Rattle.blocks.specs.Calls.{stored};
ghost use Rattle.edits.specs.Calls.{edited, edit_call};
ghost use Rattle.edits.specs.Steps.{cut_end, cut_start, update, CutOk, PlaceOk, EditOk, PutOk, value_of};

use answers::{Reason, Refusal};
use blocks::Layout;

// The low that an entry keeps when every number up to hi is cut off it; its high is above hi, so some of it is left.
pub fn above(low: u64, hi: u64, high: u64) -> u64
    requires { hi < high }
    ensures { result ≡ max low (suc hi) }
{
    low.max(hi + 1)
}

// Cuts the entry whose high is word `at`, so that it ends before lo.
fn lower(block: &mut [u64], at: usize, lo: u64)
    requires { at < length block.old }
    ensures { block.new ≡ update block.old at (λ h. min h (lo - 1)) }
{
    block[at] = block[at].min(lo.saturating_sub(1));
}

// Cuts the entry whose low is word `at` and whose high is above hi, so that it begins after hi.
fn raise(block: &mut [u64], at: usize, hi: u64)
    requires { (at + 1 < length block.old) × (hi < get_or block.old (at + 1) 0) }
    ensures { block.new ≡ update block.old at (λ l. max l (suc hi)) }
{
    block[at] = above(block[at], hi, block[at + 1]);
}

// Cuts the last of the first i items, if there is one, so that it ends before lo.
fn cut_end(block: &mut [u64], s: usize, i: usize, lo: u64)
    requires { (2 ≤ s) × (1 + s * i ≤ length block.old) }
    ensures { block.new ≡ cut_end s i lo block.old }
{
    if i == 0 {
        return;
    }
    lower(block, s * (i - 1) + 2, lo);
}

// Cuts item k of m, if there is one, so that it begins after hi.
fn cut_start(block: &mut [u64], s: usize, k: usize, m: usize, hi: u64)
    requires { CutOk s k m hi block.old }
    ensures { block.new ≡ cut_start s k m hi block.old }
{
    if m <= k {
        return;
    }
    raise(block, s * k + 1, hi);
}

// Rewrites a block of n items: the first i, the last of them cut before lo; then the c new ones; then those from j on, the first of
// them cut after hi. Where i is above j, the item between them is split: a part of it stays on either side.
fn place(
    block: &mut [u64],
    new: &[u64],
    s: usize,
    n: usize,
    i: usize,
    j: usize,
    c: usize,
    lo: u64,
    hi: u64,
)
    requires { PlaceOk block.old new.now s n i j c hi }
    ensures { block.new ≡ block_of (length block.old)
        (trim_end lo (take i (items_of s n (drop 1 block.old)))
        ++ (items_of s c new.now ++ trim_start hi (drop j (items_of s n (drop 1 block.old))))) }
{
    let m = i + c + (n - j);
    blocks::splice(block, new, s * i + 1, s * j + 1, s * n + 1, m as u64);
    cut_end(block, s, i, lo);
    cut_start(block, s, i + c, m, hi);
}

// Whether a range that begins at y lies apart from one that ends at x: it neither shares a number with it nor touches it.
fn beyond(x: u64, y: u64) -> bool
    ensures { result ≡ ltb (suc x) y }
{
    x < y && 1 < y - x
}

// One side of an edit: how many items stay before the new entry, or the first that stays behind it; and the new entry's end there.
#[derive(Clone, Copy)]
pub struct Side {
    pub at: usize,
    pub end: u64,
}

// The side before a new entry: the items that begin before it stay, but that the last of them is joined with it, and gives it its
// low, if it touches or reaches into it and has the same value.
fn left_of(block: &[u64], new: &[u64], layout: Layout, n: usize) -> Side
    requires { PutOk block.now new.now layout n }
    ensures { JoinsLeft zero_item (items_of layout.width n (drop 1 block.now)) result.at result.end
        (get_or new.now 0 0) (value_of layout.width new.now) }
{
    let s = layout.width;
    let a = new[0];
    let i = searches::begun_before(block, layout, a);
    if i == 0 {
        return Side { at: 0, end: a };
    }
    let k = i - 1;
    if beyond(block[s * k + 2], a) {
        return Side { at: i, end: a };
    }
    if blocks::same_words(block, s * k + 3, new, 2, s - 2) {
        let low = block[s * k + 1];
        return Side { at: k, end: low };
    }
    Side { at: i, end: a }
}

// The side behind a new entry: the items that end after it stay, but that the first of them is joined with it, and gives it its
// high, if it touches or begins in it and has the same value.
fn right_of(block: &[u64], new: &[u64], layout: Layout, n: usize) -> Side
    requires { PutOk block.now new.now layout n }
    ensures { JoinsRight zero_item (items_of layout.width n (drop 1 block.now)) result.at result.end
        (get_or new.now 1 0) (value_of layout.width new.now) }
{
    let s = layout.width;
    let b = new[1];
    let j = searches::ended_by(block, layout, b);
    if n <= j {
        return Side { at: j, end: b };
    }
    if beyond(b, block[s * j + 1]) {
        return Side { at: j, end: b };
    }
    if blocks::same_words(block, s * j + 3, new, 2, s - 2) {
        let high = block[s * j + 2];
        return Side {
            at: j + 1,
            end: high,
        };
    }
    Side { at: j, end: b }
}

// Gives the new entry other ends.
fn set_ends(new: &mut [u64], lo: u64, hi: u64)
    requires { 2 ≤ length new.old }
    ensures { new.new ≡ lo ∷ hi ∷ drop 2 new.old }
{
    new[0] = lo;
    new[1] = hi;
}

// Puts the new entry into a sound block of n items; refused where there is no room, and then nothing is changed.
pub fn put_value(
    block: &mut [u64],
    new: &mut [u64],
    n: usize,
    layout: Layout,
) -> Result<(), Refusal>
    requires { PutOk block.old new.old layout n }
    ensures { outcome (judged_says result) (block.new ∷ []) ≡ stored 0 layout block.old
        (edited layout block.old (get_or new.old 0 0) (get_or new.old 1 0)
        (some (value_of layout.width new.old))) }
{
    let s = layout.width;
    let l = left_of(block, new, layout, n);
    let r = right_of(block, new, layout, n);
    let i = l.at;
    let j = r.at;
    let lo = l.end;
    let hi = r.end;
    if blocks::room_for(layout, block.len()) < i + 1 + (n - j) {
        return Err(Reason::Room.at(0));
    }
    set_ends(new, lo, hi);
    place(block, new, s, n, i, j, 1, lo, hi);
    Ok(())
}

// Takes a..b out of a sound block of n items; refused where there is no room, and then nothing is changed.
fn take_out(block: &mut [u64], n: usize, layout: Layout, a: u64, b: u64) -> Result<(), Refusal>
    requires { EditOk block.old layout n × (a ≤ b) }
    ensures { outcome (judged_says result) (block.new ∷ []) ≡ stored 0 layout block.old (edited layout block.old a b none) }
{
    let s = layout.width;
    let i = searches::begun_before(block, layout, a);
    let j = searches::ended_by(block, layout, b);
    if blocks::room_for(layout, block.len()) < i + (n - j) {
        return Err(Reason::Room.at(0));
    }
    place(block, &[], s, n, i, j, 0, a, b);
    Ok(())
}

// Gives the range new[0]..new[1] of any words lent as a block the value in the rest of new, or refuses it.
#[tactic(auto, using(crate::proofs::Sides::edit_refused, crate::proofs::Sides::edit_kept))]
pub fn edit_put(block: &mut [u64], new: &mut [u64], layout: Layout) -> Result<(), Refusal>
    requires { (2 ≤ layout.width) × (length new.old ≡ layout.width) }
    ensures { outcome (judged_says result) (block.new ∷ []) ≡ edit_call layout block.old
        (get_or new.old 0 0) (get_or new.old 1 0) (some (value_of layout.width new.old)) }
{
    searches::window_refusal(block, layout, new[0], new[1])?;
    let n = searches::count_of(block);
    put_value(block, new, n, layout)
}

// Takes the range a..b out of any words lent as a block, or refuses it.
#[tactic(auto, using(crate::proofs::Sides::edit_refused, crate::proofs::Sides::edit_kept))]
pub fn edit_out(block: &mut [u64], layout: Layout, a: u64, b: u64) -> Result<(), Refusal>
    requires { 2 ≤ layout.width }
    ensures { outcome (judged_says result) (block.new ∷ []) ≡ edit_call layout block.old a b none }
{
    searches::window_refusal(block, layout, a, b)?;
    let n = searches::count_of(block);
    take_out(block, n, layout, a, b)
}
