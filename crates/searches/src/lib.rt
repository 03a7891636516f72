// Finding a place in a judged block: where a number sits, the items that meet a window, and whether two sets share a number.
#![tactic(auto)]

ghost use Rattle.std.specs.Prelude.{ℕ, ◌≡◌, [], ◌+◌, ◌≤◌, ◌<◌, length, get_or};
ghost use Rattle.entries.specs.Bulletins.{shareb};
ghost use Rattle.answers.specs.Answers.{outcome};
ghost use Rattle.answers.specs.Says.{judged_says, parted_says};
ghost use Rattle.answers.specs.Steps.{FirstOf};
ghost use Rattle.blocks.specs.Blocks.{SoundBlock, set_layout, entries_of};
ghost use Rattle.searches.specs.Calls.{window_part, window_refusals, window_refusal_call, window_call, window_at_call};
ghost use Rattle.searches.specs.Parts.{IsPart};
ghost use Rattle.searches.specs.Steps.{Rising, First, Sorted, FirstFrom, SpotOf, EntryOf, Windowed, PartOf};

use answers::{Part, Reason, Refusal};
use blocks::Layout;

// Where a number sits in a block: how many items lie wholly below it, and whether the next one holds it.
#[derive(Clone, Copy)]
pub struct Spot {
    pub below: usize,
    pub inside: bool,
}

// The number of items of a block.
pub fn count_of(block: &[u64]) -> usize
    requires { 0 < length block.now }
    ensures { result ≡ get_or block.now 0 0 }
{
    block[0] as usize
}

// [L1] The first of n numbers that is at least x, or n. They do not fall, and it is found by halving, in 12 steps at most among 4,095. A
// step is a choice and not a branch, which no predictor could foretell.
pub fn first_reaching<F: Fn(usize) -> u64>(n: usize, x: u64, number: F) -> usize
    ghost numbers: { ℕ → ℕ }
    requires asked { (k : ℕ) → k < n → F.pre number k }
    requires told { (k v : ℕ) → k < n → F.post number k v → v ≡ numbers k }
    requires rising { Rising numbers n }
    ensures { First numbers n x result }
{
    let mut low: usize = 0;
    let mut high = n;
    while low < high {
        let middle = low + (high - low) / 2;
        let under = number(middle) < x;
        low = blocks::chosen(under, middle + 1, low);
        high = blocks::chosen(under, high, middle);
    }
    low
}

// The first of n items of s words whose high is at least x, or n.
fn first_from(block: &[u64], s: usize, n: usize, x: u64) -> usize
    requires { Sorted s 2 n block.now }
    ensures { FirstFrom block.now s 2 n x result }
{
    first_reaching(n, x, |k| block[s * k + 2])
}

// [W2] Where x sits in a sound block: how many items lie wholly below it, and whether one holds it. This is the one search of blocks: every
// call that needs the place of a number asks it.
pub fn spot_of(block: &[u64], layout: Layout, x: u64) -> Spot
    requires { (2 ≤ layout.width) × SoundBlock layout block.now }
    ensures { SpotOf layout block.now x result }
{
    let n = count_of(block);
    let below = first_from(block, layout.width, n, x);
    if n <= below {
        return Spot {
            below,
            inside: false,
        };
    }
    let low = block[layout.width * below + 1];
    Spot {
        below,
        inside: low <= x,
    }
}

// How many items of a sound block begin below x: those wholly below it, and the one that holds it, unless it begins there.
pub fn begun_before(block: &[u64], layout: Layout, x: u64) -> usize
    requires { (2 ≤ layout.width) × SoundBlock layout block.now }
    ensures { FirstFrom block.now layout.width 1 (get_or block.now 0 0) x result }
{
    let spot = spot_of(block, layout, x);
    if spot.inside {
        let low = block[layout.width * spot.below + 1];
        return blocks::chosen(low < x, spot.below + 1, spot.below);
    }
    spot.below
}

// How many items of a sound block end at or below x: those wholly below it, and the one that holds it, if it ends there.
pub fn ended_by(block: &[u64], layout: Layout, x: u64) -> usize
    requires { (2 ≤ layout.width) × SoundBlock layout block.now }
    ensures { FirstFrom block.now layout.width 2 (get_or block.now 0 0) (x + 1) result }
{
    let spot = spot_of(block, layout, x);
    if spot.inside {
        let high = block[layout.width * spot.below + 2];
        return blocks::chosen(high == x, spot.below + 1, spot.below);
    }
    spot.below
}

// The window x..x of a sound block: the entry that holds x, as a part of the block; no words, behind the entries below x, where none does.
pub fn entry_part(block: &[u64], layout: Layout, x: u64) -> Part
    requires { (2 ≤ layout.width) × SoundBlock layout block.now }
    ensures { EntryOf layout block.now x result }
{
    let spot = spot_of(block, layout, x);
    let place = layout.width * spot.below + 1;
    if spot.inside {
        return Part {
            place,
            length: layout.width,
        };
    }
    Part { place, length: 0 }
}

// The refusal of the window a..b of any words lent as a block, or that there is none: 1, 2, 3 of the block, then 4.
#[tactic(auto, using(crate::proofs::Windows::window_refused, crate::proofs::Windows::window_backwards, crate::proofs::Windows::window_right, answers::proofs::Turns::answered_by), unfolding(crate::specs::Calls::window_refusal_call))]
pub fn window_refusal(block: &[u64], layout: Layout, a: u64, b: u64) -> Result<(), Refusal>
    requires { 2 ≤ layout.width }
    ensures first { FirstOf (window_refusals layout block.now a b) result }
    ensures says { outcome (judged_says result) [] ≡ window_refusal_call layout block.now a b }
{
    blocks::judge(block, layout, 0)?;
    if b < a {
        return Err(Reason::Backwards.at(0));
    }
    Ok(())
}

// Where in a sound block the items that share a number with a..b stand, and how many words they take.
pub fn part_at(block: &[u64], layout: Layout, a: u64, b: u64) -> Part
    requires { Windowed layout block.now a b }
    ensures { PartOf layout.width block.now a b result }
{
    let first = spot_of(block, layout, a);
    let last = spot_of(block, layout, b);
    let end = blocks::chosen(last.inside, last.below + 1, last.below);
    let from = layout.width * first.below + 1;
    let to = layout.width * end + 1;
    Part {
        place: from,
        length: to - from,
    }
}

// [G2] The part of a sound block with the items that share a number with a..b.
fn meeting(block: &[u64], layout: Layout, a: u64, b: u64) -> &[u64]
    requires { Windowed layout block.now a b }
    ensures { IsPart block.entry result (window_part layout.width block.now a b) }
{
    let p = part_at(block, layout, a, b);
    let from = p.place;
    let to = p.place + p.length;
    &block[from..to]
}

// [G2] The part of the block with the items that share a number with a..b; refused, the part of no words at its front.
pub fn window(block: &[u64], layout: Layout, a: u64, b: u64) -> &[u64]
    requires { 2 ≤ layout.width }
    ensures { IsPart block.entry result (window_call layout block.now a b) }
{
    match window_refusal(block, layout, a, b) {
        Ok(_) => meeting(block, layout, a, b),
        Err(_) => &block[0..0],
    }
}

// The same part, as its place and its length; or that it is empty.
#[tactic(auto, using(answers::proofs::Turns::refused_by, answers::proofs::Turns::given_by, crate::proofs::Windows::part_empty, crate::proofs::Windows::part_some), unfolding(crate::specs::Calls::window_at_call))]
pub fn window_at(block: &[u64], layout: Layout, a: u64, b: u64) -> Result<Option<Part>, Refusal>
    requires { 2 ≤ layout.width }
    ensures { outcome (parted_says result) [] ≡ window_at_call layout block.now a b }
{
    window_refusal(block, layout, a, b)?;
    let p = part_at(block, layout, a, b);
    if p.length == 0 {
        return Ok(None);
    }
    Ok(Some(p))
}

// Whether two sound sets share a number: at each step one range is wholly below another and is passed, or they share one.
pub fn share_number(a: &[u64], b: &[u64]) -> bool
    requires { SoundBlock set_layout a.now × SoundBlock set_layout b.now }
    ensures { result ≡ shareb (entries_of 2 a.now) (entries_of 2 b.now) }
{
    let mut i: usize = 1;
    let mut left = count_of(a);
    let mut j: usize = 1;
    let mut others = count_of(b);
    while 0 < left {
        if others == 0 {
            return false;
        }
        let below = a[i + 1] < b[j];
        let above = b[j + 1] < a[i];
        if below == above {
            return true;
        }
        i = blocks::chosen(below, i + 2, i);
        left = blocks::chosen(below, left - 1, left);
        j = blocks::chosen(above, j + 2, j);
        others = blocks::chosen(above, others - 1, others);
    }
    false
}
