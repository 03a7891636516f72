// Fitting: a free run of k numbers in a window of a set, found by first fit or by best fit, and reserved. An aligned run starts at a
// multiple of 2^j. One walk serves all: where any start will do, j is 0.
// Every call takes any words at all. Its contract names the whole outcome by one definition of specs/Calls.
#![tactic(auto)]

ghost use Rattle.std.specs.Prelude.{◌≡◌, [], ◌∷◌, suc, ◌+◌, ◌-◌, ◌<◌, ◌≤◌, min, leb};
ghost use Rattle.entries.specs.Entries.{entry};
ghost use Rattle.entries.specs.Questions.{filter};
ghost use Rattle.answers.specs.Answers.{outcome};
ghost use Rattle.answers.specs.Steps.{FirstOf};
ghost use Rattle.answers.specs.Says.{placed_says};
ghost use Rattle.blocks.specs.Blocks.{entries_of};
ghost use Rattle.fits.specs.Fits.{gaps, fits, aligned};
ghost use Rattle.fits.specs.Calls.{first_fit_call, best_fit_call, reserve_first_call, reserve_best_call};
ghost use Rattle.fits.specs.Calls.{last_power, align_refusals, fit_aligned_call, reserve_aligned_call};
ghost use Rattle.fits.specs.Calls.{first_fit_aligned_call, best_fit_aligned_call, reserve_first_aligned_call, reserve_best_aligned_call};
ghost use Rattle.fits.specs.Steps.{chooser, enough_for, short, piece, Took, Trying, Asked, GapIs, Placing, reserving};

mod gap;

use answers::{Reason, Refusal};
pub use gap::Gap;

// Which of the gaps that a run fits in is chosen.
#[derive(Clone, Copy)]
enum Choice {
    First,
    Shortest,
}

impl Choice {
    // The length less one of a gap that no later gap can beat: any gap is one for first fit, one of k numbers for best fit.
    fn enough(self, k: u64) -> u64
        requires { 0 < k }
        ensures { result ≡ enough_for self k }
    {
        match self {
            Choice::First => blocks::M,
            Choice::Shortest => k - 1,
        }
    }
}

// The greatest j: 2^63 is the greatest power of two in a word.
const LAST_POWER: u64 = 63;

// [A3, A4] How far the least multiple of 2^j at or above low is from low: less than 2^j. The multiple itself may be 2^64, which no word holds.
fn ahead(low: u64, j: u64) -> u64
    requires { j ≤ last_power }
    ensures { low + result ≡ aligned j low }
{
    let ones = (1u64 << j) - 1;
    let over = low & ones;
    let more = ones - over;
    (more + 1) & ones
}

// Whether a gap is held that has at most less + 1 numbers.
fn within(best: Option<Gap>, less: u64) -> bool
    ensures { result ≡ short less best }
{
    best.is_some_and(|gap| gap.within(less))
}

// The gap held after low..high came: it is taken if it is shorter than the one held and k numbers fit in it from a multiple of 2^j on.
#[tactic(auto, using(crate::proofs::Walking::tried_short, crate::proofs::Walking::tried_keep, crate::proofs::Walking::tried_none, crate::proofs::Walking::tried_over, crate::proofs::Walking::tried_new))]
fn tried(best: Option<Gap>, low: u64, high: u64, k: u64, j: u64) -> Option<Gap>
    requires { Trying j best low high k }
    ensures { Took j k best (entry low high [] ∷ []) result }
{
    let less = high - low;
    if less < k - 1 {
        return best;
    }
    if within(best, less) {
        return best;
    }
    let up = ahead(low, j);
    if less < up {
        return best;
    }
    if less - up < k - 1 {
        return best;
    }
    Some(Gap { low, high })
}

// The gap held after the one from `from` up to low came, cut to the window's end b.
#[tactic(auto, using(crate::proofs::Walking::before_none, crate::proofs::Walking::before_cut, crate::proofs::Walking::before_range))]
fn gap_before(best: Option<Gap>, from: u64, low: u64, b: u64, k: u64, j: u64) -> Option<Gap>
    requires { Trying j best from b k }
    ensures { Took j k best (piece from (min (suc b) low)) result }
{
    if low <= from {
        return best;
    }
    if b < low {
        return tried(best, from, b, k, j);
    }
    tried(best, from, low - 1, k, j)
}

// [W2] The first gap of the window a..b in which k numbers fit from a multiple of 2^j on, or the shortest: one walk over the ranges of a sound
// set, from the first that does not lie wholly below the window.
#[tactic(auto, using(crate::proofs::Walking::walked_enough, crate::proofs::Walking::walked_over, crate::proofs::Walking::walked_end))]
fn gap_for(block: &[u64], a: u64, b: u64, k: u64, j: u64, choice: Choice) -> Option<Gap>
    requires { Asked block.now a b k j }
    ensures { GapIs j (chooser choice (filter (fits (aligned j) k) (gaps a b (entries_of 2 block.now)))) result }
{
    let enough = choice.enough(k);
    let spot = searches::spot_of(block, blocks::SET, a);
    let mut best = None;
    let mut from = a;
    for i in spot.below..searches::count_of(block) {
        let low = block[2 * i + 1];
        let high = block[2 * i + 2];
        best = gap_before(best, from, low, b, k, j);
        if within(best, enough) || b <= high {
            return best;
        }
        from = from.max(high + 1);
    }
    tried(best, from, b, k, j)
}

// The first refusal of a run of k in the window a..b from a multiple of 2^j on, before a place is sought, or that there is none.
#[tactic(auto, using(crate::proofs::Asking::ask_window, crate::proofs::Asking::ask_zero, crate::proofs::Asking::ask_high, crate::proofs::Asking::ask_right))]
fn ask_refusal(block: &[u64], a: u64, b: u64, k: u64, j: u64) -> Result<(), Refusal>
    ensures { FirstOf (align_refusals block.now a b k j) result }
{
    searches::window_refusal(block, blocks::SET, a, b)?;
    if k == 0 {
        return Err(Reason::ZeroRun.at(0));
    }
    if LAST_POWER < j {
        return Err(Reason::Align.at(0));
    }
    Ok(())
}

// The place for k numbers in the window a..b, a multiple of 2^j: in the first gap that they fit in, or in the shortest.
#[tactic(auto, using(crate::proofs::Asking::fit_refused))]
fn fit(block: &[u64], a: u64, b: u64, k: u64, j: u64, choice: Choice) -> Result<u64, Refusal>
    ensures { outcome (placed_says result) [] ≡ fit_aligned_call (chooser choice) block.now a b k j }
{
    ask_refusal(block, a, b, k, j)?;
    match gap_for(block, a, b, k, j, choice) {
        Some(gap) => Ok(gap.low + ahead(gap.low, j)),
        None => Err(Reason::NoGap.at(0)),
    }
}

// Inserts the k numbers from s on into a sound set, where there is room.
fn reserve_at(block: &mut [u64], s: u64, k: u64) -> Result<u64, Refusal>
    requires { Placing block.old s k }
    ensures { outcome (placed_says result) (block.new ∷ []) ≡ reserving block.old s k }
{
    let n = searches::count_of(block);
    let mut new = [s, s + (k - 1)];
    edits::put_value(block, &mut new, n, blocks::SET)?;
    Ok(s)
}

// The place of `fit`, with the k numbers from it on inserted.
#[tactic(auto, using(crate::proofs::Reserving::reserve_not, crate::proofs::Reserving::placing, crate::proofs::Reserving::reserve_at))]
fn reserve(
    block: &mut [u64],
    a: u64,
    b: u64,
    k: u64,
    j: u64,
    choice: Choice,
) -> Result<u64, Refusal>
    ensures { outcome (placed_says result) (block.new ∷ []) ≡ reserve_aligned_call (chooser choice) block.old a b k j }
{
    let s = fit(block, a, b, k, j, choice)?;
    reserve_at(block, s, k)
}

// The least start of k numbers of the window a..b that are all free.
#[tactic(auto, using(crate::proofs::Asking::by_fit))]
pub fn first_fit(block: &[u64], a: u64, b: u64, k: u64) -> Result<u64, Refusal>
    ensures { outcome (placed_says result) [] ≡ first_fit_call block.now a b k }
{
    fit(block, a, b, k, 0, Choice::First)
}

// The low end of the shortest gap of the window a..b with at least k numbers, the lowest such gap on a tie.
#[tactic(auto, using(crate::proofs::Asking::by_fit))]
pub fn best_fit(block: &[u64], a: u64, b: u64, k: u64) -> Result<u64, Refusal>
    ensures { outcome (placed_says result) [] ≡ best_fit_call block.now a b k }
{
    fit(block, a, b, k, 0, Choice::Shortest)
}

// Reserves the first fit: inserts the k numbers from it on, and answers it.
#[tactic(auto, using(crate::proofs::Asking::by_reserve))]
pub fn reserve_first(block: &mut [u64], a: u64, b: u64, k: u64) -> Result<u64, Refusal>
    ensures { outcome (placed_says result) (block.new ∷ []) ≡ reserve_first_call block.old a b k }
{
    reserve(block, a, b, k, 0, Choice::First)
}

// Reserves the best fit: inserts the k numbers from it on, and answers it.
#[tactic(auto, using(crate::proofs::Asking::by_reserve))]
pub fn reserve_best(block: &mut [u64], a: u64, b: u64, k: u64) -> Result<u64, Refusal>
    ensures { outcome (placed_says result) (block.new ∷ []) ≡ reserve_best_call block.old a b k }
{
    reserve(block, a, b, k, 0, Choice::Shortest)
}

// The least multiple of 2^j from which k numbers of the window a..b are all free. A j above 63 is refused.
pub fn first_fit_aligned(block: &[u64], a: u64, b: u64, k: u64, j: u64) -> Result<u64, Refusal>
    ensures { outcome (placed_says result) [] ≡ first_fit_aligned_call block.now a b k j }
{
    fit(block, a, b, k, j, Choice::First)
}

// The least multiple of 2^j in the shortest gap of the window a..b that holds k numbers from a multiple of 2^j on, the lowest such gap on a
// tie. A gap's length is that of the whole gap. A j above 63 is refused.
pub fn best_fit_aligned(block: &[u64], a: u64, b: u64, k: u64, j: u64) -> Result<u64, Refusal>
    ensures { outcome (placed_says result) [] ≡ best_fit_aligned_call block.now a b k j }
{
    fit(block, a, b, k, j, Choice::Shortest)
}

// Reserves the aligned first fit: inserts the k numbers from it on, and answers it.
pub fn reserve_first_aligned(
    block: &mut [u64],
    a: u64,
    b: u64,
    k: u64,
    j: u64,
) -> Result<u64, Refusal>
    ensures { outcome (placed_says result) (block.new ∷ []) ≡ reserve_first_aligned_call block.old a b k j }
{
    reserve(block, a, b, k, j, Choice::First)
}

// Reserves the aligned best fit: inserts the k numbers from it on, and answers it.
pub fn reserve_best_aligned(
    block: &mut [u64],
    a: u64,
    b: u64,
    k: u64,
    j: u64,
) -> Result<u64, Refusal>
    ensures { outcome (placed_says result) (block.new ∷ []) ≡ reserve_best_aligned_call block.old a b k j }
{
    reserve(block, a, b, k, j, Choice::Shortest)
}
