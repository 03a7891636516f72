// Sets of numbers from 0 to 2^64 - 1 in lent blocks of words: questions, and changes.
// Every call takes any words at all. Its contract names the whole outcome by one definition of specs/Calls.
#![tactic(auto)]

ghost use Rattle.std.specs.Prelude.{◌≡◌, [], ◌∷◌, ◌+◌};
ghost use Rattle.entries.specs.Sets.{member};
ghost use Rattle.entries.specs.Questions.{range_at, size_of, least_member, is_empty};
ghost use Rattle.sweeps.specs.Sweeps.{sweep_result};
ghost use Rattle.blocks.specs.Blocks.{set_layout, SoundBlock, entries_of};
ghost use Rattle.operations.specs.Calls.{from_two};
ghost use Rattle.operations.specs.Steps.{TwoFit};
ghost use Rattle.answers.specs.Answers.{outcome, given, truth, optional};
ghost use Rattle.answers.specs.Says.{judged_says, truth_says, seated_says, found_says, ranged_says, sized_says, parted_says};
ghost use Rattle.answers.specs.Says.{if_any, one_value, two_values};
ghost use Rattle.searches.specs.Parts.{IsPart};
ghost use Rattle.sets.specs.Calls.{make_empty_call, member_call, ends, range_at_call, size_call, least_member_call, non_member, least_non_member_call};
ghost use Rattle.sets.specs.Calls.{set_window_call, set_window_at_call, set_window_refusal_call, insert_call, remove_call, asked_two, equal_call};
ghost use Rattle.sets.specs.Calls.{within_call, disjoint_call};
ghost use Rattle.sets.specs.Calls.{union_call, intersection_call, difference_call, symmetric_difference_call, complement_call};
ghost use Rattle.sets.specs.Steps.{Counted, set_layouts};

use answers::{Part, Refusal, Seated};
use operations::Layouts;
use sweeps::Plan;

// Makes the block the empty set. Its old words are not judged.
#[tactic(auto, using(crate::proofs::Emptying::empty_stopped, crate::proofs::Emptying::empty_done))]
pub fn make_empty(block: &mut [u64]) -> Result<(), Refusal>
    ensures { outcome (judged_says result) (block.new ∷ []) ≡ make_empty_call block.old }
{
    blocks::judge_output(block.len(), 0)?;
    blocks::clear(block, 0);
    Ok(())
}

// Whether x is a member, and how many ranges lie wholly below it. The range at that index holds x, or is the next one above it.
#[tactic(auto, using(answers::proofs::Turns::refused_by, crate::proofs::Asking::give_asked), unfolding(crate::specs::Calls::member_call))]
pub fn member(block: &[u64], x: u64) -> Result<Seated, Refusal>
    ensures { outcome (seated_says result) [] ≡ member_call block.now x }
{
    blocks::judge(block, blocks::SET, 0)?;
    let spot = searches::spot_of(block, blocks::SET, x);
    if spot.inside {
        return Ok(Seated::Yes(spot.below));
    }
    Ok(Seated::No(spot.below))
}

// The range at index i of a sound set.
#[tactic(auto, using(crate::proofs::Asking::range_none, crate::proofs::Asking::range_is))]
fn range_in(block: &[u64], i: u64) -> Option<(u64, u64)>
    requires { SoundBlock set_layout block.now }
    ensures { given (if_any two_values result) ≡ ends (range_at (entries_of 2 block.now) i) }
{
    let n = searches::count_of(block);
    let k = i as usize;
    if n <= k {
        return None;
    }
    Some((block[2 * k + 1], block[2 * k + 2]))
}

// The low and high of the range at index i, counted from 0, or none.
#[tactic(auto, using(answers::proofs::Turns::refused_by, crate::proofs::Asking::give_asked), unfolding(crate::specs::Calls::range_at_call))]
pub fn range_at(block: &[u64], i: u64) -> Result<Option<(u64, u64)>, Refusal>
    ensures { outcome (ranged_says result) [] ≡ range_at_call block.now i }
{
    blocks::judge(block, blocks::SET, 0)?;
    Ok(range_in(block, i))
}

// The size less one of a sound set of n ranges, of which there is at least one.
#[tactic(auto, using(crate::proofs::Sizes::range_order, crate::proofs::Sizes::range_passed, crate::proofs::Sizes::all_passed, crate::proofs::Sizes::size_fits))]
fn size_less_one(block: &[u64], n: usize) -> u64
    requires { Counted block.now n }
    ensures { result + 1 ≡ size_of (entries_of 2 block.now) }
{
    let mut total = block[2] - block[1];
    for i in 1..n {
        total += block[2 * i + 2] - block[2 * i + 1] + 1;
    }
    total
}

// How many members: empty, or the number of them less one.
#[tactic(auto, using(answers::proofs::Turns::refused_by, crate::proofs::Asking::give_asked, crate::proofs::Sizes::size_none, crate::proofs::Sizes::size_some), unfolding(crate::specs::Calls::size_call))]
pub fn size(block: &[u64]) -> Result<Option<u64>, Refusal>
    ensures { outcome (sized_says result) [] ≡ size_call block.now }
{
    blocks::judge(block, blocks::SET, 0)?;
    let n = searches::count_of(block);
    if n == 0 {
        return Ok(None);
    }
    Ok(Some(size_less_one(block, n)))
}

// The least member of a sound set at or above x.
fn least_in(block: &[u64], x: u64) -> Option<u64>
    requires { SoundBlock set_layout block.now }
    ensures { given (if_any one_value result) ≡ optional (least_member (entries_of 2 block.now) x) }
{
    let spot = searches::spot_of(block, blocks::SET, x);
    if spot.inside {
        return Some(x);
    }
    if searches::count_of(block) <= spot.below {
        return None;
    }
    Some(block[2 * spot.below + 1])
}

// The least member at or above x, or none.
#[tactic(auto, using(answers::proofs::Turns::refused_by, crate::proofs::Asking::give_asked), unfolding(crate::specs::Calls::least_member_call))]
pub fn least_member(block: &[u64], x: u64) -> Result<Option<u64>, Refusal>
    ensures { outcome (found_says result) [] ≡ least_member_call block.now x }
{
    blocks::judge(block, blocks::SET, 0)?;
    Ok(least_in(block, x))
}

// The least number at or above x that is not in a sound set.
fn least_out(block: &[u64], x: u64) -> Option<u64>
    requires { SoundBlock set_layout block.now }
    ensures { given (if_any one_value result) ≡ optional (non_member (entries_of 2 block.now) x) }
{
    let spot = searches::spot_of(block, blocks::SET, x);
    if spot.inside {
        let high = block[2 * spot.below + 2];
        if high == blocks::M {
            return None;
        }
        return Some(high + 1);
    }
    Some(x)
}

// The least number at or above x that is not a member, or none.
#[tactic(auto, using(answers::proofs::Turns::refused_by, crate::proofs::Asking::give_asked), unfolding(crate::specs::Calls::least_non_member_call))]
pub fn least_non_member(block: &[u64], x: u64) -> Result<Option<u64>, Refusal>
    ensures { outcome (found_says result) [] ≡ least_non_member_call block.now x }
{
    blocks::judge(block, blocks::SET, 0)?;
    Ok(least_out(block, x))
}

// [G2] The part of the block that holds the ranges which share a number with a..b; refused, a part of no words.
pub fn window(block: &[u64], a: u64, b: u64) -> &[u64]
    ensures { IsPart block.entry result (set_window_call block.now a b) }
{
    searches::window(block, blocks::SET, a, b)
}

// The same part, as the place of its first word and the number of its words; or that no range shares a number with a..b.
pub fn window_at(block: &[u64], a: u64, b: u64) -> Result<Option<Part>, Refusal>
    ensures { outcome (parted_says result) [] ≡ set_window_at_call block.now a b }
{
    searches::window_at(block, blocks::SET, a, b)
}

// The refusal of the window a..b, or that there is none.
pub fn window_refusal(block: &[u64], a: u64, b: u64) -> Result<(), Refusal>
    ensures { outcome (judged_says result) [] ≡ set_window_refusal_call block.now a b }
{
    searches::window_refusal(block, blocks::SET, a, b)
}

// Inserts a..b: afterwards all of its numbers are members, and all others are as they were.
pub fn insert(block: &mut [u64], a: u64, b: u64) -> Result<(), Refusal>
    ensures { outcome (judged_says result) (block.new ∷ []) ≡ insert_call block.old a b }
{
    let mut new = [a, b];
    edits::edit_put(block, &mut new, blocks::SET)
}

// Removes a..b: afterwards none of its numbers is a member, and all others are as they were.
pub fn remove(block: &mut [u64], a: u64, b: u64) -> Result<(), Refusal>
    ensures { outcome (judged_says result) (block.new ∷ []) ≡ remove_call block.old a b }
{
    edits::edit_out(block, blocks::SET, a, b)
}

// Yes where the table keeps no number of the two sets.
fn keeps_none(a: &[u64], b: &[u64], table: u8) -> Result<bool, Refusal>
    ensures { outcome (truth_says result) [] ≡ asked_two a.now b.now
        (λ es fs. truth (is_empty (sweep_result table 2 es fs []))) }
{
    blocks::judge_two(a, blocks::SET, b, blocks::SET, 0)?;
    let plan = Plan {
        table,
        a: blocks::SET.width,
        b: blocks::SET.width,
        c: blocks::SET.width,
        out: blocks::SET.width,
    };
    let kept = operations::any_of_two(a, b, plan);
    Ok(!kept)
}

// Whether the two sets have the same members.
#[tactic(auto, using(crate::proofs::Operating::equal_asked))]
pub fn equal(a: &[u64], b: &[u64]) -> Result<bool, Refusal>
    ensures { outcome (truth_says result) [] ≡ equal_call a.now b.now }
{
    keeps_none(a, b, sweeps::JUST_ONE)
}

// Whether every member of the first is a member of the second.
#[tactic(auto, using(crate::proofs::Operating::within_asked))]
pub fn within(a: &[u64], b: &[u64]) -> Result<bool, Refusal>
    ensures { outcome (truth_says result) [] ≡ within_call a.now b.now }
{
    keeps_none(a, b, sweeps::FIRST_ALONE)
}

// Whether no number is a member of both.
#[tactic(auto, using(crate::proofs::Operating::disjoint_asked))]
pub fn disjoint(a: &[u64], b: &[u64]) -> Result<bool, Refusal>
    ensures { outcome (truth_says result) [] ≡ disjoint_call a.now b.now }
{
    keeps_none(a, b, sweeps::IN_BOTH)
}

// The numbers that a table keeps of two sets, into out.
fn two_sets(a: &[u64], b: &[u64], table: u8, out: &mut [u64]) -> Result<(), Refusal>
    requires { TwoFit table set_layouts 1 }
    ensures { outcome (judged_says result) (out.new ∷ []) ≡ from_two set_layout set_layout set_layout (λ es fs. sweep_result table 2 es fs [])
        a.now b.now out.old }
{
    let layouts = Layouts {
        first: blocks::SET,
        second: blocks::SET,
        out: blocks::SET,
    };
    operations::from_two(a, b, table, layouts, 1, out)
}

// The numbers of either set, into out.
#[tactic(auto, using(crate::proofs::Operating::union_fit, crate::proofs::Operating::union_made))]
pub fn union(a: &[u64], b: &[u64], out: &mut [u64]) -> Result<(), Refusal>
    ensures { outcome (judged_says result) (out.new ∷ []) ≡ union_call
        a.now b.now out.old }
{
    two_sets(a, b, sweeps::IN_EITHER, out)
}

// The numbers of both sets, into out.
#[tactic(auto, using(crate::proofs::Operating::intersection_fit, crate::proofs::Operating::intersection_made))]
pub fn intersection(a: &[u64], b: &[u64], out: &mut [u64]) -> Result<(), Refusal>
    ensures { outcome (judged_says result) (out.new ∷ []) ≡ intersection_call
        a.now b.now out.old }
{
    two_sets(a, b, sweeps::IN_BOTH, out)
}

// The numbers of the first set that are not in the second, into out.
#[tactic(auto, using(crate::proofs::Operating::difference_fit, crate::proofs::Operating::difference_made))]
pub fn difference(a: &[u64], b: &[u64], out: &mut [u64]) -> Result<(), Refusal>
    ensures { outcome (judged_says result) (out.new ∷ []) ≡ difference_call
        a.now b.now out.old }
{
    two_sets(a, b, sweeps::FIRST_ALONE, out)
}

// The numbers of exactly one of the sets, into out.
#[tactic(auto, using(crate::proofs::Operating::symmetric_fit, crate::proofs::Operating::symmetric_difference_made))]
pub fn symmetric_difference(a: &[u64], b: &[u64], out: &mut [u64]) -> Result<(), Refusal>
    ensures { outcome (judged_says result) (out.new ∷ []) ≡ symmetric_difference_call
        a.now b.now out.old }
{
    two_sets(a, b, sweeps::JUST_ONE, out)
}

// The numbers from 0 to 2^64 - 1 that are not in the set, into out.
#[tactic(auto, using(crate::proofs::Operating::complement_fit, crate::proofs::Operating::complement_made))]
pub fn complement(set: &[u64], out: &mut [u64]) -> Result<(), Refusal>
    ensures { outcome (judged_says result) (out.new ∷ []) ≡ complement_call set.now out.old }
{
    operations::from_one(set, sweeps::NOT_FIRST, blocks::SET, blocks::SET, out)
}
