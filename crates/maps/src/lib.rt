// Range maps: numbers from 0 to 2^64 - 1 to records, in lent blocks of words laid out as `blocks::MAP` says.
// Every call takes any words at all. Its contract names the whole outcome by one definition of specs/Calls.
#![tactic(auto)]

ghost use Rattle.std.specs.Prelude.{◌≡◌, [], ◌∷◌};
ghost use Rattle.entries.specs.Entries.{value_at};
ghost use Rattle.answers.specs.Answers.{outcome, given};
ghost use Rattle.answers.specs.Says.{judged_says, found_says, parted_says, decided_says, if_any, one_value};
ghost use Rattle.answers.specs.Steps.{FirstOf};
ghost use Rattle.blocks.specs.Blocks.{SoundBlock, map_layout};
ghost use Rattle.maps.specs.Calls.{map_entries, worth, look_up_call, assign_call, erase_call, overlay_call, restriction_call, domain_call};
ghost use Rattle.maps.specs.Calls.{map_window_call, map_window_at_call, map_window_refusal_call, site_refusals, site_refusal_call, at_position};
ghost use Rattle.maps.specs.Calls.{deciding, site_over_factory_call, site_over_factory_at_call};
ghost use Rattle.maps.specs.Steps.{DecidingOf};
ghost use Rattle.searches.specs.Parts.{part, IsPart};

use answers::{Deciding, Part, Refusal};
use operations::Layouts;

// The value of x in a sound map.
#[tactic(auto, using(crate::proofs::Looking::value_none, crate::proofs::Looking::value_held, crate::proofs::Looking::value_is))]
fn value_in(block: &[u64], x: u64) -> Option<u64>
    requires { SoundBlock map_layout block.now }
    ensures { given (if_any one_value result) ≡ worth (value_at (map_entries block.now) x) }
{
    let entry = searches::entry_part(block, blocks::MAP, x);
    if entry.length == 0 {
        return None;
    }
    Some(block[entry.place + 2])
}

// The value of x, or none. A value is any word, 0 included.
#[tactic(auto, using(blocks::proofs::Refusing::accepted_sound, answers::proofs::Turns::refused_by, answers::proofs::Turns::given_by), unfolding(crate::specs::Calls::look_up_call))]
pub fn look_up(block: &[u64], x: u64) -> Result<Option<u64>, Refusal>
    ensures { outcome (found_says result) [] ≡ look_up_call block.now x }
{
    blocks::judge(block, blocks::MAP, 0)?;
    Ok(value_in(block, x))
}

// Assigns v to a..b: afterwards each of its numbers has the value v, whatever it had before, and all others are as they were.
pub fn assign(block: &mut [u64], a: u64, b: u64, v: u64) -> Result<(), Refusal>
    ensures { outcome (judged_says result) (block.new ∷ []) ≡ assign_call block.old a b v }
{
    let mut new = [a, b, v];
    edits::edit_put(block, &mut new, blocks::MAP)
}

// Erases a..b: afterwards none of its numbers has a value, and all others are as they were.
pub fn erase(block: &mut [u64], a: u64, b: u64) -> Result<(), Refusal>
    ensures { outcome (judged_says result) (block.new ∷ []) ≡ erase_call block.old a b }
{
    edits::edit_out(block, blocks::MAP, a, b)
}

// The upper map's value where it has one, else the lower's, into out.
#[tactic(auto, using(crate::proofs::Operating::overlay_fit, crate::proofs::Operating::overlay_as), unfolding(crate::specs::Calls::overlay_call))]
pub fn overlay(upper: &[u64], lower: &[u64], out: &mut [u64]) -> Result<(), Refusal>
    ensures { outcome (judged_says result) (out.new ∷ []) ≡ overlay_call
        upper.now lower.now out.old }
{
    let layouts = Layouts {
        first: blocks::MAP,
        second: blocks::MAP,
        out: blocks::MAP,
    };
    operations::from_two(upper, lower, sweeps::IN_EITHER, layouts, 2, out)
}

// The map's values at the set's numbers, into out.
#[tactic(auto, using(crate::proofs::Operating::restriction_fit, crate::proofs::Operating::restriction_as), unfolding(crate::specs::Calls::restriction_call))]
pub fn restriction(map: &[u64], set: &[u64], out: &mut [u64]) -> Result<(), Refusal>
    ensures { outcome (judged_says result) (out.new ∷ []) ≡ restriction_call
        map.now set.now out.old }
{
    let layouts = Layouts {
        first: blocks::MAP,
        second: blocks::SET,
        out: blocks::MAP,
    };
    operations::from_two(map, set, sweeps::IN_BOTH, layouts, 1, out)
}

// The set of the numbers that have a value, into out.
#[tactic(auto, using(crate::proofs::Operating::domain_fit, crate::proofs::Operating::domain_as), unfolding(crate::specs::Calls::domain_call))]
pub fn domain(map: &[u64], out: &mut [u64]) -> Result<(), Refusal>
    ensures { outcome (judged_says result) (out.new ∷ []) ≡ domain_call map.now out.old }
{
    operations::from_one(map, sweeps::IN_FIRST, blocks::MAP, blocks::SET, out)
}

// [G2] The part of the block that holds the entries which share a number with a..b; refused, a part of no words.
pub fn window(block: &[u64], a: u64, b: u64) -> &[u64]
    ensures { IsPart block.entry result (map_window_call block.now a b) }
{
    searches::window(block, blocks::MAP, a, b)
}

// The same part, as the place of its first word and the number of its words; or that no entry shares a number with a..b.
pub fn window_at(block: &[u64], a: u64, b: u64) -> Result<Option<Part>, Refusal>
    ensures { outcome (parted_says result) [] ≡ map_window_at_call block.now a b }
{
    searches::window_at(block, blocks::MAP, a, b)
}

// The refusal of the window a..b, or that there is none.
pub fn window_refusal(block: &[u64], a: u64, b: u64) -> Result<(), Refusal>
    ensures { outcome (judged_says result) [] ≡ map_window_refusal_call block.now a b }
{
    searches::window_refusal(block, blocks::MAP, a, b)
}

// The entry that decides x in two sound maps: the site map's where it has a value, else the factory map's, else its empty part.
#[tactic(auto, using(crate::proofs::Sites::site_decides, crate::proofs::Sites::factory_decides))]
fn deciding_of(site: &[u64], factory: &[u64], x: u64) -> Deciding
    requires { SoundBlock map_layout site.now × SoundBlock map_layout factory.now }
    ensures { DecidingOf site.now factory.now x result }
{
    let own = searches::entry_part(site, blocks::MAP, x);
    if own.length != 0 {
        return Deciding {
            position: 0,
            place: own.place,
            length: own.length,
        };
    }
    let other = searches::entry_part(factory, blocks::MAP, x);
    Deciding {
        position: 1,
        place: other.place,
        length: other.length,
    }
}

// The words of the entry that decides x in two sound maps, as a part of the map that holds it.
fn deciding_part<'a>(site: &'a [u64], factory: &'a [u64], x: u64) -> &'a [u64]
    requires { SoundBlock map_layout site.now × SoundBlock map_layout factory.now }
    ensures { IsPart (at_position (deciding site.now factory.now x).position site.entry factory.entry) result
        (part (deciding site.now factory.now x).place (deciding site.now factory.now x).length) }
{
    let d = deciding_of(site, factory, x);
    let from = d.place;
    let to = d.place + d.length;
    if d.position == 0 {
        return &site[from..to];
    }
    &factory[from..to]
}

// The first refusal of the two maps, of which the site map stands at 0.
fn judge_both(site: &[u64], factory: &[u64]) -> Result<(), Refusal>
    ensures { FirstOf (site_refusals site.now factory.now) result }
{
    blocks::judge_two(site, blocks::MAP, factory, blocks::MAP, 0)
}

// The refusal of the same question: of the site map, else of the factory map, whatever x is; or that there is none.
#[tactic(auto, using(answers::proofs::Turns::answered_by), unfolding(crate::specs::Calls::site_refusal_call))]
pub fn site_over_factory_refusal(site: &[u64], factory: &[u64], x: u64) -> Result<(), Refusal>
    ensures { outcome (judged_says result) [] ≡ site_refusal_call site.now factory.now x }
{
    judge_both(site, factory)
}

// [G1] The three words of the entry that decides x: the site map's where it has a value, else the factory map's, else a part of no words.
pub fn site_over_factory<'a>(site: &'a [u64], factory: &'a [u64], x: u64) -> &'a [u64]
    ensures { IsPart (at_position (site_over_factory_call site.now factory.now x).position site.entry factory.entry) result
        (part (site_over_factory_call site.now factory.now x).place
        (site_over_factory_call site.now factory.now x).length) }
{
    match judge_both(site, factory) {
        Ok(_) => deciding_part(site, factory, x),
        Err(_) => &site[0..0],
    }
}

// The same entry, as the place and the length of its part and the position of its map; or that no entry decides.
#[tactic(auto, using(blocks::proofs::Judging::verdict_sound, answers::proofs::Turns::refused_by, answers::proofs::Turns::given_by, crate::proofs::Sites::decided_nothing, crate::proofs::Sites::decided_entry), unfolding(crate::specs::Calls::site_over_factory_at_call))]
pub fn site_over_factory_at(
    site: &[u64],
    factory: &[u64],
    x: u64,
) -> Result<Option<Deciding>, Refusal>
    ensures { outcome (decided_says result) [] ≡ site_over_factory_at_call site.now factory.now x }
{
    judge_both(site, factory)?;
    let d = deciding_of(site, factory, x);
    if d.length == 0 {
        return Ok(None);
    }
    Ok(Some(d))
}
