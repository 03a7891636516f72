// Every call of the library for a C host. A slice is passed as a pointer and then a length; include/wimblorque.h has the conventions.
// Each contract is the outcome of the call's own definition, as C is told it: `Tells`, of crate told.
#![tactic(auto)]

ghost use Rattle.std.specs.Prelude.{◌≡◌, [], ◌∷◌};
ghost use Rattle.sets.specs.Calls.{make_empty_call, member_call, range_at_call, size_call, least_member_call, least_non_member_call, set_window_at_call, insert_call};
ghost use Rattle.sets.specs.Calls.{remove_call, equal_call, within_call, disjoint_call, union_call, intersection_call, difference_call, symmetric_difference_call};
ghost use Rattle.sets.specs.Calls.{complement_call};
ghost use Rattle.fits.specs.Calls.{first_fit_call, best_fit_call, reserve_first_call, reserve_best_call};
ghost use Rattle.fits.specs.Calls.{first_fit_aligned_call, best_fit_aligned_call, reserve_first_aligned_call, reserve_best_aligned_call};
ghost use Rattle.prefixes.specs.Calls.{prefix_call, audit_call};
ghost use Rattle.maps.specs.Calls.{look_up_call, assign_call, erase_call, map_window_at_call, site_over_factory_at_call, overlay_call, restriction_call, domain_call};
ghost use Rattle.bulletins.specs.Calls.{apply_call, fold_call};
ghost use Rattle.forms.specs.Calls.{read_set_call, read_map_call, read_bulletin_call, judge_set_call, member_of_form_call};
ghost use Rattle.forms.specs.Calls.{write_set_call, write_map_call, write_bulletin_call};
ghost use Rattle.forms.specs.Calls.{read_signed_call, write_signed_call};
ghost use Rattle.answers.specs.Answers.{outcome};
ghost use Rattle.answers.specs.Says.{apart_says};
ghost use Rattle.keys.specs.Keys.{word_of, key_of, apart_of};
ghost use Rattle.told.specs.Told.{told, reply, in_c, Tells, TellsKeys};

use told::Told;

// Makes the block the empty set, or the empty map, whatever stood in it.
#[unsafe(no_mangle)]
pub extern "C" fn wimblorque_set_make_empty(block: &mut [u64]) -> Told
    ensures { Tells result (block.new ∷ []) (make_empty_call block.old) }
{
    told::tell(sets::make_empty(block))
}

// [W4] Is x a member? Two values: 1 or 0, and how many ranges lie wholly below x.
#[unsafe(no_mangle)]
pub extern "C" fn wimblorque_set_member(block: &[u64], x: u64) -> Told
    ensures { Tells result [] (member_call block.now x) }
{
    told::tell(sets::member(block, x))
}

// The low and the high of the range at index i, or no values.
#[unsafe(no_mangle)]
pub extern "C" fn wimblorque_set_range_at(block: &[u64], i: u64) -> Told
    ensures { Tells result [] (range_at_call block.now i) }
{
    told::tell(sets::range_at(block, i))
}

// The number of members less one, or no value for the empty set.
#[unsafe(no_mangle)]
pub extern "C" fn wimblorque_set_size(block: &[u64]) -> Told
    ensures { Tells result [] (size_call block.now) }
{
    told::tell(sets::size(block))
}

// The least member at or above x, or no value.
#[unsafe(no_mangle)]
pub extern "C" fn wimblorque_set_least_member(block: &[u64], x: u64) -> Told
    ensures { Tells result [] (least_member_call block.now x) }
{
    told::tell(sets::least_member(block, x))
}

// The least number at or above x that is not a member, or no value.
#[unsafe(no_mangle)]
pub extern "C" fn wimblorque_set_least_non_member(block: &[u64], x: u64) -> Told
    ensures { Tells result [] (least_non_member_call block.now x) }
{
    told::tell(sets::least_non_member(block, x))
}

// The part of the block with the ranges that share a number with a..b: its offset and its length, or no values where there are none.
#[unsafe(no_mangle)]
pub extern "C" fn wimblorque_set_window(block: &[u64], a: u64, b: u64) -> Told
    ensures { Tells result [] (set_window_at_call block.now a b) }
{
    told::tell(sets::window_at(block, a, b))
}

// Makes every number of a..b a member.
#[unsafe(no_mangle)]
pub extern "C" fn wimblorque_set_insert(block: &mut [u64], a: u64, b: u64) -> Told
    ensures { Tells result (block.new ∷ []) (insert_call block.old a b) }
{
    told::tell(sets::insert(block, a, b))
}

// Makes no number of a..b a member.
#[unsafe(no_mangle)]
pub extern "C" fn wimblorque_set_remove(block: &mut [u64], a: u64, b: u64) -> Told
    ensures { Tells result (block.new ∷ []) (remove_call block.old a b) }
{
    told::tell(sets::remove(block, a, b))
}

// Have the two sets the same members? One value, 1 or 0.
#[unsafe(no_mangle)]
pub extern "C" fn wimblorque_set_equal(one: &[u64], two: &[u64]) -> Told
    ensures { Tells result [] (equal_call one.now two.now) }
{
    told::tell(sets::equal(one, two))
}

// Is every member of the first one of the second? One value, 1 or 0.
#[unsafe(no_mangle)]
pub extern "C" fn wimblorque_set_within(one: &[u64], two: &[u64]) -> Told
    ensures { Tells result [] (within_call one.now two.now) }
{
    told::tell(sets::within(one, two))
}

// Have the two sets no number in common? One value, 1 or 0.
#[unsafe(no_mangle)]
pub extern "C" fn wimblorque_set_disjoint(one: &[u64], two: &[u64]) -> Told
    ensures { Tells result [] (disjoint_call one.now two.now) }
{
    told::tell(sets::disjoint(one, two))
}

// The numbers of either set, into out.
#[unsafe(no_mangle)]
pub extern "C" fn wimblorque_set_union(one: &[u64], two: &[u64], out: &mut [u64]) -> Told
    ensures { Tells result (out.new ∷ []) (union_call one.now two.now out.old) }
{
    told::tell(sets::union(one, two, out))
}

// The numbers of both sets, into out.
#[unsafe(no_mangle)]
pub extern "C" fn wimblorque_set_intersection(one: &[u64], two: &[u64], out: &mut [u64]) -> Told
    ensures { Tells result (out.new ∷ []) (intersection_call one.now two.now out.old) }
{
    told::tell(sets::intersection(one, two, out))
}

// The numbers of the first set that are not in the second, into out.
#[unsafe(no_mangle)]
pub extern "C" fn wimblorque_set_difference(one: &[u64], two: &[u64], out: &mut [u64]) -> Told
    ensures { Tells result (out.new ∷ []) (difference_call one.now two.now out.old) }
{
    told::tell(sets::difference(one, two, out))
}

// The numbers of exactly one of the sets, into out.
#[unsafe(no_mangle)]
pub extern "C" fn wimblorque_set_symmetric_difference(
    one: &[u64],
    two: &[u64],
    out: &mut [u64],
) -> Told
    ensures { Tells result (out.new ∷ []) (symmetric_difference_call one.now two.now out.old) }
{
    told::tell(sets::symmetric_difference(one, two, out))
}

// The numbers from 0 to 2^64 - 1 that are not in the set, into out.
#[unsafe(no_mangle)]
pub extern "C" fn wimblorque_set_complement(set: &[u64], out: &mut [u64]) -> Told
    ensures { Tells result (out.new ∷ []) (complement_call set.now out.old) }
{
    told::tell(sets::complement(set, out))
}

// The fewest prefix blocks that name exactly the numbers of the set, in rising order, into out as pairs (start, e).
#[unsafe(no_mangle)]
pub extern "C" fn wimblorque_set_prefix_blocks(set: &[u64], out: &mut [u64]) -> Told
    ensures { Tells result (out.new ∷ []) (prefix_call set.now out.old) }
{
    told::tell(prefixes::prefix_blocks(set, out))
}

// The same prefix blocks by the plain method for audit, from the whole line on, into out.
#[unsafe(no_mangle)]
pub extern "C" fn wimblorque_set_audit_blocks(set: &[u64], out: &mut [u64]) -> Told
    ensures { Tells result (out.new ∷ []) (audit_call set.now out.old) }
{
    told::tell(prefixes::audit_blocks(set, out))
}

// The least start of k numbers of the window a..b that are all free.
#[unsafe(no_mangle)]
pub extern "C" fn wimblorque_set_first_fit(block: &[u64], a: u64, b: u64, k: u64) -> Told
    ensures { Tells result [] (first_fit_call block.now a b k) }
{
    told::tell(fits::first_fit(block, a, b, k))
}

// The low end of the shortest gap of the window a..b with at least k numbers, the lowest such gap on a tie.
#[unsafe(no_mangle)]
pub extern "C" fn wimblorque_set_best_fit(block: &[u64], a: u64, b: u64, k: u64) -> Told
    ensures { Tells result [] (best_fit_call block.now a b k) }
{
    told::tell(fits::best_fit(block, a, b, k))
}

// Makes the k numbers from the first fit on members, and answers it.
#[unsafe(no_mangle)]
pub extern "C" fn wimblorque_set_reserve_first(block: &mut [u64], a: u64, b: u64, k: u64) -> Told
    ensures { Tells result (block.new ∷ []) (reserve_first_call block.old a b k) }
{
    told::tell(fits::reserve_first(block, a, b, k))
}

// Makes the k numbers from the best fit on members, and answers it.
#[unsafe(no_mangle)]
pub extern "C" fn wimblorque_set_reserve_best(block: &mut [u64], a: u64, b: u64, k: u64) -> Told
    ensures { Tells result (block.new ∷ []) (reserve_best_call block.old a b k) }
{
    told::tell(fits::reserve_best(block, a, b, k))
}

// The least multiple of 2^j from which k numbers of the window a..b are all free. A j above 63 is refused.
#[unsafe(no_mangle)]
pub extern "C" fn wimblorque_set_first_fit_aligned(
    block: &[u64],
    a: u64,
    b: u64,
    k: u64,
    j: u64,
) -> Told
    ensures { Tells result [] (first_fit_aligned_call block.now a b k j) }
{
    told::tell(fits::first_fit_aligned(block, a, b, k, j))
}

// The least multiple of 2^j in the shortest gap of the window a..b that holds k numbers from a multiple of 2^j on, the lowest such gap on a
// tie. A j above 63 is refused.
#[unsafe(no_mangle)]
pub extern "C" fn wimblorque_set_best_fit_aligned(
    block: &[u64],
    a: u64,
    b: u64,
    k: u64,
    j: u64,
) -> Told
    ensures { Tells result [] (best_fit_aligned_call block.now a b k j) }
{
    told::tell(fits::best_fit_aligned(block, a, b, k, j))
}

// Makes the k numbers from the aligned first fit on members, and answers it.
#[unsafe(no_mangle)]
pub extern "C" fn wimblorque_set_reserve_first_aligned(
    block: &mut [u64],
    a: u64,
    b: u64,
    k: u64,
    j: u64,
) -> Told
    ensures { Tells result (block.new ∷ []) (reserve_first_aligned_call block.old a b k j) }
{
    told::tell(fits::reserve_first_aligned(block, a, b, k, j))
}

// Makes the k numbers from the aligned best fit on members, and answers it.
#[unsafe(no_mangle)]
pub extern "C" fn wimblorque_set_reserve_best_aligned(
    block: &mut [u64],
    a: u64,
    b: u64,
    k: u64,
    j: u64,
) -> Told
    ensures { Tells result (block.new ∷ []) (reserve_best_aligned_call block.old a b k j) }
{
    told::tell(fits::reserve_best_aligned(block, a, b, k, j))
}

// [W4] Is the key x a member? Two values: 1 or 0, and how many ranges lie wholly below x.
#[unsafe(no_mangle)]
pub extern "C" fn wimblorque_signed_member(block: &[u64], x: i64) -> Told
    ensures { Tells result [] (member_call block.now (word_of x)) }
{
    told::tell(signed::member(block, x))
}

// The low and the high key of the range at index i, or no values.
#[unsafe(no_mangle)]
pub extern "C" fn wimblorque_signed_range_at(block: &[u64], i: u64) -> Told
    ensures { TellsKeys result [] (range_at_call block.now i) }
{
    told::tell(signed::range_at(block, i))
}

// The least member at or above the key x, or no value.
#[unsafe(no_mangle)]
pub extern "C" fn wimblorque_signed_least_member(block: &[u64], x: i64) -> Told
    ensures { TellsKeys result [] (least_member_call block.now (word_of x)) }
{
    told::tell(signed::least_member(block, x))
}

// The least key at or above x that is not a member, or no value.
#[unsafe(no_mangle)]
pub extern "C" fn wimblorque_signed_least_non_member(block: &[u64], x: i64) -> Told
    ensures { TellsKeys result [] (least_non_member_call block.now (word_of x)) }
{
    told::tell(signed::least_non_member(block, x))
}

// The part of the block with the ranges that share a key with a..b: its offset and its length, or no values where there are none.
#[unsafe(no_mangle)]
pub extern "C" fn wimblorque_signed_window(block: &[u64], a: i64, b: i64) -> Told
    ensures { Tells result [] (set_window_at_call block.now (word_of a) (word_of b)) }
{
    told::tell(signed::window_at(block, a, b))
}

// Makes every key of a..b a member.
#[unsafe(no_mangle)]
pub extern "C" fn wimblorque_signed_insert(block: &mut [u64], a: i64, b: i64) -> Told
    ensures { Tells result (block.new ∷ []) (insert_call block.old (word_of a) (word_of b)) }
{
    told::tell(signed::insert(block, a, b))
}

// Makes no key of a..b a member.
#[unsafe(no_mangle)]
pub extern "C" fn wimblorque_signed_remove(block: &mut [u64], a: i64, b: i64) -> Told
    ensures { Tells result (block.new ∷ []) (remove_call block.old (word_of a) (word_of b)) }
{
    told::tell(signed::remove(block, a, b))
}

// The least start of k keys of the window a..b that are all free.
#[unsafe(no_mangle)]
pub extern "C" fn wimblorque_signed_first_fit(block: &[u64], a: i64, b: i64, k: u64) -> Told
    ensures { TellsKeys result [] (first_fit_call block.now (word_of a) (word_of b) k) }
{
    told::tell(signed::first_fit(block, a, b, k))
}

// The low end of the shortest gap of the window a..b with at least k keys, the lowest such gap on a tie.
#[unsafe(no_mangle)]
pub extern "C" fn wimblorque_signed_best_fit(block: &[u64], a: i64, b: i64, k: u64) -> Told
    ensures { TellsKeys result [] (best_fit_call block.now (word_of a) (word_of b) k) }
{
    told::tell(signed::best_fit(block, a, b, k))
}

// Makes the k keys from the first fit on members, and answers it.
#[unsafe(no_mangle)]
pub extern "C" fn wimblorque_signed_reserve_first(block: &mut [u64], a: i64, b: i64, k: u64) -> Told
    ensures { TellsKeys result (block.new ∷ []) (reserve_first_call block.old (word_of a) (word_of b) k) }
{
    told::tell(signed::reserve_first(block, a, b, k))
}

// Makes the k keys from the best fit on members, and answers it.
#[unsafe(no_mangle)]
pub extern "C" fn wimblorque_signed_reserve_best(block: &mut [u64], a: i64, b: i64, k: u64) -> Told
    ensures { TellsKeys result (block.new ∷ []) (reserve_best_call block.old (word_of a) (word_of b) k) }
{
    told::tell(signed::reserve_best(block, a, b, k))
}

// The first key less the second, or no value where that is no key.
#[unsafe(no_mangle)]
pub extern "C" fn wimblorque_key_difference(a: i64, b: i64) -> Told
    ensures { TellsKeys result [] (outcome (apart_says (apart_of a b)) []) }
{
    told::tell_apart(keys::difference(a, b))
}

// The key that a word of a signed set's block stands for.
#[unsafe(no_mangle)]
pub extern "C" fn wimblorque_key_of_word(word: u64) -> i64
    ensures { result ≡ key_of word }
{
    keys::key_of(word)
}

// The word that stands for a key in a signed set's block.
#[unsafe(no_mangle)]
pub extern "C" fn wimblorque_word_of_key(key: i64) -> u64
    ensures { result ≡ word_of key }
{
    keys::word_of(key)
}

// The value of x, any word at all, or no value.
#[unsafe(no_mangle)]
pub extern "C" fn wimblorque_map_look_up(block: &[u64], x: u64) -> Told
    ensures { Tells result [] (look_up_call block.now x) }
{
    told::tell(maps::look_up(block, x))
}

// Gives every number of a..b the value v, replacing what was there.
#[unsafe(no_mangle)]
pub extern "C" fn wimblorque_map_assign(block: &mut [u64], a: u64, b: u64, v: u64) -> Told
    ensures { Tells result (block.new ∷ []) (assign_call block.old a b v) }
{
    told::tell(maps::assign(block, a, b, v))
}

// Leaves no number of a..b a value.
#[unsafe(no_mangle)]
pub extern "C" fn wimblorque_map_erase(block: &mut [u64], a: u64, b: u64) -> Told
    ensures { Tells result (block.new ∷ []) (erase_call block.old a b) }
{
    told::tell(maps::erase(block, a, b))
}

// The part of the block with the entries that share a number with a..b: its offset and its length, or no values where there are none.
#[unsafe(no_mangle)]
pub extern "C" fn wimblorque_map_window(block: &[u64], a: u64, b: u64) -> Told
    ensures { Tells result [] (map_window_at_call block.now a b) }
{
    told::tell(maps::window_at(block, a, b))
}

// The entry that decides x, the site map's where it has a value, else the factory map's: the offset and the length of its part, and the
// position of the map that holds it; or no values where no entry decides.
#[unsafe(no_mangle)]
pub extern "C" fn wimblorque_map_site_over_factory(site: &[u64], factory: &[u64], x: u64) -> Told
    ensures { Tells result [] (site_over_factory_at_call site.now factory.now x) }
{
    told::tell(maps::site_over_factory_at(site, factory, x))
}

// The upper map's value where it has one, else the lower's, into out.
#[unsafe(no_mangle)]
pub extern "C" fn wimblorque_map_overlay(upper: &[u64], lower: &[u64], out: &mut [u64]) -> Told
    ensures { Tells result (out.new ∷ []) (overlay_call upper.now lower.now out.old) }
{
    told::tell(maps::overlay(upper, lower, out))
}

// The map's values at the set's numbers, into out.
#[unsafe(no_mangle)]
pub extern "C" fn wimblorque_map_restriction(map: &[u64], set: &[u64], out: &mut [u64]) -> Told
    ensures { Tells result (out.new ∷ []) (restriction_call map.now set.now out.old) }
{
    told::tell(maps::restriction(map, set, out))
}

// The set of the numbers that have a value, into out.
#[unsafe(no_mangle)]
pub extern "C" fn wimblorque_map_domain(map: &[u64], out: &mut [u64]) -> Told
    ensures { Tells result (out.new ∷ []) (domain_call map.now out.old) }
{
    told::tell(maps::domain(map, out))
}

// The list without the withdrawn, then joined with the released numbers, into out.
#[unsafe(no_mangle)]
pub extern "C" fn wimblorque_bulletin_apply(
    list: &[u64],
    released: &[u64],
    withdrawn: &[u64],
    out: &mut [u64],
) -> Told
    ensures { Tells result (out.new ∷ []) (apply_call list.now released.now withdrawn.now out.old) }
{
    told::tell(bulletins::apply(list, released, withdrawn, out))
}

// One bulletin with the effect of the first and then the second, into released and withdrawn.
#[unsafe(no_mangle)]
pub extern "C" fn wimblorque_bulletin_fold(
    released1: &[u64],
    withdrawn1: &[u64],
    released2: &[u64],
    withdrawn2: &[u64],
    released: &mut [u64],
    withdrawn: &mut [u64],
) -> Told
    ensures { Tells result (released.new ∷ withdrawn.new ∷ [])
        (fold_call released1.now withdrawn1.now released2.now withdrawn2.now released.old
        withdrawn.old) }
{
    told::tell(bulletins::fold(
        released1, withdrawn1, released2, withdrawn2, released, withdrawn,
    ))
}

// Reads the byte form of a set into out.
#[unsafe(no_mangle)]
pub extern "C" fn wimblorque_set_read(bytes: &[u8], out: &mut [u64]) -> Told
    ensures { Tells result (out.new ∷ []) (read_set_call bytes.now out.old) }
{
    told::tell(forms::read_set(bytes, out))
}

// Reads the byte form of a signed set into out.
#[unsafe(no_mangle)]
pub extern "C" fn wimblorque_signed_read(bytes: &[u8], out: &mut [u64]) -> Told
    ensures { Tells result (out.new ∷ []) (read_signed_call bytes.now out.old) }
{
    told::tell(forms::read_signed(bytes, out))
}

// Reads the byte form of a map into out.
#[unsafe(no_mangle)]
pub extern "C" fn wimblorque_map_read(bytes: &[u8], out: &mut [u64]) -> Told
    ensures { Tells result (out.new ∷ []) (read_map_call bytes.now out.old) }
{
    told::tell(forms::read_map(bytes, out))
}

// Reads the byte form of a bulletin into released and withdrawn.
#[unsafe(no_mangle)]
pub extern "C" fn wimblorque_bulletin_read(
    bytes: &[u8],
    released: &mut [u64],
    withdrawn: &mut [u64],
) -> Told
    ensures { Tells result (released.new ∷ withdrawn.new ∷ [])
        (read_bulletin_call bytes.now released.old withdrawn.old) }
{
    told::tell(forms::read_bulletin(bytes, released, withdrawn))
}

// Judges the byte form of a set and stores nothing; answers the number of its ranges.
#[unsafe(no_mangle)]
pub extern "C" fn wimblorque_set_judge_form(bytes: &[u8]) -> Told
    ensures { Tells result [] (judge_set_call bytes.now) }
{
    told::tell(forms::judge_set(bytes))
}

// Writes the byte form of a set from place p on, and answers its length.
#[unsafe(no_mangle)]
pub extern "C" fn wimblorque_set_write(block: &[u64], bytes: &mut [u8], p: usize) -> Told
    ensures { Tells result (bytes.new ∷ []) (write_set_call block.now bytes.old p) }
{
    told::tell(forms::write_set(block, bytes, p))
}

// Writes the byte form of a signed set from place p on, and answers its length.
#[unsafe(no_mangle)]
pub extern "C" fn wimblorque_signed_write(block: &[u64], bytes: &mut [u8], p: usize) -> Told
    ensures { Tells result (bytes.new ∷ []) (write_signed_call block.now bytes.old p) }
{
    told::tell(forms::write_signed(block, bytes, p))
}

// Writes the byte form of a map from place p on, and answers its length.
#[unsafe(no_mangle)]
pub extern "C" fn wimblorque_map_write(block: &[u64], bytes: &mut [u8], p: usize) -> Told
    ensures { Tells result (bytes.new ∷ []) (write_map_call block.now bytes.old p) }
{
    told::tell(forms::write_map(block, bytes, p))
}

// Writes the byte form of a bulletin from place p on, and answers its length.
#[unsafe(no_mangle)]
pub extern "C" fn wimblorque_bulletin_write(
    released: &[u64],
    withdrawn: &[u64],
    bytes: &mut [u8],
    p: usize,
) -> Told
    ensures { Tells result (bytes.new ∷ []) (write_bulletin_call released.now withdrawn.now bytes.old p) }
{
    told::tell(forms::write_bulletin(released, withdrawn, bytes, p))
}

// [G6] Whether x is a member of the set whose byte form is in the buffer: 1 member, 0 not, 16 plus the refusal's number where the bytes
// are not the byte form of a set.
#[unsafe(no_mangle)]
pub extern "C" fn wimblorque_member(bytes: &[u8], x: u64) -> u64
    ensures { result ≡ member_of_form_call bytes.now x }
{
    forms::member(bytes, x)
}
