// Sets of signed keys, from -2^63 to 2^63 - 1, in ordinary set blocks: a key is held as its word, the key plus 2^63, so the words are in
// the order of the keys. Here is every call that takes or answers a key: it is the call of sets or fits at the words of the keys, and so
// is its contract. The calls of sets without a number (make_empty, size, equal, within, disjoint, union, intersection, difference,
// symmetric_difference, complement) serve signed sets as they are.
#![tactic(auto)]

ghost use Rattle.std.specs.Prelude.{◌≡◌, [], ◌∷◌};
ghost use Rattle.keys.specs.Keys.{word_of};
ghost use Rattle.answers.specs.Answers.{outcome};
ghost use Rattle.answers.specs.Says.{judged_says, seated_says, parted_says, found_key_says, ranged_keys_says, placed_key_says};
ghost use Rattle.searches.specs.Parts.{IsPart};
ghost use Rattle.sets.specs.Calls.{member_call, range_at_call, least_member_call, least_non_member_call, set_window_call, set_window_at_call};
ghost use Rattle.sets.specs.Calls.{set_window_refusal_call, insert_call, remove_call};
ghost use Rattle.fits.specs.Calls.{first_fit_call, best_fit_call, reserve_first_call, reserve_best_call};

use answers::{Part, Refusal, Seated};

// Whether the key x is a member, and how many ranges lie wholly below it.
pub fn member(block: &[u64], x: i64) -> Result<Seated, Refusal>
    ensures { outcome (seated_says result) [] ≡ member_call block.now (word_of x) }
{
    sets::member(block, keys::word_of(x))
}

// The low and the high key of the range at index i, counted from 0, or none.
pub fn range_at(block: &[u64], i: u64) -> Result<Option<(i64, i64)>, Refusal>
    ensures { outcome (ranged_keys_says result) [] ≡ range_at_call block.now i }
{
    answers::as_keys(sets::range_at(block, i))
}

// The least key at or above x that is a member, or none.
pub fn least_member(block: &[u64], x: i64) -> Result<Option<i64>, Refusal>
    ensures { outcome (found_key_says result) [] ≡ least_member_call block.now (word_of x) }
{
    answers::as_key(sets::least_member(block, keys::word_of(x)))
}

// The least key at or above x that is not a member, or none.
pub fn least_non_member(block: &[u64], x: i64) -> Result<Option<i64>, Refusal>
    ensures { outcome (found_key_says result) [] ≡ least_non_member_call block.now (word_of x) }
{
    answers::as_key(sets::least_non_member(block, keys::word_of(x)))
}

// The part of the block that holds the ranges which share a key with a..b: words, since it is the caller's own block, and the key of a word
// is `keys::key_of`. Refused, a part of no words.
pub fn window(block: &[u64], a: i64, b: i64) -> &[u64]
    ensures { IsPart block.entry result (set_window_call block.now (word_of a) (word_of b)) }
{
    sets::window(block, keys::word_of(a), keys::word_of(b))
}

// The same part, as the place of its first word and the number of its words; or that no range shares a key with a..b.
pub fn window_at(block: &[u64], a: i64, b: i64) -> Result<Option<Part>, Refusal>
    ensures { outcome (parted_says result) [] ≡ set_window_at_call block.now (word_of a) (word_of b) }
{
    sets::window_at(block, keys::word_of(a), keys::word_of(b))
}

// The refusal of the window a..b, or that there is none.
pub fn window_refusal(block: &[u64], a: i64, b: i64) -> Result<(), Refusal>
    ensures { outcome (judged_says result) [] ≡ set_window_refusal_call block.now (word_of a) (word_of b) }
{
    sets::window_refusal(block, keys::word_of(a), keys::word_of(b))
}

// Inserts a..b: afterwards all of its keys are members, and all others are as they were.
pub fn insert(block: &mut [u64], a: i64, b: i64) -> Result<(), Refusal>
    ensures { outcome (judged_says result) (block.new ∷ []) ≡ insert_call block.old (word_of a) (word_of b) }
{
    sets::insert(block, keys::word_of(a), keys::word_of(b))
}

// Removes a..b: afterwards none of its keys is a member, and all others are as they were.
pub fn remove(block: &mut [u64], a: i64, b: i64) -> Result<(), Refusal>
    ensures { outcome (judged_says result) (block.new ∷ []) ≡ remove_call block.old (word_of a) (word_of b) }
{
    sets::remove(block, keys::word_of(a), keys::word_of(b))
}

// The least start of k keys of the window a..b that are all free.
pub fn first_fit(block: &[u64], a: i64, b: i64, k: u64) -> Result<i64, Refusal>
    ensures { outcome (placed_key_says result) [] ≡ first_fit_call block.now (word_of a) (word_of b) k }
{
    answers::as_place(fits::first_fit(block, keys::word_of(a), keys::word_of(b), k))
}

// The low end of the shortest gap of the window a..b with at least k keys, the lowest such gap on a tie.
pub fn best_fit(block: &[u64], a: i64, b: i64, k: u64) -> Result<i64, Refusal>
    ensures { outcome (placed_key_says result) [] ≡ best_fit_call block.now (word_of a) (word_of b) k }
{
    answers::as_place(fits::best_fit(block, keys::word_of(a), keys::word_of(b), k))
}

// Reserves the first fit: inserts the k keys from it on, and answers it.
pub fn reserve_first(block: &mut [u64], a: i64, b: i64, k: u64) -> Result<i64, Refusal>
    ensures { outcome (placed_key_says result) (block.new ∷ []) ≡ reserve_first_call block.old (word_of a) (word_of b) k }
{
    answers::as_place(fits::reserve_first(block, keys::word_of(a), keys::word_of(b), k))
}

// Reserves the best fit: inserts the k keys from it on, and answers it.
pub fn reserve_best(block: &mut [u64], a: i64, b: i64, k: u64) -> Result<i64, Refusal>
    ensures { outcome (placed_key_says result) (block.new ∷ []) ≡ reserve_best_call block.old (word_of a) (word_of b) k }
{
    answers::as_place(fits::reserve_best(block, keys::word_of(a), keys::word_of(b), k))
}
