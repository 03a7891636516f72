// Prefix blocks of a set, for label scanners: 2^e numbers from a multiple of 2^e on, as pairs (start, e) in an output.
// Two methods, which give the same pairs (demands/specs/Prefixes): from each range the largest block that fits, and the plain audit.
#![tactic(auto)]

ghost use Rattle.std.specs.Prelude.{◌≡◌, List, [], ◌∷◌, ◌+◌, ◌*◌, ◌-◌, ◌^◌, ◌≤◌, ◌<◌, leb, length, get_or, set};
ghost use Rattle.entries.specs.Entries.{Entry};
ghost use Rattle.entries.specs.Build.{andb};
ghost use Rattle.answers.specs.Answers.{outcome};
ghost use Rattle.answers.specs.Says.{judged_says};
ghost use Rattle.answers.specs.Steps.{FirstOf};
ghost use Rattle.blocks.specs.Blocks.{set_layout, entries_of, SoundBlock};
ghost use Rattle.blocks.specs.Calls.{input, output};
ghost use Rattle.blocks.specs.Steps.{Cleared};
ghost use Rattle.searches.specs.Steps.{FirstFrom};
ghost use Rattle.operations.specs.Calls.{from_one};
ghost use Rattle.tilings.specs.Prefixes.{Prefix, prefix, whole, taken_all, prefixes, audit, audited, pairs_of};
ghost use Rattle.prefixes.specs.Calls.{pair_layout, prefix_call, audit_call};
ghost use Rattle.prefixes.specs.Steps.{Fits, Notes, HasRoom, MostBlocks, Fitting, Node, Begins};

use answers::{Reason, Refusal};
use blocks::Layout;

// An output of pairs: two words each, with no limit but that of its words, of which no block has so many.
pub const PAIRS: Layout = Layout {
    width: 2,
    limit: usize::MAX,
};

// The exponent of the whole line 0..M.
const WHOLE: u32 = 64;

// The most blocks that one range has.
const MOST: usize = 126;

// [G8] The exponent of the largest block that fits at the low end of left + 1 numbers: as many zeros as the low end trails, unless the
// numbers that are left allow no more than a smaller one.
fn exponent(low: u64, left: u64) -> u32
    ensures { Fits low left result }
{
    let by_low = u64::trailing_zeros(low);
    if left == blocks::M {
        return by_low;
    }
    let by_left = 63 - u64::leading_zeros(left + 1);
    by_low.min(by_left)
}

// 2^e - 1, the numbers of a block less one.
fn ones(e: u32) -> u64
    requires { e ≤ whole }
    ensures { result + 1 ≡ 2 ^ e }
{
    match 1u64.checked_shl(e) {
        Some(size) => size - 1,
        None => blocks::M,
    }
}

// The output of a pass over a set: its words, how many pairs it has room for, and how many blocks have been noted.
#[derive(Drop)]
struct Pairs<'a> {
    out: &'a mut [u64],
    room: usize,
    count: usize,
}

impl Pairs<'_> {
    // Notes one block: its pair is stored if fewer than room stand before it, and it is counted, up to the number of the output's words. That
    // is more than there is room for, so that nothing is lost; and room is 0 while the blocks are counted.
    fn note(&mut self, start: u64, e: u32)
        requires { HasRoom self.old.room self.old.out.now }
        ensures { Notes (prefix start e ∷ []) self.old self.new }
    {
        if self.count < self.room {
            self.out[2 * self.count + 1] = start;
            self.out[2 * self.count + 2] = u64::from(e);
            self.count += 1;
        } else if self.count < self.out.len() {
            self.count += 1;
        }
    }

    // Notes the blocks of one range: repeatedly the largest that fits.
    fn take_range(&mut self, low: u64, high: u64)
        requires { (low ≤ high) × HasRoom self.old.room self.old.out.now }
        ensures { Notes (taken_all low (high + 1 - low)) self.old self.new }
    {
        let mut at = low;
        loop {
            let left = high - at;
            let e = exponent(at, left);
            self.note(at, e);
            let more = ones(e);
            if left <= more {
                return;
            }
            at = at + more + 1;
        }
    }
}

// Whether start..last lies within low..high.
fn within(low: u64, high: u64, start: u64, last: u64) -> bool
    ensures { result ≡ andb (leb low start) (leb last high) }
{
    low <= start && last <= high
}

// The first range, of those from a place on, that ends at or past x, or the number of ranges; all before that place end below x. It walks,
// since in the audit the range that is sought is mostly the one at that place or the next.
fn place_from(set: &[u64], place: usize, x: u64) -> usize
    requires { Begins set.now place x }
    ensures { FirstFrom set.now 2 2 (get_or set.now 0 0) x result }
{
    let n = searches::count_of(set);
    for at in place..n {
        if x <= set[2 * at + 2] {
            return at;
        }
    }
    n
}

// [G9] Audits the block of 2^e numbers from start on, of a sound set: one wholly out is dropped, one wholly in is noted, and one partly in is
// cut into its two halves. ones is 2^e - 1, and place is that of the first range that ends at or past start.
fn audit_block(set: &[u64], pairs: &mut Pairs<'_>, start: u64, e: u32, ones: u64, place: usize)
    requires { Node set.now start e ones place × HasRoom pairs.old.room pairs.old.out.now }
    ensures { Notes (audit (entries_of 2 set.now) e start) pairs.old pairs.new }
{
    if searches::count_of(set) <= place {
        return;
    }
    let last = start + ones;
    let low = set[2 * place + 1];
    if last < low {
        return;
    }
    if within(low, set[2 * place + 2], start, last) {
        pairs.note(start, e);
        return;
    }
    let half = ones / 2;
    let middle = start + half + 1;
    let next = place_from(set, place, middle);
    audit_block(set, pairs, start, e - 1, half, place);
    audit_block(set, pairs, middle, e - 1, half, next);
}

// A method that notes the prefix blocks of a set, one after another.
trait Method {
    ghost blocks: { List Entry → List Prefix };

    // Notes the blocks of a sound set.
    fn pass(set: &[u64], pairs: &mut Pairs<'_>)
        requires { SoundBlock set_layout set.now × HasRoom pairs.old.room pairs.old.out.now }
        ensures { Notes (blocks (entries_of 2 set.now)) pairs.old pairs.new };
}

// From each range the largest block that fits, repeatedly.
struct Taking;

impl Method for Taking {
    ghost blocks = { prefixes };

    fn pass(set: &[u64], pairs: &mut Pairs<'_>) {
        let n = searches::count_of(set);
        for i in 0..n {
            let low = set[2 * i + 1];
            let high = set[2 * i + 2];
            pairs.take_range(low, high);
        }
    }
}

// The plain method for audit, from the whole line on.
struct Audit;

impl Method for Audit {
    ghost blocks = { audited };

    fn pass(set: &[u64], pairs: &mut Pairs<'_>) {
        audit_block(set, pairs, 0, WHOLE, blocks::M, 0);
    }
}

// Whether an output has room for the blocks of a sound set. Where it has room for those of any set with as many ranges, they need not be
// counted.
fn fits<T: Method>(set: &[u64], out: &mut [u64], room: usize) -> bool
    requires set { SoundBlock set_layout set.now × (room < length out.old) }
    requires few { MostBlocks T.blocks }
    ensures { Fitting (T.blocks (entries_of 2 set.now)) room out.old result out.new }
{
    if MOST * searches::count_of(set) <= room {
        return true;
    }
    let mut counted = Pairs {
        out,
        room: 0,
        count: 0,
    };
    T::pass(set, &mut counted);
    counted.count <= room
}

// The first refusal of a set, at 0, and of an output of so many words, at 1.
fn refusal(set: &[u64], words: usize) -> Result<(), Refusal>
    ensures { FirstOf (input 0 set_layout set.now ∷ output 1 words ∷ []) result }
{
    blocks::judge(set, blocks::SET, 0)?;
    blocks::judge_output(words, 1)
}

// Makes an output of which n pairs are stored whole: word 0 is n, and every word behind the pairs is 0.
fn finish(out: &mut [u64], n: usize)
    requires { 1 + 2 * n ≤ length out.old }
    ensures { Cleared (set out.old 0 n) (2 * n + 1) out.new }
{
    out[0] = n as u64;
    blocks::clear(out, 2 * n + 1);
}

// The blocks of any words lent as a set, by a method, into an output. Whether there is room is known before the first is stored.
fn lay_out<T: Method>(set: &[u64], out: &mut [u64]) -> Result<(), Refusal>
    requires { MostBlocks T.blocks }
    ensures { outcome (judged_says result) (out.new ∷ []) ≡ from_one set_layout pair_layout
        (λ es. pairs_of (T.blocks es)) set.now out.old }
{
    refusal(set, out.len())?;
    let room = blocks::room_for(PAIRS, out.len());
    if fits::<T>(set, out, room) {
        let mut pairs = Pairs {
            out,
            room,
            count: 0,
        };
        T::pass(set, &mut pairs);
        let n = pairs.count;
        finish(out, n);
        return Ok(());
    }
    Err(Reason::Room.at(1))
}

// The fewest blocks that name exactly the numbers of a set, in rising order: word 0 of out is how many there are, then each has a pair of
// words, its start and its exponent, and every later word is 0. From each range the largest block that fits is taken, repeatedly.
// Whether there is room is known before the first is stored.
#[tactic(auto, unfolding(crate::specs::Calls::prefix_call))]
pub fn prefix_blocks(set: &[u64], out: &mut [u64]) -> Result<(), Refusal>
    ensures { outcome (judged_says result) (out.new ∷ []) ≡ prefix_call set.now out.old }
{
    lay_out::<Taking>(set, out)
}

// The same blocks by the plain method for audit: from the whole line on, a block wholly in is kept, one wholly out is dropped, and one partly
// in is cut into its two halves.
#[tactic(auto, unfolding(crate::specs::Calls::audit_call))]
pub fn audit_blocks(set: &[u64], out: &mut [u64]) -> Result<(), Refusal>
    ensures { outcome (judged_says result) (out.new ∷ []) ≡ audit_call set.now out.old }
{
    lay_out::<Audit>(set, out)
}
