// One linear sweep over three sound blocks, for any table of their memberships. Every operation on sets, maps and bulletins that
// makes a list from lists is a table of it.
#![tactic(auto)]

ghost use Rattle.std.specs.Prelude.{◌≡◌, true, false, ◌+◌, ◌*◌, ◌-◌, ◌≤◌, ◌<◌, leb, ltb, eqb, length, get_or, take};
ghost use Rattle.entries.specs.Build.{pick, andb, same_words};
ghost use Rattle.entries.specs.Sets.{M};
ghost use Rattle.blocks.specs.Blocks.{block_of};
ghost use Rattle.sweeps.specs.Sweeps.{bit, accepts, result_of, Input, Inputs, Fit};
ghost use Rattle.sweeps.specs.Cursors.{set_plan, cursor, items, shown, value_of, value_behind, Point, TurnAt, PointsAt, Swept, listed};
ghost use Rattle.sweeps.specs.Cursors.{first_behind, SegmentAt, same_as, begins, grow, Addable, Holds, Laid, Stored, Stopped};

// The tables of the sweep: bit a + 2b + 4c says whether a number is kept that is in the first (a), the second (b) and the third
// list (c) or not. Each is `table_of` its test in specs/Sweeps.
pub const IN_EITHER: u8 = 0b1110_1110;

pub const IN_BOTH: u8 = 0b1000_1000;

pub const FIRST_ALONE: u8 = 0b0010_0010;

pub const JUST_ONE: u8 = 0b0110_0110;

pub const NOT_FIRST: u8 = 0b0101_0101;

pub const IN_FIRST: u8 = 0b1010_1010;

pub const WITHOUT_THIRD_JOINED_WITH_SECOND: u8 = 0b1100_1110;

// How the three inputs and the output are laid out, in words an item, and the table of the memberships.
#[derive(Clone, Copy, PartialEq, Eq)]
pub struct Plan {
    pub table: u8,
    pub a: usize,
    pub b: usize,
    pub c: usize,
    pub out: usize,
}

// What is swept: three blocks, how they and the output are laid out, and the table. `Swept` says that the blocks are judged and the output
// fits them.
#[derive(Clone, Copy)]
struct Lists<'a> {
    a: &'a [u64],
    b: &'a [u64],
    c: &'a [u64],
    plan: Plan,
}

// The words of a value: as many of them as an item of the output has.
#[derive(Clone, Copy)]
pub struct Words {
    pub first: u64,
    pub second: u64,
}

// Where a sweep stands in an input: outside at the low word of the next item or at the end of the items, inside at the item's high word.
#[derive(Clone, Copy)]
pub struct Cursor {
    pub place: usize,
    pub inside: bool,
    pub end: usize,
}

// The three cursors.
#[derive(Clone, Copy)]
pub struct Cursors {
    pub a: Cursor,
    pub b: Cursor,
    pub c: Cursor,
}

// The last number of a run, and the cursor behind it.
#[derive(Clone, Copy)]
pub struct Run {
    pub last: u64,
    pub then: Cursor,
}

// The last number of a segment, whether it has a value, the value, and the cursors behind it.
#[derive(Clone, Copy)]
pub struct Segment {
    pub last: u64,
    pub inside: bool,
    pub value: Words,
    pub then: Cursors,
}

// A segment to be stored: its ends and its value, and whether it goes on from the last item, whose low end then stays.
#[derive(Clone, Copy)]
struct Piece {
    low: u64,
    high: u64,
    value: Words,
    goes_on: bool,
}

// The words of no value.
const NOTHING: Words = Words {
    first: 0,
    second: 0,
};

// The cursor at 0: outside at the first low word, or inside the first item where that begins at 0.
#[tactic(auto, using(crate::proofs::Runs::held_by, crate::proofs::Runs::start_none, crate::proofs::Runs::start_in_lem, crate::proofs::Runs::start_out))]
fn start(w: &[u64], s: usize) -> Cursor
    requires { Input s w.now }
    ensures { Point s w.now 0 result }
{
    let n = w[0] as usize;
    let end = 1 + s * n;
    if n == 0 {
        return Cursor {
            place: 1,
            inside: false,
            end,
        };
    }
    if w[1] == 0 {
        return Cursor {
            place: 2,
            inside: true,
            end,
        };
    }
    Cursor {
        place: 1,
        inside: false,
        end,
    }
}

// The run at x from inside an item whose high word stands at p: to its high end, and then into the next item where that touches it.
#[tactic(auto, using(crate::proofs::Runs::in_here, crate::proofs::Runs::next_here))]
fn leave(w: &[u64], s: usize, p: usize, end: usize, x: u64) -> Run
    requires input { Input s w.now }
    requires point { Point s w.now x (cursor p true end) }
    ensures { TurnAt s w.now x (cursor p true end) result }
{
    let high = w[p];
    let q = p + (s - 1);
    if q == end {
        return Run {
            last: high,
            then: Cursor {
                place: q,
                inside: false,
                end,
            },
        };
    }
    let low = w[q];
    if low - high == 1 {
        return Run {
            last: high,
            then: Cursor {
                place: q + 1,
                inside: true,
                end,
            },
        };
    }
    Run {
        last: high,
        then: Cursor {
            place: q,
            inside: false,
            end,
        },
    }
}

// The run at x in a set, whose words are low and high ends in turn, and no item touches the next.
#[tactic(auto, using(crate::proofs::Runs::turn_end))]
fn flip(w: &[u64], s: usize, at: Cursor, x: u64) -> Run
    requires input { Input s w.now }
    requires point { Point s w.now x at }
    requires two { s ≡ 2 }
    ensures { TurnAt s w.now x at result }
{
    if at.place == at.end {
        return Run {
            last: u64::MAX,
            then: at,
        };
    }
    let found = w[at.place];
    Run {
        last: found - u64::from(!at.inside),
        then: Cursor {
            place: at.place + 1,
            inside: !at.inside,
            ..at
        },
    }
}

// The run at x. Of a set (`SETS`) the items are not told apart; at the end (not `MORE`) nothing is looked at. Only the contract names x.
#[tactic(auto, using(crate::proofs::Runs::turn_end, crate::proofs::Runs::turn_as, crate::proofs::Runs::point_as))]
fn run_at<const SETS: bool, const MORE: bool>(w: &[u64], s: usize, at: Cursor, x: u64) -> Run
    requires input { Input s w.now }
    requires point { Point s w.now x at }
    requires sets { SETS ≡ true → s ≡ 2 }
    requires more { MORE ≡ false → at.place ≡ at.end }
    ensures turn { TurnAt s w.now x at result }
    ensures stays { MORE ≡ false → result.then ≡ at }
{
    if !MORE {
        return Run {
            last: u64::MAX,
            then: at,
        };
    }
    if SETS {
        return flip(w, s, at, x);
    }
    if at.inside {
        return leave(w, s, at.place, at.end, x);
    }
    if at.place == at.end {
        return Run {
            last: u64::MAX,
            then: at,
        };
    }
    Run {
        last: w[at.place] - 1,
        then: Cursor {
            place: at.place + 1,
            inside: true,
            ..at
        },
    }
}

// The cursor at x. In a set (`SETS`) its place says the side, as low and high ends stand in turn, so that a loop has no side to carry. Only
// the contract names the words and x.
#[tactic(auto, using(crate::proofs::Runs::by_place))]
fn sided<const SETS: bool>(w: &[u64], s: usize, at: Cursor, x: u64) -> Cursor
    requires point { Point s w.now x at }
    requires sets { SETS ≡ true → s ≡ 2 }
    ensures { result ≡ at }
{
    if SETS {
        return Cursor {
            inside: at.place % 2 == 0,
            ..at
        };
    }
    at
}

// Bit a + 2b + 4c of the table t.
#[tactic(auto, unfolding(crate::specs::Sweeps::accepts))]
fn accepted(t: u8, a: bool, b: bool, c: bool) -> bool
    ensures { result ≡ accepts t a b c }
{
    let k = u8::from(a) + 2 * u8::from(b) + 4 * u8::from(c);
    (t >> k) % 2 == 1
}

// The cursor behind a segment that ends at last: that behind its run, where the run ends there too. A choice without a branch.
#[tactic(auto, using(crate::proofs::Segments::cursor_pick))]
fn behind(run: Run, last: u64, at: Cursor) -> Cursor
    requires { run.then.end ≡ at.end }
    ensures { result ≡ pick (eqb run.last last) run.then at }
{
    let ends = run.last == last;
    Cursor {
        place: if ends { run.then.place } else { at.place },
        inside: if ends { run.then.inside } else { at.inside },
        ..at
    }
}

// The words of a value behind place p, as many as an output of s words an item takes.
#[tactic(auto, using(crate::proofs::Segments::words_three, crate::proofs::Segments::words_four))]
fn words_behind(w: &[u64], s: usize, p: usize) -> Words
    requires { (2 ≤ s) × (s ≤ 4) × (p + s ≤ 1 + length w.now) }
    ensures { value_of s result ≡ value_behind s w.now p }
{
    if s == 2 {
        return NOTHING;
    }
    let first = w[p + 1];
    if s == 3 {
        return Words { first, second: 0 };
    }
    Words {
        first,
        second: w[p + 2],
    }
}

// Whether two values of an output of s words an item are the same.
#[tactic(auto, using(crate::proofs::Segments::same_three, crate::proofs::Segments::same_four, crate::proofs::Segments::same_differ))]
fn same_value(s: usize, u: Words, v: Words) -> bool
    requires { (2 ≤ s) × (s ≤ 4) }
    ensures { result ≡ same_words (value_of s u) (value_of s v) }
{
    s == 2 || u.first == v.first && (s == 3 || u.second == v.second)
}

// Whether a segment with the value v goes on from the number before.
fn joins(s: usize, inside: bool, was: bool, u: Words, v: Words) -> bool
    requires { (2 ≤ s) × (s ≤ 4) }
    ensures { result ≡ andb inside (same_as (shown was (value_of s u)) (value_of s v)) }
{
    inside && was && same_value(s, u, v)
}

// An item into the s words from q on. Where it goes on its low end stays: the piece's is written in the place of the high end, and the high
// end over it, as a test would cost more.
#[tactic(auto, using(crate::proofs::Storing::lay_two, crate::proofs::Storing::lay_three, crate::proofs::Storing::lay_four))]
fn lay(o: &mut [u64], s: usize, q: usize, piece: Piece)
    requires { (2 ≤ s) × (s ≤ 4) × (q + s ≤ length o.old) }
    ensures { Laid s o.old q (pick piece.goes_on (get_or o.old q 0) piece.low) piece.high (value_of s piece.value) o.new }
{
    let low = q + usize::from(piece.goes_on);
    o[low] = piece.low;
    o[q + 1] = piece.high;
    if s == 2 {
        return;
    }
    o[q + 2] = piece.value.first;
    if s == 3 {
        return;
    }
    o[q + 3] = piece.value.second;
}

// The piece as item k of o, where keep says so: the item's low end stays where the piece goes on. Without a value it is stored too, behind
// the items and as far as o goes, since a test would cost more than the words.
fn store(o: &mut [u64], s: usize, k: usize, keep: bool, piece: Piece)
    requires { (2 ≤ s) × (s ≤ 4) × (1 + s * pick keep k 0 ≤ length o.old) }
    ensures { Stored keep s o.old k piece.goes_on piece.low piece.high (value_of s piece.value) o.new }
{
    if keep {
        let q = 1 + s * k;
        if s <= o.len() - q {
            lay(o, s, q, piece);
        }
    }
}

// How many items there are with the piece, if it is inside, which is stored where keep says so: as a new item, or into the last one.
#[tactic(auto, using(crate::proofs::Storing::added))]
fn add(o: &mut [u64], s: usize, n: usize, keep: bool, inside: bool, piece: Piece) -> usize
    requires { Addable keep s n inside piece.goes_on (length o.old) }
    ensures { (result ≡ n + begins inside piece.goes_on)
        × Holds keep s result o.new (grow inside piece.goes_on (items s n 1 o.old) piece.low piece.high (value_of s piece.value)) }
{
    let k = n - usize::from(piece.goes_on);
    store(o, s, k, keep, piece);
    k + usize::from(inside)
}

// The plan of a table for sets.
fn set_plan(table: u8) -> Plan
    ensures { result ≡ set_plan table }
{
    Plan {
        table,
        a: 2,
        b: 2,
        c: 2,
        out: 2,
    }
}

impl<'a> Lists<'a> {
    // The three cursors at 0.
    fn begin(self) -> Cursors
        requires { Swept self }
        ensures { PointsAt self.entry 0 result }
    {
        Cursors {
            a: start(self.a, self.plan.a),
            b: start(self.b, self.plan.b),
            c: start(self.c, self.plan.c),
        }
    }

    // The value of the first input that is inside, where the table accepts. A set has none to read. Only the contract names x.
    fn carried(self, at: Cursors, x: u64, kept: bool) -> Words
        requires swept { Swept self }
        requires points { PointsAt self x at }
        requires accepts { kept ≡ accepts self.plan.table at.a.inside at.b.inside at.c.inside }
        ensures { shown kept (take (self.entry.plan.out - 2) (first_behind self.entry at)) ≡ shown kept (value_of self.entry.plan.out result) }
    {
        if self.plan.out == 2 {
            return NOTHING;
        }
        if kept {
            if at.a.inside {
                return words_behind(self.a, self.plan.out, at.a.place);
            }
            if at.b.inside {
                return words_behind(self.b, self.plan.out, at.b.place);
            }
            return words_behind(self.c, self.plan.out, at.c.place);
        }
        NOTHING
    }

    // The three cursors at x, each with its side.
    fn sided<const SETS: bool>(self, at: Cursors, x: u64) -> Cursors
        requires points { PointsAt self x at }
        requires sets { SETS ≡ true → self.plan ≡ set_plan self.plan.table }
        ensures same { result ≡ at }
        ensures points { PointsAt self.entry x result }
    {
        Cursors {
            a: sided::<SETS>(self.a, self.plan.a, at.a, x),
            b: sided::<SETS>(self.b, self.plan.b, at.b, x),
            c: sided::<SETS>(self.c, self.plan.c, at.c, x),
        }
    }

    // The segment that starts at x, with the three cursors at x. `SETS`: each input and the output is a set. Not `THIRD`: the third
    // cursor is at its end, and stays there.
    fn segment_at<const SETS: bool, const THIRD: bool>(self, at: Cursors, x: u64) -> Segment
        requires swept { Swept self }
        requires points { PointsAt self x at }
        requires sets { SETS ≡ true → self.plan ≡ set_plan self.plan.table }
        requires third { THIRD ≡ false → at.c.place ≡ at.c.end }
        ensures segment { SegmentAt self.entry x result }
        ensures third { THIRD ≡ false → result.then.c ≡ at.c }
    {
        let plan = self.plan;
        let at = self.sided::<SETS>(at, x);
        let i = run_at::<SETS, true>(self.a, plan.a, at.a, x);
        let j = run_at::<SETS, true>(self.b, plan.b, at.b, x);
        let k = run_at::<SETS, THIRD>(self.c, plan.c, at.c, x);
        let last = i.last.min(j.last).min(k.last);
        let kept = accepted(plan.table, at.a.inside, at.b.inside, at.c.inside);
        let value = self.carried(at, x, kept);
        Segment {
            last,
            inside: kept,
            value,
            then: Cursors {
                a: behind(i, last, at.a),
                b: behind(j, last, at.b),
                c: behind(k, last, at.c),
            },
        }
    }

    // The sweep from the three cursors at 0: `sweep` says what it gives. For sets (`SETS`) there is nothing left to choose, and it is more
    // than twice as fast; where there is nothing in the third list (not `THIRD`) two sets take three quarters of the time.
    #[tactic(auto, using(crate::proofs::Standing::standing_zero, crate::proofs::Standing::standing_next, crate::proofs::Growing::begins_one))]
    fn sweep_as<const SETS: bool, const THIRD: bool>(
        self,
        first: Cursors,
        stop: usize,
        keep: bool,
        o: &mut [u64],
    ) -> usize
        requires swept { Swept self }
        requires points { PointsAt self 0 first }
        requires sets { SETS ≡ true → self.plan ≡ set_plan self.plan.table }
        requires third { THIRD ≡ false → first.c.place ≡ first.c.end }
        requires room { 1 + self.plan.out * pick keep (length (listed self)) 0 ≤ length o.old }
        ensures { Stopped keep self.entry.plan.out stop (listed self.entry) result o.new }
    {
        let mut at = first;
        let mut x: u64 = 0;
        let mut was = false;
        let mut before = NOTHING;
        let mut n: usize = 0;
        while n < stop {
            let s = self.segment_at::<SETS, THIRD>(at, x);
            let piece = Piece {
                low: x,
                high: s.last,
                value: s.value,
                goes_on: joins(self.plan.out, s.inside, was, before, s.value),
            };
            n = add(o, self.plan.out, n, keep, s.inside, piece);
            if s.last == u64::MAX {
                return n;
            }
            x = s.last + 1;
            was = s.inside;
            before = s.value;
            at = s.then;
        }
        n
    }

    // How many items the result has, as far as they are fewer than stop. Where keep says so and all were met, they stand in o behind
    // word 0.
    fn sweep(self, stop: usize, keep: bool, o: &mut [u64]) -> usize
        requires swept { Swept self }
        requires room { 1 + self.plan.out * pick keep (length (listed self)) 0 ≤ length o.old }
        ensures { Stopped keep self.entry.plan.out stop (listed self.entry) result o.new }
    {
        let first = self.begin();
        let plan = set_plan(self.plan.table);
        if self.plan != plan {
            return self.sweep_as::<false, true>(first, stop, keep, o);
        }
        let sets = Lists { plan, ..self };
        if first.c.place == first.c.end {
            return sets.sweep_as::<true, false>(first, stop, keep, o);
        }
        sets.sweep_as::<true, true>(first, stop, keep, o)
    }
}

// Whether the result has at most cap items; bound is any number that it does not exceed, so that where bound fits nothing is counted.
pub fn fits(a: &[u64], b: &[u64], c: &[u64], plan: Plan, bound: usize, cap: usize) -> bool
    requires inputs { Inputs plan.a plan.b plan.c a.now b.now c.now }
    requires fit { Fit plan.table plan.out plan.a plan.b plan.c }
    requires cap_bound { (cap < M) × (length (result_of plan a.now b.now c.now) ≤ bound) }
    ensures { result ≡ leb (length (result_of plan a.now b.now c.now)) cap }
{
    if bound <= cap {
        return true;
    }
    let mut none: [u64; 1] = [0; 1];
    let n = Lists { a, b, c, plan }.sweep(cap + 1, false, &mut none);
    n <= cap
}

// Whether the result has any item.
pub fn any(a: &[u64], b: &[u64], c: &[u64], plan: Plan) -> bool
    requires inputs { Inputs plan.a plan.b plan.c a.now b.now c.now }
    requires fit { Fit plan.table plan.out plan.a plan.b plan.c }
    ensures { result ≡ ltb 0 (length (result_of plan a.now b.now c.now)) }
{
    let mut none: [u64; 1] = [0; 1];
    let n = Lists { a, b, c, plan }.sweep(1, false, &mut none);
    0 < n
}

// The result into o, which has room for it, and 0 to the end of o.
pub fn write(a: &[u64], b: &[u64], c: &[u64], plan: Plan, o: &mut [u64])
    requires inputs { Inputs plan.a plan.b plan.c a.now b.now c.now }
    requires fit { Fit plan.table plan.out plan.a plan.b plan.c }
    requires c_in_bounds { 1 + plan.out * length (result_of plan a.now b.now c.now) ≤ length o.old }
    ensures { o.new ≡ block_of (length o.old) (result_of plan a.now b.now c.now) }
{
    let n = Lists { a, b, c, plan }.sweep(o.len(), true, o);
    o[0] = n as u64;
    blocks::clear(o, 1 + plan.out * n);
}
