// A form is a value: sets, maps, bulletins and signed sets are four of them. Here are its verdicts: the bytes judged as a whole form, run by run, the
// outputs of a reading, and what can be asked of ranges in bytes.
#![tactic(auto)]

ghost use Rattle.std.specs.Prelude.{◌≡◌, [], ◌∷◌, ◌+◌, ◌*◌, ◌≤◌, ◌<◌, length, drop};
ghost use Rattle.entries.specs.Sets.{member};
ghost use Rattle.entries.specs.Bulletins.{shareb};
ghost use Rattle.answers.specs.Steps.{FirstOf};
ghost use Rattle.runs.specs.Runs.{entries_in};
ghost use Rattle.verdicts.specs.Forms.{mark_of, start_size, form_refusals, no_room_at, out_refusals};
ghost use Rattle.verdicts.specs.Steps.{FormKind, OneRun, each_of, behind_start};

use answers::{Reason, Refusal};
use blocks::Layout;

// A form: the kind of its start, the kind of the items of its first run and of its second, how many runs it has, one or two, and the
// layout of the block that holds a run. Its records bear either mark, all the same one.
#[derive(Clone, Copy)]
pub struct Form {
    pub start: u8,
    pub first: u8,
    pub second: u8,
    pub runs: usize,
    pub layout: Layout,
}

// A set, a map: one run. A bulletin: its released ranges, then its withdrawn ranges.
pub const SET_FORM: Form = Form {
    start: 0x01,
    first: 0x10,
    second: 0x10,
    runs: 1,
    layout: blocks::SET,
};

pub const MAP_FORM: Form = Form {
    start: 0x02,
    first: 0x11,
    second: 0x11,
    runs: 1,
    layout: blocks::MAP,
};

pub const BULLETIN_FORM: Form = Form {
    start: 0x03,
    first: 0x12,
    second: 0x13,
    runs: 2,
    layout: blocks::SET,
};

// A signed set: one run of ranges whose ends stand in two's complement.
pub const SIGNED_FORM: Form = Form {
    start: 0x04,
    first: 0x14,
    second: 0x14,
    runs: 1,
    layout: blocks::SET,
};

// Whether the n ranges whose records begin at place p share a number with the m whose records begin at place q.
fn share_records(
    bytes: &[u8],
    first: u8,
    p: usize,
    n: usize,
    second: u8,
    q: usize,
    m: usize,
) -> bool
    requires { OneRun first p n bytes.now × OneRun second q m bytes.now }
    ensures { result ≡ shareb (entries_in first 2 n (drop p bytes.now)) (entries_in second 2 m (drop q bytes.now)) }
{
    let mut i: usize = 0;
    let mut j: usize = 0;
    while i < n && j < m {
        let a = p + 21 * i;
        let b = q + 21 * j;
        if numbers::get8(bytes, a + 11) < numbers::get8(bytes, b + 3) {
            i += 1;
        } else if numbers::get8(bytes, b + 11) < numbers::get8(bytes, a + 3) {
            j += 1;
        } else {
            return true;
        }
    }
    false
}

// The mark that a form's records have to bear: the old one where its first two bytes are that, else the new one.
#[tactic(auto, using(crate::proofs::Two::is_old, crate::proofs::Two::is_new, crate::proofs::Two::too_short))]
fn mark_of(bytes: &[u8]) -> u16
    ensures { result ≡ mark_of bytes.now }
{
    if bytes.len() < 2 {
        return checks::NEW_MARK;
    }
    if numbers::get2(bytes, 0) == u64::from(checks::OLD_MARK) {
        return checks::OLD_MARK;
    }
    checks::NEW_MARK
}

// What is behind the start of a form with this mark and these counts is good; or its first refusal.
fn judge_runs(bytes: &[u8], mark: u16, form: Form, n: usize, m: usize) -> Result<(), Refusal>
    requires { FormKind form × (start_size form ≤ length bytes.now) }
    ensures { FirstOf (behind_start mark form n m bytes.now) result }
{
    let s = form.layout.width;
    let from = 2 * form.runs + 5;
    let second = runs::judge_run(bytes, from, mark, form.first, s, n)?;
    let end = runs::judge_run(bytes, second, mark, form.second, s, m)?;
    if end < bytes.len() {
        return Err(Reason::Trailing.at(end));
    }
    if form.runs == 2 && share_records(bytes, form.first, from, n, form.second, second, m) {
        return Err(Reason::Overlap.at(0));
    }
    Ok(())
}

// The bytes are a whole form; or their first refusal. The mark of the first record is that of all.
pub fn judge_form(bytes: &[u8], form: Form) -> Result<(), Refusal>
    requires { FormKind form }
    ensures { FirstOf (form_refusals form bytes.now) result }
{
    let mark = mark_of(bytes);
    let read = records::read_start(bytes, mark, form.start, form.runs, form.layout.limit);
    let Ok((n, m)) = read else {
        return Err(read.unwrap_err().at(0));
    };
    judge_runs(bytes, mark, form, n, m)
}

// A block of len words at a position has room for n items; or the refusal that it has not.
#[tactic(auto, using(crate::proofs::Rooms::room_left, crate::proofs::Rooms::no_room_left))]
fn judge_room(layout: Layout, len: usize, n: usize, position: usize) -> Result<(), Refusal>
    requires { (2 ≤ layout.width) × (0 < len) }
    ensures { FirstOf (no_room_at layout position len n ∷ []) result }
{
    if blocks::room_for(layout, len) < n {
        return Err(Reason::Room.at(position));
    }
    Ok(())
}

// Outputs of these lengths hold n and m items; or their first refusal: 1 for each, then 5 for each.
pub fn out_refusal(
    form: Form,
    first: usize,
    n: usize,
    second: usize,
    m: usize,
) -> Result<(), Refusal>
    requires { FormKind form }
    ensures { FirstOf (out_refusals form.layout (each_of form first second) (each_of form n m)) result }
{
    if first == 0 {
        return Err(Reason::NoBlock.at(0));
    }
    if form.runs == 1 {
        return judge_room(form.layout, first, n, 0);
    }
    if second == 0 {
        return Err(Reason::NoBlock.at(1));
    }
    judge_room(form.layout, first, n, 0)?;
    judge_room(form.layout, second, m, 1)
}

// [L1] Whether x is in one of the n sound ranges whose records begin at place `from`, of a kind that holds words as they are.
#[tactic(auto, using(crate::proofs::Searching::ends_rise, crate::proofs::Searching::none_holds, crate::proofs::Searching::next_holds))]
pub fn holds(bytes: &[u8], kind: u8, from: usize, n: usize, x: u64) -> bool
    requires { OneRun kind from n bytes.now }
    ensures { result ≡ member (entries_in kind 2 n (drop from bytes.now)) x }
{
    let i = searches::first_reaching(n, x, |k| numbers::get8(bytes, from + 21 * k + 11));
    if n <= i {
        return false;
    }
    numbers::get8(bytes, from + 21 * i + 3) <= x
}
