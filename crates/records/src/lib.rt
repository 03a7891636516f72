// One record of the byte form: the kinds, a start and an item, read with either mark, written with the new one.
#![tactic(auto)]

ghost use Rattle.std.specs.Prelude.{◌≡◌, [], ◌∷◌, ◌++◌, ◌+◌, ◌*◌, ◌≤◌, ◌<◌, ltb, leb, eqb, length};
ghost use Rattle.entries.specs.Build.{pick, andb, same_words};
ghost use Rattle.blocks.specs.Blocks.{afterb, item_of};
ghost use Rattle.numbers.specs.Numbers.{past2, num2, num8, be2, word_bytes, count_bytes, over};
ghost use Rattle.checks.specs.Check.{new_mark, fletcher, crc, check_of};
ghost use Rattle.checks.specs.Steps.{go_on, on_word};
ghost use Rattle.records.specs.Records.{body_length, entry_words, entry_in, saying, item_record, start_record, start_verdict, in_order, item_verdict};
ghost use Rattle.records.specs.Reads.{body_read, read_as, counts_of, second_count, item_here, item_said, entry_of, previous};
ghost use Rattle.records.specs.Steps.{StartKind, ItemKind, item_bytes, Fronted, Laid};

use answers::Reason;
use checks::{Register, Sums, Word};

// The words of an item record, 0 for those that its kind has not.
#[derive(Clone, Copy)]
pub struct Item {
    pub low: u64,
    pub high: u64,
    pub value: u64,
    pub second: u64,
}

// The kind of the items of a signed set, whose ends stand in two's complement.
pub const SIGNED: u8 = 0x14;

// [G5] The length of the body of each kind; none of a kind that is unknown.
#[tactic(auto, using(crate::proofs::Table::kind_1_2, crate::proofs::Table::kind_18_20, crate::proofs::Table::kind_none), unfolding(crate::specs::Records::body_length))]
pub fn body_length(kind: u8) -> Option<usize>
    ensures { result ≡ body_read (body_length kind) }
{
    match kind {
        0x01 | 0x02 | 0x04 => Some(2),
        0x03 => Some(4),
        0x10 | 0x12 | 0x13 | 0x14 => Some(16),
        0x11 => Some(24),
        0x00 | 0x05..=0x0F | 0x15..=0xFF => None,
    }
}

// The record at the front of the bytes is good as far as its length, or the reason why it is refused.
#[tactic(auto, using(crate::proofs::Table::body_small, crate::proofs::Table::told_known, crate::proofs::Table::told_unknown, crate::proofs::Table::fits_known, crate::proofs::Heads::front_short, crate::proofs::Heads::front_mark, crate::proofs::Heads::front_kind, crate::proofs::Heads::front_body, crate::proofs::Heads::front_unknown, crate::proofs::Heads::length_short))]
fn read_front(bytes: &[u8], mark: u16, due: u8) -> Result<(), Reason>
    ensures { Fronted mark due bytes.now result }
{
    if bytes.len() < 3 {
        return Err(Reason::Short);
    }
    if numbers::get2(bytes, 0) != u64::from(mark) {
        return Err(Reason::Mark);
    }
    let kind = bytes[2];
    let Some(n) = body_length(kind) else {
        return Err(Reason::Kind);
    };
    if kind != due {
        return Err(Reason::Kind);
    }
    if bytes.len() < n + 5 {
        return Err(Reason::Short);
    }
    Ok(())
}

// Whether the check that stands at place q is this one.
fn is_told(bytes: &[u8], q: usize, check: u64) -> bool
    requires { q + 2 ≤ length bytes.now }
    ensures { result ≡ eqb check (num2 bytes.now q) }
{
    check == numbers::get2(bytes, q)
}

// The second count of the start record at the front of the bytes, or 0 if it has k = 1 counts.
pub fn second_count(bytes: &[u8], k: usize) -> u64
    requires { 2 * k + 5 ≤ length bytes.now }
    ensures { (result ≡ second_count k bytes.now) × (result < past2) }
{
    if 1 < k {
        return numbers::get2(bytes, 5);
    }
    0
}

// The sums over the kind and the k counts of a start.
fn start_sums(kind: u8, k: usize, n: u64, m: u64) -> Sums
    requires { (1 ≤ k) × (k ≤ 2) × (n < past2) × (m < past2) }
    ensures { go_on result [] ≡ fletcher 0 0 (kind ∷ count_bytes (counts_of k n m)) }
{
    let sums = Sums::from_kind(kind).with2(n);
    if k == 1 {
        return sums;
    }
    sums.with2(m)
}

// The CRC of the kind and the k counts of a start.
#[tactic(auto, using(checks::proofs::Marks::crc_none, crate::proofs::Told::crc_begin, crate::proofs::Told::crc_next), unfolding(checks::specs::Check::crc_from))]
fn start_crc(kind: u8, k: usize, n: u64, m: u64) -> u64
    requires { (1 ≤ k) × (k ≤ 2) × (n < past2) × (m < past2) }
    ensures { (result ≡ crc (kind ∷ count_bytes (counts_of k n m))) × (result < past2) }
{
    let register = Register::from_kind(kind).with2(n);
    if k == 1 {
        return register.check();
    }
    register.with2(m).check()
}

// The check of a start with k counts, in a record with this mark.
#[tactic(auto, using(checks::proofs::Marks::check_old, checks::proofs::Marks::check_new))]
fn start_check(kind: u8, mark: u16, k: usize, n: u64, m: u64) -> u64
    requires { (1 ≤ k) × (k ≤ 2) × (n < past2) × (m < past2) }
    ensures { result ≡ check_of mark (kind ∷ count_bytes (counts_of k n m)) }
{
    if mark == checks::OLD_MARK {
        return start_sums(kind, k, n, m).check();
    }
    start_crc(kind, k, n, m)
}

// The start record with k counts at the front of the bytes: its counts, each at most the limit, the second 0 where it has one.
pub fn read_start(
    bytes: &[u8],
    mark: u16,
    due: u8,
    k: usize,
    limit: usize,
) -> Result<(usize, usize), Reason>
    requires { StartKind due k }
    ensures { result ≡ read_as (start_verdict mark due k limit bytes.now) (num2 bytes.now 3, second_count k bytes.now) }
{
    read_front(bytes, mark, due)?;
    let x = numbers::get2(bytes, 3);
    let y = second_count(bytes, k);
    if !is_told(bytes, 2 * k + 3, start_check(due, mark, k, x, y)) {
        return Err(Reason::Check);
    }
    let n = x as usize;
    let m = y as usize;
    if n > limit || m > limit {
        return Err(Reason::Content);
    }
    Ok((n, m))
}

// Word j of the item record at the front of the bytes, or 0 if its s words are fewer.
fn value_word(bytes: &[u8], s: usize, j: usize) -> u64
    requires { 8 * s + 5 ≤ length bytes.now }
    ensures { result ≡ pick (ltb j s) (num8 bytes.now (8 * j + 3)) 0 }
{
    if j < s {
        return numbers::get8(bytes, 8 * j + 3);
    }
    0
}

// The item of s words in the record at the front of the bytes.
fn item_here(bytes: &[u8], s: usize) -> Item
    requires { (2 ≤ s) × (8 * s + 5 ≤ length bytes.now) }
    ensures { result ≡ item_here s bytes.now }
{
    let low = numbers::get8(bytes, 3);
    let high = numbers::get8(bytes, 11);
    let value = value_word(bytes, s, 2);
    let second = value_word(bytes, s, 3);
    Item {
        low,
        high,
        value,
        second,
    }
}

// The item that an item record of a kind says with these words.
#[tactic(auto, using(crate::proofs::Items::said_as_it_is, crate::proofs::Items::said_turned))]
fn item_said(kind: u8, item: Item) -> Item
    ensures { result ≡ item_said kind item }
{
    if kind != SIGNED {
        return item;
    }
    Item {
        low: keys::turned(item.low),
        high: keys::turned(item.high),
        value: item.value,
        second: item.second,
    }
}

// The sums over the kind and the s words of an item.
fn item_sums(kind: u8, item: Item, s: usize) -> Sums
    requires { (2 ≤ s) × (s ≤ 4) }
    ensures { go_on result [] ≡ fletcher 0 0 (kind ∷ item_bytes s item) }
{
    let ends = Sums::from_kind(kind).with8(item.low).with8(item.high);
    if s == 2 {
        return ends;
    }
    let value = ends.with8(item.value);
    if s == 3 {
        return value;
    }
    value.with8(item.second)
}

// The word that stands for the kind and the s words of an item, whose CRC is to be taken.
fn item_word(kind: u8, item: Item, s: usize) -> Word
    requires { (2 ≤ s) × (s ≤ 4) }
    ensures { on_word result.bits [] ≡ crc (kind ∷ item_bytes s item) }
{
    let ends = Register::from_kind(kind).with8(item.low).with8(item.high);
    if s == 2 {
        return ends;
    }
    let value = ends.with8(item.value);
    if s == 3 {
        return value;
    }
    value.with8(item.second)
}

// The check of an item of s words, in a record with this mark.
#[tactic(auto, using(checks::proofs::Marks::check_old, checks::proofs::Marks::check_new))]
fn item_check(kind: u8, mark: u16, item: Item, s: usize) -> u64
    requires { (2 ≤ s) × (s ≤ 4) }
    ensures { result ≡ check_of mark (kind ∷ item_bytes s item) }
{
    if mark == checks::OLD_MARK {
        return item_sums(kind, item, s).check();
    }
    item_word(kind, item, s).check()
}

// Whether two items of s words have the same value.
#[tactic(auto, using(crate::proofs::Items::same_none, crate::proofs::Items::same_differ, crate::proofs::Items::same_one, crate::proofs::Items::same_two))]
fn same_value(a: Item, b: Item, s: usize) -> bool
    requires { (2 ≤ s) × (s ≤ 4) }
    ensures { result ≡ same_words (entry_of s a).value (entry_of s b).value }
{
    s == 2 || (a.value == b.value && (s == 3 || a.second == b.second))
}

// Whether an item may stand right after another.
#[tactic(auto, using(crate::proofs::Items::overlaps, crate::proofs::Items::apart, crate::proofs::Items::touching))]
fn may_follow(before: Item, item: Item, s: usize) -> bool
    requires { (2 ≤ s) × (s ≤ 4) }
    ensures { result ≡ afterb (entry_of s before) (entry_of s item) }
{
    before.high < item.low && (1 < item.low - before.high || !same_value(before, item, s))
}

// Whether an item has its ends in order and may stand after the one before it, where there is one.
fn in_order(item: Item, before: Option<Item>, s: usize) -> bool
    requires { (2 ≤ s) × (s ≤ 4) }
    ensures { result ≡ in_order (previous s before) (entry_of s item) }
{
    item.low <= item.high
        && match before {
            None => true,
            Some(d) => may_follow(d, item, s),
        }
}

// The item record at the front of the bytes: its item, which is in order and may stand after the one before it. The check is over the
// bytes as they stand; the order is that of what they say.
pub fn read_item(
    bytes: &[u8],
    mark: u16,
    kind: u8,
    s: usize,
    before: Option<Item>,
) -> Result<Item, Reason>
    requires { ItemKind kind s }
    ensures { result ≡ read_as (item_verdict mark kind s (previous s before) bytes.now) (item_said kind (item_here s bytes.now)) }
{
    read_front(bytes, mark, kind)?;
    let words = item_here(bytes, s);
    if !is_told(bytes, 8 * s + 3, item_check(kind, mark, words, s)) {
        return Err(Reason::Check);
    }
    let item = item_said(kind, words);
    if !in_order(item, before, s) {
        return Err(Reason::Content);
    }
    Ok(item)
}

// Writes the new mark and the kind.
#[tactic(auto, using(numbers::proofs::Patch::store_over))]
fn put_head(bytes: &mut [u8], kind: u8)
    requires { 3 ≤ length bytes.old }
    ensures { bytes.new ≡ over (be2 new_mark ++ (kind ∷ [])) bytes.old }
{
    numbers::put2(bytes, u64::from(checks::NEW_MARK));
    bytes[2] = kind;
}

// Writes the k counts of a start.
fn put_counts(bytes: &mut [u8], k: usize, n: u64, m: u64)
    requires { (1 ≤ k) × (k ≤ 2) × (n < past2) × (m < past2) × (2 * k ≤ length bytes.old) }
    ensures { bytes.new ≡ over (count_bytes (counts_of k n m)) bytes.old }
{
    numbers::put2(bytes, n);
    if k == 1 {
        return;
    }
    numbers::put2(&mut bytes[2..], m);
}

// Writes a start record with k counts, with the new mark and check.
pub fn write_start(bytes: &mut [u8], kind: u8, k: usize, n: u64, m: u64)
    requires { (1 ≤ k) × (k ≤ 2) × (n < past2) × (m < past2) × (2 * k + 5 ≤ length bytes.old) }
    ensures { bytes.new ≡ over (start_record new_mark kind (counts_of k n m)) bytes.old }
{
    put_head(bytes, kind);
    put_counts(&mut bytes[3..], k, n, m);
    let check = start_crc(kind, k, n, m);
    let q = 2 * k + 3;
    numbers::put2(&mut bytes[q..], check);
}

// Fills the front of out with the s words of the item that the record at the front of the bytes says.
#[tactic(auto, using(crate::proofs::Ends::fill_turned))]
pub fn fill_item(bytes: &[u8], kind: u8, s: usize, out: &mut [u64])
    requires { (2 ≤ s) × (8 * s + 3 ≤ length bytes.now) × (s ≤ length out.old) }
    ensures { out.new ≡ over (entry_words (entry_in kind s bytes.now)) out.old }
{
    numbers::get_words(&bytes[3..], s, out);
    if kind == SIGNED {
        out[0] = keys::turned(out[0]);
        out[1] = keys::turned(out[1]);
    }
}

// Writes the words one after the other, and answers the CRC of the kind and their bytes.
fn put_checked(bytes: &mut [u8], words: &[u64], kind: u8) -> u64
    requires { (1 ≤ length words.now) × (8 * length words.now ≤ length bytes.old) }
    ensures { Laid kind (word_bytes words.now) bytes.old bytes.new result }
{
    numbers::put_words(bytes, words);
    checks::crc_words(kind, words)
}

// Writes the body of an item record whose item has these words, and answers the CRC of the kind and the body.
#[tactic(auto, using(crate::proofs::Ends::laid_as, crate::proofs::Ends::put_plain, crate::proofs::Ends::put_turned))]
fn put_item(bytes: &mut [u8], words: &[u64], kind: u8) -> u64
    requires { ItemKind kind (length words.now) × (8 * length words.now ≤ length bytes.old) }
    ensures { Laid kind (word_bytes (entry_words (saying kind (item_of (length words.now) words.now))))
        bytes.old bytes.new result }
{
    if kind == SIGNED {
        let ends = [keys::turned(words[0]), keys::turned(words[1])];
        return put_checked(bytes, &ends, kind);
    }
    put_checked(bytes, words, kind)
}

// Writes the record of the item that has these words, with the new mark and check.
pub fn write_item(bytes: &mut [u8], kind: u8, words: &[u64])
    requires { ItemKind kind (length words.now) × (8 * length words.now + 5 ≤ length bytes.old) }
    ensures { bytes.new ≡ over (item_record new_mark kind (item_of (length words.now) words.now)) bytes.old }
{
    put_head(bytes, kind);
    let check = put_item(&mut bytes[3..], words, kind);
    let q = 8 * words.len() + 3;
    numbers::put2(&mut bytes[q..], check);
}
