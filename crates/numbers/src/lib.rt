// Numbers of 2 and 8 bytes, the high byte first, read and written.
#![tactic(auto)]

ghost use Rattle.std.specs.Prelude.{◌≡◌, ◌+◌, ◌*◌, ◌≤◌, ◌<◌, length};
ghost use Rattle.numbers.specs.Numbers.{past2, num2, num8, be2, be8, words_in, word_bytes, over};

use std::array;

// The number of 2 bytes at place q.
pub fn get2(bytes: &[u8], q: usize) -> u64
    requires { q + 2 ≤ length bytes.now }
    ensures { (result ≡ num2 bytes.now q) × (result < past2) }
{
    u64::from(u16::from_be_bytes(array::from_fn(|i| bytes[q + i])))
}

// The number of 8 bytes at place q, of which the compiler makes one load.
pub fn get8(bytes: &[u8], q: usize) -> u64
    requires { q + 8 ≤ length bytes.now }
    ensures { result ≡ num8 bytes.now q }
{
    u64::from_be_bytes(array::from_fn(|i| bytes[q + i]))
}

// Writes a number of 2 bytes at the front.
pub fn put2(bytes: &mut [u8], v: u64)
    requires { (v < past2) × (2 ≤ length bytes.old) }
    ensures { bytes.new ≡ over (be2 v) bytes.old }
{
    bytes[..2].copy_from_slice(&(v as u16).to_be_bytes());
}

// Writes a number of 8 bytes at the front.
fn put8(bytes: &mut [u8], v: u64)
    requires { 8 ≤ length bytes.old }
    ensures { bytes.new ≡ over (be8 v) bytes.old }
{
    bytes[..8].copy_from_slice(&v.to_be_bytes());
}

// Writes the words, one after the other.
pub fn put_words(bytes: &mut [u8], words: &[u64])
    requires { 8 * length words.now ≤ length bytes.old }
    ensures { bytes.new ≡ over (word_bytes words.now) bytes.old }
{
    for (j, word) in words.iter().enumerate() {
        put8(&mut bytes[8 * j..], *word);
    }
}

// Fills the front of out with the s words at the front of the bytes.
pub fn get_words(bytes: &[u8], s: usize, out: &mut [u64])
    requires { (8 * s ≤ length bytes.now) × (s ≤ length out.old) }
    ensures { out.new ≡ over (words_in s bytes.now 0) out.old }
{
    for (j, word) in out[..s].iter_mut().enumerate() {
        *word = get8(bytes, 8 * j);
    }
}
