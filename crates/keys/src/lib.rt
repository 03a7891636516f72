// Signed keys, from -2^63 to 2^63 - 1: the words that stand for them in a block, their difference, and their two's complement.
#![tactic(auto)]

ghost use Rattle.std.specs.Prelude.{◌≡◌};
ghost use Rattle.keys.specs.Keys.{word_of, key_of, apart_of, turned};

// The least key.
const LEAST: i64 = i64::MIN;

// 2^63: how far a key is shifted.
const HALF: u64 = 9223372036854775808;

// The word that stands for a key: the key plus 2^63, so that words are in the order of their keys.
pub fn word_of(key: i64) -> u64
    ensures { result ≡ word_of key }
{
    if key < 0 {
        return (key - LEAST) as u64;
    }
    key as u64 + HALF
}

// The key that a word stands for: the word less 2^63.
pub fn key_of(word: u64) -> i64
    ensures { result ≡ key_of word }
{
    if word < HALF {
        return word as i64 + LEAST;
    }
    (word - HALF) as i64
}

// The first key less the second, or none exactly where that is no key.
pub fn difference(a: i64, b: i64) -> Option<i64>
    ensures { result ≡ apart_of a b }
{
    a.checked_sub(b)
}

// The word of the key whose two's complement this is, and the two's complement of the key whose word this is: either way, the lower half
// of the 64-bit numbers changes places with the upper.
pub fn turned(x: u64) -> u64
    ensures { result ≡ turned x }
{
    if x < HALF {
        return x + HALF;
    }
    x - HALF
}
