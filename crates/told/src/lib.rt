// What a C host is told of an answer: one struct of six numbers, made from what a call gives or from its refusal.
#![tactic(auto)]

ghost use Rattle.std.specs.Prelude.{◌≡◌, [], ◌∷◌, List, ℕ, map};
ghost use Rattle.answers.specs.Answers.{given, refused};
ghost use Rattle.answers.specs.Says.{says, if_any, no_values, truth_value, seat_values, one_value, two_values, part_values, deciding_values};
ghost use Rattle.answers.specs.Says.{key_value, key_values, apart_says, refusal_says};
ghost use Rattle.keys.specs.Keys.{word_of, turned};
ghost use Rattle.told.specs.Told.{told, in_twos};

use answers::{Deciding, Part, Refusal, Seated};

// What a call tells C: its status, the place of a refusal, how many values it answers, and the values.
#[repr(C)]
#[derive(Clone, Copy)]
pub struct Told {
    pub status: u64,
    pub place: u64,
    pub count: u64,
    pub first: u64,
    pub second: u64,
    pub third: u64,
}

// What a call gives, as the values that C is told. Keys are told in two's complement.
pub trait Values {
    ghost values: { Self → List ℕ };

    // Accepted, with these values.
    fn tell(self) -> Told
        ensures { result ≡ told (given (values self)) };
}

// Accepted, with no value.
pub fn accepted() -> Told
    ensures { result ≡ told (given []) }
{
    Told {
        status: 0,
        place: 0,
        count: 0,
        first: 0,
        second: 0,
        third: 0,
    }
}

// Accepted, with one value.
pub fn one_value(first: u64) -> Told
    ensures { result ≡ told (given (first ∷ [])) }
{
    Told {
        count: 1,
        first,
        ..accepted()
    }
}

// Accepted, with two values.
pub fn two_values(first: u64, second: u64) -> Told
    ensures { result ≡ told (given (first ∷ second ∷ [])) }
{
    Told {
        count: 2,
        first,
        second,
        ..accepted()
    }
}

// Accepted, with three values.
pub fn three_values(first: u64, second: u64, third: u64) -> Told
    ensures { result ≡ told (given (first ∷ second ∷ third ∷ [])) }
{
    Told {
        count: 3,
        first,
        second,
        third,
        ..accepted()
    }
}

// Refused with a number of the table.
pub fn refused(number: u8, place: usize) -> Told
    ensures { result ≡ told (refused number place) }
{
    Told {
        status: 16 + u64::from(number),
        place: place as u64,
        ..accepted()
    }
}

// A refusal.
pub fn tell_refusal(f: Refusal) -> Told
    ensures { result ≡ told (refusal_says f) }
{
    refused(u8::from(f.reason), f.place)
}

// What a call answers: what it gives, or its refusal.
pub fn tell<T: Values>(a: Result<T, Refusal>) -> Told
    ensures { result ≡ told (says T.values a) }
{
    match a {
        Ok(value) => value.tell(),
        Err(f) => tell_refusal(f),
    }
}

// Accepted, and nothing more.
impl Values for () {
    ghost values = { no_values };

    fn tell(self) -> Told {
        accepted()
    }
}

// Whether something is so.
impl Values for bool {
    ghost values = { truth_value };

    fn tell(self) -> Told {
        one_value(u64::from(self))
    }
}

// Whether a number is a member, and how many ranges lie wholly below it.
impl Values for Seated {
    ghost values = { seat_values };

    fn tell(self) -> Told {
        match self {
            Seated::Yes(below) => two_values(1, below as u64),
            Seated::No(below) => two_values(0, below as u64),
        }
    }
}

// A number.
impl Values for u64 {
    ghost values = { one_value };

    fn tell(self) -> Told {
        one_value(self)
    }
}

// A length.
impl Values for usize {
    ghost values = { one_value };

    fn tell(self) -> Told {
        one_value(self as u64)
    }
}

// A low and a high, or a value and its expiry.
impl Values for (u64, u64) {
    ghost values = { two_values };

    fn tell(self) -> Told {
        two_values(self.0, self.1)
    }
}

// A part of a block, as its offset and its length.
impl Values for Part {
    ghost values = { part_values };

    fn tell(self) -> Told {
        two_values(self.place as u64, self.length as u64)
    }
}

// The deciding entry, as the offset and the length of its part and the position of its block.
impl Values for Deciding {
    ghost values = { deciding_values };

    fn tell(self) -> Told {
        three_values(self.place as u64, self.length as u64, self.position as u64)
    }
}

// [K3] A key.
impl Values for i64 {
    ghost values = { λ k. map turned (key_value k) };

    fn tell(self) -> Told {
        one_value(twos_of(self))
    }
}

// [K3] Two keys.
impl Values for (i64, i64) {
    ghost values = { λ p. map turned (key_values p) };

    fn tell(self) -> Told {
        two_values(twos_of(self.0), twos_of(self.1))
    }
}

// What was found, or none.
impl<T: Values> Values for Option<T> {
    ghost values = { if_any T.values };

    fn tell(self) -> Told {
        match self {
            Some(value) => value.tell(),
            None => accepted(),
        }
    }
}

// A key in two's complement.
pub fn twos_of(key: i64) -> u64
    ensures { result ≡ turned (word_of key) }
{
    keys::turned(keys::word_of(key))
}

// The difference of two keys, or no value where they are too far apart.
pub fn tell_apart(a: Option<i64>) -> Told
    ensures { result ≡ told (in_twos (apart_says a)) }
{
    match a {
        Some(d) => one_value(twos_of(d)),
        None => accepted(),
    }
}
