// What a call can answer: the refusals of the table, and what a question or a change that is accepted gives.
#![tactic(auto)]

ghost use Rattle.std.specs.Prelude.{◌≡◌};
ghost use Rattle.answers.specs.Says.{number_of, Decodes, at_place, refusal_of, judged_of, found_says, ranged_says, placed_says, found_key_says, ranged_keys_says, placed_key_says};

use std::error::Error;
use std::fmt;

// Why a call was refused. The table's number of each is `number_of` in specs/Says.
#[derive(Clone, Copy, Debug, PartialEq, Eq)]
pub enum Reason {
    NoBlock,
    Count,
    Order,
    Backwards,
    Room,
    ZeroRun,
    NoGap,
    Short,
    Mark,
    Kind,
    Check,
    Content,
    Trailing,
    Overlap,
    NoSpace,
    Align,
}

// A refusal: the reason, and the place that the table gives for it.
#[derive(Clone, Copy, Debug, PartialEq, Eq)]
pub struct Refusal {
    pub reason: Reason,
    pub place: usize,
}

// A number that no reason of the table has.
#[derive(Clone, Copy, Debug, PartialEq, Eq)]
pub struct UnknownNumber(pub u8);

// Whether a number is a member; and, either way, how many ranges lie wholly below it. A range that holds it does not.
#[derive(Clone, Copy, Debug, PartialEq, Eq)]
pub enum Seated {
    Yes(usize),
    No(usize),
}

// A part of a block: the place of its first word, and the number of its words.
#[derive(Clone, Copy, Debug, PartialEq, Eq)]
pub struct Part {
    pub place: usize,
    pub length: usize,
}

// A part of one of two blocks: the block's position, the place of the part's first word, and the number of its words.
#[derive(Clone, Copy, Debug, PartialEq, Eq)]
pub struct Deciding {
    pub position: usize,
    pub place: usize,
    pub length: usize,
}

impl Reason {
    // The refusal with this reason, at a place.
    pub fn at(self, place: usize) -> Refusal
        ensures { result ≡ at_place self place }
    {
        Refusal {
            reason: self,
            place,
        }
    }
}

// [G7] The table's number of a reason.
impl From<Reason> for u8 {
    ghost from_gives = { λ reason number. number ≡ number_of reason };

    fn from(reason: Reason) -> u8 {
        match reason {
            Reason::NoBlock => 1,
            Reason::Count => 2,
            Reason::Order => 3,
            Reason::Backwards => 4,
            Reason::Room => 5,
            Reason::ZeroRun => 6,
            Reason::NoGap => 7,
            Reason::Short => 8,
            Reason::Mark => 9,
            Reason::Kind => 10,
            Reason::Check => 11,
            Reason::Content => 12,
            Reason::Trailing => 13,
            Reason::Overlap => 14,
            Reason::NoSpace => 15,
            Reason::Align => 16,
        }
    }
}

// [G7] The reason with a number of the table.
impl TryFrom<u8> for Reason {
    type Error = UnknownNumber;

    ghost try_from_gives = { Decodes };

    fn try_from(number: u8) -> Result<Self, UnknownNumber> {
        match number {
            1 => Ok(Reason::NoBlock),
            2 => Ok(Reason::Count),
            3 => Ok(Reason::Order),
            4 => Ok(Reason::Backwards),
            5 => Ok(Reason::Room),
            6 => Ok(Reason::ZeroRun),
            7 => Ok(Reason::NoGap),
            8 => Ok(Reason::Short),
            9 => Ok(Reason::Mark),
            10 => Ok(Reason::Kind),
            11 => Ok(Reason::Check),
            12 => Ok(Reason::Content),
            13 => Ok(Reason::Trailing),
            14 => Ok(Reason::Overlap),
            15 => Ok(Reason::NoSpace),
            16 => Ok(Reason::Align),
            _ => Err(UnknownNumber(number)),
        }
    }
}

// The refusal as a host prints it: its number and its place.
impl fmt::Display for Refusal {
    fn fmt<W: fmt::Write>(&self, f: &mut fmt::Formatter<W>) -> fmt::Result {
        write!(f, "refused {} at {}", u8::from(self.reason), self.place)
    }
}

impl Error for Refusal {}

// [G7] The refusal with a number of the table. A number that is not in the table gives the table's last refusal, Align.
#[tactic(auto, using(crate::proofs::Numbers::read_number, crate::proofs::Numbers::unread_number))]
pub fn refusal_of(number: u8, place: usize) -> Refusal
    ensures { result ≡ refusal_of number place }
{
    match Reason::try_from(number) {
        Ok(reason) => reason.at(place),
        Err(_) => Reason::Align.at(place),
    }
}

// [G7] Accepted for 0, else the refusal with that number, as `refusal_of` gives it.
pub fn judged_of(number: u8, place: usize) -> Result<(), Refusal>
    ensures { result ≡ judged_of number place }
{
    if number == 0 {
        return Ok(());
    }
    Err(refusal_of(number, place))
}

// [K3] The answer with the key of the number that was found.
pub fn as_key(a: Result<Option<u64>, Refusal>) -> Result<Option<i64>, Refusal>
    ensures { found_key_says result ≡ found_says a }
{
    match a? {
        Some(x) => Ok(Some(keys::key_of(x))),
        None => Ok(None),
    }
}

// [K3] The answer with the keys of the two ends that were found.
pub fn as_keys(a: Result<Option<(u64, u64)>, Refusal>) -> Result<Option<(i64, i64)>, Refusal>
    ensures { ranged_keys_says result ≡ ranged_says a }
{
    match a? {
        Some((low, high)) => Ok(Some((keys::key_of(low), keys::key_of(high)))),
        None => Ok(None),
    }
}

// [K3] The answer with the key of the place that a fit chose.
pub fn as_place(a: Result<u64, Refusal>) -> Result<i64, Refusal>
    ensures { placed_key_says result ≡ placed_says a }
{
    Ok(keys::key_of(a?))
}
