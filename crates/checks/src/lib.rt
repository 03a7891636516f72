// The two checks of a record: Fletcher's, for old forms, and the CRC, for new ones. Both are taken from the numbers that the bytes are,
// with no table.
#![tactic(auto)]

ghost use Rattle.std.specs.Prelude.{◌≡◌, [], ◌∷◌, ◌≤◌, ◌<◌, length};
ghost use Rattle.numbers.specs.Numbers.{past2, past4, be2, be8, word_bytes};
ghost use Rattle.checks.specs.Check.{fletcher, crc_start, crc_byte, crc_from, crc, check_of};
ghost use Rattle.checks.specs.Steps.{go_on, Small, After, Begun, weight4, carry, on_word, Joined, Mixed};

// The mark of records with Fletcher's check, which are only read, and of those with the CRC, which are read and written.
pub const OLD_MARK: u16 = 0xC53A;

pub const NEW_MARK: u16 = 0xC53B;

// The two sums of Fletcher's check, over the bytes so far, each up to multiples of 255.
#[derive(Clone, Copy)]
pub struct Sums {
    pub a: u64,
    pub b: u64,
}

impl Sums {
    // The sums over the kind.
    #[tactic(auto, using(crate::proofs::Summing::begun_on))]
    pub fn from_kind(kind: u8) -> Sums
        ensures { Begun kind result }
    {
        let x = u64::from(kind);
        Sums { a: x, b: x }
    }

    // The sums with the 2 bytes of v behind. 256 leaves 1 when divided by 255, so a number adds to them what its bytes add.
    #[tactic(auto, using(crate::proofs::Summing::two_on))]
    pub fn with2(self, v: u64) -> Sums
        requires { Small self × (v < past2) }
        ensures { After (be2 v) self result }
    {
        Sums {
            a: self.a + v,
            b: self.b + 2 * self.a + v + v / 256,
        }
    }

    // The sums with the 8 bytes of v behind.
    #[tactic(auto, using(crate::proofs::Summing::eight_on))]
    pub fn with8(self, v: u64) -> Sums
        requires { Small self }
        ensures { After (be8 v) self result }
    {
        let h = v / 4294967296;
        let l = v % 4294967296;
        Sums {
            a: self.a + h + l,
            b: self.b + 8 * self.a + 4 * h + weight(h) + weight(l),
        }
    }

    // Fletcher's check of the bytes in the sums. Here the remainders are taken, once a record.
    #[tactic(auto, unfolding(crate::specs::Check::fletcher))]
    pub fn check(self) -> u64
        ensures { (result ≡ go_on self []) × (result < past2) }
    {
        self.b % 255 * 256 + self.a % 255
    }
}

// What the 4 bytes of v add to the second sum: each is in it once, and once more for each of them behind it.
#[tactic(auto, unfolding(crate::specs::Steps::weight4))]
fn weight(v: u64) -> u64
    requires { v < past4 }
    ensures { (result ≡ weight4 v) × (result < 8589934592) }
{
    v + v / 256 + v / 65536 + v / 16777216
}

// Fletcher's check of at most 33 bytes.
#[tactic(auto, using(crate::proofs::Summing::sums_step, crate::proofs::Summing::sums_end))]
fn fletcher_of(bytes: &[u8]) -> u64
    requires { length bytes.now ≤ 33 }
    ensures { (result ≡ fletcher 0 0 bytes.now) × (result < past2) }
{
    let mut sums = Sums { a: 0, b: 0 };
    for x in bytes {
        sums.a += u64::from(*x);
        sums.b += sums.a;
    }
    sums.check()
}

// The CRC's register over the bytes so far.
#[derive(Clone, Copy)]
pub struct Register {
    pub bits: u16,
}

impl Register {
    // The register before the first byte.
    const START: Register = Register { bits: 0xFFFF };

    // The register over the kind.
    pub fn from_kind(kind: u8) -> Register
        ensures { result.bits ≡ crc_byte crc_start kind }
    {
        Register::START.with(kind)
    }

    // The register with one byte behind: its eight steps at once, of the high half and the byte.
    #[tactic(auto, using(crate::proofs::Crc::byte_is), unfolding(crate::proofs::Crc::byte))]
    fn with(self, x: u8) -> Register
        ensures { result.bits ≡ crc_byte self.bits x }
    {
        let y = (self.bits >> 8) ^ u16::from(x);
        let t = y ^ (y >> 4);
        Register {
            bits: (self.bits << 8) ^ (t << 12) ^ (t << 5) ^ t,
        }
    }

    // The register with the 2 bytes of v behind.
    #[tactic(auto, unfolding(crate::specs::Check::crc_from))]
    pub fn with2(self, v: u64) -> Register
        requires { v < past2 }
        ensures { result.bits ≡ crc_from self.bits (be2 v) }
    {
        self.with((v / 256) as u8).with((v % 256) as u8)
    }

    // The word that stands for the register and the 8 bytes of v behind: what comes into a register is added to what is there.
    #[tactic(auto, using(crate::proofs::Words::joined_law))]
    pub fn with8(self, v: u64) -> Word
        ensures { Joined self.bits v result.bits }
    {
        Word {
            bits: v ^ (u64::from(self.bits) << 48),
        }
    }

    // The CRC of the bytes so far.
    #[tactic(auto, using(crate::proofs::Marks::crc_none))]
    pub fn check(self) -> u64
        ensures { (result ≡ crc_from self.bits []) × (result < past2) }
    {
        u64::from(self.bits)
    }
}

// A word that stands for the bytes so far: their CRC is that of its 8 bytes from register 0 on.
#[derive(Clone, Copy)]
pub struct Word {
    pub bits: u64,
}

impl Word {
    // How often the fourth power of the polynomial, x^64 + x^48 + x^20 + 1, goes into the word with 64 zeros behind.
    #[tactic(auto, unfolding(crate::specs::Steps::carry))]
    fn carried(self) -> u64
        ensures { result ≡ carry self.bits }
    {
        let v = self.bits ^ (self.bits >> 32);
        v ^ (v >> 16) ^ (v >> 44)
    }

    // The word with the 8 bytes of v behind: what is left of it when that power is taken off, added to v.
    #[tactic(auto, using(crate::proofs::Words::mixed_law))]
    pub fn with8(self, v: u64) -> Word
        ensures { Mixed self.bits v result.bits }
    {
        let q = self.carried();
        Word {
            bits: v ^ q ^ (q << 20) ^ (q << 48),
        }
    }

    // The CRC of the bytes so far: what is left of the word when the polynomial itself is taken off, 16 zeros behind.
    pub fn check(self) -> u64
        ensures { (result ≡ on_word self.bits []) × (result < past2) }
    {
        let q = self.carried();
        let r = q ^ (q >> 8) ^ (q >> 22) ^ (q >> 32);
        let t = r ^ (r >> 4) ^ (r >> 11) ^ (r >> 16);
        let c = (t % 65536) as u16;
        u64::from(c ^ (c << 5) ^ (c << 12))
    }
}

// The CRC of the kind and the bytes of the words.
#[tactic(auto, using(numbers::proofs::Numbers::bytes_more))]
pub fn crc_words(kind: u8, words: &[u64]) -> u64
    requires { 1 ≤ length words.now }
    ensures { (result ≡ crc (kind ∷ word_bytes words.now)) × (result < past2) }
{
    let mut word = Register::from_kind(kind).with8(words[0]);
    for x in &words[1..] {
        word = word.with8(*x);
    }
    word.check()
}

// The CRC of bytes.
#[tactic(auto, using(crate::proofs::Marks::crc_step, crate::proofs::Marks::crc_end))]
fn crc_of(bytes: &[u8]) -> u64
    ensures { (result ≡ crc bytes.now) × (result < past2) }
{
    let mut register = Register::START;
    for x in bytes {
        register = register.with(*x);
    }
    register.check()
}

// The check that a record with this mark has for at most 33 bytes, byte by byte.
#[tactic(auto, using(crate::proofs::Marks::check_old, crate::proofs::Marks::check_new))]
pub fn check_of(bytes: &[u8], mark: u16) -> u64
    requires { length bytes.now ≤ 33 }
    ensures { (result ≡ check_of mark bytes.now) × (result < past2) }
{
    if mark == OLD_MARK {
        return fletcher_of(bytes);
    }
    crc_of(bytes)
}
