//! The digits of a hash. No other room knows how many they are, nor how many bits each has.
ghost use Rattle.std.specs.Prelude.{◌≡◌, ◌+◌, ◌<◌, ◌≤◌, ◌↔◌, IsTrue};
ghost use Rattle.trie.specs.Digits.{digit, digit_count, digits_number, slot_count};
ghost use Rattle.trie.specs.Shapes.{digit_text};

/// How many bits a digit has, but the last one, which has those that are left.
const BITS: u32 = 5;

/// How many digits a hash has: enough for its 64 bits.
pub const DIGITS: u32 = 13;

/// How many slots a branch has: one for each digit.
pub const SLOTS: usize = 1 << BITS;

/// The depth of the last digit.
const LAST: u32 = DIGITS - 1;

/// How many values the last digit may have.
const LAST_VALUES: u64 = 1 << (u64::BITS - BITS * LAST);

/// A bit for each slot of a branch.
pub type Bitmap = u32;

/// The first digits of a hash, the low digit first.
#[derive(Clone, Copy)]
pub struct HashPrefix {
    hash: u64,
    depth: u32,
    ghost within: { depth ≤ digit_count },
}

impl HashPrefix {
    /// No digit of the hash.
    pub fn empty(hash: u64) -> HashPrefix
        ensures hash { result.hash ≡ hash }
        ensures depth { result.depth ≡ 0 }
    {
        HashPrefix { hash, depth: 0 }
    }

    /// So many digits of the hash.
    pub fn at(hash: u64, depth: u32) -> HashPrefix
        requires { depth ≤ digit_count }
        ensures hash { result.hash ≡ hash }
        ensures depth { result.depth ≡ depth }
    {
        HashPrefix { hash, depth }
    }

    /// Whether all digits are in the prefix.
    pub fn is_whole(self) -> bool
        ensures { IsTrue result ↔ (self.depth ≡ digit_count) }
    {
        self.depth == DIGITS
    }

    /// The digit after the prefix.
    pub fn next(self) -> usize
        requires { self.depth < digit_count }
        ensures value { result ≡ digit self.hash self.depth }
        ensures bound { result < slot_count }
    {
        digit_at(self.hash, self.depth)
    }

    /// The digit of another hash after as many as the prefix has.
    pub fn next_of(self, hash: u64) -> usize
        requires { self.depth < digit_count }
        ensures value { result ≡ digit hash self.depth }
        ensures bound { result < slot_count }
    {
        digit_at(hash, self.depth)
    }

    /// The prefix with the digit after it.
    pub fn longer(self) -> HashPrefix
        requires { self.depth < digit_count }
        ensures hash { result.hash ≡ self.hash }
        ensures depth { result.depth ≡ self.depth + 1 }
    {
        HashPrefix {
            hash: self.hash,
            depth: self.depth + 1,
        }
    }
}

/// The digit of the hash at this depth: after so many others.
pub fn digit_at(hash: u64, depth: u32) -> usize
    requires { depth < digit_count }
    ensures value { result ≡ digit hash depth }
    ensures bound { result < slot_count }
{
    (hash >> (BITS * depth)) as usize % SLOTS
}

/// All digits as one number, the first of them in front: such numbers rise as digits do. The last digit has no
/// more room than its bits, so the number has as many bits as the hash.
pub fn digits_number(hash: u64) -> u64
    ensures { result ≡ digits_number hash }
{
    let mut number = 0;
    for depth in 0..LAST {
        number = number * SLOTS as u64 + digit_at(hash, depth) as u64;
    }
    number * LAST_VALUES + digit_at(hash, LAST) as u64
}

/// A digit as a character: `0` to `9`, then `a` to `v`.
pub fn digit_text(digit: u8) -> char
    requires { digit < slot_count }
    ensures { result ≡ digit_text digit }
{
    let Some(text) = char::from_digit(u32::from(digit), SLOTS as u32) else {
        unreachable!()
    };
    text
}
