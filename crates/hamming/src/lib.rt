// The protected word of a small page's spare: 26 data bits in bits 31 to 6, bit 5 unused, 5 check bits in bits 4 to 0.
// It puts one flipped bit right; path and magic-and-count are both such words.
#![tactic(auto)]

ghost use Rattle.std.specs.Prelude.{◌≡◌, ◌<◌, ◌%◌};
ghost use Rattle.std.specs.Int.Count.{ones};
ghost use Rattle.hamming.specs.Word.{check_bits, encoded, data_bit_of, is_repair, decoded};

use chip::SmallChip;

// What was repaired in a word.
#[derive(Clone, Copy, PartialEq, Eq)]
pub enum Repair {
    Clean,
    CheckBit,
    DataBit,
}

// The 26 data bits of a word that was read, and what was repaired.
#[derive(Clone, Copy)]
pub struct Decoded {
    pub bits: u32,
    pub repair: Repair,
}

impl Repair {
    // Was a bit put right?
    pub fn is_repair(self) -> bool
        ensures { result ≡ is_repair self }
    {
        self != Repair::Clean
    }
}

// 1 where the number of ones is odd.
fn odd(x: u32) -> u32
    ensures { (result ≡ ones x % 2) × (result < 2) }
{
    x.count_ones() % 2
}

// The five check bits of 26 data bits: each mask has the data bits whose number has the check bit's bit set.
fn check_bits(bits: u32) -> u32
    ensures { (result ≡ check_bits bits) × (result < 32) }
{
    odd(bits & 0x2AAAD5B)
        + 2 * odd(bits & 0x333366D)
        + 4 * odd(bits & 0x3C3C78E)
        + 8 * odd(bits & 0x3FC07F0)
        + 16 * odd(bits & 0x3FFF800)
}

// The word written for 26 data bits, of which the low 26 of `bits` are taken.
#[tactic(auto, unfolding(crate::specs::Word::encoded))]
pub fn encode(bits: u32) -> u32
    ensures { result ≡ encoded bits }
{
    bits % SmallChip::WORDS * 64 + 32 + check_bits(bits)
}

// The data bit that has the number n, which is not a power of two.
#[tactic(auto, using(crate::proofs::Numbers::placing))]
fn data_bit(n: u32) -> u32
    requires { (2 < n) × (n < 32) × (ones n ≡ 1 → ⊥) }
    ensures { (result ≡ data_bit_of n) × (result < 26) }
{
    if n < 4 {
        return 0;
    }
    if n < 8 {
        return n - 4;
    }
    if n < 16 {
        return n - 5;
    }
    n - 6
}

// Reads a word. Every word has a reading; bit 5 is ignored.
#[tactic(auto, using(crate::proofs::Numbers::naming), unfolding(crate::specs::Word::decoded, crate::specs::Word::decoded_by, crate::specs::Word::named))]
pub fn decode(word: u32) -> Decoded
    ensures { result ≡ decoded word }
{
    let bits = word / 64;
    let named = check_bits(bits) ^ (word % 32);
    if named == 0 {
        return Decoded {
            bits,
            repair: Repair::Clean,
        };
    }
    if named.count_ones() == 1 {
        return Decoded {
            bits,
            repair: Repair::CheckBit,
        };
    }
    Decoded {
        bits: bits ^ (1 << data_bit(named)),
        repair: Repair::DataBit,
    }
}
