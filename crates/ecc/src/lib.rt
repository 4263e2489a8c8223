// The half-page code of the small chip (the SmartMedia/SSFDC scheme): 22 parities of 256 bytes in three stored bytes.
// It puts one flipped bit right and tells two from it.
#![tactic(auto)]

ghost use Rattle.std.specs.Prelude.{◌≡◌, ◌+◌, ◌*◌, ◌<◌, ◌≤◌, length, drop};
ghost use Rattle.bits.specs.Bits.{number};
ghost use Rattle.ecc.specs.Half.{code_of, stored_bit, difference};
ghost use Rattle.ecc.specs.Sums.{line_sum, byte_sum, fold_at, parity_bit, spread_of, pairs_of, columns_of, code_from_sums};
ghost use Rattle.ecc.specs.Verdicts.{count_set, last_set, one_in_each, verdict, found, half_start, mended, repairs};

use chip::{Half, SmallChip};

// A code as it is stored: LP7 to LP0, LP15 to LP8, CP5 to CP0 above two 1s; all inverted.
#[derive(Clone, Copy)]
pub struct Code {
    pub one: u8,
    pub two: u8,
    pub three: u8,
}

impl Code {
    // Code bit j as three stored bytes hold it.
    #[tactic(auto, using(std::proofs::lemmas::Bool::Decides::nat_tests), unfolding(crate::specs::Half::stored_bit, bits::specs::Bits::bit))]
    fn stored_bit(self, j: u8) -> bool
        requires { j < 22 }
        ensures { result ≡ stored_bit self j }
    {
        if j < 8 {
            return (self.one >> j) % 2 == 1;
        }
        if j < 16 {
            return (self.two >> (j - 8)) % 2 == 1;
        }
        (self.three >> (j - 14)) % 2 == 1
    }

    // How many of the 22 bits are set.
    #[tactic(auto, using(crate::proofs::Counts::count_stored))]
    fn count_set(self) -> u32
        ensures { result ≡ count_set 22 (stored_bit self) }
    {
        self.one.count_ones() + self.two.count_ones() + (self.three / 4).count_ones()
    }

    // The last of the 22 bits that is set, or 0.
    #[tactic(auto, using(crate::proofs::Verdicts::last_next), unfolding(crate::specs::Verdicts::last_set))]
    fn last_set(self) -> u8
        ensures { result ≡ last_set 22 (stored_bit self) }
    {
        let mut last = 0;
        for j in 0..SmallChip::CODE_BITS {
            if self.stored_bit(j) {
                last = j;
            }
        }
        last
    }

    // Is exactly one bit set in each of the 11 pairs? All are looked at, since leaving at the first that fails takes a third longer.
    #[tactic(auto, using(crate::proofs::Verdicts::pairs_next), unfolding(crate::specs::Verdicts::one_in_each))]
    fn one_in_each(self) -> bool
        ensures { result ≡ one_in_each 11 (stored_bit self) }
    {
        let mut all = true;
        for k in 0..SmallChip::CODE_PAIRS {
            all &= self.stored_bit(2 * k) != self.stored_bit(2 * k + 1);
        }
        all
    }

    // What the odd members of n pairs spell, the first of them at `from`.
    #[tactic(auto, using(crate::proofs::Verdicts::spelling), unfolding(bits::specs::Bits::number))]
    fn spelled(self, from: u8, n: u8) -> u8
        requires { (n ≤ 8) × (2 * n + from ≤ 23) }
        ensures { result ≡ number n (λ k. stored_bit self (2 * k + from)) }
    {
        let mut r = 0;
        for k in 0..n {
            if self.stored_bit(2 * k + from) {
                r += 1 << k;
            }
        }
        r
    }

    // The verdict of a difference.
    #[tactic(auto, unfolding(crate::specs::Verdicts::verdict))]
    fn judge(self) -> Verdict
        ensures { result ≡ verdict (stored_bit self) }
    {
        match self.count_set() {
            0 => Verdict::Clean,
            1 => Verdict::CodeBit(self.last_set()),
            _ if self.one_in_each() => Verdict::DataBit(self.spelled(1, 8), self.spelled(17, 3)),
            _ => Verdict::NotRepairable,
        }
    }
}

// What a half and its stored code tell: a code bit by its number from 0 to 21 (LP0 to LP15, CP0 to CP5), a data bit by its byte and its
// number in it.
#[derive(Clone, Copy)]
pub enum Verdict {
    Clean,
    CodeBit(u8),
    DataBit(u8, u8),
    NotRepairable,
}

impl Verdict {
    // How many bits of the half are put right.
    pub fn repairs(self) -> u8
        ensures { result ≡ repairs self }
    {
        match self {
            Verdict::CodeBit(_) | Verdict::DataBit(_, _) => 1,
            _ => 0,
        }
    }
}

// The parity of a byte's bits, 0 or 1. By shifts: with a count of ones the sums of a run take 3 percent longer.
fn parity(x: u8) -> u8
    ensures { (result ≡ parity_bit x) × (result < 2) }
{
    let four = x ^ (x >> 4);
    let two = four ^ (four >> 2);
    (two ^ (two >> 1)) % 2
}

// The sums of a run of bytes: `line` is the XOR of the addresses, modulo 256, of the bytes of odd parity, `all` that of the bytes.
#[derive(Clone, Copy)]
struct RunSums {
    line: u8,
    all: u8,
}

// The sums of a run that stands from address 0 on.
#[tactic(auto, using(crate::proofs::Sums::summing))]
fn run_sums(run: &[u8]) -> RunSums
    ensures { (result.line ≡ line_sum run.now) × (result.all ≡ byte_sum run.now) }
{
    let mut line = 0;
    let mut all = 0;
    for (i, x) in run.iter().enumerate() {
        all ^= *x;
        line ^= (i % 256) as u8 & (parity(*x) * 255);
    }
    RunSums { line, all }
}

// The upper part of `from` XORed onto its lower part, into `to`; the XOR of the upper part's bytes.
#[tactic(auto, using(crate::proofs::Folds::folding))]
fn fold(from: &[u8], to: &mut [u8]) -> u8
    requires { length from.now ≡ length to.old + length to.old }
    ensures sum { result ≡ byte_sum (drop (length to.old) from.now) }
    ensures folded { to.new ≡ fold_at (length to.old) from.now }
{
    let n = to.len();
    let mut sum = 0;
    for i in 0..n {
        let x = from[n + i];
        sum ^= x;
        to[i] = from[i] ^ x;
    }
    sum
}

// A number of four bits with its bits at the even places of a byte.
fn spread(n: u8) -> u8
    requires { n < 16 }
    ensures { result ≡ spread_of n }
{
    let two = (n | (n << 2)) & 0x33;
    (two | (two << 1)) & 0x55
}

// Four pairs of parities as a stored byte, from their odd members and the parity of all bits.
fn pairs(odd: u8, all: u8) -> u8
    requires { (odd < 16) × (all < 2) }
    ensures { result ≡ pairs_of odd all }
{
    let apart = spread(odd);
    !((apart << 1) | (apart ^ (all * 0x55)))
}

// The column parities as a stored byte, from the XOR of all bytes: three pairs above two 1s.
fn columns(all: u8) -> u8
    ensures { result ≡ columns_of all }
{
    let odd = parity(all & 0xAA) * 2 + parity(all & 0xCC) * 4 + parity(all & 0xF0) * 8;
    pairs(odd, parity(all)) | 3
}

// The code from a run's two sums.
#[tactic(auto, unfolding(crate::specs::Sums::code_from_sums))]
fn code_from(line: u8, all: u8) -> Code
    ensures { result ≡ code_from_sums line all }
{
    let p = parity(all);
    Code {
        one: pairs(line % 16, p),
        two: pairs(line / 16, p),
        three: columns(all),
    }
}

// The code of a half. Two folds leave 64 bytes to sum; the bytes folded away give the two top address bits.
#[tactic(auto, using(crate::proofs::Codes::code_folds, crate::proofs::Folds::quarter_lt))]
fn half_code(half: &[u8; SmallChip::HALF]) -> Code
    ensures { result ≡ code_of half.now }
{
    let mut upper = [0; 128];
    let top = fold(half, &mut upper);
    let mut quarter = [0; 64];
    let next = fold(&upper, &mut quarter);
    let s = run_sums(&quarter);
    code_from(s.line + parity(next) * 64 + parity(top) * 128, s.all)
}

// The code of a run of bytes; of a half, the 256 bytes' code.
#[tactic(auto, using(crate::proofs::Codes::code_run))]
pub fn code_of(half: &[u8]) -> Code
    ensures { result ≡ code_of half.now }
{
    if let Ok(half) = <&[u8; SmallChip::HALF]>::try_from(half) {
        return half_code(half);
    }
    let s = run_sums(half);
    code_from(s.line, s.all)
}

// What a half's stored code and the code computed of it tell.
#[tactic(auto, using(crate::proofs::Stored::verdict_xor))]
pub fn compare(stored: Code, computed: Code) -> Verdict
    ensures { result ≡ verdict (difference stored computed) }
{
    let difference = Code {
        one: stored.one ^ computed.one,
        two: stored.two ^ computed.two,
        three: stored.three ^ computed.three,
    };
    difference.judge()
}

// What a half and its stored code tell.
pub fn judge_half(half: &[u8], stored: Code) -> Verdict
    ensures { result ≡ found half.now stored }
{
    compare(stored, code_of(half))
}

// Where a half starts in a page's data.
fn half_start(half: Half) -> usize
    ensures { (result ≡ half_start half) × (result ≤ 256) }
{
    match half {
        Half::First => 0,
        Half::Second => SmallChip::HALF,
    }
}

// Puts a half of a page right, in place.
pub fn mend(bytes: &mut [u8], half: Half, v: Verdict)
    ensures { bytes.new ≡ mended half v bytes.old }
{
    if let Verdict::DataBit(a, b) = v {
        let at = half_start(half) + (a as usize);
        if b < 8 && at < bytes.len() {
            bytes[at] ^= 1 << b;
        }
    }
}
