// The loops over bitmaps: the update rule, the AND and equality of two.
#![tactic(auto)]

ghost use Rattle.std.specs.Prelude.{◌≡◌, ℕ, ◌<◌, ◌^◌, eqb, length};
ghost use Rattle.bbt.specs.Entries.{updated_byte};
ghost use Rattle.bbt.specs.Pairs.{same};
ghost use Rattle.bitmap.specs.Made.{new_equals_old, updated_into, anded_into, Gives, PutInto, no_difference};

// Bitmaps are compared this many bytes at a time.
const AT_A_TIME: usize = 256;

// Are two bitmaps equal?
#[tactic(auto, using(crate::proofs::Parts::same_none, bbt::proofs::Bitmaps::same_lengths))]
pub fn same_bytes(a: &[u8], b: &[u8]) -> bool
    ensures { result ≡ same a.now b.now }
{
    a.len() == b.len() && no_difference(|x, y| x ^ y, a, b)
}

// Does the update rule keep an old bitmap as it is?
#[tactic(auto, using(crate::proofs::Parts::kept_none, crate::proofs::Rule::equal_short))]
pub fn new_equals_old(old: &[u8], wanted: &[u8]) -> bool
    ensures { result ≡ new_equals_old old.now wanted.now }
{
    let n = old.len();
    n <= wanted.len() && no_difference(|o, w| updated(o, w) ^ o, old, &wanted[..n])
}

// Is there no difference between two lists of one length, where `differ` tells that of two bytes, 0 for none?
#[tactic(auto, using(crate::proofs::Parts::zip_done))]
fn no_difference<F: Fn(u8, u8) -> u8>(differ: F, a: &[u8], b: &[u8]) -> bool
    ghost f: { ℕ → ℕ → ℕ }
    requires callable { F.IsAlwaysCallable differ }
    requires gives { Gives (F.post differ) f }
    requires lengths { length a.now ≡ length b.now }
    ensures { result ≡ no_difference f a.now b.now }
{
    let (a_parts, a_rest) = a.as_chunks::<AT_A_TIME>();
    let (b_parts, b_rest) = b.as_chunks::<AT_A_TIME>();
    for (x, y) in a_parts.iter().zip(b_parts) {
        if differences(&differ, x, y) != 0 {
            return false;
        }
    }
    differences(&differ, a_rest, b_rest) == 0
}

// The differences of two lists of one length, gathered: 0 where there is none.
#[tactic(auto, using(crate::proofs::Parts::gathered, crate::proofs::Parts::zip_done))]
fn differences<F: Fn(u8, u8) -> u8>(differ: &F, a: &[u8], b: &[u8]) -> u8
    ghost f: { ℕ → ℕ → ℕ }
    requires callable { F.IsAlwaysCallable differ.now }
    requires gives { Gives (F.post differ.now) f }
    requires lengths { length a.now ≡ length b.now }
    ensures { eqb result 0 ≡ no_difference f a.now b.now }
{
    let mut d = 0;
    for (x, y) in a.iter().zip(b) {
        d |= differ(*x, *y);
    }
    d
}

// The update rule on a byte of four entries: where the old one is 11 the wanted one is taken.
#[tactic(auto, using(crate::proofs::Rule::rule_bits))]
fn updated(o: u8, w: u8) -> u8
    ensures { result ≡ updated_byte o w }
{
    let g = o & (o / 2) & 0x55;
    let good = g | (g << 1);
    o & (w | !good)
}

// The update rule into `out`, where all three are of one length; else nothing is done.
#[tactic(auto, using(crate::proofs::Into::updated_put))]
pub fn update_into(old: &[u8], wanted: &[u8], out: &mut [u8])
    ensures { out.new ≡ updated_into old.now wanted.now out.old }
{
    put_into(updated, old, wanted, out)
}

// The AND of two bitmaps into `out`, where all three are of one length; else nothing is done.
#[tactic(auto, using(crate::proofs::Into::anded_put))]
pub fn and_into(a: &[u8], b: &[u8], out: &mut [u8])
    ensures { out.new ≡ anded_into a.now b.now out.old }
{
    put_into(|x, y| x & y, a, b, out)
}

// What `rule` makes of the bytes at each place of two bitmaps into `out`, where all three are of one length; else nothing is done.
fn put_into<F: Fn(u8, u8) -> u8>(rule: F, a: &[u8], b: &[u8], out: &mut [u8])
    ghost f: { ℕ → ℕ → ℕ }
    requires callable { F.IsAlwaysCallable rule }
    requires gives { Gives (F.post rule) f }
    ensures { PutInto f a.now b.now out.old out.new }
{
    if a.len() != out.len() || b.len() != out.len() {
        return;
    }
    for (i, o) in out.iter_mut().enumerate() {
        *o = rule(a[i], b[i]);
    }
}
