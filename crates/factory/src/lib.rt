// The first bitmap of a chip, from the marks of the factory.
#![tactic(auto)]

ghost use Rattle.std.specs.Prelude.{map, ◌≡◌, ◌*◌, ◌≤◌, length};
ghost use Rattle.bits.specs.Bytes.{build};
ghost use Rattle.bbt.specs.Entries.{first_byte};
ghost use Rattle.factory.specs.Marks.{first_at, lowest_first, flag};
ghost use Rattle.factory.specs.FirstBitmap.{first_answer, first_after};

use chip::{LargeChip, Refusal};

// The low seven bits of each of eight bytes.
const LOW_BITS: u64 = 0x7F7F7F7F7F7F7F7F;

// The top bit of each.
const TOP_BITS: u64 = 0x8080808080808080;

// The lowest bit of each of four blocks, two bytes a block.
const ONE_A_BLOCK: u64 = 0x0001000100010001;

// The first bitmap of a chip of n blocks, with a region of `size`, from 2n marks: those of a block's first and second page, block by block.
// A block with a mark of 0 gives 00, any other 11.
#[tactic(auto, using(crate::proofs::First::refused_answer, crate::proofs::First::refused_after, crate::proofs::First::short_marks_answer, crate::proofs::First::short_marks_after, crate::proofs::First::short_room_answer, crate::proofs::First::short_room_after, crate::proofs::First::made_answer, crate::proofs::First::made_after))]
pub fn first_bitmap(n: u64, size: u64, marks: &[u8], bitmap: &mut [u8]) -> Result<(), Refusal>
    ensures answer { result ≡ first_answer n size marks.now bitmap.old }
    ensures out { bitmap.new ≡ first_after n size marks.now bitmap.old }
{
    let chip = LargeChip::new(n, size)?;
    if marks.len() != 2 * (chip.blocks as usize) || bitmap.len() != chip.bitmap_bytes() {
        return Err(Refusal::Length);
    }
    fill_first(marks, bitmap);
    Ok(())
}

// Fills `bitmap` with the entries of the marks.
fn fill_first(marks: &[u8], bitmap: &mut [u8])
    requires { 8 * length bitmap.old ≤ length marks.now }
    ensures { bitmap.new ≡ build (first_byte marks.now) (length bitmap.old) }
{
    let (eights, _) = marks.as_chunks::<8>();
    for (i, entries) in bitmap.iter_mut().enumerate() {
        *entries = first_of(&eights[i]);
    }
}

// The first entries of four blocks with these marks, two of each.
#[tactic(auto, using(crate::proofs::Judging::of_eight))]
fn first_of(marks: &[u8; 8]) -> u8
    ensures { result ≡ first_at marks.now 0 }
{
    let whole = flags(marks);
    // 11 for each block with both flags, 16 bits apart; then two and two of them side by side, then all four.
    let apart = 3 * (whole & (whole / 256) & ONE_A_BLOCK);
    let paired = apart | (apart / 16384);
    ((paired | (paired / 268435456)) % 256) as u8
}

// For each of eight marks 1 where it is not 0, otherwise 0: a byte each, the first one lowest.
#[tactic(auto, using(crate::proofs::Judging::of_marks))]
fn flags(marks: &[u8; 8]) -> u64
    ensures { result ≡ lowest_first (map flag marks.now) }
{
    let marks = side_by_side(marks);
    // Bit 7 of a byte is set in the sum where one of its low bits is; no byte carries into the next.
    let carried = (marks & LOW_BITS) + LOW_BITS;
    ((carried | marks) & TOP_BITS) / 128
}

// Eight marks as one number, a byte each, the first one lowest. Out of two numbers of four the compiler makes vector code, and out of one
// of eight slower code.
fn side_by_side(marks: &[u8; 8]) -> u64
    ensures { result ≡ lowest_first marks.now }
{
    let [a, b, c, d, e, f, g, h] = *marks;
    let low = u32::from_le_bytes([a, b, c, d]);
    let high = u32::from_le_bytes([e, f, g, h]);
    u64::from(low) + 4294967296 * u64::from(high)
}
