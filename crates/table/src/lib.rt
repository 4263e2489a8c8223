// Reading the table of a settled pair.
#![tactic(auto)]

ghost use Rattle.std.specs.Prelude.{◌≡◌, ◌*◌, ◌<◌, ◌≤◌, length};
ghost use Rattle.chip.specs.Large.{bitmap_bytes, pages_of};
ghost use Rattle.region.specs.Stored.{stored_parts};
ghost use Rattle.table.specs.Tables.{table_after, table_answer};

use bbt::PairCase;
use chip::{ChipBlock, Refusal, RegionBlock};
use region::Region;

// Copies the bitmap of region block b.
fn copy_bitmap(region: Region<'_>, b: RegionBlock, out: &mut [u8])
    requires { (b.0 < region.chip.region) × (length out.old ≡ bitmap_bytes region.chip) }
    ensures { out.new ≡ stored_parts region.entry.chip region.entry.image.now b.0 (pages_of region.entry.chip) }
{
    let mut from: usize = 0;
    for p in 0..region.chip.pages() as u8 {
        let bytes = region.part(b, p);
        let end = from + bytes.len();
        bits::copy(bytes, &mut out[from..end]);
        from = end;
    }
}

// What reading a pair tells: its version, the primary's block and the mirror's.
#[derive(Clone, Copy)]
pub struct Pair {
    pub version: u8,
    pub primary: ChipBlock,
    pub mirror: ChipBlock,
}

// Reads a settled pair: its bitmap goes into `bitmap`, which is left alone beside a refusal.
#[tactic(auto, using(crate::proofs::Reading::out_answer, crate::proofs::Reading::out_after, crate::proofs::Reading::no_pair_answer, crate::proofs::Reading::no_pair_after, crate::proofs::Reading::unsettled_answer, crate::proofs::Reading::unsettled_after, crate::proofs::Reading::settled_answer, crate::proofs::Reading::settled_after, crate::proofs::Reading::settled_inside, crate::proofs::Reading::settled_room))]
pub fn read_table(
    n: u64,
    size: u64,
    image: &[u8],
    status: &[u8],
    bitmap: &mut [u8],
) -> Result<Pair, Refusal>
    ensures answer { result ≡ table_answer n size image.now status.now bitmap.old }
    ensures out { bitmap.new ≡ table_after n size image.now status.now bitmap.old }
{
    let region = Region::lent(n, size, Some(bitmap.len()), image, status)?;
    let PairCase::Settled(p, m) = region.pair_case()? else {
        return Err(Refusal::NotSettled);
    };
    copy_bitmap(region, p, bitmap);
    Ok(Pair {
        version: region.version(p),
        primary: bbt::chip_block(region.chip, p),
        mirror: bbt::chip_block(region.chip, m),
    })
}
