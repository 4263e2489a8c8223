// The code that reads a lent region image: good copies, the pair's case, and the target of a copy.
#![tactic(auto)]

ghost use Rattle.std.specs.Prelude.{true, ◌≡◌, set};
ghost use Rattle.region.specs.Cases.{lent_case};
ghost use Rattle.region.specs.Targets.{lent_target};

mod lent;
mod pages;
mod parts;

use bbt::PairCase;
use chip::{LargeChip, Refusal, RegionBlock};
pub use lent::Region;
pub use parts::{part, version};

// The chip of a lent region, with the pair's case or why it has none, beside a bitmap of this length, if one is lent: N and the region's size
// are judged, then lengths, then status bytes.
#[tactic(auto, using(crate::proofs::Judged::lent_told, crate::proofs::Judged::lent_refused))]
pub fn case_of(
    n: u64,
    size: u64,
    beside: Option<usize>,
    image: &[u8],
    status: &[u8],
) -> Result<(LargeChip, Result<PairCase, Refusal>), Refusal>
    ensures { result ≡ lent_case n size beside image.now status.now }
{
    let region = Region::lent(n, size, beside, image, status)?;
    Ok((region.chip, region.pair_case()))
}

// The blocks to avoid, with one more.
pub fn avoiding(
    mut avoid: [bool; LargeChip::REGION_PLACES],
    b: RegionBlock,
) -> [bool; LargeChip::REGION_PLACES]
    ensures { result ≡ set avoid b.0 true }
{
    let place = b.0 as usize;
    if place < avoid.len() {
        avoid[place] = true;
    }
    avoid
}

// The target beside blocks to avoid, if there is one: N and the region's size are judged, then lengths, then status bytes.
#[tactic(auto, using(crate::proofs::Judged::target_told, crate::proofs::Judged::target_refused))]
pub fn find_target(
    n: u64,
    size: u64,
    image: &[u8],
    status: &[u8],
    avoid: [bool; LargeChip::REGION_PLACES],
) -> Result<Option<RegionBlock>, Refusal>
    ensures { result ≡ lent_target n size image.now status.now avoid }
{
    Ok(Region::lent(n, size, None, image, status)?.target(avoid))
}
