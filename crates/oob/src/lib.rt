// The OOB bytes of a page of a lent region image, as a part of the image.
#![tactic(auto)]

ghost use Rattle.std.specs.Prelude.{◌≡◌, length};
ghost use Rattle.oob.specs.Oob.{OobOf, extent_of, oob_answer, oob_start};

use chip::{LargeChip, Refusal, RegionBlock};

// How far a region image reaches: how many blocks the region has, and P, the pages of each. Both are 0 where N or
// the region's size is refused: the theorem `JudgesChip` speaks of an extent of any N and size.
#[derive(Clone, Copy)]
pub struct Extent {
    pub region: u8,
    pub pages: u8,
}

impl Extent {
    // The extent of a region of `size` blocks, on a chip of n.
    #[tactic(auto, unfolding(crate::specs::Oob::extent_of))]
    pub fn of(n: u64, size: u64) -> Extent
        ensures { result ≡ extent_of n size }
    {
        match LargeChip::new(n, size) {
            Err(_) => Extent {
                region: 0,
                pages: 0,
            },
            Ok(chip) => Extent {
                region: chip.region,
                pages: chip.pages() as u8,
            },
        }
    }

    // Where a page's OOB bytes begin in the image.
    fn oob_start(self, block: RegionBlock, page: u8) -> usize
        ensures { result ≡ oob_start self block.0 page }
    {
        let pages_before = (block.0 as usize) * (self.pages as usize) + (page as usize);
        pages_before * LargeChip::PAGE_WITH_OOB + LargeChip::PAGE
    }
}

// Judges a request for OOB bytes: N and the region's size, which are refused where P is 0, then the image's length, then block and page.
#[tactic(auto, unfolding(crate::specs::Oob::oob_answer))]
pub fn oob_answer(extent: Extent, image: &[u8], block: RegionBlock, page: u8) -> Result<(), Refusal>
    ensures { result ≡ oob_answer extent (length image.now) block.0 page }
{
    if extent.pages == 0 {
        return Err(Refusal::Range);
    }
    let bytes = (extent.region as usize) * (extent.pages as usize) * LargeChip::PAGE_WITH_OOB;
    if image.len() != bytes {
        return Err(Refusal::Length);
    }
    if extent.region <= block.0 || extent.pages <= page {
        return Err(Refusal::Range);
    }
    Ok(())
}

// The 64 OOB bytes of a page, as a part of the image; an empty part beside a refusal.
#[tactic(auto, using(crate::proofs::Extents::given_inside), unfolding(crate::specs::Oob::oob_bytes, crate::specs::Oob::oob_place))]
pub fn oob(extent: Extent, image: &[u8], block: RegionBlock, page: u8) -> &[u8]
    ensures { OobOf extent image.entry block.0 page result }
{
    if oob_answer(extent, image, block, page).is_err() {
        return &image[..0];
    }
    let at = extent.oob_start(block, page);
    &image[at..at + LargeChip::OOB]
}
