// What a block of an image holds, by its bytes alone: a version, and the parts of a bitmap. These answer for any chip and image;
// the methods of these names are `Region`'s.

ghost use Rattle.std.specs.Prelude.{◌≡◌, ◌+◌, ◌*◌, ◌≤◌};
ghost use Rattle.bbt.specs.Pages.{page_bytes, part_length, version_of};
ghost use Rattle.chip.specs.Large.{pages_of};
ghost use Rattle.region.specs.Parts.{part_of};

use chip::{LargeChip, RegionBlock};

// Where page p of region block b begins. A block has at most 8 pages.
fn page_start(chip: LargeChip, b: RegionBlock, p: u8) -> usize
    ensures is { result ≡ (b.0 * pages_of chip + p) * 2112 }
    ensures bound { result ≤ 255 * 9 * 2112 }
{
    (b.0 as usize * chip.pages() + p as usize) * LargeChip::PAGE_WITH_OOB
}

// The bytes of page p that belong to the bitmap.
fn part_length(chip: LargeChip, p: u8) -> usize
    ensures is { result ≡ part_length chip p }
    ensures bound { result ≤ 2048 }
{
    let before = LargeChip::PAGE * p as usize;
    chip.bitmap_bytes()
        .saturating_sub(before)
        .min(LargeChip::PAGE)
}

// The part of a bitmap that page p of region block b holds, as a part of the image; empty where the image is too short. The empty one is the
// image's too: `&[]` is a constant, and archives for kernels have none.
#[tactic(auto, unfolding(crate::specs::Parts::part_of))]
pub fn part(chip: LargeChip, image: &[u8], b: RegionBlock, p: u8) -> &[u8]
    ensures { result.now ≡ part_of chip image.now b.0 p }
{
    let at = page_start(chip, b, p);
    image
        .get(at..at + part_length(chip, p))
        .unwrap_or(&image[..0])
}

// The version that a block's first page shows; 0 where the image is too short.
#[tactic(auto, using(bbt::proofs::Raw::page_byte))]
pub fn version(chip: LargeChip, image: &[u8], b: RegionBlock) -> u8
    ensures { result ≡ version_of (page_bytes image.now (b.0 * pages_of chip)) }
{
    let at = page_start(chip, b, 0) + LargeChip::VERSION;
    image.get(at).copied().unwrap_or(0)
}
