// A view of a lent region image: a struct that holds the image itself, and thin functions over it. Asked for a page, it leaves the
// work to functions of `oob` with plain parameters, and hands back one struct. `answer_of` and `oob_of` make a view for one question.
#![tactic(auto)]

ghost use Rattle.std.specs.Prelude.{◌≡◌, length};
ghost use Rattle.oob.specs.Oob.{OobOf, extent_of, oob_answer};

use chip::{Refusal, RegionBlock};
use oob::Extent;

// The lent image itself, and how far it reaches: P, and the number of region blocks. Both are 0 where N or
// the region's size is refused.
#[derive(Clone, Copy)]
pub struct View<'a> {
    image: &'a [u8],
    extent: Extent,
}

// What a view hands back of a page: the answer, and the 64 OOB bytes as a part of the lent image; an empty part beside a refusal,
// whose place `OobOf` tells.
#[derive(Clone, Copy)]
pub struct Oob<'a> {
    pub answer: Result<(), Refusal>,
    pub part: &'a [u8],
}

impl<'a> View<'a> {
    // A view of the image of a region of `size` blocks, on a chip of n.
    pub fn new(n: u64, size: u64, image: &'a [u8]) -> View<'a>
        ensures { (result.image ≡ image.entry) × (result.extent ≡ extent_of n size) }
    {
        View {
            image,
            extent: Extent::of(n, size),
        }
    }

    // The OOB bytes of a page, or a refusal: N and the region's size are judged, then the image's length, then block and page.
    pub fn oob(self, block: RegionBlock, page: u8) -> Oob<'a>
        ensures { (result.answer ≡ oob_answer self.entry.extent (length self.entry.image.now) block.0 page) × OobOf self.entry.extent self.entry.image block.0 page result.part }
    {
        Oob {
            answer: oob::oob_answer(self.extent, self.image, block, page),
            part: oob::oob(self.extent, self.image, block, page),
        }
    }
}

// The answer of a view of the image of a region of `size` blocks, on a chip of n.
pub fn answer_of(
    n: u64,
    size: u64,
    image: &[u8],
    block: RegionBlock,
    page: u8,
) -> Result<(), Refusal>
    ensures { result ≡ oob_answer (extent_of n size) (length image.now) block.0 page }
{
    View::new(n, size, image).oob(block, page).answer
}

// The OOB bytes that such a view hands back.
pub fn oob_of(n: u64, size: u64, image: &[u8], block: RegionBlock, page: u8) -> &[u8]
    ensures { OobOf (extent_of n size) image.entry block.0 page result }
{
    View::new(n, size, image).oob(block, page).part
}
