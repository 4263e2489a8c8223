// One page of a region image, and its status byte.

ghost use Rattle.std.specs.Prelude.{◌≡◌};
ghost use Rattle.bbt.specs.Pages.{kind_of, zero_oob, bad_page};
ghost use Rattle.region.specs.Cases.{page_matches};

use bbt::Kind;
use chip::LargeChip;

pub(crate) type Page = [u8; LargeChip::PAGE_WITH_OOB];

// What its signature says.
#[tactic(auto, unfolding(bbt::specs::Pages::kind_of))]
fn kind_of(page: &Page) -> Kind
    ensures { result ≡ kind_of page.now }
{
    let at = LargeChip::SIGNATURE;
    Kind::of_signature(bits::word_of(page[at], page[at + 1], page[at + 2], page[at + 3]))
}

// Does it read well, with the signature of a kind and a version?
#[tactic(auto, using(crate::proofs::Asked::kind_eq), unfolding(crate::specs::Cases::page_matches))]
pub(crate) fn page_matches(status: u8, page: &Page, kind: Kind, version: u8) -> bool
    ensures { result ≡ page_matches kind version status page.now }
{
    status == 0 && kind == kind_of(page) && version == page[LargeChip::VERSION]
}

// Does it show 64 zero OOB bytes?
#[tactic(auto, unfolding(bbt::specs::Pages::zero_oob))]
fn zero_oob(page: &Page) -> bool
    ensures { result ≡ zero_oob page.now }
{
    page[LargeChip::PAGE..].iter().all(|byte| *byte == 0)
}

// As a block's first page, does it say that the block is bad: it reads well, has neither signature, and OOB byte 0 is 0, or it shows 64 zero OOB
// bytes? Either way OOB byte 0 is 0, which few pages show, so it is tested first.
#[tactic(auto, using(crate::proofs::Asked::kind_eq, crate::proofs::Asked::zero_first), unfolding(bbt::specs::Pages::bad_page, bbt::specs::Pages::bad_mark))]
pub(crate) fn bad_page(status: u8, page: &Page) -> bool
    ensures { result ≡ bad_page 0 status page.now }
{
    page[LargeChip::PAGE] == 0
        && ((status == 0 && kind_of(page) == Kind::Neither) || zero_oob(page))
}
