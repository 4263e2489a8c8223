// Page images of the large chip: the pages of a copy of a table as they are written.
#![tactic(auto)]

ghost use Rattle.std.specs.Prelude.{◌≡◌};
ghost use Rattle.bbt.specs.Images.{chunk};
ghost use Rattle.images.specs.Made.{image_into, finish_into};

use bbt::Kind;
use chip::LargeChip;

// Page p's bytes of a lent bitmap.
#[tactic(auto, using(std::proofs::lemmas::List::take_min, std::proofs::lemmas::List::drop_min, std::proofs::lemmas::List::take_rest), unfolding(bbt::specs::Images::chunk))]
pub fn chunk_of(bitmap: &[u8], p: u8) -> &[u8]
    ensures { result.now ≡ chunk p bitmap.now }
{
    let at = LargeChip::PAGE * (p as usize);
    let rest = &bitmap[at.min(bitmap.len())..];
    &rest[..LargeChip::PAGE.min(rest.len())]
}

// Finishes a page image whose first n bytes are its part of a table: the rest FF, with the signature and the version. Nothing is done
// where the page has not 2,112 bytes, or n is above 2,048.
#[tactic(auto, using(crate::proofs::Paging::finished, crate::proofs::Paging::unfinished))]
pub fn finish_page(n: usize, kind: Kind, version: u8, page: &mut [u8])
    ensures { page.new ≡ finish_into kind version n page.old }
{
    if page.len() != LargeChip::PAGE_WITH_OOB || LargeChip::PAGE < n {
        return;
    }
    page[n..].fill(0xFF);
    let [a, b, c, d] = bits::bytes_of(kind.signature());
    page[LargeChip::SIGNATURE..=LargeChip::VERSION].copy_from_slice(&[a, b, c, d, version]);
}

// The image of a page of a copy, from its part of the table, its kind and its version. Nothing is done where the page has not 2,112 bytes,
// or the part has more than 2,048.
#[tactic(auto, using(crate::proofs::Paging::imaged, crate::proofs::Paging::not_imaged))]
pub fn page_image(part: &[u8], kind: Kind, version: u8, page: &mut [u8])
    ensures { page.new ≡ image_into kind version part.now page.old }
{
    let n = part.len();
    if page.len() != LargeChip::PAGE_WITH_OOB || LargeChip::PAGE < n {
        return;
    }
    bits::copy(part, &mut page[..n]);
    finish_page(n, kind, version, page);
}
