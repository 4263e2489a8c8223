// A chip's first pair of tables: the pages of a copy that no plan writes. How they are used, and what holds then, is in specs/FirstPair.antt.
#![tactic(auto)]

ghost use Rattle.std.specs.Prelude.{◌≡◌, length};
ghost use Rattle.bringup.specs.TablePages.{kind_numbered, is_copy_page, copy_image, table_page_answer, table_page_after};
ghost use Rattle.images.specs.Made.{image_answer_by, image_after_by};

use bbt::Kind;
use chip::{LargeChip, Refusal};

// The kinds of a copy, as the C interface numbers them.
const PRIMARY: u64 = 1;

const MIRROR: u64 = 2;

// The highest version.
const LAST_VERSION: u64 = 255;

// The kind of a number.
#[tactic(auto, unfolding(crate::specs::TablePages::kind_numbered))]
fn kind_numbered(kind: u64) -> Kind
    ensures { result ≡ kind_numbered kind }
{
    match kind {
        PRIMARY => Kind::Primary,
        MIRROR => Kind::Mirror,
        _ => Kind::Neither,
    }
}

// Is there such a page of a copy?
#[tactic(auto, unfolding(crate::specs::TablePages::is_copy_page))]
fn is_copy_page(chip: LargeChip, kind: u64, version: u64, number: u64) -> bool
    ensures { result ≡ is_copy_page chip kind version number }
{
    PRIMARY <= kind && kind <= MIRROR && version <= LAST_VERSION && number < chip.pages() as u64
}

// A page of a copy of a bitmap of the chip's length, where there is such a page.
#[tactic(auto, using(crate::proofs::Pages::version_fits, crate::proofs::Pages::page_fits, crate::proofs::Pages::made_answer, crate::proofs::Pages::made_after), unfolding(crate::specs::TablePages::copy_image))]
fn copy_page(
    chip: LargeChip,
    bitmap: &[u8],
    kind: u64,
    version: u64,
    number: u64,
    page: &mut [u8],
) -> Result<(), Refusal>
    requires { length page.old ≡ 2112 }
    ensures answer { result ≡ image_answer_by (copy_image chip bitmap.now kind version number) }
    ensures out { page.new ≡ image_after_by (copy_image chip bitmap.now kind version number) page.old }
{
    if !is_copy_page(chip, kind, version, number) {
        return Err(Refusal::Range);
    }
    let part = images::chunk_of(bitmap, number as u8);
    images::page_image(part, kind_numbered(kind), version as u8, page);
    Ok(())
}

// A page of a copy of any table: a bitmap, kind 1 or 2, a version and the page's number in, 2,112 bytes out.
#[tactic(auto, using(crate::proofs::Pages::refused_answer, crate::proofs::Pages::refused_after, crate::proofs::Pages::short_page_answer, crate::proofs::Pages::short_page_after, crate::proofs::Pages::short_bitmap_answer, crate::proofs::Pages::short_bitmap_after, crate::proofs::Pages::page_answer, crate::proofs::Pages::page_after))]
pub fn table_page(
    n: u64,
    size: u64,
    bitmap: &[u8],
    kind: u64,
    version: u64,
    number: u64,
    page: &mut [u8],
) -> Result<(), Refusal>
    ensures answer { result ≡ table_page_answer n size bitmap.now kind version number page.old }
    ensures out { page.new ≡ table_page_after n size bitmap.now kind version number page.old }
{
    let chip = LargeChip::new(n, size)?;
    if page.len() != LargeChip::PAGE_WITH_OOB || bitmap.len() != chip.bitmap_bytes() {
        return Err(Refusal::Length);
    }
    copy_page(chip, bitmap, kind, version, number, page)
}
