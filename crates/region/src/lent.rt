// A region that was lent, and what is found on it: good copies, the pair's case, and the target of a copy.

ghost use Rattle.std.specs.Prelude.{true, ◌≡◌, ◌+◌, ◌*◌, ◌<◌, ◌≤◌, Ok, Err, IfOk, MatchResult};
ghost use Rattle.bbt.specs.Copies.{good, reads_bad};
ghost use Rattle.bbt.specs.Lent.{region_lent, statuses_right};
ghost use Rattle.bbt.specs.Pages.{page_bytes, seen, version_of};
ghost use Rattle.bbt.specs.Pairs.{same, compared, pair_case};
ghost use Rattle.bbt.specs.Told.{told_case};
ghost use Rattle.chip.specs.Large.{is_chip, pages_of, region_pages};
ghost use Rattle.region.specs.Cases.{is_signed, also_located, copies_in, lent_chip};
ghost use Rattle.region.specs.Parts.{part_of};
ghost use Rattle.region.specs.Stored.{stored_parts, stored_table};
ghost use Rattle.region.specs.Targets.{is_free_by, told_target, target_by};

use crate::pages::{Page, bad_page, page_matches};
use crate::parts;
use bbt::{Kind, PairCase};
use chip::{LargeChip, Refusal, RegionBlock};

// A region image that was lent with its status bytes, and judged: N and the region's size are those of a chip, image and status bytes have their
// lengths, and each status byte is 0 or 1.
#[derive(Clone, Copy)]
pub struct Region<'a> {
    pub chip: LargeChip,
    pub image: &'a [u8],
    pub status: &'a [u8],
    pub ghost chip_right: { is_chip chip.blocks chip.region ≡ true },
    pub ghost lengths_right: { region_lent chip image.now status.now ≡ true },
    pub ghost statuses_right: { statuses_right status.now ≡ true },
}

// Is each status byte 0 or 1? (By a `for`: `all` is slower.)
#[tactic(auto, using(bbt::proofs::Searches::all_next), unfolding(bbt::specs::Lent::statuses_right, bbt::specs::Pages::all))]
fn statuses_right(status: &[u8]) -> bool
    ensures { result ≡ statuses_right status.now }
{
    for s in status {
        if *s > 1 {
            return false;
        }
    }
    true
}

// The end of d that tells no newer copy.
const OPPOSITE: i32 = -128;

impl<'a> Region<'a> {
    // A region lent beside a bitmap of this length, if one is lent: N and the region's size are judged, then lengths, then status bytes.
    #[tactic(auto, using(crate::proofs::Lending::chip_right), unfolding(crate::specs::Cases::lent_chip, bbt::specs::Lent::region_lent))]
    pub fn lent(
        n: u64,
        size: u64,
        beside: Option<usize>,
        image: &'a [u8],
        status: &'a [u8],
    ) -> Result<Region<'a>, Refusal>
        ensures chip { MatchResult result (λ r. lent_chip n size beside image.now status.now ≡ Ok r.chip) (λ e. lent_chip n size beside image.now status.now ≡ Err e) }
        ensures lent { IfOk result (λ r. (r.image ≡ image.entry) × (r.status ≡ status.entry)) }
    {
        let chip = LargeChip::new(n, size)?;
        if image.len() != chip.region_bytes()
            || status.len() != chip.region_pages()
            || beside.is_some_and(|bytes| bytes != chip.bitmap_bytes())
        {
            return Err(Refusal::Length);
        }
        if !statuses_right(status) {
            return Err(Refusal::Range);
        }
        Ok(Region {
            chip,
            image,
            status,
        })
    }

    // Page i, counted over all blocks.
    #[tactic(auto, using(crate::proofs::Lending::fits), unfolding(bbt::specs::Pages::page_bytes))]
    fn page(self, i: usize) -> &'a Page
        requires { i < region_pages self.chip }
        ensures { result.now ≡ page_bytes self.entry.image.now i }
    {
        let at = i * LargeChip::PAGE_WITH_OOB;
        self.image[at..at + LargeChip::PAGE_WITH_OOB]
            .as_array()
            .unwrap()
    }

    // The number of a block's first page.
    #[tactic(auto, using(crate::proofs::Lending::fits, crate::proofs::Lending::block_inside))]
    fn first_page(self, b: RegionBlock) -> usize
        requires { b.0 < self.chip.region }
        ensures is { result ≡ b.0 * pages_of self.entry.chip }
        ensures below { result + pages_of self.entry.chip ≤ region_pages self.entry.chip }
    {
        b.0 as usize * self.chip.pages()
    }

    // Is region block b a good copy of a kind: its P pages all read well with that signature and one version? (By a `for`: `all` is slower.)
    #[tactic(auto, using(crate::proofs::Lending::fits, crate::proofs::Stored::good_raw, bbt::proofs::Searches::all_next), unfolding(bbt::specs::Pages::all))]
    fn good_copy(self, kind: Kind, b: RegionBlock) -> bool
        requires block { b.0 < self.chip.region }
        requires signed { is_signed kind }
        ensures { result ≡ good (pages_of self.entry.chip) (seen self.entry.chip self.entry.image.now self.entry.status.now) kind b.0 }
    {
        let first = self.first_page(b);
        let version = self.page(first)[LargeChip::VERSION];
        for p in 0..self.chip.pages() {
            let i = first + p;
            if !page_matches(self.status[i], self.page(i), kind, version) {
                return false;
            }
        }
        true
    }

    // What was found of a kind, with one block more: a second good copy is refusal 8.
    fn also(
        self,
        kind: Kind,
        b: RegionBlock,
        found: Option<RegionBlock>,
    ) -> Result<Option<RegionBlock>, Refusal>
        requires block { b.0 < self.chip.region }
        requires signed { is_signed kind }
        ensures { result ≡ also_located (good (pages_of self.entry.chip) (seen self.entry.chip self.entry.image.now self.entry.status.now) kind b.0) b found }
    {
        if !self.good_copy(kind, b) {
            return Ok(found);
        }
        match found {
            None => Ok(Some(b)),
            Some(_) => Err(Refusal::SeveralCopies),
        }
    }

    // The blocks that hold a good primary and a good mirror, where there are.
    #[tactic(auto, using(crate::proofs::Locating::located_next, crate::proofs::Locating::located_err), unfolding(bbt::specs::Copies::find, bbt::specs::Pages::same_kind))]
    fn locate(self) -> Result<(Option<RegionBlock>, Option<RegionBlock>), Refusal>
        ensures { result ≡ copies_in self.entry.chip (seen self.entry.chip self.entry.image.now self.entry.status.now) }
    {
        let mut primary = None;
        let mut mirror = None;
        for b in 0..self.chip.region {
            let block = RegionBlock(b);
            primary = self.also(Kind::Primary, block, primary)?;
            mirror = self.also(Kind::Mirror, block, mirror)?;
        }
        Ok((primary, mirror))
    }

    // The version that a block's first page shows; 0 where the image is too short.
    pub fn version(self, b: RegionBlock) -> u8
        ensures { result ≡ version_of (page_bytes self.entry.image.now (b.0 * pages_of self.entry.chip)) }
    {
        parts::version(self.chip, self.image, b)
    }

    // The part of a bitmap that page p of region block b holds; empty where the image is too short.
    pub fn part(self, b: RegionBlock, p: u8) -> &'a [u8]
        ensures { result.now ≡ part_of self.entry.chip self.entry.image.now b.0 p }
    {
        parts::part(self.chip, self.image, b, p)
    }

    // Do two blocks hold equal bitmaps?
    #[tactic(auto, using(crate::proofs::Lending::fits))]
    fn same_bitmaps(self, x: RegionBlock, y: RegionBlock) -> bool
        requires first { x.0 < self.chip.region }
        requires second { y.0 < self.chip.region }
        ensures { result ≡ same (stored_parts self.entry.chip self.entry.image.now x.0 (pages_of self.entry.chip)) (stored_parts self.entry.chip self.entry.image.now y.0 (pages_of self.entry.chip)) }
    {
        (0..self.chip.pages() as u8).all(|p| bitmap::same_bytes(self.part(x, p), self.part(y, p)))
    }

    // The case of two good copies: the sign of d and its end at -128, then the bitmaps.
    #[tactic(auto, unfolding(bbt::specs::Pairs::both_case, bbt::specs::Pairs::compared))]
    fn both_case(self, p: RegionBlock, m: RegionBlock) -> Result<PairCase, Refusal>
        requires primary { p.0 < self.chip.region }
        requires mirror { m.0 < self.chip.region }
        ensures { result ≡ told_case (compared (stored_table self.entry.chip self.entry.image.now p.0) (stored_table self.entry.chip self.entry.image.now m.0) p.0 m.0) }
    {
        match bbt::version_difference(self.version(p), self.version(m)) {
            0 if self.same_bitmaps(p, m) => Ok(PairCase::Settled(p, m)),
            0 => Ok(PairCase::Merging(p, m)),
            OPPOSITE => Err(Refusal::Opposite),
            d => Ok(PairCase::Differing(d, p, m)),
        }
    }

    // The pair's case.
    #[tactic(auto, using(crate::proofs::Lending::fits, crate::proofs::Locating::both_compared, crate::proofs::Locating::located_unique), unfolding(bbt::specs::Pairs::pair_case, bbt::specs::Pairs::case_of))]
    pub fn pair_case(self) -> Result<PairCase, Refusal>
        ensures { result ≡ told_case (pair_case self.entry.chip (seen self.entry.chip self.entry.image.now self.entry.status.now)) }
    {
        match self.locate()? {
            (Some(p), Some(m)) => self.both_case(p, m),
            (Some(p), None) => Ok(PairCase::Alone(Kind::Primary, p)),
            (None, Some(m)) => Ok(PairCase::Alone(Kind::Mirror, m)),
            (None, None) => Err(Refusal::NoCopy),
        }
    }

    // Is region block b readable as bad?
    #[tactic(auto, using(crate::proofs::Lending::fits, crate::proofs::Stored::reads_bad_raw))]
    fn reads_bad(self, b: RegionBlock) -> bool
        requires { b.0 < self.chip.region }
        ensures { result ≡ reads_bad (seen self.entry.chip self.entry.image.now self.entry.status.now) b.0 }
    {
        let first = self.first_page(b);
        bad_page(self.status[first], self.page(first))
    }

    // May region block b be a target beside the blocks to avoid?
    #[tactic(auto, using(crate::proofs::Lending::fits))]
    fn is_free(self, avoid: [bool; LargeChip::REGION_PLACES], b: RegionBlock) -> bool
        requires { b.0 < self.chip.region }
        ensures { result ≡ is_free_by (seen self.entry.chip self.entry.image.now self.entry.status.now) avoid b.0 }
    {
        !avoid[b.0 as usize] && !self.reads_bad(b)
    }

    // The target beside blocks to avoid, if there is one: the highest block that is neither to be avoided nor readable as bad.
    #[tactic(auto, using(bbt::proofs::Searches::highest_next), unfolding(crate::specs::Targets::target_by, bbt::specs::Copies::highest))]
    pub fn target(self, avoid: [bool; LargeChip::REGION_PLACES]) -> Option<RegionBlock>
        ensures { result ≡ told_target (target_by self.entry.chip (seen self.entry.chip self.entry.image.now self.entry.status.now) avoid) }
    {
        for b in (0..self.chip.region).rev() {
            let block = RegionBlock(b);
            if self.is_free(avoid, block) {
                return Some(block);
            }
        }
        None
    }
}
