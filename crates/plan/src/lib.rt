// The code that plans updates and recoveries of the pair of tables, and makes the page images of their writes. By the pair's case a call
// comes to a work, and its first plan and its page images go by the work; what failed steps make of the plan is the crate `retire`.
#![tactic(auto)]

ghost use Rattle.std.specs.Prelude.{true, ◌≡◌, ◌*◌, ◌<◌, ◌≤◌, length, take, None, Ok};
ghost use Rattle.bbt.specs.Images.{chunk, plan_image};
ghost use Rattle.bbt.specs.Plans.{for_update, for_recovery, next_version, holds, update_from, other_kind};
ghost use Rattle.region.specs.Stored.{stored_parts, stored_table};
ghost use Rattle.bbt.specs.Failures.{failures};
ghost use Rattle.bbt.specs.Pages.{seen};
ghost use Rattle.bbt.specs.Pairs.{pair_case};
ghost use Rattle.bbt.specs.Told.{told_answer, told_case};
ghost use Rattle.bitmap.specs.Made.{new_equals_old};
ghost use Rattle.chip.specs.Large.{bitmap_bytes, pages_of};
ghost use Rattle.images.specs.Made.{image_answer_by, image_after_by};
ghost use Rattle.plan.specs.Answers.{plan_answer};
ghost use Rattle.plan.specs.Calls.{call_of, beside_of, wanted_of};
ghost use Rattle.plan.specs.PageImages.{image_answer, image_after};
ghost use Rattle.plan.specs.Works.{update_work, newer_work, recovery_work, call_work, work_answer, work_bitmap, Placed, Placed-prop};

use bbt::{Kind, PairCase, Plan, Shape, Step};
use chip::{LargeChip, Refusal, RegionBlock};
use region::Region;

// What a call comes to by the pair's case.
#[derive(Clone, Copy)]
enum Work {
    // no step; this block's version is kept
    Keep(RegionBlock),
    // the update rule on the table of the first block, for primary's block and mirror's
    Update(RegionBlock, RegionBlock),
    // a copy, from the first block to the second, of this kind
    Copy(RegionBlock, RegionBlock, Kind),
    // both bitmaps ANDed, for primary's block and mirror's
    Merge(RegionBlock, RegionBlock),
}

// What an update comes to: the pair has to be settled.
fn update_work(case: PairCase) -> Result<Work, Refusal>
    ensures { result ≡ update_work case }
{
    match case {
        PairCase::Settled(p, m) => Ok(Work::Update(p, m)),
        _ => Err(Refusal::NotSettled),
    }
}

// The kind that is missing beside a good one.
fn other_kind(kind: Kind) -> Kind
    ensures { result ≡ other_kind kind }
{
    match kind {
        Kind::Primary => Kind::Mirror,
        Kind::Mirror => Kind::Primary,
        Kind::Neither => Kind::Neither,
    }
}

// The older copy is written anew from the newer: the sign of d tells which.
fn newer_work(d: i32, p: RegionBlock, m: RegionBlock) -> Work
    ensures { result ≡ newer_work d p m }
{
    if d < 0 {
        return Work::Copy(m, p, Kind::Primary);
    }
    Work::Copy(p, m, Kind::Mirror)
}

// What a recovery comes to: where only one kind is good, the other is copied to the target.
fn recovery_work(region: Region<'_>, case: PairCase) -> Result<Work, Refusal>
    ensures { result ≡ recovery_work region.entry.chip region.entry.image.now region.entry.status.now case }
{
    match case {
        PairCase::Alone(kind, g) => {
            let avoid = region::avoiding([false; LargeChip::REGION_PLACES], g);
            match region.target(avoid) {
                None => Err(Refusal::NoTarget),
                Some(b) => Ok(Work::Copy(g, b, other_kind(kind))),
            }
        }
        PairCase::Settled(p, _) => Ok(Work::Keep(p)),
        PairCase::Merging(p, m) => Ok(Work::Merge(p, m)),
        PairCase::Differing(d, p, m) => Ok(newer_work(d, p, m)),
    }
}

// What is asked of planning: an update to a wanted bitmap, or a recovery.
#[derive(Clone, Copy)]
enum Call<'a> {
    Update(&'a [u8]),
    Recovery,
}

impl<'a> Call<'a> {
    // The length of the bitmap that is lent beside the region, if one is.
    fn beside(self) -> Option<usize>
        ensures { result ≡ beside_of (call_of self.entry) }
    {
        match self {
            Call::Update(wanted) => Some(wanted.len()),
            Call::Recovery => None,
        }
    }

    // The wanted bitmap; of a recovery no bytes. They are the image's: `&[]` is a constant, and archives for kernels have none.
    fn wanted(self, image: &'a [u8]) -> &'a [u8]
        ensures { result.now ≡ wanted_of (call_of self.entry) }
    {
        match self {
            Call::Update(wanted) => wanted,
            Call::Recovery => &image[..0],
        }
    }

    // What it comes to by the pair's case.
    fn work(self, region: Region<'_>) -> Result<Work, Refusal>
        ensures { result ≡ call_work (call_of self.entry) region.entry.chip region.entry.image.now region.entry.status.now (told_case (pair_case region.entry.chip (seen region.entry.chip region.entry.image.now region.entry.status.now))) }
    {
        let case = region.pair_case()?;
        match self {
            Call::Update(_) => update_work(case),
            Call::Recovery => recovery_work(region, case),
        }
    }
}

// A version is below this.
const VERSIONS: u16 = 256;

// Version plus 1 modulo 256.
#[tactic(auto, unfolding(bbt::specs::Plans::next_version))]
fn next_version(v: u8) -> u8
    ensures { result ≡ next_version v }
{
    (((v as u16) + 1) % VERSIONS) as u8
}

// A plan on a chip, as it is made.
fn plan_on(chip: LargeChip, version: u8, shape: Shape) -> Plan
    ensures { result ≡ record { chip = chip; version = version; retired = None; shape = shape } }
{
    Plan {
        chip,
        version,
        retired: None,
        shape,
    }
}

// Does the update rule keep the table of a block as it is?
#[tactic(auto, using(bbt::proofs::Searches::all_next), unfolding(bbt::specs::Pages::all))]
fn new_table_equals_old(region: Region<'_>, b: RegionBlock, wanted: &[u8]) -> bool
    requires { (b.0 < region.chip.region) × (length wanted.now ≡ bitmap_bytes region.chip) }
    ensures { result ≡ new_equals_old (stored_parts region.entry.chip region.entry.image.now b.0 (pages_of region.entry.chip)) wanted.now }
{
    for p in 0..region.chip.pages() as u8 {
        if !bitmap::new_equals_old(region.part(b, p), images::chunk_of(wanted, p)) {
            return false;
        }
    }
    true
}

// A plan that writes both copies with the version after this one.
fn both_copies(chip: LargeChip, version: u8, p: RegionBlock, m: RegionBlock) -> Plan
    ensures { result ≡ record { chip = chip; version = next_version version; retired = None; shape = Shape.Both p m } }
{
    plan_on(chip, next_version(version), Shape::Both(p, m))
}

// The update of a settled pair: nothing where the new table equals the old, else both copies with version plus 1.
#[tactic(auto, unfolding(bbt::specs::Plans::update_from, bbt::specs::Plans::updated, bbt::specs::Plans::job_version, bitmap::specs::Made::new_equals_old))]
fn settled_update(region: Region<'_>, p: RegionBlock, m: RegionBlock, wanted: &[u8]) -> Plan
    requires { (p.0 < region.chip.region) × (length wanted.now ≡ bitmap_bytes region.chip) }
    ensures { Ok result ≡ told_answer region.entry.chip (update_from wanted.now (holds p.0 m.0 (stored_table region.entry.chip region.entry.image.now p.0))) }
{
    let version = region.version(p);
    if new_table_equals_old(region, p, wanted) {
        return plan_on(region.chip, version, Shape::Empty);
    }
    both_copies(region.chip, version, p, m)
}

// A judged region, the wanted bitmap and the work that a call comes to on them, whose blocks lie in the region.
#[derive(Clone, Copy)]
struct Task<'a> {
    region: Region<'a>,
    wanted: &'a [u8],
    work: Work,
    ghost placed: { Placed region.chip (length wanted.now) work } by { Placed-prop region.chip (length wanted.now) work },
}

impl<'a> Task<'a> {
    // The first plan.
    #[tactic(auto, unfolding(crate::specs::Works::work_answer, bbt::specs::Plans::job_version, bbt::specs::Plans::anded))]
    fn plan(self) -> Plan
        ensures { Ok result ≡ told_answer self.entry.region.chip (work_answer self.entry.region.chip self.entry.region.image.now self.entry.wanted.now self.entry.work) }
    {
        let region = self.region;
        match self.work {
            Work::Keep(b) => plan_on(region.chip, region.version(b), Shape::Empty),
            Work::Update(p, m) => settled_update(region, p, m, self.wanted),
            Work::Copy(b, t, k) => plan_on(region.chip, region.version(b), Shape::One(k, t, b)),
            Work::Merge(p, m) => both_copies(region.chip, region.version(p), p, m),
        }
    }

    // The plan once these steps have failed.
    fn plan_after(self, failed: &[u8]) -> Result<Plan, Refusal>
        ensures { result ≡ told_answer self.entry.region.chip (failures self.entry.region.chip (seen self.entry.region.chip self.entry.region.image.now self.entry.region.status.now) (work_answer self.entry.region.chip self.entry.region.image.now self.entry.wanted.now self.entry.work) failed.now) }
    {
        let first = self.plan();
        if failed.is_empty() {
            return Ok(first);
        }
        let region = self.region;
        retire::after_failures(
            region.chip.blocks as u64,
            region.chip.region as u64,
            region.image,
            region.status,
            Ok(first),
            failed,
        )
    }

    // The new table's bytes of page p, put first into `out`; how many there are.
    fn new_part(self, p: u8, out: &mut [u8]) -> usize
        requires { length out.old ≡ 2048 }
        ensures { (result ≤ 2048) × (take result out.new ≡ chunk p (work_bitmap self.entry.region.chip self.entry.region.image.now self.entry.wanted.now self.entry.work)) }
    {
        let region = self.region;
        match self.work {
            Work::Keep(_) => 0,
            Work::Update(b, _) => {
                let old = region.part(b, p);
                let n = old.len();
                bitmap::update_into(old, images::chunk_of(self.wanted, p), &mut out[0..n]);
                n
            }
            Work::Copy(b, _, _) => {
                let old = region.part(b, p);
                let n = old.len();
                bits::copy(old, &mut out[0..n]);
                n
            }
            Work::Merge(x, y) => {
                let old = region.part(x, p);
                let n = old.len();
                bitmap::and_into(old, region.part(y, p), &mut out[0..n]);
                n
            }
        }
    }

    // The page image of a step, once these steps have failed.
    #[tactic(auto, using(crate::proofs::Imaging::image_refused, crate::proofs::Imaging::image_none, crate::proofs::Imaging::image_write))]
    fn page(self, failed: &[u8], step: u64, page: &mut [u8]) -> Result<(), Refusal>
        requires { length page.old ≡ 2112 }
        ensures answer { result ≡ image_answer_by (plan_image self.entry.region.chip (failures self.entry.region.chip (seen self.entry.region.chip self.entry.region.image.now self.entry.region.status.now) (work_answer self.entry.region.chip self.entry.region.image.now self.entry.wanted.now self.entry.work) failed.now) step) }
        ensures out { page.new ≡ image_after_by (plan_image self.entry.region.chip (failures self.entry.region.chip (seen self.entry.region.chip self.entry.region.image.now self.entry.region.status.now) (work_answer self.entry.region.chip self.entry.region.image.now self.entry.wanted.now self.entry.work) failed.now) step) page.old }
    {
        let plan = self.plan_after(failed)?;
        let Some(Step::Write(_, p, kind)) = plan.step(step) else {
            return Err(Refusal::Range);
        };
        let made = self.new_part(p, &mut page[0..LargeChip::PAGE]);
        images::finish_page(made, kind, plan.version, page);
        Ok(())
    }
}

// Plans what is asked for, or goes on with a plan of which these steps have failed.
// (A part of both its callers: out of line, work and plan come back through memory, in bytes that are read as words, which is slower.)
#[tactic(auto, using(crate::proofs::Answering::answer_out, crate::proofs::Answering::answer_no_work, crate::proofs::Answering::answer_work, crate::proofs::Working::call_placed))]
#[inline(always)]
fn planned<'a>(
    n: u64,
    size: u64,
    image: &'a [u8],
    status: &'a [u8],
    call: Call<'a>,
    failed: &[u8],
) -> Result<Plan, Refusal>
    ensures { result ≡ plan_answer n size (call_of call.entry) image.now status.now failed.now }
{
    let region = Region::lent(n, size, call.beside(), image, status)?;
    let work = call.work(region)?;
    let task = Task {
        region,
        wanted: call.wanted(image),
        work,
    };
    task.plan_after(failed)
}

// Plans an update of the pair to a wanted bitmap, or goes on with one of which these steps have failed. (This and the three that follow
// are one function an entry of C.)
pub fn update_plan(
    n: u64,
    size: u64,
    image: &[u8],
    status: &[u8],
    wanted: &[u8],
    failed: &[u8],
) -> Result<Plan, Refusal>
    ensures { result ≡ plan_answer n size (for_update wanted.now) image.now status.now failed.now }
{
    planned(n, size, image, status, Call::Update(wanted), failed)
}

// Plans a recovery of the pair, or goes on with one of which these steps have failed.
pub fn recovery_plan(
    n: u64,
    size: u64,
    image: &[u8],
    status: &[u8],
    failed: &[u8],
) -> Result<Plan, Refusal>
    ensures { result ≡ plan_answer n size for_recovery image.now status.now failed.now }
{
    planned(n, size, image, status, Call::Recovery, failed)
}

// The page image of a step of what is asked for: N and the size are judged, then room for a page, then what else is lent.
// (A part of both its callers, as `planned` is.)
#[tactic(auto, using(crate::proofs::Working::call_placed, crate::proofs::Asking::no_room_out_answer, crate::proofs::Asking::no_room_out_after, crate::proofs::Asking::no_room_answer, crate::proofs::Asking::no_room_after, crate::proofs::Asking::page_out_answer, crate::proofs::Asking::page_out_after, crate::proofs::Asking::page_no_work_answer, crate::proofs::Asking::page_no_work_after, crate::proofs::Asking::page_work_answer, crate::proofs::Asking::page_work_after))]
#[inline(always)]
fn page_planned<'a>(
    n: u64,
    size: u64,
    image: &'a [u8],
    status: &'a [u8],
    call: Call<'a>,
    failed: &[u8],
    step: u64,
    page: &mut [u8],
) -> Result<(), Refusal>
    ensures answer { result ≡ image_answer n size (call_of call.entry) image.now status.now failed.now step page.old }
    ensures out { page.new ≡ image_after n size (call_of call.entry) image.now status.now failed.now step page.old }
{
    if page.len() != LargeChip::PAGE_WITH_OOB {
        LargeChip::new(n, size)?;
        return Err(Refusal::Length);
    }
    let region = Region::lent(n, size, call.beside(), image, status)?;
    let work = call.work(region)?;
    let task = Task {
        region,
        wanted: call.wanted(image),
        work,
    };
    task.page(failed, step, page)
}

// The page image of a step of an update's plan, by the snapshot that the first plan was made from, and the steps that have failed since.
pub fn update_page(
    n: u64,
    size: u64,
    image: &[u8],
    status: &[u8],
    wanted: &[u8],
    failed: &[u8],
    step: u64,
    page: &mut [u8],
) -> Result<(), Refusal>
    ensures answer { result ≡ image_answer n size (for_update wanted.now) image.now status.now failed.now step page.old }
    ensures out { page.new ≡ image_after n size (for_update wanted.now) image.now status.now failed.now step page.old }
{
    page_planned(
        n,
        size,
        image,
        status,
        Call::Update(wanted),
        failed,
        step,
        page,
    )
}

// The page image of a step of a recovery's plan, by the snapshot that the first plan was made from, and the steps that have failed since.
pub fn recovery_page(
    n: u64,
    size: u64,
    image: &[u8],
    status: &[u8],
    failed: &[u8],
    step: u64,
    page: &mut [u8],
) -> Result<(), Refusal>
    ensures answer { result ≡ image_answer n size for_recovery image.now status.now failed.now step page.old }
    ensures out { page.new ≡ image_after n size for_recovery image.now status.now failed.now step page.old }
{
    page_planned(n, size, image, status, Call::Recovery, failed, step, page)
}
