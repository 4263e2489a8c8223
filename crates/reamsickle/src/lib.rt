// The C entries: thin functions on numbers and byte slices over the crates below. Each has its answer as one number (include/reamsickle.h).
// The crate `reamsickle_c` exports them.
#![tactic(auto)]

ghost use Rattle.std.specs.Prelude.{◌≡◌, ◌≤◌, length};
ghost use Rattle.bbt.specs.Plans.{for_update, for_recovery};
ghost use Rattle.factory.specs.FirstBitmap.{first_after};
ghost use Rattle.boot.specs.Answers.{list_after};
ghost use Rattle.bringup.specs.TablePages.{table_page_after};
ghost use Rattle.plan.specs.Answers.{plan_answer};
ghost use Rattle.plan.specs.PageImages.{image_after};
ghost use Rattle.reamsickle.specs.Boundary.{code_by, half_code, half_code_after, write_code, spare_code, spare_fields_after, page_code, page_data_after, page_fields_after, map_code};
ghost use Rattle.reamsickle.specs.LargeBoundary.{first_code, table_code, plan_code_by, steps_put_by, plan_code, steps_after, room_of, image_code, table_page_code};
ghost use Rattle.table.specs.Tables.{table_after};
ghost use Rattle.spare.specs.Writing.{spare_after};

use bbt::Plan;
use boot::{Listing, MapRefusal};
use chip::{LargeChip, Refusal, SmallChip};

// Bits 0 to 7 of the answer of a call that was not refused: a number, as C has it, and so is the next.
const ANSWERED: u64 = 0;

// The same of the map of the boot blocks where a boot number is out of order.
const OUT_OF_ORDER: u64 = 13;

// The bytes that tell what a spare holds, and what a page holds.
const SPARE_FIELDS: usize = SmallChip::FIELDS;

const PAGE_FIELDS: usize = SmallChip::FIELDS;

// The bytes of a plan's steps: sixteen of four.
const STEPS: usize = 64;

// An answer that tells nothing above the number, as a number.
fn code_by(answer: Result<(), Refusal>) -> u64
    ensures { result ≡ code_by answer }
{
    match answer {
        Ok(()) => ANSWERED,
        Err(r) => packing::refusal_code(r),
    }
}

// The code of a half: 256 bytes in, three out.
#[tactic(auto, using(bits::proofs::Filling::copied_same), unfolding(crate::specs::Boundary::is_half, crate::specs::Boundary::half_code, crate::specs::Boundary::half_code_after))]
pub fn ream_half_code(half: &[u8], code: &mut [u8]) -> u64
    ensures answer { result ≡ half_code half.now code.old }
    ensures out { code.new ≡ half_code_after half.now code.old }
{
    if half.len() != SmallChip::HALF || code.len() != SmallChip::CODE {
        return packing::refusal_code(Refusal::Length);
    }
    let c = ecc::code_of(half);
    let made = [c.one, c.two, c.three];
    bits::copy(&made, code);
    ANSWERED
}

// Writes the spare of a page: 512 data bytes, tag, path and count in, sixteen bytes out.
#[tactic(auto, unfolding(crate::specs::Boundary::write_code))]
pub fn ream_spare_write(bytes: &[u8], tag: u64, path: u64, count: u64, spare: &mut [u8]) -> u64
    ensures answer { result ≡ write_code bytes.now tag path count spare.old }
    ensures out { spare.new ≡ spare_after bytes.now tag path count spare.old }
{
    code_by(spare::write_spare(bytes, tag, path, count, spare))
}

// Reads a spare: sixteen bytes in, eleven out.
#[tactic(auto, using(bits::proofs::Filling::copied_same), unfolding(crate::specs::Boundary::spare_code, crate::specs::Boundary::spare_fields_after))]
pub fn ream_spare_read(spare: &[u8], fields: &mut [u8]) -> u64
    ensures answer { result ≡ spare_code spare.now fields.old }
    ensures out { fields.new ≡ spare_fields_after spare.now fields.old }
{
    if fields.len() != SPARE_FIELDS {
        return packing::refusal_code(Refusal::Length);
    }
    match spare::read_spare(spare) {
        Ok(f) => {
            packing::put_fields(f, f.repaired.repairs(), fields);
            ANSWERED
        }
        Err(r) => packing::refusal_code(r),
    }
}

// Reads a page: 512 data bytes, put right in place where the whole read succeeds, and sixteen spare bytes in; eleven out.
#[tactic(auto, using(bits::proofs::Filling::copied_same), unfolding(crate::specs::Boundary::page_code, crate::specs::Boundary::page_data_after, crate::specs::Boundary::page_fields_after))]
pub fn ream_page_read(bytes: &mut [u8], spare: &[u8], fields: &mut [u8]) -> u64
    ensures answer { result ≡ page_code bytes.old spare.now fields.old }
    ensures page { bytes.new ≡ page_data_after bytes.old spare.now fields.old }
    ensures out { fields.new ≡ page_fields_after bytes.old spare.now fields.old }
{
    if fields.len() != PAGE_FIELDS {
        return packing::refusal_code(Refusal::Length);
    }
    match page::read_page(bytes, spare) {
        Ok(f) => {
            packing::put_fields(f.spare, f.repairs(), fields);
            ANSWERED
        }
        Err(r) => packing::refusal_code(r),
    }
}

// Maps the boot blocks among `number` blocks of the small chip: 32 spare bytes a block in, two lists of two bytes a block out.
#[tactic(auto, unfolding(crate::specs::Boundary::map_code))]
pub fn ream_boot_map(number: u64, spares: &[u8], mapped: &mut [u8], erased: &mut [u8]) -> u64
    ensures answer { result ≡ map_code number spares.now mapped.old erased.old }
    ensures mapped { mapped.new ≡ list_after Listing.ToMap number spares.now mapped.old erased.old mapped.old }
    ensures erased { erased.new ≡ list_after Listing.ToErase number spares.now mapped.old erased.old erased.old }
{
    match boot::boot_map(number, spares, mapped, erased) {
        Ok(counts) => 256 * (counts.mapped as u64) + 16777216 * (counts.erased as u64) + ANSWERED,
        Err(MapRefusal::OutOfOrder(k)) => OUT_OF_ORDER + 256 * (k.0 as u64),
        Err(MapRefusal::Refused(r)) => packing::refusal_code(r),
    }
}

// The first bitmap of a chip of n blocks: 2n marks in, n/4 bytes out.
#[tactic(auto, unfolding(crate::specs::LargeBoundary::first_code))]
pub fn ream_first_bitmap(n: u64, size: u64, marks: &[u8], bitmap: &mut [u8]) -> u64
    ensures answer { result ≡ first_code n size marks.now bitmap.old }
    ensures out { bitmap.new ≡ first_after n size marks.now bitmap.old }
{
    code_by(factory::first_bitmap(n, size, marks, bitmap))
}

// Reads a settled pair: the region image and its status bytes in, the bitmap out.
#[tactic(auto, unfolding(crate::specs::LargeBoundary::table_code))]
pub fn ream_table_read(n: u64, size: u64, image: &[u8], status: &[u8], bitmap: &mut [u8]) -> u64
    ensures answer { result ≡ table_code n size image.now status.now bitmap.old }
    ensures out { bitmap.new ≡ table_after n size image.now status.now bitmap.old }
{
    match table::read_table(n, size, image, status, bitmap) {
        Ok(pair) => {
            256 * (pair.version as u64)
                + 65536 * ((pair.primary.0 % 65536) as u64)
                + 4294967296 * ((pair.mirror.0 % 65536) as u64)
                + ANSWERED
        }
        Err(r) => packing::refusal_code(r),
    }
}

// Tells what was planned where there is room for sixteen steps.
#[tactic(auto, using(packing::proofs::Steps::into_room))]
fn tell_answer(answer: Result<Plan, Refusal>, steps: &mut [u8]) -> u64
    requires { (room_of answer ≤ 64) × (length steps.old ≡ 64) }
    ensures answer { result ≡ plan_code_by answer }
    ensures out { steps.new ≡ steps_put_by answer steps.old }
{
    match answer {
        Ok(plan) => {
            packing::put_plan(plan, steps);
            256 * (plan.version as u64) + 65536 * (plan.step_count() as u64) + ANSWERED
        }
        Err(r) => packing::refusal_code(r),
    }
}

// Tells what was planned, or that there is no room for it: N and the region's size are judged before.
#[tactic(auto, unfolding(crate::specs::LargeBoundary::plan_code, crate::specs::LargeBoundary::steps_after))]
fn tell_plan(n: u64, size: u64, answer: Result<Plan, Refusal>, steps: &mut [u8]) -> u64
    requires { room_of answer ≤ 64 }
    ensures answer { result ≡ plan_code n size answer steps.old }
    ensures out { steps.new ≡ steps_after answer steps.old }
{
    if steps.len() == STEPS {
        return tell_answer(answer, steps);
    }
    match LargeChip::new(n, size) {
        Ok(_) => packing::refusal_code(Refusal::Length),
        Err(r) => packing::refusal_code(r),
    }
}

// Plans an update, or goes on with one of which steps have failed: the region image, its status bytes, the wanted bitmap and the failed steps'
// numbers in, up to sixteen steps out.
#[tactic(auto, using(crate::proofs::Room::plan_room))]
pub fn ream_update_plan(
    n: u64,
    size: u64,
    image: &[u8],
    status: &[u8],
    wanted: &[u8],
    failed: &[u8],
    steps: &mut [u8],
) -> u64
    ensures answer { result ≡ plan_code n size (plan_answer n size (for_update wanted.now) image.now status.now failed.now) steps.old }
    ensures out { steps.new ≡ steps_after (plan_answer n size (for_update wanted.now) image.now status.now failed.now) steps.old }
{
    tell_plan(
        n,
        size,
        plan::update_plan(n, size, image, status, wanted, failed),
        steps,
    )
}

// Plans a recovery, or goes on with one of which steps have failed: the region image, its status bytes and the failed steps' numbers in, up to
// sixteen steps out.
#[tactic(auto, using(crate::proofs::Room::plan_room))]
pub fn ream_recovery_plan(
    n: u64,
    size: u64,
    image: &[u8],
    status: &[u8],
    failed: &[u8],
    steps: &mut [u8],
) -> u64
    ensures answer { result ≡ plan_code n size (plan_answer n size for_recovery image.now status.now failed.now) steps.old }
    ensures out { steps.new ≡ steps_after (plan_answer n size for_recovery image.now status.now failed.now) steps.old }
{
    tell_plan(
        n,
        size,
        plan::recovery_plan(n, size, image, status, failed),
        steps,
    )
}

// The page image of a step of an update's plan: what the plan was made from, the failed steps' numbers and the step's number in, 2,112 bytes out.
#[tactic(auto, unfolding(crate::specs::LargeBoundary::image_code))]
pub fn ream_update_page(
    n: u64,
    size: u64,
    image: &[u8],
    status: &[u8],
    wanted: &[u8],
    failed: &[u8],
    step: u64,
    page: &mut [u8],
) -> u64
    ensures answer { result ≡ image_code n size (for_update wanted.now) image.now status.now failed.now step page.old }
    ensures out { page.new ≡ image_after n size (for_update wanted.now) image.now status.now failed.now step page.old }
{
    code_by(plan::update_page(n, size, image, status, wanted, failed, step, page))
}

// The page image of a step of a recovery's plan: what the plan was made from, the failed steps' numbers and the step's number in, 2,112 bytes out.
#[tactic(auto, unfolding(crate::specs::LargeBoundary::image_code))]
pub fn ream_recovery_page(
    n: u64,
    size: u64,
    image: &[u8],
    status: &[u8],
    failed: &[u8],
    step: u64,
    page: &mut [u8],
) -> u64
    ensures answer { result ≡ image_code n size for_recovery image.now status.now failed.now step page.old }
    ensures out { page.new ≡ image_after n size for_recovery image.now status.now failed.now step page.old }
{
    code_by(plan::recovery_page(n, size, image, status, failed, step, page))
}

// A page of a copy of any table: a bitmap, the copy's kind and version and the page's number in, 2,112 bytes out.
#[tactic(auto, unfolding(crate::specs::LargeBoundary::table_page_code))]
pub fn ream_table_page(
    n: u64,
    size: u64,
    bitmap: &[u8],
    kind: u64,
    version: u64,
    number: u64,
    page: &mut [u8],
) -> u64
    ensures answer { result ≡ table_page_code n size bitmap.now kind version number page.old }
    ensures out { page.new ≡ table_page_after n size bitmap.now kind version number page.old }
{
    code_by(bringup::table_page(n, size, bitmap, kind, version, number, page))
}
