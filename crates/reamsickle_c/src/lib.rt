// The C entries: functions of `reamsickle` under their C names, with the same clauses. This is the static library that C programs link;
// include/reamsickle.h is its header.
#![tactic(auto)]

ghost use Rattle.std.specs.Prelude.{◌≡◌, ◌≤◌, length};
ghost use Rattle.bbt.specs.Plans.{for_update, for_recovery};
ghost use Rattle.factory.specs.FirstBitmap.{first_after};
ghost use Rattle.boot.specs.Answers.{list_after};
ghost use Rattle.bringup.specs.TablePages.{table_page_after};
ghost use Rattle.plan.specs.Answers.{plan_answer};
ghost use Rattle.plan.specs.PageImages.{image_after};
ghost use Rattle.reamsickle.specs.Boundary.{half_code, half_code_after, write_code, spare_code, spare_fields_after, page_code, page_data_after, page_fields_after, map_code};
ghost use Rattle.reamsickle.specs.LargeBoundary.{first_code, table_code, plan_code_by, steps_put_by, plan_code, steps_after, room_of, image_code, table_page_code};
ghost use Rattle.table.specs.Tables.{table_after};
ghost use Rattle.spare.specs.Writing.{spare_after};

use boot::Listing;

// The code of a half: 256 bytes in, three out.
#[unsafe(no_mangle)]
pub extern "C" fn ream_half_code(half: &[u8], code: &mut [u8]) -> u64
    ensures answer { result ≡ half_code half.now code.old }
    ensures out { code.new ≡ half_code_after half.now code.old }
{
    reamsickle::ream_half_code(half, code)
}

// Writes the spare of a page: 512 data bytes, tag, path and count in, sixteen bytes out.
#[unsafe(no_mangle)]
pub extern "C" fn ream_spare_write(
    bytes: &[u8],
    tag: u64,
    path: u64,
    count: u64,
    spare: &mut [u8],
) -> u64
    ensures answer { result ≡ write_code bytes.now tag path count spare.old }
    ensures out { spare.new ≡ spare_after bytes.now tag path count spare.old }
{
    reamsickle::ream_spare_write(bytes, tag, path, count, spare)
}

// Reads a spare: sixteen bytes in, eleven out.
#[unsafe(no_mangle)]
pub extern "C" fn ream_spare_read(spare: &[u8], fields: &mut [u8]) -> u64
    ensures answer { result ≡ spare_code spare.now fields.old }
    ensures out { fields.new ≡ spare_fields_after spare.now fields.old }
{
    reamsickle::ream_spare_read(spare, fields)
}

// Reads a page: 512 data bytes, put right in place where the whole read succeeds, and sixteen spare bytes in; eleven out.
#[unsafe(no_mangle)]
pub extern "C" fn ream_page_read(bytes: &mut [u8], spare: &[u8], fields: &mut [u8]) -> u64
    ensures answer { result ≡ page_code bytes.old spare.now fields.old }
    ensures page { bytes.new ≡ page_data_after bytes.old spare.now fields.old }
    ensures out { fields.new ≡ page_fields_after bytes.old spare.now fields.old }
{
    reamsickle::ream_page_read(bytes, spare, fields)
}

// Maps the boot blocks among `number` blocks of the small chip: 32 spare bytes a block in, two lists of two bytes a block out.
#[unsafe(no_mangle)]
pub extern "C" fn ream_boot_map(
    number: u64,
    spares: &[u8],
    mapped: &mut [u8],
    erased: &mut [u8],
) -> u64
    ensures answer { result ≡ map_code number spares.now mapped.old erased.old }
    ensures mapped { mapped.new ≡ list_after Listing.ToMap number spares.now mapped.old erased.old mapped.old }
    ensures erased { erased.new ≡ list_after Listing.ToErase number spares.now mapped.old erased.old erased.old }
{
    reamsickle::ream_boot_map(number, spares, mapped, erased)
}

// The first bitmap of a chip of n blocks: 2n marks in, n/4 bytes out.
#[unsafe(no_mangle)]
pub extern "C" fn ream_first_bitmap(n: u64, size: u64, marks: &[u8], bitmap: &mut [u8]) -> u64
    ensures answer { result ≡ first_code n size marks.now bitmap.old }
    ensures out { bitmap.new ≡ first_after n size marks.now bitmap.old }
{
    reamsickle::ream_first_bitmap(n, size, marks, bitmap)
}

// Reads a settled pair: the region image and its status bytes in, the bitmap out.
#[unsafe(no_mangle)]
pub extern "C" fn ream_table_read(
    n: u64,
    size: u64,
    image: &[u8],
    status: &[u8],
    bitmap: &mut [u8],
) -> u64
    ensures answer { result ≡ table_code n size image.now status.now bitmap.old }
    ensures out { bitmap.new ≡ table_after n size image.now status.now bitmap.old }
{
    reamsickle::ream_table_read(n, size, image, status, bitmap)
}

// Plans an update, or goes on with one of which steps have failed: the region image, its status bytes, the wanted bitmap and the failed steps'
// numbers in, up to sixteen steps out.
#[unsafe(no_mangle)]
pub extern "C" fn ream_update_plan(
    n: u64,
    size: u64,
    image: &[u8],
    status: &[u8],
    wanted: &[u8],
    failed: &[u8],
    steps: &mut [u8],
) -> u64
    ensures answer { result ≡ plan_code n size (plan_answer n size (for_update wanted.now) image.now status.now failed.now) steps.old }
    ensures out { steps.new ≡ steps_after (plan_answer n size (for_update wanted.now) image.now status.now failed.now) steps.old }
{
    reamsickle::ream_update_plan(n, size, image, status, wanted, failed, steps)
}

// Plans a recovery, or goes on with one of which steps have failed: the region image, its status bytes and the failed steps' numbers in, up to
// sixteen steps out.
#[unsafe(no_mangle)]
pub extern "C" fn ream_recovery_plan(
    n: u64,
    size: u64,
    image: &[u8],
    status: &[u8],
    failed: &[u8],
    steps: &mut [u8],
) -> u64
    ensures answer { result ≡ plan_code n size (plan_answer n size for_recovery image.now status.now failed.now) steps.old }
    ensures out { steps.new ≡ steps_after (plan_answer n size for_recovery image.now status.now failed.now) steps.old }
{
    reamsickle::ream_recovery_plan(n, size, image, status, failed, steps)
}

// The page image of a step of an update's plan: what the plan was made from, the failed steps' numbers and the step's number in, 2,112 bytes out.
#[unsafe(no_mangle)]
pub extern "C" fn ream_update_page(
    n: u64,
    size: u64,
    image: &[u8],
    status: &[u8],
    wanted: &[u8],
    failed: &[u8],
    step: u64,
    page: &mut [u8],
) -> u64
    ensures answer { result ≡ image_code n size (for_update wanted.now) image.now status.now failed.now step page.old }
    ensures out { page.new ≡ image_after n size (for_update wanted.now) image.now status.now failed.now step page.old }
{
    reamsickle::ream_update_page(n, size, image, status, wanted, failed, step, page)
}

// The page image of a step of a recovery's plan: what the plan was made from, the failed steps' numbers and the step's number in, 2,112 bytes out.
#[unsafe(no_mangle)]
pub extern "C" fn ream_recovery_page(
    n: u64,
    size: u64,
    image: &[u8],
    status: &[u8],
    failed: &[u8],
    step: u64,
    page: &mut [u8],
) -> u64
    ensures answer { result ≡ image_code n size for_recovery image.now status.now failed.now step page.old }
    ensures out { page.new ≡ image_after n size for_recovery image.now status.now failed.now step page.old }
{
    reamsickle::ream_recovery_page(n, size, image, status, failed, step, page)
}

// A page of a copy of any table: a bitmap, the copy's kind and version and the page's number in, 2,112 bytes out.
#[unsafe(no_mangle)]
pub extern "C" fn ream_table_page(
    n: u64,
    size: u64,
    bitmap: &[u8],
    kind: u64,
    version: u64,
    number: u64,
    page: &mut [u8],
) -> u64
    ensures answer { result ≡ table_page_code n size bitmap.now kind version number page.old }
    ensures out { page.new ≡ table_page_after n size bitmap.now kind version number page.old }
{
    reamsickle::ream_table_page(n, size, bitmap, kind, version, number, page)
}
