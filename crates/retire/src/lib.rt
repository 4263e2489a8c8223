// Plans after failed steps. The chip reports that an erase or a write has failed: its block is retired, by zeros to the OOB bytes of its first
// page, and its copy goes to another block. The plan is told from the first one and the numbers of the failed steps, oldest first.
#![tactic(auto)]

ghost use Rattle.std.specs.Prelude.{false, ◌≡◌, replicate};
ghost use Rattle.bbt.specs.Told.{told_steps, nth_step};
ghost use Rattle.retire.specs.Retiring.{copy_at, moved_shape, also_retired, copy_retired, step_retired, steps_retired, all_retired};

use bbt::{Kind, Plan, Shape, Step};
use chip::{ChipBlock, LargeChip, Refusal, RegionBlock};

// A copy of a plan: its block, and the other copy's, where that stands or will be written.
#[derive(Clone, Copy)]
struct Copy {
    block: RegionBlock,
    other: RegionBlock,
}

// The copy of a plan that goes to chip block c.
fn copy_at(chip: LargeChip, shape: Shape, c: ChipBlock) -> Copy
    ensures { result ≡ copy_at chip shape c }
{
    match shape {
        Shape::Empty => Copy {
            block: RegionBlock(0),
            other: RegionBlock(0),
        },
        Shape::One(_, block, other) => Copy {
            block: block,
            other: other,
        },
        Shape::Both(primary, mirror) => {
            if bbt::chip_block(chip, primary) == c {
                return Copy {
                    block: primary,
                    other: mirror,
                };
            }
            Copy {
                block: mirror,
                other: primary,
            }
        }
    }
}

// What a plan writes with the copy of block b at block x: all of that copy, and of two copies the second after the first.
fn moved(shape: Shape, b: RegionBlock, x: RegionBlock) -> Shape
    ensures { result ≡ moved_shape shape b x }
{
    match shape {
        Shape::Empty => Shape::Empty,
        Shape::One(kind, _, other) => Shape::One(kind, x, other),
        Shape::Both(primary, mirror) => {
            if b == primary {
                return Shape::Both(x, mirror);
            }
            Shape::One(Kind::Mirror, x, primary)
        }
    }
}

// The plan once a block has failed under it: zeros to that block, and its copy at the highest block that is neither the other copy's, readable
// as bad nor failed.
fn retire(
    n: u64,
    size: u64,
    image: &[u8],
    status: &[u8],
    gone: [bool; LargeChip::REGION_PLACES],
    plan: Plan,
    c: ChipBlock,
) -> Result<Plan, Refusal>
    ensures { result ≡ copy_retired n size image.now status.now gone plan (copy_at plan.chip plan.shape c) }
{
    let copy = copy_at(plan.chip, plan.shape, c);
    let block = copy.block;
    let avoid = region::avoiding(region::avoiding(gone, block), copy.other);
    let Some(target) = region::find_target(n, size, image, status, avoid)? else {
        return Err(Refusal::NoTarget);
    };
    Ok(Plan {
        retired: Some(block),
        shape: moved(plan.shape, block, target),
        ..plan
    })
}

// The plan once its step k has failed, beside the blocks that failed before.
fn fail(
    n: u64,
    size: u64,
    image: &[u8],
    status: &[u8],
    gone: [bool; LargeChip::REGION_PLACES],
    plan: Plan,
    k: u64,
) -> Result<Plan, Refusal>
    ensures { result ≡ step_retired n size image.now status.now gone plan (nth_step (told_steps plan) k) }
{
    match plan.step(k) {
        Some(Step::Erase(c) | Step::Write(c, _, _)) => {
            retire(n, size, image, status, gone, plan, c)
        }
        Some(Step::Zero(_)) => Err(Refusal::ZeroFailed),
        None => Err(Refusal::Range),
    }
}

// The blocks that have failed, with the one that a plan retires.
fn with_retired(
    gone: [bool; LargeChip::REGION_PLACES],
    retired: Option<RegionBlock>,
) -> [bool; LargeChip::REGION_PLACES]
    ensures { result ≡ also_retired gone retired }
{
    match retired {
        None => gone,
        Some(b) => region::avoiding(gone, b),
    }
}

// What is planned once these steps of a plan have failed, oldest first, each told in the plan as it stood after the failures before it.
#[tactic(auto, using(crate::proofs::Telling::next_step, crate::proofs::Telling::none_left))]
fn after_steps(
    n: u64,
    size: u64,
    image: &[u8],
    status: &[u8],
    first: Plan,
    failed: &[u8],
) -> Result<Plan, Refusal>
    ensures { result ≡ steps_retired n size image.now status.now (replicate 7 false) first failed.now }
{
    let mut plan = first;
    let mut gone = [false; LargeChip::REGION_PLACES];
    for k in failed {
        plan = fail(n, size, image, status, gone, plan, u64::from(*k))?;
        let more = with_retired(gone, plan.retired);
        gone = more;
    }
    Ok(plan)
}

// The same of an answer: a refusal is passed on.
#[tactic(auto, unfolding(crate::specs::Retiring::all_retired))]
pub fn after_failures(
    n: u64,
    size: u64,
    image: &[u8],
    status: &[u8],
    answer: Result<Plan, Refusal>,
    failed: &[u8],
) -> Result<Plan, Refusal>
    ensures { result ≡ all_retired n size image.now status.now answer failed.now }
{
    after_steps(n, size, image, status, answer?, failed)
}
