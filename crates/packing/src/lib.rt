// How answers are packed for a C caller: refusals as numbers, what a spare or a page holds and a plan's steps as bytes.
#![tactic(auto)]

ghost use Rattle.std.specs.Prelude.{[], ◌≡◌, ◌*◌, ◌≤◌, length};
ghost use Rattle.bbt.specs.Told.{steps_by, retired_first, told_steps};
ghost use Rattle.bits.specs.Bytes.{copied};
ghost use Rattle.packing.specs.Packing.{refusal_code, field_bytes, place_bytes, page_bytes, step_bytes, steps_put, steps_into};

use bbt::{Plan, Shape, Step};
use chip::{LargeChip, Refusal, RegionBlock, SmallChip};
use ecc::Verdict;
use page::PageFields;
use spare::SpareFields;

// Where the places of both halves stand among the bytes of a page.
const FIRST_PLACE: usize = SmallChip::FIELDS;

const SECOND_PLACE: usize = FIRST_PLACE + SmallChip::PLACE;

// A refusal's number in the low 8 bits, its detail above.
pub fn refusal_code(r: Refusal) -> u64
    ensures { result ≡ refusal_code r }
{
    (r.number() as u64) + 256 * (r.detail() as u64)
}

// What was read, in eleven bytes.
pub fn put_fields(f: SpareFields, repairs: u8, fields: &mut [u8])
    ensures { fields.new ≡ copied (field_bytes f repairs) fields.old }
{
    let p = bits::bytes_of(f.path);
    let c = bits::bytes_of(f.count);
    let made = [
        f.status, f.tag, p[0], p[1], p[2], p[3], c[0], c[1], c[2], c[3], repairs,
    ];
    bits::copy(&made, fields);
}

// The place that was put right in a half, in three bytes.
fn place_bytes(v: Verdict) -> [u8; 3]
    ensures { result ≡ place_bytes v }
{
    match v {
        Verdict::Clean | Verdict::NotRepairable => [0, 0, 0],
        Verdict::CodeBit(j) => [2, j, 0],
        Verdict::DataBit(a, b) => [1, a, b],
    }
}

// What was read of a page, in seventeen bytes.
#[tactic(auto, using(crate::proofs::Pages::page_kept))]
pub fn put_page(f: PageFields, fields: &mut [u8])
    ensures { fields.new ≡ copied (page_bytes f) fields.old }
{
    if fields.len() != SmallChip::PAGE_FIELDS {
        return;
    }
    put_fields(f.spare, f.repairs(), &mut fields[..FIRST_PLACE]);
    bits::copy(
        &place_bytes(f.first),
        &mut fields[FIRST_PLACE..SECOND_PLACE],
    );
    bits::copy(
        &place_bytes(f.second),
        &mut fields[SECOND_PLACE..SmallChip::PAGE_FIELDS],
    );
}

// A step in four bytes: kind, chip block big endian, page.
fn step_bytes(step: Step) -> [u8; 4]
    ensures { result ≡ step_bytes step }
{
    match step {
        Step::Erase(b) => [0, (b.0 / 256 % 256) as u8, (b.0 % 256) as u8, 0],
        Step::Write(b, page, _) => [1, (b.0 / 256 % 256) as u8, (b.0 % 256) as u8, page],
        Step::Zero(b) => [2, (b.0 / 256 % 256) as u8, (b.0 % 256) as u8, 0],
    }
}

// Puts the zero step, where a block is retired, into the first bytes of `steps`, and tells how many it takes.
fn put_zero(chip: LargeChip, retired: Option<RegionBlock>, steps: &mut [u8]) -> usize
    requires { 4 * length (retired_first chip retired []) ≤ length steps.old }
    ensures count { result ≡ 4 * length (retired_first chip retired []) }
    ensures out { steps.new ≡ steps_put (retired_first chip retired []) steps.old }
{
    match retired {
        None => 0,
        Some(b) => {
            let four = step_bytes(Step::Zero(bbt::chip_block(chip, b)));
            bits::copy(&four, &mut steps[0..4]);
            4
        }
    }
}

// Puts the steps that write what a plan writes into the first bytes of `steps`.
#[tactic(auto, using(crate::proofs::Steps::put_none, crate::proofs::Steps::put_next, crate::proofs::Steps::nth_some))]
fn put_shape(chip: LargeChip, shape: Shape, steps: &mut [u8])
    requires { 4 * length (steps_by chip shape) ≤ length steps.old }
    ensures { steps.new ≡ steps_put (steps_by chip shape) steps.old }
{
    let total = bbt::shape_count(chip, shape) as usize;
    for k in 0..total {
        let four = step_bytes(bbt::shape_step(chip, shape, k as u64).unwrap());
        let at = 4 * k;
        bits::copy(&four, &mut steps[at..at + 4]);
    }
}

// Puts the steps of a plan into the first bytes of `steps`: the zero step, where there is one, and the others behind it.
fn put_steps(plan: Plan, steps: &mut [u8])
    requires { 4 * length (told_steps plan) ≤ length steps.old }
    ensures { steps.new ≡ steps_put (told_steps plan) steps.old }
{
    let at = put_zero(plan.chip, plan.retired, steps);
    put_shape(plan.chip, plan.shape, &mut steps[at..]);
}

// The same, where there is room for them; nothing is done where there is none.
#[tactic(auto, unfolding(crate::specs::Packing::steps_into))]
pub fn put_plan(plan: Plan, steps: &mut [u8])
    ensures { steps.new ≡ steps_into plan steps.old }
{
    if steps.len() / 4 < plan.step_count() as usize {
        return;
    }
    put_steps(plan, steps);
}
