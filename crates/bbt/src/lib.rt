// The rules of the bad-block table: the definitions are in specs/, and this is what code and definitions share: kinds, cases, plans, steps.
#![tactic(auto)]

ghost use Rattle.std.specs.Prelude.{[], ◌≡◌, ◌<◌, ◌≤◌, length};
ghost use Rattle.bbt.specs.Pages.{kind_of_word, kind_word};
ghost use Rattle.bbt.specs.Pairs.{difference};
ghost use Rattle.bbt.specs.Told.{chip_block, copy_step, steps_by, retired_first, told_steps, nth_step};

use chip::{ChipBlock, LargeChip, Refusal, RegionBlock};

// What a page's signature says: a page of a primary, of a mirror, or neither.
#[derive(Clone, Copy, PartialEq, Eq)]
pub enum Kind {
    Primary,
    Mirror,
    Neither,
}

impl Kind {
    // The kind of a signature, four bytes as one number.
    #[tactic(auto, unfolding(crate::specs::Pages::kind_of_word))]
    pub fn of_signature(word: u32) -> Kind
        ensures { result ≡ kind_of_word word }
    {
        match word {
            0x42627430 => Kind::Primary,
            0x31746242 => Kind::Mirror,
            _ => Kind::Neither,
        }
    }

    // The signature of a kind; of neither, an erased page's.
    pub fn signature(self) -> u32
        ensures { result ≡ kind_word self }
    {
        match self {
            Kind::Primary => 0x42627430,
            Kind::Mirror => 0x31746242,
            Kind::Neither => 0xFFFFFFFF,
        }
    }
}

// Primary version minus mirror version, modulo 256, as a signed number from -128 to 127.
pub fn version_difference(primary: u8, mirror: u8) -> i32
    ensures { result ≡ difference primary mirror }
{
    let u = ((primary as u32) + 256 - (mirror as u32)) % 256;
    if u < 128 {
        return u as i32;
    }
    (u as i32) - 256
}

// The chip block of a region block: the region is the last blocks of the chip.
pub fn chip_block(chip: LargeChip, b: RegionBlock) -> ChipBlock
    ensures { result ≡ chip_block chip b.0 }
{
    let blocks = chip.blocks as u32;
    let region = chip.region as u32;
    if blocks < region {
        return ChipBlock(b.0 as u32);
    }
    ChipBlock(blocks - region + (b.0 as u32))
}

// The case of a pair of tables.
#[derive(Clone, Copy)]
pub enum PairCase {
    // only this kind is good, in this block
    Alone(Kind, RegionBlock),
    // both good, one version, equal bitmaps: primary's block and mirror's
    Settled(RegionBlock, RegionBlock),
    // both good, one version, bitmaps that differ
    Merging(RegionBlock, RegionBlock),
    // both good, versions that differ by d, from -127 to 127 and not 0
    Differing(i32, RegionBlock, RegionBlock),
}

// What a plan writes: nothing; one copy of a kind to a block, beside the other kind's in another; or the primary and then the mirror.
#[derive(Clone, Copy)]
pub enum Shape {
    Empty,
    One(Kind, RegionBlock, RegionBlock),
    Both(RegionBlock, RegionBlock),
}

// A plan: the version that it tells and writes, its chip, the block that has failed last under it, if one has, which gets zeros first, and what
// it writes.
#[derive(Clone, Copy)]
pub struct Plan {
    pub version: u8,
    pub chip: LargeChip,
    pub retired: Option<RegionBlock>,
    pub shape: Shape,
}

// A step of a plan: a block erased, a page of a copy written, or zeros to the OOB bytes of a block's first page.
#[derive(Clone, Copy)]
pub enum Step {
    Erase(ChipBlock),
    Write(ChipBlock, u8, Kind),
    Zero(ChipBlock),
}

// Step k of a copy: its block erased, then its pages in rising order.
fn copy_step(kind: Kind, block: ChipBlock, k: u64) -> Step
    requires { k < 257 }
    ensures { result ≡ copy_step kind block k }
{
    if k == 0 {
        return Step::Erase(block);
    }
    Step::Write(block, (k - 1) as u8, kind)
}

// How many steps write what a plan writes: 0, P + 1 or 2P + 2.
pub fn shape_count(chip: LargeChip, shape: Shape) -> u32
    ensures { (result ≡ length (steps_by chip shape)) × (result ≤ 20) }
{
    let p = chip.pages() as u32;
    match shape {
        Shape::Empty => 0,
        Shape::One(_, _, _) => p + 1,
        Shape::Both(_, _) => 2 * p + 2,
    }
}

// Step k of these, counted from 0.
#[tactic(auto, using(crate::proofs::ToldSteps::step_by_lem))]
pub fn shape_step(chip: LargeChip, shape: Shape, k: u64) -> Option<Step>
    ensures { result ≡ nth_step (steps_by chip shape) k }
{
    let p = chip.pages() as u64;
    match shape {
        Shape::Empty => None,
        Shape::One(kind, block, _) => {
            if p < k {
                return None;
            }
            Some(copy_step(kind, chip_block(chip, block), k))
        }
        Shape::Both(primary, mirror) => {
            if k <= p {
                return Some(copy_step(Kind::Primary, chip_block(chip, primary), k));
            }
            if 2 * p + 1 < k {
                return None;
            }
            Some(copy_step(Kind::Mirror, chip_block(chip, mirror), k - p - 1))
        }
    }
}

// How many zero steps come first: one where a block is retired.
#[tactic(auto, unfolding(crate::specs::Told::retired_first))]
fn zero_count(chip: LargeChip, retired: Option<RegionBlock>) -> u32
    ensures { (result ≡ length (retired_first chip retired [])) × (result ≤ 1) }
{
    match retired {
        None => 0,
        Some(_) => 1,
    }
}

impl Plan {
    // How many steps there are, with the zero step where a block is retired.
    #[tactic(auto, using(crate::proofs::ToldSteps::zeros_count))]
    pub fn step_count(self) -> u32
        ensures { result ≡ length (told_steps self) }
    {
        zero_count(self.chip, self.retired) + shape_count(self.chip, self.shape)
    }

    // Step k, counted from 0.
    #[tactic(auto, using(crate::proofs::ToldSteps::zeros_after), unfolding(crate::specs::Told::retired_first, crate::specs::Told::nth_step))]
    pub fn step(self, k: u64) -> Option<Step>
        ensures { result ≡ nth_step (told_steps self) k }
    {
        let after = match self.retired {
            None => k,
            Some(b) => {
                if k == 0 {
                    return Some(Step::Zero(chip_block(self.chip, b)));
                }
                k - 1
            }
        };
        shape_step(self.chip, self.shape, after)
    }
}
