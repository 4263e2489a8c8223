// The two kinds of chip with their sizes, the numbers that must not be mixed, and the refusals.
#![tactic(auto)]

ghost use Rattle.std.specs.Prelude.{◌≡◌, ◌%◌};
ghost use Rattle.chip.specs.Boot.{path_of, boot_of, follows};
ghost use Rattle.chip.specs.Large.{is_blocks, is_region, is_chip, chip_of, bitmap_bytes, pages_of, region_pages, region_bytes};
ghost use Rattle.chip.specs.Refusals.{refusal_number, refusal_detail};
ghost use Rattle.chip.specs.declared.Refusal.TheVariants.{BadBlock};

// The small chip: 512 data bytes and 16 spare bytes a page, in two halves with a code of three bytes each.
#[derive(Clone, Copy)]
pub struct SmallChip;

impl SmallChip {
    pub const PAGE: usize = 512;

    pub const SPARE: usize = 16;

    pub const HALF: usize = 256;

    pub const CODE: usize = 3;

    // The code bits of a half, LP0 to LP15 and CP0 to CP5, and their pairs.
    pub const CODE_BITS: u8 = 22;

    pub const CODE_PAIRS: u8 = 11;

    // What 26 data bits can hold; a path is below.
    pub const WORDS: u32 = 67108864;

    pub const PATHS: u64 = 67108864;

    // What 18 bits can hold, the magic above them, and the largest count that is written.
    pub const COUNTS: u32 = 262144;

    pub const MAGIC: u32 = 0x56;

    pub const MAGIC_WITH_NO_COUNT: u32 = SmallChip::MAGIC * SmallChip::COUNTS;

    pub const LAST_COUNT: u64 = 262142;

    // The most blocks whose boot blocks are mapped at once.
    pub const MOST_BLOCKS: u64 = 1024;

    // A boot number is below 2^24, its generation at most 3.
    pub const BOOTS: u32 = 16777216;

    pub const LAST_GENERATION: u8 = 3;

    // The bytes in which a C caller is told what a spare or a page holds.
    pub const FIELDS: usize = 11;

    // The bytes that tell the place that was put right in a half, and what a page holds: its spare and both places.
    pub const PLACE: usize = 3;

    pub const PAGE_FIELDS: usize = SmallChip::FIELDS + 2 * SmallChip::PLACE;
}

// The large chip: 2,048 data bytes and 64 OOB bytes a page; its number of blocks, and how many of the last hold the tables.
#[derive(Clone, Copy)]
pub struct LargeChip {
    pub region: u8,
    pub blocks: u16,
}

impl LargeChip {
    pub const PAGE: usize = 2048;

    pub const OOB: usize = 64;

    pub const PAGE_WITH_OOB: usize = LargeChip::PAGE + LargeChip::OOB;

    // Where a page's signature and its version stand: OOB 14 to 17, and 18.
    pub const SIGNATURE: usize = LargeChip::PAGE + 14;

    pub const VERSION: usize = LargeChip::PAGE + 18;

    pub const SMALLEST_REGION: u64 = 4;

    pub const LARGEST_REGION: u64 = 7;

    // A place for each block of the largest region, as the length of an array.
    pub const REGION_PLACES: usize = 7;

    pub const FEWEST_BLOCKS: u64 = 8;

    pub const MOST_BLOCKS: u64 = 32768;

    // Is there a chip of n blocks, of which the last `size` are the region?
    pub fn exists(n: u64, size: u64) -> bool
        ensures { result ≡ is_chip n size }
    {
        is_blocks(n) && is_region(n, size)
    }

    // That chip, where there is one; else a chip of these numbers' low bits.
    pub fn of(n: u64, size: u64) -> LargeChip
        ensures { result ≡ record { blocks = n % 65536; region = size % 256 } }
    {
        LargeChip {
            blocks: (n % 65536) as u16,
            region: (size % 256) as u8,
        }
    }

    // The chip of n blocks, of which the last `size` are the region, or the refusal of these numbers.
    pub fn new(n: u64, size: u64) -> Result<LargeChip, Refusal>
        ensures { result ≡ chip_of n size }
    {
        if LargeChip::exists(n, size) {
            return Ok(LargeChip::of(n, size));
        }
        Err(Refusal::Range)
    }

    // The bytes of the bitmap: two bits a block.
    pub fn bitmap_bytes(self) -> usize
        ensures { result ≡ bitmap_bytes self }
    {
        (self.blocks / 4) as usize
    }

    // P: the pages that the bitmap fills.
    pub fn pages(self) -> usize
        ensures { result ≡ pages_of self }
    {
        (self.bitmap_bytes() + (LargeChip::PAGE - 1)) / LargeChip::PAGE
    }

    // The pages of a region image; a status byte comes with each.
    pub fn region_pages(self) -> usize
        ensures { result ≡ region_pages self }
    {
        (self.region as usize) * self.pages()
    }

    // The bytes of a region image.
    pub fn region_bytes(self) -> usize
        ensures { result ≡ region_bytes self }
    {
        self.region_pages() * LargeChip::PAGE_WITH_OOB
    }
}

// Can a large chip have n blocks: a multiple of 4 from 8 to 32,768?
#[tactic(auto, unfolding(crate::specs::Large::is_blocks))]
fn is_blocks(n: u64) -> bool
    ensures { result ≡ is_blocks n }
{
    n % 4 == 0 && LargeChip::FEWEST_BLOCKS <= n && n <= LargeChip::MOST_BLOCKS
}

// Can `size` of its n blocks be the region: 4 to 7, and at most half?
#[tactic(auto, unfolding(crate::specs::Large::is_region))]
fn is_region(n: u64, size: u64) -> bool
    ensures { result ≡ is_region n size }
{
    LargeChip::SMALLEST_REGION <= size && size <= LargeChip::LARGEST_REGION && 2 * size <= n
}

// The number of a boot block, as a path tells it. Never a chip block's number.
#[derive(Clone, Copy)]
pub struct BootNumber(pub u32);

// How often a boot block was copied, modulo 4.
#[derive(Clone, Copy)]
pub struct Generation(pub u8);

// The number of a block on its chip.
#[derive(Clone, Copy, PartialEq, Eq)]
pub struct ChipBlock(pub u32);

// The number of a block in the table region, from 0, lowest first.
#[derive(Clone, Copy, PartialEq, Eq)]
pub struct RegionBlock(pub u8);

impl Generation {
    // Is this the generation after another: one more, modulo 4?
    pub fn follows(self, older: Generation) -> bool
        ensures { result ≡ follows self older }
    {
        (self.0 as u32) == ((older.0 as u32) + 1) % 4
    }
}

impl BootNumber {
    // The path of this boot number, below 2^24, and a generation from 0 to 3.
    #[tactic(auto, unfolding(crate::specs::Boot::path_of))]
    pub fn path(self, generation: Generation) -> Result<u32, Refusal>
        ensures { result ≡ path_of self.0 generation.0 }
    {
        if SmallChip::BOOTS <= self.0 {
            return Err(Refusal::Range);
        }
        if SmallChip::LAST_GENERATION < generation.0 {
            return Err(Refusal::Range);
        }
        Ok(4 * self.0 + (generation.0 as u32))
    }

    // The boot number and the generation of a path below 2^26.
    #[tactic(auto, unfolding(crate::specs::Boot::boot_of))]
    pub fn of_path(path: u32) -> Result<(BootNumber, Generation), Refusal>
        ensures { result ≡ boot_of path }
    {
        if SmallChip::WORDS <= path {
            return Err(Refusal::Range);
        }
        Ok((BootNumber(path / 4), Generation((path % 4) as u8)))
    }
}

// What a bad status byte tells of its block.
#[derive(Clone, Copy)]
pub enum BadKind {
    Factory,
    Late,
}

// The halves of a small page: data bytes 0 to 255, and 256 to 511.
#[derive(Clone, Copy)]
pub enum Half {
    First,
    Second,
}

// The refusals of document 01 and of document 02, but for 13, which has a boot number with it (`boot::MapRefusal`).
#[derive(Clone, Copy)]
pub enum Refusal {
    Length,
    Range,
    BadBlock(BadKind),
    Tag,
    Erased,
    NotOurs,
    NotOursRepaired,
    Unrepairable(Half),
    NoCopy,
    SeveralCopies,
    Opposite,
    NotSettled,
    NoTarget,
    ZeroFailed,
}

// A bad block is refused with its kind.
impl From<BadKind> for Refusal {
    ghost from_gives = { λ k r. r ≡ BadBlock k };

    fn from(kind: BadKind) -> Refusal {
        Refusal::BadBlock(kind)
    }
}

impl Refusal {
    // The number of a refusal in documents 01 and 02.
    pub fn number(self) -> u8
        ensures { result ≡ refusal_number self }
    {
        match self {
            Refusal::Length => 1,
            Refusal::Range => 2,
            Refusal::BadBlock(_) => 3,
            Refusal::Tag => 4,
            Refusal::Erased => 51,
            Refusal::NotOurs => 52,
            Refusal::NotOursRepaired => 53,
            Refusal::Unrepairable(_) => 6,
            Refusal::NoCopy => 7,
            Refusal::SeveralCopies => 8,
            Refusal::Opposite => 9,
            Refusal::NotSettled => 10,
            Refusal::NoTarget => 11,
            Refusal::ZeroFailed => 12,
        }
    }

    // What comes with the number: of 3 the kind of bad block, of 6 the half, else 0.
    pub fn detail(self) -> u32
        ensures { result ≡ refusal_detail self }
    {
        match self {
            Refusal::BadBlock(BadKind::Factory) => 1,
            Refusal::BadBlock(BadKind::Late) => 2,
            Refusal::Unrepairable(Half::First) => 1,
            Refusal::Unrepairable(Half::Second) => 2,
            _ => 0,
        }
    }
}
