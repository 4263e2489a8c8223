// The map of the small chip's boot blocks, from the spares of each block's first and last page. Every spare is read once; how each boot number
// stands is kept in a slot; then the numbers are judged in their order, and only then the lists are written.
#![tactic(auto)]

ghost use Rattle.std.specs.List.{position};
ghost use Rattle.std.specs.Option.{option_to_list};
ghost use Rattle.std.specs.Prelude.{◌≡◌, ◌*◌, ◌/◌, ◌≤◌, length, not, Some};
ghost use Rattle.spare.specs.Reading.{spare_answer};
ghost use Rattle.boot.specs.Answers.{map_answer, block_bytes, starting_with, list_after};
ghost use Rattle.boot.specs.Counting.{path_by, block_at};
ghost use Rattle.boot.specs.Mapping.{standing, in_order, above, entry_of, listed};
ghost use Rattle.boot.specs.Slots.{slot_of, of_slot, joined, noted, slots_of, in_slot};
ghost use Rattle.boot.specs.declared.MapRefusal.TheVariants.{Refused};

use chip::{BootNumber, ChipBlock, Generation, Refusal, SmallChip};

// The tag of a boot page.
const BOOT: u8 = 0x01;

// The bytes of a block's two spares, and of its place in a list.
const BLOCK_SPARES: usize = 2 * SmallChip::SPARE;

const LISTED: usize = 2;

// A slot for each boot number that can be in order.
const SLOTS: usize = 1024;

// How a boot number stands: the blocks that carry it, of two the older first; wrong are any other two, and more.
#[derive(Clone, Copy)]
pub enum Standing {
    Missing,
    One(ChipBlock, Generation),
    Pair(ChipBlock, ChipBlock),
    Wrong,
}

// The two lists: the blocks that are mapped, and those that are to be erased.
#[derive(Clone, Copy)]
pub enum Listing {
    ToMap,
    ToErase,
}

// How many blocks stand in either list.
#[derive(Clone, Copy)]
pub struct MapCounts {
    pub mapped: u16,
    pub erased: u16,
}

// Why boot blocks are not mapped: refusal 13 with the smallest boot number that is out of order; or another refusal.
#[derive(Clone, Copy)]
pub enum MapRefusal {
    OutOfOrder(BootNumber),
    Refused(Refusal),
}

// Every other refusal is passed on as it is.
impl From<Refusal> for MapRefusal {
    ghost from_gives = { λ r m. m ≡ Refused r };

    fn from(refusal: Refusal) -> MapRefusal {
        MapRefusal::Refused(refusal)
    }
}

// The path of a boot page by its spare; of any other page none.
fn page_path(spare: &[u8]) -> Option<u32>
    ensures { result ≡ path_by (spare_answer spare.now) }
{
    let f = spare::read_spare(spare).ok()?;
    (f.tag == BOOT).then_some(f.path)
}

// What a block tells by its two spares, that of its first page and then that of its last: its boot number and generation; or it is passed over.
#[tactic(auto, unfolding(crate::specs::Counting::block_at))]
fn told(spares: &[u8; BLOCK_SPARES]) -> Option<(BootNumber, Generation)>
    ensures { result ≡ block_at spares.now 0 }
{
    let first = page_path(&spares[..SmallChip::SPARE])?;
    let last = page_path(&spares[SmallChip::SPARE..])?;
    if first != last {
        return None;
    }
    BootNumber::of_path(first).ok()
}

impl Standing {
    // How a number stands with one block more that carries it.
    fn joined(self, block: ChipBlock, generation: Generation) -> Standing
        ensures { result ≡ joined self block generation }
    {
        match self {
            Standing::Missing => Standing::One(block, generation),
            Standing::One(other, g) if generation.follows(g) => Standing::Pair(other, block),
            Standing::One(other, g) if g.follows(generation) => Standing::Pair(block, other),
            _ => Standing::Wrong,
        }
    }

    // A standing as a slot of 4 bytes: a standing takes 12, and the call keeps no more than 4 KiB of them on the stack.
    #[tactic(auto, unfolding(crate::specs::Slots::slot_of))]
    fn slot(self) -> u32
        ensures { result ≡ slot_of self }
    {
        match self {
            Standing::Missing => 0,
            Standing::One(b, g) => 1 + 4 * (b.0 % 1024) + u32::from(g.0 % 4),
            Standing::Wrong => 4097,
            Standing::Pair(older, newer) => 4098 + 1024 * (older.0 % 1024) + newer.0 % 1024,
        }
    }

    // The standing in a slot.
    #[tactic(auto, unfolding(crate::specs::Slots::of_slot))]
    fn of_slot(slot: u32) -> Standing
        ensures { result ≡ of_slot slot }
    {
        match slot {
            0 => Standing::Missing,
            1..=4096 => Standing::One(
                ChipBlock((slot - 1) / 4),
                Generation(((slot - 1) % 4) as u8),
            ),
            4097 => Standing::Wrong,
            _ => Standing::Pair(
                ChipBlock((slot - 4098) / 1024),
                ChipBlock((slot - 4098) % 1024),
            ),
        }
    }

    // Is a number in order?
    fn is_in_order(self) -> bool
        ensures { result ≡ in_order self }
    {
        matches!(self, Standing::One(_, _) | Standing::Pair(_, _))
    }

    // The block that a number brings to a list.
    fn entry(self, listing: Listing) -> Option<ChipBlock>
        ensures { option_to_list result ≡ entry_of listing self }
    {
        match (listing, self) {
            (Listing::ToMap, Standing::One(b, _) | Standing::Pair(b, _)) => Some(b),
            (Listing::ToErase, Standing::Pair(_, b)) => Some(b),
            _ => None,
        }
    }
}

// Notes in the slots that a block carries this number with this generation; a number past the slots is passed over.
fn note(slots: &mut [u32; SLOTS], number: BootNumber, generation: Generation, block: ChipBlock)
    ensures { slots.new ≡ noted slots.old block (Some (number, generation)) }
{
    let at = number.0 as usize;
    if at < SLOTS {
        slots[at] = Standing::of_slot(slots[at])
            .joined(block, generation)
            .slot();
    }
}

// Looks at every block: fills the slots, and answers one above the highest number found.
#[tactic(auto, using(crate::proofs::Chunks::chunk_told, crate::proofs::Keeping::slots_turn, crate::proofs::Keeping::above_turn, std::proofs::lemmas::Bool::Decides::nat_tests), unfolding(crate::specs::Mapping::above, crate::specs::Mapping::standing, crate::specs::Mapping::copies))]
fn gather(spares: &[u8], slots: &mut [u32; SLOTS]) -> usize
    requires { (length spares.now ≤ 32 * 1024) × (slots.old ≡ slots_of (λ k. Standing.Missing)) }
    ensures highest { result ≡ above (block_at spares.now) (length spares.now / 32) }
    ensures slots { slots.new ≡ slots_of (standing (block_at spares.now) (length spares.now / 32)) }
{
    let (blocks, _) = spares.as_chunks::<BLOCK_SPARES>();
    let mut above = 0;
    for (b, block) in blocks.iter().enumerate() {
        let Some((number, generation)) = told(block) else {
            continue;
        };
        note(slots, number, generation, ChipBlock(b as u32));
        above = above.max(number.0 as usize + 1);
    }
    above
}

// The smallest number that is out of order.
fn smallest_out(slots: &[u32]) -> Option<usize>
    ensures { result ≡ position (λ s. not (in_order (of_slot s))) slots.now }
{
    slots
        .iter()
        .position(|slot| !Standing::of_slot(*slot).is_in_order())
}

// Writes the entries of the numbers that have these slots to a list, and answers how many places are filled.
#[tactic(auto, using(crate::proofs::Putting::listed_next, crate::proofs::Putting::starting_next, std::proofs::lemmas::Grind::common_steps), unfolding(crate::specs::Mapping::listed, crate::specs::Answers::block_bytes))]
fn put_list(slots: &[u32], listing: Listing, list: &mut [u8]) -> u16
    requires { (length slots.now ≤ 1024) × (2 * length slots.now ≤ length list.old) }
    ensures filled { result ≡ length (listed listing (in_slot slots.now) (length slots.now)) }
    ensures list { list.new ≡ starting_with (block_bytes (listed listing (in_slot slots.now) (length slots.now))) list.old }
{
    let mut filled = 0;
    for slot in slots {
        let Some(block) = Standing::of_slot(*slot).entry(listing) else {
            continue;
        };
        let at = LISTED * filled;
        list[at..at + LISTED].copy_from_slice(&((block.0 % 65536) as u16).to_be_bytes());
        filled += 1;
    }
    filled as u16
}

// The map of the boot blocks among `number` blocks: judged first; then, where it is answered, both lists are written.
#[tactic(auto, using(crate::proofs::Judging::slots_start, crate::proofs::Judging::map_judged, crate::proofs::Judging::list_judged), unfolding(crate::specs::Answers::map_answer, crate::specs::Answers::is_lent))]
pub fn boot_map(
    number: u64,
    spares: &[u8],
    mapped: &mut [u8],
    erased: &mut [u8],
) -> Result<MapCounts, MapRefusal>
    ensures answer { result ≡ map_answer number spares.now mapped.old erased.old }
    ensures mapped { mapped.new ≡ list_after Listing.ToMap number spares.now mapped.old erased.old mapped.old }
    ensures erased { erased.new ≡ list_after Listing.ToErase number spares.now mapped.old erased.old erased.old }
{
    if SmallChip::MOST_BLOCKS < number {
        return Err(Refusal::Range.into());
    }
    let n = number as usize;
    if spares.len() != BLOCK_SPARES * n
        || mapped.len() != LISTED * n
        || erased.len() != LISTED * n
    {
        return Err(Refusal::Length.into());
    }
    let mut slots = [0; SLOTS];
    let end = gather(spares, &mut slots).min(n);
    let slots = &slots[..end];
    if let Some(k) = smallest_out(slots) {
        return Err(MapRefusal::OutOfOrder(BootNumber(k as u32)));
    }
    Ok(MapCounts {
        mapped: put_list(slots, Listing::ToMap, mapped),
        erased: put_list(slots, Listing::ToErase, erased),
    })
}
