// The spare of a page of the small chip: its status and its tag, reading a spare, writing a spare.
#![tactic(auto)]

ghost use Rattle.std.specs.Prelude.{◌≡◌, ◌≤◌};
ghost use Rattle.spare.specs.Reading.{path_word, count_word, is_erased, not_ours, fields_by, by_tag, spare_answer, spare_repairs};
ghost use Rattle.spare.specs.Status.{status_of};
ghost use Rattle.spare.specs.Tags.{tags, nearest, is_in};
ghost use Rattle.spare.specs.Writing.{is_writable, spare_of, write_answer, spare_after};

use chip::{BadKind, Refusal, SmallChip};
use hamming::{Decoded, Repair};

// Is a block good by its status byte, or which kind of bad is it? The count of ones decides.
#[tactic(auto, unfolding(crate::specs::Status::status_of))]
pub fn status_of(byte: u8) -> Result<(), BadKind>
    ensures { result ≡ status_of byte }
{
    let ones = byte.count_ones();
    if 7 <= ones {
        return Ok(());
    }
    if ones <= 1 {
        return Err(BadKind::Factory);
    }
    Err(BadKind::Late)
}

// The seven tag bytes: free, log-copying, log, data-copying, data, boot-copying, boot.
const TAGS: [u8; 7] = [0xFF, 0x67, 0x06, 0x79, 0x18, 0x1F, 0x01];

// The tag at most one bit from a byte, which stands for it.
pub fn nearest_tag(byte: u8) -> Option<u8>
    ensures { result ≡ nearest tags byte }
{
    let tags = TAGS;
    tags.iter()
        .find(|t| (**t ^ byte).count_ones() <= 1)
        .copied()
}

// Is this one of the seven tag bytes?
#[tactic(auto, using(crate::proofs::Tagging::in_nearest, crate::proofs::Tagging::in_byte))]
pub fn is_tag(tag: u64) -> bool
    ensures { result ≡ is_in tags tag }
{
    tag < 256 && nearest_tag(tag as u8) == Some(tag as u8)
}

// Which of tag, path word and count word were repaired.
#[derive(Clone, Copy)]
pub struct Repaired {
    pub tag: bool,
    pub path: bool,
    pub count: bool,
}

impl Repaired {
    // How many were repaired.
    pub fn repairs(self) -> u8
        ensures { result ≡ spare_repairs self }
    {
        u8::from(self.tag) + u8::from(self.path) + u8::from(self.count)
    }
}

// What a spare tells: the status byte as stored; tag, path and count as repaired; and what was repaired.
#[derive(Clone, Copy)]
pub struct SpareFields {
    pub status: u8,
    pub tag: u8,
    pub path: u32,
    pub count: u32,
    pub repaired: Repaired,
}

// Are all sixteen bytes FF?
#[tactic(auto, using(crate::proofs::Erased::erased_same))]
fn is_erased(spare: &[u8; SmallChip::SPARE]) -> bool
    ensures { result ≡ is_erased spare.now }
{
    *spare == [0xFF; SmallChip::SPARE]
}

// Why a spare with a wrong magic is refused; the count word may have been repaired.
#[tactic(auto, unfolding(crate::specs::Reading::not_ours))]
fn not_ours(spare: &[u8; SmallChip::SPARE], repair: Repair) -> Refusal
    ensures { result ≡ not_ours spare.now repair }
{
    if is_erased(spare) {
        return Refusal::Erased;
    }
    if repair.is_repair() {
        return Refusal::NotOursRepaired;
    }
    Refusal::NotOurs
}

// What a spare tells where tag and words are known.
fn fields_by(spare: &[u8; SmallChip::SPARE], tag: u8, path: Decoded, count: Decoded) -> SpareFields
    ensures { result ≡ fields_by spare.now tag path count }
{
    SpareFields {
        status: spare[5],
        tag,
        path: path.bits,
        count: count.bits % SmallChip::COUNTS,
        repaired: Repaired {
            tag: spare[4] != tag,
            path: path.repair.is_repair(),
            count: count.repair.is_repair(),
        },
    }
}

// The path word.
fn path_word(spare: &[u8; SmallChip::SPARE]) -> u32
    ensures { result ≡ path_word spare.now }
{
    bits::word_of(spare[0], spare[1], spare[2], spare[3])
}

// The magic-and-count word.
fn count_word(spare: &[u8; SmallChip::SPARE]) -> u32
    ensures { result ≡ count_word spare.now }
{
    bits::word_of(spare[6], spare[7], spare[11], spare[12])
}

// The answer where the tag is known. The path word is read only where the magic is right.
#[tactic(auto, unfolding(crate::specs::Reading::by_words))]
fn by_tag(spare: &[u8; SmallChip::SPARE], tag: u8) -> Result<SpareFields, Refusal>
    ensures { result ≡ by_tag spare.now (Some tag) }
{
    let count = hamming::decode(count_word(spare));
    if count.bits / SmallChip::COUNTS != SmallChip::MAGIC {
        return Err(not_ours(spare, count.repair));
    }
    let path = hamming::decode(path_word(spare));
    Ok(fields_by(spare, tag, path, count))
}

// Reads a spare.
#[tactic(auto, unfolding(crate::specs::Reading::spare_answer))]
pub fn read_spare(spare: &[u8]) -> Result<SpareFields, Refusal>
    ensures { result ≡ spare_answer spare.now }
{
    let Ok(spare) = <&[u8; SmallChip::SPARE]>::try_from(spare) else {
        return Err(Refusal::Length);
    };
    status_of(spare[5])?;
    let tag = nearest_tag(spare[4]).ok_or(Refusal::Tag)?;
    by_tag(spare, tag)
}

// May these be written?
#[tactic(auto, unfolding(crate::specs::Writing::is_writable))]
fn is_writable(tag: u64, path: u64, count: u64) -> bool
    ensures { result ≡ is_writable tag path count }
{
    is_tag(tag) && path < SmallChip::PATHS && count <= SmallChip::LAST_COUNT
}

// The sixteen bytes for 512 data bytes and what may be written with them.
#[tactic(auto, unfolding(crate::specs::Writing::spare_of))]
fn spare_of(bytes: &[u8; SmallChip::PAGE], tag: u8, path: u32, count: u32) -> [u8; SmallChip::SPARE]
    requires { count ≤ 262142 }
    ensures { result ≡ spare_of bytes.now tag path count }
{
    let p = bits::bytes_of(hamming::encode(path));
    let c = bits::bytes_of(hamming::encode(SmallChip::MAGIC_WITH_NO_COUNT + count));
    let (first, second) = bytes.split_at(SmallChip::HALF);
    let first = ecc::code_of(first);
    let second = ecc::code_of(second);
    [
        p[0],
        p[1],
        p[2],
        p[3],
        tag,
        0xFF,
        c[0],
        c[1],
        second.one,
        second.two,
        second.three,
        c[2],
        c[3],
        first.one,
        first.two,
        first.three,
    ]
}

// Writes the spare of a page.
#[tactic(auto, using(crate::proofs::Writables::writable_fits, bits::proofs::Filling::copied_same), unfolding(crate::specs::Writing::write_answer, crate::specs::Writing::spare_after))]
pub fn write_spare(
    bytes: &[u8],
    tag: u64,
    path: u64,
    count: u64,
    spare: &mut [u8],
) -> Result<(), Refusal>
    ensures answer { result ≡ write_answer bytes.now tag path count spare.old }
    ensures written { spare.new ≡ spare_after bytes.now tag path count spare.old }
{
    let Ok(bytes) = <&[u8; SmallChip::PAGE]>::try_from(bytes) else {
        return Err(Refusal::Length);
    };
    if spare.len() != SmallChip::SPARE {
        return Err(Refusal::Length);
    }
    if !is_writable(tag, path, count) {
        return Err(Refusal::Range);
    }
    bits::copy(
        &spare_of(bytes, tag as u8, path as u32, count as u32),
        spare,
    );
    Ok(())
}
