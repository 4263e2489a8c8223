// Runs the examples of document 01 that are not in the proved table, and the published vectors, through the entries, and compares.
// data/half-codes: a line is 256 bytes and the three of their code, in hexadecimal. data/spares: a line is 16 spare bytes, the answer's
// number and detail, and the 11 bytes of fields, EE where they are left as they were. Writes a line for each file, for each page with an erased spare, for each number of blocks
// and for each page that a view is asked for.
#![tactic(auto)]

ghost use Rattle.std.specs.Prelude.{◌≡◌, ◌*◌, ◌<◌, length};

use chip::{LargeChip, RegionBlock};
use std::{fs, io};

// A capital hexadecimal digit's value; of any other character some number below 16.
fn digit(c: u8) -> u8
    ensures { result < 16 }
{
    if c < 65 { c % 16 } else { (c % 16 + 9) % 16 }
}

// The bytes that `text` spells, two digits each.
fn spelled(text: &[u8], bytes: &mut [u8])
    requires { length text.now ≡ 2 * length bytes.old }
{
    for (i, byte) in bytes.iter_mut().enumerate() {
        *byte = digit(text[2 * i]) * 16 + digit(text[2 * i + 1]);
    }
}

// Is a half's code as the line says?
fn half_is_equal(line: &[u8]) -> bool
    requires { length line.now ≡ 520 }
{
    let mut half = [0u8; 256];
    let mut want = [0u8; 3];
    let mut got = [0u8; 3];
    spelled(&line[0..512], &mut half);
    spelled(&line[513..519], &mut want);
    let answer = reamsickle::ream_half_code(&half, &mut got);
    answer == 0 && got == want
}

// Does reading a spare answer what the line says?
fn spare_is_equal(line: &[u8]) -> bool
    requires { length line.now ≡ 61 }
{
    let mut spare = [0u8; 16];
    let mut answer = [0u8; 2];
    let mut want = [0u8; 11];
    let mut got = [0xEEu8; 11];
    spelled(&line[0..32], &mut spare);
    spelled(&line[33..37], &mut answer);
    spelled(&line[38..60], &mut want);
    let r = reamsickle::ream_spare_read(&spare, &mut got);
    r % 256 == answer[0] as u64 && r / 256 == answer[1] as u64 && got == want
}

// How many lines were compared, and how many of them were equal.
#[derive(Clone, Copy)]
struct Tally {
    compared: u32,
    equal: u32,
}

impl Tally {
    // One line more; more than 100,000 are not counted.
    fn count(&mut self, equal: bool) {
        if self.compared < 100000 {
            self.compared += 1;
            if equal && self.equal < 100000 {
                self.equal += 1;
            }
        }
    }
}

// The lines of a file's text, of so many bytes each, and how many of them are as they say.
fn compare<F: Fn(&[u8]) -> bool>(text: &[u8], bytes: usize, is_equal: F) -> Tally
    requires some { 0 < bytes }
    requires callable { (line : _) → length line.now ≡ bytes → F.pre is_equal line }
{
    let mut tally = Tally {
        compared: 0,
        equal: 0,
    };
    for line in text.chunks_exact(bytes) {
        tally.count(is_equal(line));
    }
    tally
}

// Runs a file whose lines have so many bytes each, and writes what it showed.
fn run<F: Fn(&[u8]) -> bool>(
    rt: &HostRuntime,
    name: &str,
    bytes: usize,
    is_equal: F,
) -> io::Result<()>
    requires some { 0 < bytes }
    requires callable { (line : _) → length line.now ≡ bytes → F.pre is_equal line }
{
    let text = fs::read(rt, name)?;
    let t = compare(&text, bytes, is_equal);
    let compared = t.compared;
    let equal = t.equal;
    println!(rt; "{name}: {compared} compared, {equal} equal")
}

// Reading a page with an erased spare, all FF, is refusal 51, whatever its data bytes are: here all are the same.
fn erased(rt: &HostRuntime, byte: u8) -> io::Result<()> {
    let mut bytes = [byte; 512];
    let spare = [0xFFu8; 16];
    let mut fields = [0u8; 11];
    let r = reamsickle::ream_page_read(&mut bytes, &spare, &mut fields);
    println!(rt; "erased spare, data {byte:02x}: refusal {r}")
}

// Of a number of blocks, and how many of them are the region: P, or the refusal of these numbers.
fn blocks(rt: &HostRuntime, n: u64, size: u64) -> io::Result<()> {
    match LargeChip::new(n, size) {
        Ok(chip) => {
            let pages = chip.pages();
            println!(rt; "{n} blocks, region of {size}: P {pages}")
        }
        Err(r) => {
            let number = r.number();
            println!(rt; "{n} blocks, region of {size}: refusal {number}")
        }
    }
}

// Byte i of the image that views are asked for: at an even place the page, counted through the region, at an odd one the place in the page, modulo 256.
fn marked(i: usize) -> u8 {
    if i % 2 == 0 {
        (i / LargeChip::PAGE_WITH_OOB % 256) as u8
    } else {
        (i % LargeChip::PAGE_WITH_OOB % 256) as u8
    }
}

fn mark(image: &mut [u8]) {
    for (i, byte) in image.iter_mut().enumerate() {
        *byte = marked(i);
    }
}

// What a view answers of a page, and the part that it hands back.
fn asked(rt: &HostRuntime, n: u64, size: u64, image: &[u8], block: u8, page: u8) -> io::Result<()> {
    print!(rt; "view of {n} blocks, region of {size}, block {block}, page {page}: ")?;
    match view::answer_of(n, size, image, RegionBlock(block), page) {
        Ok(()) => print!(rt; "given, ")?,
        Err(r) => {
            let number = r.number();
            print!(rt; "refusal {number}, ")?;
        }
    }
    let part = view::oob_of(n, size, image, RegionBlock(block), page);
    let bytes = part.len();
    print!(rt; "{bytes} bytes")?;
    if bytes != 0 {
        print!(rt; " ")?;
        for byte in part {
            print!(rt; "{byte:02x}")?;
        }
    }
    println!(rt)
}

// First and last block and page where P is 1, where P is 4, and in a region of 7; then N or the region's size out of range, another length, and
// block or page out of range, each with what comes later in the order wrong as well.
fn views(rt: &HostRuntime, one: &[u8], four: &[u8], widest: &[u8]) -> io::Result<()> {
    asked(rt, 8192, 4, one, 0, 0)?;
    asked(rt, 8192, 4, one, 3, 0)?;
    asked(rt, 32768, 4, four, 0, 0)?;
    asked(rt, 32768, 4, four, 0, 3)?;
    asked(rt, 32768, 4, four, 3, 0)?;
    asked(rt, 32768, 4, four, 3, 3)?;
    asked(rt, 32768, 7, widest, 6, 3)?;
    asked(rt, 10, 4, one, 4, 4)?;
    asked(rt, 8192, 3, one, 4, 4)?;
    asked(rt, 8192, 4, four, 4, 4)?;
    asked(rt, 32768, 5, four, 5, 4)?;
    asked(rt, 8192, 4, one, 4, 0)?;
    asked(rt, 8192, 4, one, 3, 1)?;
    asked(rt, 32768, 4, four, 4, 3)?;
    asked(rt, 32768, 4, four, 3, 4)?;
    asked(rt, 32768, 7, widest, 7, 3)
}

// The views of marked images, for P = 1 and P = 4, and of the largest region.
fn marked_views(rt: &HostRuntime) -> io::Result<()> {
    let mut one = [0u8; 8448];
    let mut four = [0u8; 33792];
    let mut widest = [0u8; 59136];
    mark(&mut one);
    mark(&mut four);
    mark(&mut widest);
    views(rt, &one, &four, &widest)
}

// Numbers of blocks at their edges, and sizes of the region at theirs.
fn numbers(rt: &HostRuntime) -> io::Result<()> {
    blocks(rt, 8192, 4)?;
    blocks(rt, 8196, 4)?;
    blocks(rt, 4, 4)?;
    blocks(rt, 10, 4)?;
    blocks(rt, 32772, 4)?;
    blocks(rt, 8, 4)?;
    blocks(rt, 8, 5)?;
    blocks(rt, 12, 6)?;
    blocks(rt, 12, 7)?;
    blocks(rt, 16, 7)?;
    blocks(rt, 16, 3)?;
    blocks(rt, 16, 8)?;
    blocks(rt, 32768, 4294967300)
}

fn main(rt: HostRuntime) -> io::Result<()> {
    run(&rt, "half-codes", 520, |line| half_is_equal(line))?;
    run(&rt, "spares", 61, |line| spare_is_equal(line))?;
    erased(&rt, 0xFF)?;
    erased(&rt, 0x00)?;
    numbers(&rt)?;
    marked_views(&rt)
}
