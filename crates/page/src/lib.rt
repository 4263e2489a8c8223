// Reading a page of the small chip, its data and its spare, with repair in place.
#![tactic(auto)]

ghost use Rattle.std.specs.Prelude.{◌≡◌};
ghost use Rattle.page.specs.Pages.{is_repairable, by_verdicts, stored_code, by_spare, page_answer, data_after, page_repairs};

use chip::{Half, Refusal, SmallChip};
use ecc::{Code, Verdict};
use spare::SpareFields;

// What a page tells: its spare's fields, and what was put right in each half.
#[derive(Clone, Copy)]
pub struct PageFields {
    pub spare: SpareFields,
    pub first: Verdict,
    pub second: Verdict,
}

impl PageFields {
    // How many of tag, path word, count word, first half and second half were repaired.
    pub fn repairs(self) -> u8
        ensures { result ≡ page_repairs self }
    {
        self.spare.repaired.repairs() + self.first.repairs() + self.second.repairs()
    }
}

// Can a half be put right, or does it need nothing?
fn is_repairable(v: Verdict) -> bool
    ensures { result ≡ is_repairable v }
{
    match v {
        Verdict::NotRepairable => false,
        _ => true,
    }
}

// What a page tells where its spare's fields and its halves' verdicts are known. Of two halves past repair the first is named.
#[tactic(auto, unfolding(crate::specs::Pages::by_verdicts))]
fn by_verdicts(spare: SpareFields, first: Verdict, second: Verdict) -> Result<PageFields, Refusal>
    ensures { result ≡ by_verdicts spare first second }
{
    if !is_repairable(first) {
        return Err(Refusal::Unrepairable(Half::First));
    }
    if !is_repairable(second) {
        return Err(Refusal::Unrepairable(Half::Second));
    }
    Ok(PageFields {
        spare,
        first,
        second,
    })
}

// The stored code of a half.
fn stored_code(spare: &[u8; SmallChip::SPARE], half: Half) -> Code
    ensures { result ≡ stored_code half spare.now }
{
    match half {
        Half::First => Code {
            one: spare[13],
            two: spare[14],
            three: spare[15],
        },
        Half::Second => Code {
            one: spare[8],
            two: spare[9],
            three: spare[10],
        },
    }
}

// Both halves judged by the codes of a spare.
fn judge_halves(
    bytes: &[u8; SmallChip::PAGE],
    spare: &[u8; SmallChip::SPARE],
    fields: SpareFields,
) -> Result<PageFields, Refusal>
    ensures { result ≡ by_spare bytes.now spare.now (Ok fields) }
{
    let (first, second) = bytes.split_at(SmallChip::HALF);
    let first = ecc::judge_half(first, stored_code(spare, Half::First));
    let second = ecc::judge_half(second, stored_code(spare, Half::Second));
    by_verdicts(fields, first, second)
}

// A page judged; nothing is changed.
#[tactic(auto, unfolding(crate::specs::Pages::page_answer, spare::specs::Reading::spare_answer))]
fn judge_page(bytes: &[u8], spare: &[u8]) -> Result<PageFields, Refusal>
    ensures { result ≡ page_answer bytes.now spare.now }
{
    let Ok(bytes) = <&[u8; SmallChip::PAGE]>::try_from(bytes) else {
        return Err(Refusal::Length);
    };
    let Ok(spare) = <&[u8; SmallChip::SPARE]>::try_from(spare) else {
        return Err(Refusal::Length);
    };
    let fields = spare::read_spare(spare)?;
    judge_halves(bytes, spare, fields)
}

// Reads a page: judged first; then, where the whole read succeeds, both halves are put right in place.
#[tactic(auto, unfolding(crate::specs::Pages::data_after))]
pub fn read_page(bytes: &mut [u8], spare: &[u8]) -> Result<PageFields, Refusal>
    ensures answer { result ≡ page_answer bytes.old spare.now }
    ensures repaired { bytes.new ≡ data_after bytes.old spare.now }
{
    let read = judge_page(bytes, spare)?;
    ecc::mend(bytes, Half::First, read.first);
    ecc::mend(bytes, Half::Second, read.second);
    Ok(read)
}
