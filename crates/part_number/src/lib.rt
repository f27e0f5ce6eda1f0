// What numbers a part of a concatenated short message (TS 23.040 §9.2.3.24.1, §9.2.3.24.8).
#![tactic(auto)]

ghost use Rattle.std.specs.Prelude.{◌≡◌};
ghost use Rattle.header_elements.specs.Elements.{element, elements_of};
ghost use Rattle.part_number.specs.Numbering.{numbering_of, in_range, by_elements, numbering_in};
ghost use Rattle.part_number.specs.declared.Reference.TheVariants.{Eight};

use header_elements::{Element, Elements};
use octets::Refusal;

// The elements that number a part, by the width of its reference, and how many parts a message has at most.
const EIGHT_BITS: u8 = 0x00;

const SIXTEEN_BITS: u8 = 0x08;

const MAX_PARTS: u8 = 8;

// The reference of a concatenated message, with its width.
#[derive(Clone, Copy, Debug, PartialEq, Eq)]
pub enum Reference {
    Eight(u8),
    Sixteen(u16),
}

// That of a part that none numbers: 0, in eight bits.
impl Default for Reference {
    ghost is_default = { λ r. r ≡ Eight 0 };

    fn default() -> Self {
        Reference::Eight(0)
    }
}

// What numbers a part: the reference of its message, how many parts that has, and which of them this is.
#[derive(Clone, Copy, Debug, Default, PartialEq, Eq)]
pub struct PartNumber {
    pub reference: Reference,
    pub total: u8,
    pub number: u8,
}

// What an element says; none where it numbers no part.
#[tactic(auto, unfolding(crate::specs::Numbering::numbering_of))]
fn numbering_of(e: Element<'_>) -> Option<PartNumber>
    ensures { result ≡ numbering_of (element e.entry.identifier e.entry.value.now) }
{
    match (e.identifier, e.value) {
        (EIGHT_BITS, [reference, total, number]) => Some(PartNumber {
            reference: Reference::Eight(*reference),
            total: *total,
            number: *number,
        }),
        (SIXTEEN_BITS, [high, low, total, number]) => Some(PartNumber {
            reference: Reference::Sixteen(u16::from_be_bytes([*high, *low])),
            total: *total,
            number: *number,
        }),
        _ => None,
    }
}

// The numbers that were found, if they are in range.
#[tactic(auto, unfolding(crate::specs::Numbering::in_range))]
fn in_range(found: Option<PartNumber>) -> Result<PartNumber, Refusal>
    ensures { result ≡ in_range found }
{
    found
        .filter(|n| (1..=MAX_PARTS).contains(&n.total) && (1..=n.total).contains(&n.number))
        .ok_or(Refusal::NotAPart)
}

// What the octets of a header after its first say of the part.
fn number_in(body: &[u8]) -> Result<PartNumber, Refusal>
    ensures { result ≡ by_elements (elements_of body.now) }
{
    let mut found = None;
    for element in Elements::of(body) {
        found = numbering_of(element?).or(found);
    }
    in_range(found)
}

// What user data say of the part that they are.
#[tactic(auto, unfolding(crate::specs::Numbering::numbering_in))]
pub fn number_part(udhi: bool, dcs: u8, udl: u8, data: &[u8]) -> Result<PartNumber, Refusal>
    ensures { result ≡ numbering_in udhi dcs udl «data».now }
{
    if !udhi {
        return Err(Refusal::NotAPart);
    }
    let Some(body) = user_data_header::header_body(data) else {
        return Err(Refusal::HeaderNotWhole);
    };
    let octets = user_data_header::header_octets(data);
    if !user_data_header::in_count(coding::user_data_coding(dcs), udl, octets) {
        return Err(Refusal::HeaderPassesCount);
    }
    number_in(body)
}
