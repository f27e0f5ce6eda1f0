// Elements of a user data header (TS 23.040 §9.2.3.24).
#![tactic(auto)]

ghost use Rattle.std.specs.Prelude.{◌≡◌, [], ◌∷◌, ◌+◌, ◌*◌, ◌≤◌, length, sum};
ghost use Rattle.octets.specs.Lent.{lend, Wrote};
ghost use Rattle.header_elements.specs.Elements.{elements_of, joined};
ghost use Rattle.header_elements.specs.Order.{ordered};
ghost use Rattle.header_elements.specs.Record.{answer, elements_read, held, elements_with, total, header_making};
ghost use Rattle.header_elements.specs.Internal.{Counted, SummedUp};

use octets::Refusal;

mod elements;

pub use elements::{Element, Elements};

// Octets after a header's first, which counts them.
const MAX_OCTETS: usize = 255;

// An element has two octets and its value.
const MAX_ELEMENTS: usize = 127;

// Octets of values.
const MAX_VALUES: usize = 253;

// An identifier is an octet.
const IDENTIFIERS: usize = 256;

// Elements: identifiers, lengths, and the values end to end.
// Arrays beside each other, as the C interface fills them; values lie end to end, since there is no heap.
#[derive(Clone, Copy, Debug)]
pub struct HeaderElements {
    pub count: usize,
    pub identifiers: [u8; MAX_ELEMENTS],
    pub lengths: [u8; MAX_ELEMENTS],
    pub octets: [u8; MAX_VALUES],
}

// No elements.
impl Default for HeaderElements {
    ghost is_default = { λ h. h ≡ held [] };

    fn default() -> Self {
        HeaderElements {
            count: 0,
            identifiers: [0; MAX_ELEMENTS],
            lengths: [0; MAX_ELEMENTS],
            octets: [0; MAX_VALUES],
        }
    }
}

// The elements of the octets after a header's first.
fn read_elements(body: &[u8]) -> Result<HeaderElements, Refusal>
    requires { length body.now ≤ 255 }
    ensures { result ≡ answer (elements_of body.now) }
{
    let mut identifiers = [0u8; MAX_ELEMENTS];
    let mut lengths = [0u8; MAX_ELEMENTS];
    let mut values = [0u8; MAX_VALUES];
    let mut count = 0;
    let mut filled = 0;
    for element in Elements::of(body) {
        let Element { identifier, value } = element?;
        identifiers[count] = identifier;
        lengths[count] = value.len() as u8;
        filled = octets::put_octets(&mut values, filled, value);
        count += 1;
    }
    Ok(HeaderElements {
        count,
        identifiers,
        lengths,
        octets: values,
    })
}

// Takes a header apart; octets after it are not looked at.
pub fn read_header_elements(header: &[u8]) -> Result<HeaderElements, Refusal>
    ensures { result ≡ elements_read header.now }
{
    let Some(body) = user_data_header::header_body(header) else {
        return Err(Refusal::HeaderNotWhole);
    };
    read_elements(body)
}

// The octets after the first that elements of these lengths need.
fn octets_needed(lengths: &[u8]) -> usize
    requires { length lengths.now ≤ 127 }
    ensures { result ≡ 2 * length lengths.now + total lengths.now }
{
    2 * lengths.len() + lengths.iter().map(|n| *n as usize).sum::<usize>()
}

// Writes one element from `at` on; the place after it.
fn put_element(out: &mut [u8], at: usize, identifier: u8, value: &[u8]) -> usize
    requires { (length value.now ≤ 255) × (at + 2 + length value.now ≤ length out.old) }
    ensures { Wrote at (identifier ∷ (length value.now ∷ value.now)) out.old result out.new }
{
    let p1 = octets::put_octet(out, at, identifier);
    let p2 = octets::put_octet(out, p1, value.len() as u8);
    octets::put_octets(out, p2, value)
}

// How many octets the elements with each identifier need. Here and below as in columns, whose counts are `usize`: one
// generic function would need a trait of additions that don't overflow.
fn count_octets(identifiers: &[u8], lengths: &[u8]) -> [u8; IDENTIFIERS]
    requires { (length lengths.now ≡ length identifiers.now) × (2 * length lengths.now + total lengths.now ≤ 255) }
    ensures { Counted identifiers.now lengths.now result }
{
    let mut octets = [0u8; IDENTIFIERS];
    for (&identifier, &length) in identifiers.iter().zip(lengths) {
        octets[identifier as usize] += length + 2;
    }
    octets
}

// Puts in each count's place where the octets that it counts start.
fn sum_up(counts: &mut [u8; IDENTIFIERS])
    requires { (length counts.old ≡ 256) × (sum counts.old ≤ 255) }
    ensures { SummedUp counts.old counts.new }
{
    let mut place = 0;
    for start in counts {
        let count = *start;
        *start = place;
        place += count;
    }
}

// Writes elements by rising identifier, equal identifiers in the order given: each where those of its identifier go on.
// Not the library's sort: a stable one takes a buffer from the heap, and values lie end to end beside their lengths.
fn put_elements(out: &mut [u8], identifiers: &[u8], lengths: &[u8], values: &[u8])
    requires { (length lengths.now ≡ length identifiers.now) × (2 * length lengths.now + total lengths.now ≤ 255) × (total lengths.now ≤ length values.now) × (length out.old ≤ 255) × (length out.old ≡ length (joined (ordered (elements_with identifiers.now lengths.now values.now)))) }
    ensures { out.new ≡ joined (ordered (elements_with identifiers.now lengths.now values.now)) }
{
    let mut places = count_octets(identifiers, lengths);
    sum_up(&mut places);
    let mut rest = values;
    for (&identifier, &length) in identifiers.iter().zip(lengths) {
        let (value, after) = rest.split_at(length as usize);
        let i = identifier as usize;
        places[i] = put_element(out, places[i] as usize, identifier, value) as u8;
        rest = after;
    }
}

impl HeaderElements {
    // Writes a header of the elements, by rising identifier, to the start of a lent output.
    pub fn encode(self, out: &mut [u8]) -> Result<usize, Refusal>
        ensures { (result, out.new) ≡ lend (header_making self) out.old }
    {
        let count = self.count;
        if MAX_ELEMENTS < count {
            return Err(Refusal::ElementsTooLong);
        }
        let identifiers = &self.identifiers[..count];
        let lengths = &self.lengths[..count];
        let needed = octets_needed(lengths);
        if MAX_OCTETS < needed {
            return Err(Refusal::ElementsTooLong);
        }
        let size = needed + 1;
        if out.len() < size {
            return Err(Refusal::OutputTooShort);
        }
        out[0] = needed as u8;
        put_elements(&mut out[1..size], identifiers, lengths, &self.octets);
        Ok(size)
    }
}
