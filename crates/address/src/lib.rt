// Addresses (TS 23.040 §9.1.2.5).
#![tactic(auto)]

pub mod writing;

ghost use Rattle.std.specs.Prelude.{◌≡◌, [], map, ◌+◌, ◌/◌, ◌≤◌, ◌<◌, length, get_or, take, drop, Err, ok_or};
ghost use Rattle.octets.specs.declared.Refusal.TheVariants.{OctetsEnd};
ghost use Rattle.octets.specs.Lent.{Wrote, lend};
ghost use Rattle.octets.specs.SemiOctets.{semi_octets};
ghost use Rattle.gsm7.specs.Reading.{replaced_in};
ghost use Rattle.address.specs.Address.{digit_character, without_f, value_text, value_septets, text_held, address_in, septets_read, address_size, encoding};
ghost use Rattle.address.specs.Internal.{address_span};

use crate::writing::{Number, TYPE_OF_NUMBER_ALPHANUMERIC};
use gsm7::decode::TextPut;
use octets::{Held, Place, Refusal};

// An SMS address. `address` holds digits, and text with type of number 5.
#[derive(Clone, Copy, Debug, Default)]
pub struct SMSAddress {
    pub ton: u8,
    pub npi: u8,
    pub address: Held<290>,
}

// An address that was read, and the number of escapes in its text that led to no character of the extension table.
#[derive(Clone, Copy, Debug)]
pub struct AddressRead {
    pub address: SMSAddress,
    pub replaced: usize,
}

// The character of a semi-octet but F.
fn character_from_semi_octet(value: u8) -> u8
    requires { value < 15 }
    ensures { result ≡ digit_character value }
{
    match value {
        0..=9 => b'0' + value,
        0xA => b'*',
        0xB => b'#',
        _ => b'a' - 0xC + value,
    }
}

// Semi-octet i of octets.
fn semi_octet(octets: &[u8], i: usize) -> u8
    requires { i / 2 < length octets.now }
    ensures { (result ≡ get_or (semi_octets octets.now) i 0) × (result < 16) }
{
    let octet = octets[i / 2];
    if i % 2 == 0 { octet % 16 } else { octet / 16 }
}

// Stores the digits of so many semi-octets, without F; their number.
pub fn digits_text(value: &[u8], count: usize, text: &mut [u8]) -> usize
    requires { (count ≤ length text.old) × ((count + 1) / 2 ≤ length value.now) }
    ensures { Wrote 0 (map digit_character (without_f (take count (semi_octets value.now)))) text.old result text.new }
{
    let mut n = 0;
    // By place: two semi-octets lie in an octet, and the last octet may have one that counts.
    for i in 0..count {
        let semi = semi_octet(value, i);
        if semi == 0xF {
            continue;
        }
        text[n] = character_from_semi_octet(semi);
        n += 1;
    }
    n
}

// Stores the text of a value of so many semi-octets.
fn value_text(ton: u8, count: usize, value: &[u8], text: &mut [u8; 290]) -> TextPut
    requires { (count ≤ 255) × ((count + 1) / 2 ≤ length value.now) × (length text.old ≡ 290) }
    ensures { Wrote 0 (value_text ton count value.now) text.old result.end text.new × (result.replaced ≡ replaced_in (value_septets ton count value.now)) }
{
    if ton == TYPE_OF_NUMBER_ALPHANUMERIC {
        return gsm7::decode::unpack_septets(value, 0, count * 4 / 7, text, 0);
    }
    TextPut {
        end: digits_text(value, count, text),
        replaced: 0,
    }
}

// The address field at a place, if it is there whole: where it starts, and the place after it. Each field read is taken apart
// with let-else, as document 01 has it.
pub fn address_span(data: &[u8], place: Place) -> Option<(usize, Place)>
    ensures { ok_or result OctetsEnd ≡ address_span «data».now place }
{
    let Some((length, _)) = place.octet(data) else {
        return None;
    };
    place.span(data, 2 + (length as usize + 1) / 2)
}

// The address field that starts at `at`.
#[inline(always)]
pub fn address_at(data: &[u8], at: usize) -> AddressRead
    requires { at + address_size (drop at «data».now) ≤ length «data».now }
    ensures { (result.address ≡ address_in (take (address_size (drop at «data».now)) (drop at «data».now))) × (result.replaced ≡ replaced_in (septets_read (take (address_size (drop at «data».now)) (drop at «data».now)))) }
{
    let count = data[at] as usize;
    let type_of_address = data[at + 1];
    let ton = type_of_address / 16 % 8;
    let start = at + 2;
    let end = start + (count + 1) / 2;
    // Filled in its place: an array that is put into the record afterwards is copied.
    let mut address = SMSAddress {
        ton,
        npi: type_of_address % 16,
        address: Held {
            length: 0,
            octets: [0; 290],
        },
    };
    let put = value_text(ton, count, &data[start..end], &mut address.address.octets);
    address.address.length = put.end;
    AddressRead {
        address,
        replaced: put.replaced,
    }
}

impl SMSAddress {
    // Type, plan and text.
    pub fn number(&self) -> Number<'_>
        ensures { (result.ton ≡ self.now.ton) × (result.npi ≡ self.now.npi) × (result.text.now ≡ text_held self.now) }
    {
        Number {
            ton: self.ton,
            npi: self.npi,
            text: self.address.as_slice(),
        }
    }

    // Writes the address to the start of a lent output (TS 23.040 §9.1.2.5).
    pub fn encode(self, out: &mut [u8]) -> Result<usize, Refusal>
        ensures { (result, out.new) ≡ lend (encoding self) out.old }
    {
        if !self.address.fits() {
            return Err(Refusal::LengthTooLarge);
        }
        self.number().encode(out)
    }
}
