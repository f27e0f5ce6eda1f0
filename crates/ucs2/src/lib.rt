// UCS2 user data to packed septets and back (TS 23.038 §6.2.1, §6.2.3).
#![tactic(auto)]

ghost use Rattle.std.specs.Prelude.{◌≡◌, length};
ghost use Rattle.octets.specs.Lent.{lend};
ghost use Rattle.gsm7.specs.Internal.{ScannedAs};
ghost use Rattle.ucs2.specs.Ucs2.{pair, characters_in, codes_of, to_gsm7, to_ucs2};

use gsm7::decode::{Form, check_count, put_characters};
use gsm7::packing::Packed;
use octets::Refusal;

// The septets of UCS2 characters, counted past the array's end.
fn scan_characters(ucs2: &[u8], codes: &mut [u8; 255]) -> Result<usize, Refusal>
    requires { length codes.old ≡ 255 }
    ensures { ScannedAs (codes_of (characters_in ucs2.now)) result codes.old codes.new }
{
    let mut count = 0;
    let (pairs, _) = ucs2.as_chunks::<2>();
    for &pair in pairs {
        let c = u16::from_be_bytes(pair);
        let Some(next) = gsm7::encode::add_character(codes, count, c) else {
            return Err(Refusal::NotInAlphabet);
        };
        count = next;
    }
    Ok(count)
}

// UCS2 user data as packed septets: how many of them there are, and how many octets they take. A header before the text is the caller's to cut off.
pub fn ucs2_to_gsm7(ucs2: &[u8], out: &mut [u8]) -> Result<Packed, Refusal>
    ensures { (result, out.new) ≡ lend (to_gsm7 ucs2.now) out.old }
{
    if ucs2.len() % 2 != 0 {
        return Err(Refusal::OddOctets);
    }
    let mut codes = [0u8; 255];
    let Ok(count) = scan_characters(ucs2, &mut codes) else {
        return Err(Refusal::InNeitherTable);
    };
    if 255 < count {
        return Err(Refusal::TooManySeptets);
    }
    gsm7::packing::pack_codes(&ucs2[..0], &codes[..count], out)
}

// Characters as UCS2: two octets each, the high one first.
pub struct Ucs2;

impl Form for Ucs2 {
    ghost form = { pair };

    fn put(ucs2: &mut [u8], at: usize, c: u16) -> usize {
        octets::put_octets(ucs2, at, &c.to_be_bytes())
    }
}

// The counted septets as UCS2; how many octets it has. A header before the text, with its fill bits, is the caller's to cut off.
pub fn gsm7_to_ucs2(data: &[u8], septets: usize, out: &mut [u8]) -> Result<usize, Refusal>
    ensures { (result, out.new) ≡ lend (to_ucs2 «data».now septets) out.old }
{
    check_count(data, septets)?;
    let mut ucs2 = [0u8; 510];
    let n = put_characters::<Ucs2>(data, 0, septets, &mut ucs2, 0).end;
    if out.len() < n {
        return Err(Refusal::OutputTooShort);
    }
    Ok(octets::put_octets(out, 0, &ucs2[..n]))
}
