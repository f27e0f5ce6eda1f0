// GSM 7-bit default alphabet text (TS 23.038 §6.2.1), written: the septets of a text packed in octets, with or without a header before them.
ghost use Rattle.std.specs.Prelude.{◌≡◌, ◌≤◌, [], length};
ghost use Rattle.std.proofs.Math.Option.{some};
ghost use Rattle.octets.specs.Lent.{Wrote, lend};
ghost use Rattle.septets.specs.Septets.{Digits};
ghost use Rattle.gsm7.specs.Packing.{octets_after, packed_after, packing};

use octets::Refusal;

// How many octets were written, and the number of septets that TP-User-Data-Length counts.
#[derive(Clone, Copy, Debug, Default, PartialEq, Eq)]
pub struct Packed {
    pub octets: usize,
    pub septets: usize,
}

// Writes a header's octets, and the septets after it and its fill bits; the place after them.
fn put_packed(header: &[u8], codes: &[u8], out: &mut [u8]) -> usize
    requires { (length header.now ≤ 256) × (length codes.now ≤ 255) × Digits 7 codes.now × (length (octets_after header.now codes.now) ≤ length out.old) }
    ensures { Wrote 0 (octets_after header.now codes.now) out.old result out.new }
{
    let fill = septets::fill_bits(header.len());
    let at = octets::put_octets(out, 0, header);
    septets::pack_octets(codes, fill, out, at)
}

// The septets packed after a header's octets and its fill bits.
pub fn pack_codes(header: &[u8], codes: &[u8], out: &mut [u8]) -> Result<Packed, Refusal>
    requires { (length header.now ≤ 256) × (length codes.now ≤ 255) × Digits 7 codes.now }
    ensures { (result, out.new) ≡ lend (packed_after header.now (some codes.now)) out.old }
{
    let septets = septets::header_septets(header.len()) + codes.len();
    if 255 < septets {
        return Err(Refusal::TooManySeptets);
    }
    if out.len() < septets::octet_count(0, septets) {
        return Err(Refusal::OutputTooShort);
    }
    let octets = put_packed(header, codes, out);
    Ok(Packed { octets, septets })
}

// The text packed after a header's octets and its fill bits; with no header, from the start.
pub fn pack_septets(header: &[u8], text: &[u8], out: &mut [u8]) -> Result<Packed, Refusal>
    requires { length header.now ≤ 256 }
    ensures { (result, out.new) ≡ lend (packing header.now text.now) out.old }
{
    let mut codes = [0u8; 255];
    let count = crate::encode::scan_text(text, &mut codes)?;
    if 255 < count {
        return Err(Refusal::TooManySeptets);
    }
    pack_codes(header, &codes[..count], out)
}

// The text packed in octets.
pub fn pack_gsm7(text: &[u8], out: &mut [u8]) -> Result<Packed, Refusal>
    ensures { (result, out.new) ≡ lend (packing [] text.now) out.old }
{
    pack_septets(&text[..0], text, out)
}
