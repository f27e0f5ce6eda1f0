// Text after a user data header, in 7-bit coding (TS 23.040 §9.2.3.24).
#![tactic(auto)]

ghost use Rattle.std.specs.Prelude.{◌≡◌, ◌≤◌, ◌<◌, ◌↔◌, IsSome, IfSome, [], length, get_or, take, drop};
ghost use Rattle.octets.specs.Lent.{lend};
ghost use Rattle.septets.specs.Septets.{septets_in};
ghost use Rattle.gsm7.specs.Reading.{text_of, replaced_in};
ghost use Rattle.user_data_header.specs.Header.{header_octets, in_count, header_given, unpacked_with_header, packing_with_header};

use coding::UserDataCoding;
use gsm7::packing::Packed;
use octets::{Held, Refusal};

// A header, its length octet included, and the text after it, with the number of escapes in it that led to no character of the extension table.
#[derive(Clone, Copy, Debug)]
pub struct UnpackedWithHeader {
    pub header: Held<255>,
    pub text: Held<510>,
    pub replaced_escapes: usize,
}

// No header and no text. By hand: an edit plants a wrong body.
impl Default for UnpackedWithHeader {
    ghost is_default = { λ u. u ≡ header_given [] [] 0 };

    #[tactic(auto, unfolding(crate::specs::Header::header_given, octets::specs::Held::holding))]
    fn default() -> Self {
        UnpackedWithHeader {
            header: Held::default(),
            text: Held::default(),
            replaced_escapes: 0,
        }
    }
}

// The octets of a header: its first octet counts those that follow. (Empty data give 1, which is more than they have.)
pub fn header_octets(data: &[u8]) -> usize
    ensures { (result ≡ header_octets «data».now) × (result ≤ 256) }
{
    septets::octet_or_zero(data, 0) as usize + 1
}

// The octets of a header after its first; none where the header is not there whole.
pub fn header_body(data: &[u8]) -> Option<&[u8]>
    ensures whole { IsSome result ↔ (header_octets «data».now ≤ length «data».now) }
    ensures body { IfSome result (λ b. (b.now ≡ take (get_or «data».now 0 0) (drop 1 «data».now)) × (length b.now ≤ 255)) }
{
    data.get(1..header_octets(data))
}

// In 7-bit coding a header of `h` octets takes septets of the count.
#[tactic(auto, unfolding(crate::specs::Header::in_count))]
pub fn in_count(coding: UserDataCoding, udl: u8, h: usize) -> bool
    requires { h ≤ 256 }
    ensures { result ≡ in_count coding udl h }
{
    match coding {
        UserDataCoding::Gsm7Bit => septets::header_septets(h) <= udl as usize,
        UserDataCoding::EightBit | UserDataCoding::Ucs2 | UserDataCoding::Compressed => true,
    }
}

// A header of `h` octets, and the text of the septets that start `fill` bits after it, which are all there.
fn header_and_text(data: &[u8], h: usize, fill: usize, septets: usize) -> UnpackedWithHeader
    requires { (h ≤ length «data».now) × (h ≤ 255) × (fill < 8) × (septets ≤ 255) }
    ensures { result ≡ header_given (take h «data».now) (text_of (septets_in (drop h «data».now) fill septets)) (replaced_in (septets_in (drop h «data».now) fill septets)) }
{
    let mut text = [0u8; 510];
    let put = gsm7::decode::unpack_septets(&data[h..], fill, septets, &mut text, 0);
    UnpackedWithHeader {
        header: octets::hold(&data[..h]),
        text: Held {
            octets: text,
            length: put.end,
        },
        replaced_escapes: put.replaced,
    }
}

// The header of user data and the text after it; `septets` is their TP-User-Data-Length.
pub fn unpack_gsm7_with_header(data: &[u8], septets: usize) -> Result<UnpackedWithHeader, Refusal>
    ensures { result ≡ unpacked_with_header «data».now septets }
{
    if 255 < septets {
        return Err(Refusal::LengthTooLarge);
    }
    let h = header_octets(data);
    if data.len() < h {
        return Err(Refusal::HeaderNotWhole);
    }
    let in_header = septets::header_septets(h);
    if septets < in_header {
        return Err(Refusal::HeaderPassesCount);
    }
    let fill = septets::fill_bits(h);
    let in_text = septets - in_header;
    if data.len() - h < septets::octet_count(fill, in_text) {
        return Err(Refusal::TooFewOctets);
    }
    Ok(header_and_text(data, h, fill, in_text))
}

// User data: the header, fill bits to the septet boundary, and the text. The header is whole, as long as its first octet says.
pub fn pack_gsm7_with_header(header: &[u8], text: &[u8], out: &mut [u8]) -> Result<Packed, Refusal>
    ensures { (result, out.new) ≡ lend (packing_with_header header.now text.now) out.old }
{
    if header.len() != header_octets(header) {
        return Err(Refusal::HeaderNotWhole);
    }
    gsm7::packing::pack_septets(header, text, out)
}
