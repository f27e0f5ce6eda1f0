// A text in the parts of a concatenated short message (TS 23.040 §9.2.3.24.1).
#![tactic(auto)]

ghost use Rattle.std.specs.Prelude.{◌≡◌, ◌+◌, ◌<◌, ◌≤◌, [], length};
ghost use Rattle.octets.specs.Lent.{lend, Wrote};
ghost use Rattle.septets.specs.Septets.{Digits, header_septets};
ghost use Rattle.gsm7.specs.Writing.{septets_of};
ghost use Rattle.concatenation.specs.Cutting.{parts_of};
ghost use Rattle.concatenation.specs.Messages.{message, numbered, concatenating};
ghost use Rattle.concatenation.specs.Internal.{StoredAs, counted_as, codes_of, Coded};

use octets::Refusal;

// How many octets were written, and how many messages they are.
#[derive(Clone, Copy, Debug, Default, PartialEq, Eq)]
pub struct Concatenated {
    pub octets: usize,
    pub messages: usize,
}

// How many septets a text has, how many parts they are cut into, and how many septets the last of these has.
#[derive(Clone, Copy)]
struct Counted {
    septets: usize,
    parts: usize,
    last: usize,
}

// Stores the septets of the part that starts at `from`, as many as it can hold, at the array's start.
fn store_part(text: &[u8], from: usize, codes: &mut [u8; 255]) -> Result<(usize, usize), Refusal>
    requires { (from < length text.now) × (length codes.old ≡ 255) }
    ensures { StoredAs text.now from codes.new result }
{
    let mut count = 0;
    let mut i = from;
    // A `while`: a character is one to three octets of the text, so no range counts them.
    while i < text.len() {
        // the short way, as in `scan_text` of gsm7
        let octet = text[i];
        if octet < 0x80 {
            if let Some(code) = gsm7::encode::single_of(octet as u16) {
                if 152 < count {
                    break;
                }
                codes[count] = code;
                count += 1;
                i += 1;
                continue;
            }
        }
        let (c, width) = gsm7::encode::character_at(text, i)?;
        let next = gsm7::encode::add_character(codes, count, c).ok_or(Refusal::NotInAlphabet)?;
        if 153 < next {
            break;
        }
        count = next;
        i += width;
    }
    Ok((count, i))
}

// How many parts a text is cut into, and how many septets they have.
fn count_parts(text: &[u8]) -> Result<Counted, Refusal>
    ensures { result ≡ counted_as (septets_of text.now) }
{
    let mut codes = [0u8; 255];
    let mut septets = 0;
    let mut parts = 0;
    let mut last = 0;
    let mut from = 0;
    // A `while`: where a part ends is known when it is stored.
    while from < text.len() {
        let (count, next) = store_part(text, from, &mut codes)?;
        septets += count;
        parts += 1;
        last = count;
        from = next;
    }
    Ok(Counted {
        septets,
        parts,
        last,
    })
}

// Writes a message from `at` on: TP-UDL, header, fill bits and septets; the place after it.
fn put_message(header: &[u8], codes: &[u8], out: &mut [u8], at: usize) -> usize
    requires { (header_septets (length header.now) + length codes.now ≤ 160) × Digits 7 codes.now × (at + length (message header.now codes.now) ≤ length out.old) }
    ensures { Wrote at (message header.now codes.now) out.old result out.new }
{
    let in_header = septets::header_septets(header.len());
    let data = octets::put_octet(out, at, (in_header + codes.len()) as u8);
    let text = octets::put_octets(out, data, header);
    septets::pack_octets(codes, septets::fill_bits(header.len()), out, text)
}

// Writes the parts, one after the other; the place after them.
fn put_parts(text: &[u8], reference: u8, total: u8, out: &mut [u8]) -> usize
    requires { Coded text.now × (total ≡ length (parts_of (codes_of text.now))) × (length (numbered reference total 1 (parts_of (codes_of text.now))) ≤ length out.old) }
    ensures { Wrote 0 (numbered reference total 1 (parts_of (codes_of text.now))) out.old result out.new }
{
    let mut codes = [0u8; 255];
    let mut at = 0;
    let mut from = 0;
    let mut number = 0;
    // A `while`: as in `count_parts`.
    while from < text.len() {
        let Ok((count, next)) = store_part(text, from, &mut codes) else {
            return at;
        };
        number += 1;
        let header = [0x05, 0x00, 0x03, reference, total, number];
        at = put_message(&header, &codes[..count], out, at);
        from = next;
    }
    at
}

// Writes the one message of a text of at most 160 septets; the place after it.
fn put_one(text: &[u8], out: &mut [u8]) -> usize
    requires { Coded text.now × (length (codes_of text.now) ≤ 160) × (length (message [] (codes_of text.now)) ≤ length out.old) }
    ensures { Wrote 0 (message [] (codes_of text.now)) out.old result out.new }
{
    let mut codes = [0u8; 255];
    let Ok(count) = gsm7::encode::scan_text(text, &mut codes) else {
        return 0;
    };
    put_message(&text[..0], &codes[..count], out, 0)
}

// The messages of a text: one with no header, or parts with the given reference.
pub fn pack_gsm7_concatenated(
    text: &[u8],
    reference: u8,
    out: &mut [u8],
) -> Result<Concatenated, Refusal>
    ensures { (result, out.new) ≡ lend (concatenating reference text.now) out.old }
{
    let Counted {
        septets,
        parts,
        last,
    } = count_parts(text)?;
    if septets <= 160 {
        if out.len() < 1 + (septets * 7 + 7) / 8 {
            return Err(Refusal::OutputTooShort);
        }
        let octets = put_one(text, out);
        return Ok(Concatenated {
            octets,
            messages: 1,
        });
    }
    if 255 < parts {
        return Err(Refusal::TooManyParts);
    }
    // every part but the last takes TP-UDL and 140 octets
    let full = parts - 1;
    if out.len() < full * 141 + 1 + ((last + 7) * 7 + 7) / 8 {
        return Err(Refusal::OutputTooShort);
    }
    let octets = put_parts(text, reference, parts as u8, out);
    Ok(Concatenated {
        octets,
        messages: parts,
    })
}
