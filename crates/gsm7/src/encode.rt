// GSM 7-bit default alphabet text (TS 23.038 §6.2.1), written: the septets of a text.
ghost use Rattle.std.specs.Prelude.{◌≡◌, ◌+◌, ◌^◌, ◌<◌, ◌≤◌, [], ◌∷◌, length, drop};
ghost use Rattle.octets.specs.Lent.{Wrote};
ghost use Rattle.gsm7.specs.Writing.{code_of, extended_code, two_octets, three_octets, first_character, septets_of};
ghost use Rattle.gsm7.specs.Internal.{entry_code, single_or, escape_says, ScannedAs, AddedAs};

use crate::decode::{EXTENSION, GSM7_ESCAPE};
use octets::Refusal;

// The code of each character below 100 that is in the default alphabet; FF for the others: with entries of `Option<u8>` UCS2 takes a third longer.
pub static CODES: [u8; 256] = [
    0xFF, 0xFF, 0xFF, 0xFF, 0xFF, 0xFF, 0xFF, 0xFF, 0xFF, 0xFF, 0xA, 0xFF, 0xFF, 0xD, 0xFF, 0xFF,
    0xFF, 0xFF, 0xFF, 0xFF, 0xFF, 0xFF, 0xFF, 0xFF, 0xFF, 0xFF, 0xFF, 0xFF, 0xFF, 0xFF, 0xFF, 0xFF,
    0x20, 0x21, 0x22, 0x23, 0x2, 0x25, 0x26, 0x27, 0x28, 0x29, 0x2A, 0x2B, 0x2C, 0x2D, 0x2E, 0x2F,
    0x30, 0x31, 0x32, 0x33, 0x34, 0x35, 0x36, 0x37, 0x38, 0x39, 0x3A, 0x3B, 0x3C, 0x3D, 0x3E, 0x3F,
    0x0, 0x41, 0x42, 0x43, 0x44, 0x45, 0x46, 0x47, 0x48, 0x49, 0x4A, 0x4B, 0x4C, 0x4D, 0x4E, 0x4F,
    0x50, 0x51, 0x52, 0x53, 0x54, 0x55, 0x56, 0x57, 0x58, 0x59, 0x5A, 0xFF, 0xFF, 0xFF, 0xFF, 0x11,
    0xFF, 0x61, 0x62, 0x63, 0x64, 0x65, 0x66, 0x67, 0x68, 0x69, 0x6A, 0x6B, 0x6C, 0x6D, 0x6E, 0x6F,
    0x70, 0x71, 0x72, 0x73, 0x74, 0x75, 0x76, 0x77, 0x78, 0x79, 0x7A, 0xFF, 0xFF, 0xFF, 0xFF, 0xFF,
    0xFF, 0xFF, 0xFF, 0xFF, 0xFF, 0xFF, 0xFF, 0xFF, 0xFF, 0xFF, 0xFF, 0xFF, 0xFF, 0xFF, 0xFF, 0xFF,
    0xFF, 0xFF, 0xFF, 0xFF, 0xFF, 0xFF, 0xFF, 0xFF, 0xFF, 0xFF, 0xFF, 0xFF, 0xFF, 0xFF, 0xFF, 0xFF,
    0xFF, 0x40, 0xFF, 0x1, 0x24, 0x3, 0xFF, 0x5F, 0xFF, 0xFF, 0xFF, 0xFF, 0xFF, 0xFF, 0xFF, 0xFF,
    0xFF, 0xFF, 0xFF, 0xFF, 0xFF, 0xFF, 0xFF, 0xFF, 0xFF, 0xFF, 0xFF, 0xFF, 0xFF, 0xFF, 0xFF, 0x60,
    0xFF, 0xFF, 0xFF, 0xFF, 0x5B, 0xE, 0x1C, 0x9, 0xFF, 0x1F, 0xFF, 0xFF, 0xFF, 0xFF, 0xFF, 0xFF,
    0xFF, 0x5D, 0xFF, 0xFF, 0xFF, 0xFF, 0x5C, 0xFF, 0xB, 0xFF, 0xFF, 0xFF, 0x5E, 0xFF, 0xFF, 0x1E,
    0x7F, 0xFF, 0xFF, 0xFF, 0x7B, 0xF, 0x1D, 0xFF, 0x4, 0x5, 0xFF, 0xFF, 0x7, 0xFF, 0xFF, 0xFF,
    0xFF, 0x7D, 0x8, 0xFF, 0xFF, 0xFF, 0x7C, 0xFF, 0xC, 0x6, 0xFF, 0xFF, 0x7E, 0xFF, 0xFF, 0xFF,
];

// The code of each character from 393 to 3A9, the Greek letters of the default alphabet; FF for the others.
static GREEK_CODES: [u8; 23] = [
    0x13, 0x10, 0xFF, 0xFF, 0xFF, 0x19, 0xFF, 0xFF, 0x14, 0xFF, 0xFF, 0x1A, 0xFF, 0x16, 0xFF, 0xFF,
    0x18, 0xFF, 0xFF, 0x12, 0xFF, 0x17, 0x15,
];

// What an entry of these tables stands for.
fn code_in(entry: u8) -> Option<u8>
    ensures { result ≡ entry_code entry }
{
    (entry < 128).then_some(entry)
}

// The code of a character of the default alphabet; none where it has no such character.
pub fn single_of(c: u16) -> Option<u8>
    ensures { code_of c ≡ single_or result (extended_code c) }
{
    match c {
        0..=0xFF => code_in(CODES[c as usize]),
        0x393..=0x3A9 => code_in(GREEK_CODES[(c - 0x393) as usize]),
        _ => None,
    }
}

// The code of a character of the extension table; none where it has no such character.
fn extended_of(c: u16) -> Option<u8>
    ensures { extended_code c ≡ escape_says result }
{
    EXTENSION
        .iter()
        .find(|row| row.character == c)
        .map(|row| row.code)
}

#[inline(always)]
fn two_octets(a: u16, b: u16) -> Result<(u16, usize), Refusal>
    ensures { result ≡ two_octets a b }
{
    let c = a % 32 * 64 + b % 64;
    if c < 0x80 {
        return Err(Refusal::NotInAlphabet);
    }
    if 128 + c % 64 != b {
        return Err(Refusal::NotInAlphabet);
    }
    if 192 + c / 64 != a {
        return Err(Refusal::NotInAlphabet);
    }
    Ok((c, 2))
}

#[inline(always)]
fn three_octets(a: u16, b: u16, d: u16) -> Result<(u16, usize), Refusal>
    ensures { result ≡ three_octets a b d }
{
    let c = a % 16 * 4096 + b % 64 * 64 + d % 64;
    if c < 0x800 {
        return Err(Refusal::NotInAlphabet);
    }
    if 128 + c % 64 != d {
        return Err(Refusal::NotInAlphabet);
    }
    if 128 + c / 64 % 64 != b {
        return Err(Refusal::NotInAlphabet);
    }
    if 224 + c / 4096 != a {
        return Err(Refusal::NotInAlphabet);
    }
    Ok((c, 3))
}

// The character that starts at `at`.
#[inline(always)]
pub fn character_at(text: &[u8], at: usize) -> Result<(u16, usize), Refusal>
    requires { at < length text.now }
    ensures { result ≡ first_character (drop at text.now) }
{
    let a = text[at] as u16;
    if a < 0x80 {
        return Ok((a, 1));
    }
    let b = septets::octet_or_zero(text, at + 1);
    if a < 0xE0 {
        return two_octets(a, b);
    }
    let d = septets::octet_or_zero(text, at + 2);
    three_octets(a, b, d)
}

// Stores a septet after `count` others, as far as the array goes; their number with it.
pub fn add(codes: &mut [u8; 255], count: usize, code: u8) -> usize
    requires { (count + 1 < 2 ^ 64) × (length codes.old ≡ 255) }
    ensures { Wrote count (code ∷ []) codes.old result codes.new }
{
    if count < 255 {
        codes[count] = code;
        return count + 1;
    }
    count + 1
}

// Stores the septets of a character after `count` others; their number with these, none where it has no septet.
#[inline(always)]
pub fn add_character(codes: &mut [u8; 255], count: usize, c: u16) -> Option<usize>
    requires { (count + 2 < 2 ^ 64) × (length codes.old ≡ 255) }
    ensures { AddedAs (code_of c) count result codes.old codes.new }
{
    if let Some(code) = single_of(c) {
        return Some(add(codes, count, code));
    }
    let code = extended_of(c)?;
    let next = add(codes, count, GSM7_ESCAPE);
    Some(add(codes, next, code))
}

// The septets of a text, counted past the array's end. Three loops add characters: of a text to its end, of a text to a part's
// end (concatenation) and of UCS2; adding one is shared.
pub fn scan_text(text: &[u8], codes: &mut [u8; 255]) -> Result<usize, Refusal>
    requires { length codes.old ≡ 255 }
    ensures { ScannedAs (septets_of text.now) result codes.old codes.new }
{
    let mut count = 0;
    let mut i = 0;
    // A `while`: a character is one to three octets of the text, so no range counts them.
    while i < text.len() {
        // most characters are one octet with one septet: they take the short way, the others the general one
        let octet = text[i];
        if octet < 0x80 {
            if let Some(code) = single_of(octet as u16) {
                count = add(codes, count, code);
                i += 1;
                continue;
            }
        }
        let (c, width) = character_at(text, i)?;
        count = add_character(codes, count, c).ok_or(Refusal::NotInAlphabet)?;
        i += width;
    }
    Ok(count)
}
