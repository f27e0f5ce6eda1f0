// Text in the output as UTF-8, given as UTF-8 or UTF-16. Control characters are spelled out: a text stays on its line.
#![tactic(auto)]

ghost use Rattle.std.specs.Prelude.{◌≡◌, ◌+◌, ◌*◌, ◌<◌, ◌≤◌, take};
ghost use Rattle.utf16.specs.Characters.{utf8 as utf8_of, character_of, first_character, replacement as theReplacement};

use output::Output;

// A character, and how many octets it took.
#[derive(Clone, Copy, Debug, PartialEq, Eq)]
pub struct Character {
    pub code: char,
    pub size: usize,
}

// The UTF-8 of a character.
fn utf8(c: char, octets: &mut [u8; 4]) -> &[u8]
    ensures { result.now ≡ utf8_of c }
{
    c.encode_utf8(octets).as_bytes()
}

// What stands for a lone surrogate and for a lone octet: U+FFFD.
fn replacement() -> Character
    ensures { result ≡ theReplacement }
{
    Character {
        code: char::REPLACEMENT_CHARACTER,
        size: 2,
    }
}

// The character that two units begin with: both are one if they are a pair of surrogates.
fn character_of(high: u32, low: u32) -> Character
    requires { (high < 65536) × (low < 65536) }
    ensures { (result ≡ character_of high low) × (result.code < 0x110000) × (1 ≤ result.size) × (result.size ≤ 4) }
{
    if let Some(code) = char::from_u32(high) {
        return Character { code, size: 2 };
    }
    if 0xDC00 <= high || low < 0xDC00 || 0xDFFF < low {
        return replacement();
    }
    let pair = 0x10000 + (high - 0xD800) * 0x400 + (low - 0xDC00);
    Character {
        code: char::from_u32(pair).unwrap(),
        size: 4,
    }
}

// A unit of UTF-16: sixteen bits, high octet first.
fn unit(high: u8, low: u8) -> u32
    ensures { (result ≡ high * 256 + low) × (result < 65536) }
{
    u32::from(u16::from_be_bytes([high, low]))
}

// The first character of octets in UTF-16.
fn first_character(octets: &[u8]) -> Character
    ensures { (result ≡ first_character octets.now) × (result.code < 0x110000) × (1 ≤ result.size) × (result.size ≤ 4) }
{
    if octets.len() < 2 {
        return replacement();
    }
    let high = unit(octets[0], octets[1]);
    if octets.len() < 4 {
        return character_of(high, 0);
    }
    character_of(high, unit(octets[2], octets[3]))
}

// ---- text in the output

// How an octet of a text is written.
#[derive(Clone, Copy, Debug, PartialEq, Eq)]
enum Spelling {
    Plain,
    // after a backslash, a letter
    Letter(u8),
    // after a backslash and x, two digits
    Digits,
}

fn spelled(octet: u8) -> Spelling {
    match octet {
        b'\n' => Spelling::Letter(b'n'),
        b'\r' => Spelling::Letter(b'r'),
        0x0C => Spelling::Letter(b'f'),
        b'\\' => Spelling::Letter(b'\\'),
        0..=0x1F | 0x7F => Spelling::Digits,
        _ => Spelling::Plain,
    }
}

// An octet of a text, spelled out if it must be.
fn put_escaped(out: &mut Output, octet: u8) {
    match spelled(octet) {
        Spelling::Plain => out.put(&[octet]),
        Spelling::Letter(letter) => out.put(&[b'\\', letter]),
        Spelling::Digits => {
            out.put(b"\\x");
            out.put_hex_octet(octet);
        }
    }
}

// A text given as UTF-8.
pub fn put_utf8(out: &mut Output, text: &[u8]) {
    for &octet in text {
        put_escaped(out, octet);
    }
}

// A text given as UTF-16, high octets first.
pub fn put_utf16(out: &mut Output, octets: &[u8]) {
    let mut i = 0;
    // A `while`: a character is two octets or four, which it says itself.
    while i < octets.len() {
        let c = first_character(&octets[i..]);
        put_utf8(out, utf8(c.code, &mut [0; 4]));
        i += c.size;
    }
}
