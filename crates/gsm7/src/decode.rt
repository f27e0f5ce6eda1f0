// GSM 7-bit default alphabet text (TS 23.038 §6.2.1), read: the two tables, and the text of septets.
ghost use Rattle.std.specs.Prelude.{◌≡◌, ℕ, ◌+◌, ◌%◌, ◌<◌, ◌≤◌, List, [], ◌∷◌, length, get_or};
ghost use Rattle.octets.specs.Lent.{Wrote};
ghost use Rattle.gsm7.specs.Alphabet.{extension, row, character, extension_character};
ghost use Rattle.septets.specs.Septets.{septets_in, in_window};
ghost use Rattle.gsm7.specs.Internal.{plain, four_plain, four_characters, written_by, shown_by};
ghost use Rattle.gsm7.specs.Reading.{utf8, text_of, replaced_in, text_given, counted, unpacked};

use octets::{Held, Refusal};
use septets::BitPlace;

pub const GSM7_ESCAPE: u8 = 0x1B;

// The default alphabet (TS 23.038 §6.2.1), as code points. The escape reads as a space (NOTE 1).
pub static ALPHABET: [u16; 128] = [
    0x40, 0xA3, 0x24, 0xA5, 0xE8, 0xE9, 0xF9, 0xEC, 0xF2, 0xC7, 0xA, 0xD8, 0xF8, 0xD, 0xC5, 0xE5,
    0x394, 0x5F, 0x3A6, 0x393, 0x39B, 0x3A9, 0x3A0, 0x3A8, 0x3A3, 0x398, 0x39E, 0x20, 0xC6, 0xE6,
    0xDF, 0xC9, 0x20, 0x21, 0x22, 0x23, 0xA4, 0x25, 0x26, 0x27, 0x28, 0x29, 0x2A, 0x2B, 0x2C, 0x2D,
    0x2E, 0x2F, 0x30, 0x31, 0x32, 0x33, 0x34, 0x35, 0x36, 0x37, 0x38, 0x39, 0x3A, 0x3B, 0x3C, 0x3D,
    0x3E, 0x3F, 0xA1, 0x41, 0x42, 0x43, 0x44, 0x45, 0x46, 0x47, 0x48, 0x49, 0x4A, 0x4B, 0x4C, 0x4D,
    0x4E, 0x4F, 0x50, 0x51, 0x52, 0x53, 0x54, 0x55, 0x56, 0x57, 0x58, 0x59, 0x5A, 0xC4, 0xD6, 0xD1,
    0xDC, 0xA7, 0xBF, 0x61, 0x62, 0x63, 0x64, 0x65, 0x66, 0x67, 0x68, 0x69, 0x6A, 0x6B, 0x6C, 0x6D,
    0x6E, 0x6F, 0x70, 0x71, 0x72, 0x73, 0x74, 0x75, 0x76, 0x77, 0x78, 0x79, 0x7A, 0xE4, 0xF6, 0xF1,
    0xFC, 0xE0,
];

// A row of the extension table: what follows the escape, and the character.
#[derive(Clone, Copy, Debug, PartialEq, Eq)]
pub struct Extension {
    pub code: u8,
    pub character: u16,
}

// The extension table (TS 23.038 §6.2.1.1).
pub static EXTENSION: [Extension; 10] = [
    Extension {
        code: 0x0A,
        character: 0x0C,
    },
    Extension {
        code: 0x14,
        character: 0x5E,
    },
    Extension {
        code: 0x28,
        character: 0x7B,
    },
    Extension {
        code: 0x29,
        character: 0x7D,
    },
    Extension {
        code: 0x2F,
        character: 0x5C,
    },
    Extension {
        code: 0x3C,
        character: 0x5B,
    },
    Extension {
        code: 0x3D,
        character: 0x7E,
    },
    Extension {
        code: 0x3E,
        character: 0x5D,
    },
    Extension {
        code: 0x40,
        character: 0x7C,
    },
    Extension {
        code: 0x65,
        character: 0x20AC,
    },
];

// The text of counted septets, and the number of escapes in them that led to no character of the extension table.
#[derive(Clone, Copy, Debug)]
pub struct Unpacked {
    pub text: Held<510>,
    pub replaced_escapes: usize,
}

// No text. By hand: an edit plants a wrong body.
impl Default for Unpacked {
    ghost is_default = { λ u. u ≡ text_given [] 0 };

    #[tactic(auto, unfolding(crate::specs::Reading::text_given, octets::specs::Held::holding))]
    fn default() -> Self {
        Unpacked {
            text: Held::default(),
            replaced_escapes: 0,
        }
    }
}

// Text that was written: the place after it, and the number of escapes in it that led to no character of the extension table.
#[derive(Clone, Copy, Debug, PartialEq, Eq)]
pub struct TextPut {
    pub end: usize,
    pub replaced: usize,
}

// The row at a place of the extension table.
pub fn extension_row(place: usize) -> Extension
    requires { place < 10 }
    ensures { result ≡ get_or extension place (row 0 0) }
{
    EXTENSION[place]
}

// The character of a code of the default alphabet.
#[tactic(auto, unfolding(crate::specs::Alphabet::character))]
pub fn default_character(code: u8) -> u16
    requires { code < 128 }
    ensures { result ≡ character code }
{
    ALPHABET[code as usize]
}

// The character of a code of the extension table; none where the table has no such code.
#[inline(always)]
pub fn escaped_character(code: u8) -> Option<u16>
    ensures { result ≡ extension_character code }
{
    for row in &EXTENSION {
        if row.code == code {
            return Some(row.character);
        }
    }
    None
}

// The character of a septet of a window.
pub fn character_in(window: u64, index: usize) -> u16
    requires { index < 8 }
    ensures { result ≡ character (in_window window index) }
{
    default_character(septets::septet_in(window, index))
}

// Whether a septet of a window is no escape, and its character takes one octet.
#[tactic(auto, unfolding(crate::specs::Internal::plain))]
fn is_plain(window: u64, index: usize) -> bool
    requires { index < 8 }
    ensures { result ≡ plain (in_window window index) }
{
    (septets::septet_in(window, index) != GSM7_ESCAPE) & (character_in(window, index) < 0x80)
}

// Whether the first four septets of a window are so.
pub fn four_plain(window: u64) -> bool
    ensures { result ≡ four_plain window }
{
    is_plain(window, 0) & is_plain(window, 1) & is_plain(window, 2) & is_plain(window, 3)
}

// Writes an octet at `at` and the last octet of a character's UTF-8 after it; the place after them.
fn put_two(text: &mut [u8], at: usize, octet: u8, c: u16) -> usize
    requires { at + 2 ≤ length text.old }
    ensures { Wrote at (octet ∷ (128 + c % 64) ∷ []) text.old result text.new }
{
    text[at] = octet;
    text[at + 1] = (128 + c % 64) as u8;
    at + 2
}

// How the characters of septets are written.
pub trait Form {
    ghost form: { ℕ → List ℕ };

    // Writes the octets of a character at `at`; the place after them.
    fn put(text: &mut [u8], at: usize, c: u16) -> usize
        requires { at + length (form c) ≤ length text.old }
        ensures { Wrote at (form c) text.old result text.new };
}

pub struct Utf8;

impl Form for Utf8 {
    ghost form = { utf8 };

    fn put(text: &mut [u8], at: usize, c: u16) -> usize {
        if c < 0x80 {
            text[at] = c as u8;
            return at + 1;
        }
        if c < 0x800 {
            return put_two(text, at, (192 + c / 64) as u8, c);
        }
        text[at] = (224 + c / 4096) as u8;
        put_two(text, at + 1, (128 + c / 64 % 64) as u8, c)
    }
}

// Writes the characters of the first four septets of a window at `at`; the place after them.
fn put_four<F: Form>(window: u64, text: &mut [u8], at: usize) -> usize
    requires { at + length (written_by F.form (four_characters window)) ≤ length text.old }
    ensures { Wrote at (written_by F.form (four_characters window)) text.old result text.new }
{
    let a = F::put(text, at, character_in(window, 0));
    let b = F::put(text, a, character_in(window, 1));
    let c = F::put(text, b, character_in(window, 2));
    F::put(text, c, character_in(window, 3))
}

// Writes the characters of the counted septets, from `fill` bits into the octets, at `at`. What follows an escape that is the last septet counted is not looked at.
pub fn put_characters<F: Form>(
    data: &[u8],
    fill: usize,
    septets: usize,
    text: &mut [u8],
    at: usize,
) -> TextPut
    requires { (fill < 8) × (septets ≤ 255) × (at + length (shown_by F.form (septets_in «data».now fill septets)) ≤ length text.old) }
    ensures { Wrote at (shown_by F.form (septets_in «data».now fill septets)) text.old result.end text.new × (result.replaced ≡ replaced_in (septets_in «data».now fill septets)) }
{
    let mut end = at;
    let mut replaced = 0;
    let mut consumed = 0;
    let mut place = BitPlace {
        octet: 0,
        shift: fill,
    };
    // A `while`: one, two or four septets a turn, and left early at a last escape, as document 01 says.
    while consumed < septets {
        let window = place.window(data);
        let code = septets::septet_in(window, 0);
        if code == GSM7_ESCAPE {
            if consumed + 1 == septets {
                end = F::put(text, end, 0x20);
                replaced += 1;
                break;
            }
            let next = septets::septet_in(window, 1);
            let extended = escaped_character(next);
            end = F::put(text, end, extended.unwrap_or(default_character(next)));
            replaced += extended.is_none() as usize;
            place = place.next().next();
            consumed += 2;
        } else if (consumed + 4 <= septets) & four_plain(window) {
            end = put_four::<F>(window, text, end);
            place = place.after_four();
            consumed += 4;
        } else {
            end = F::put(text, end, default_character(code));
            place = place.next();
            consumed += 1;
        }
    }
    TextPut { end, replaced }
}

// Writes the text of the counted septets, from `fill` bits into the octets, at `at`.
pub fn unpack_septets(
    data: &[u8],
    fill: usize,
    septets: usize,
    text: &mut [u8],
    at: usize,
) -> TextPut
    requires { (fill < 8) × (septets ≤ 255) × (at + length (text_of (septets_in «data».now fill septets)) ≤ length text.old) }
    ensures { Wrote at (text_of (septets_in «data».now fill septets)) text.old result.end text.new × (result.replaced ≡ replaced_in (septets_in «data».now fill septets)) }
{
    put_characters::<Utf8>(data, fill, septets, text, at)
}

// The text of counted septets that are all there.
fn whole_text(data: &[u8], septets: usize) -> Unpacked
    requires { septets ≤ 255 }
    ensures { result ≡ text_given (text_of (septets_in «data».now 0 septets)) (replaced_in (septets_in «data».now 0 septets)) }
{
    let mut text = [0u8; 510];
    let put = unpack_septets(data, 0, septets, &mut text, 0);
    Unpacked {
        text: Held {
            octets: text,
            length: put.end,
        },
        replaced_escapes: put.replaced,
    }
}

// Whether a count of septets is at most 255, and the octets hold them all.
pub fn check_count(data: &[u8], septets: usize) -> Result<(), Refusal>
    ensures { result ≡ counted «data».now septets }
{
    if 255 < septets {
        return Err(Refusal::LengthTooLarge);
    }
    if data.len() < septets::octet_count(0, septets) {
        return Err(Refusal::TooFewOctets);
    }
    Ok(())
}

// The text of exactly `septets` septets.
pub fn unpack_gsm7(data: &[u8], septets: usize) -> Result<Unpacked, Refusal>
    ensures { result ≡ unpacked «data».now 0 septets }
{
    check_count(data, septets)?;
    Ok(whole_text(data, septets))
}
