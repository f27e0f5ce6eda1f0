// Octets as hexadecimal digits, two each: written in lower case, read in either case.
ghost use Rattle.std.specs.Prelude.{◌≡◌, true, [], ◌∷◌, ◌/◌, ◌≤◌, ◌<◌, length};
ghost use Rattle.octets.specs.Lent.{Wrote};
ghost use Rattle.output.specs.Output.{appended};
ghost use Rattle.output.specs.Hexadecimal.{lower_digit, hex_text, digit_value, is_hex_text, octets_of, read_into};

use crate::{Output, SIZE};

// Why a text gives no octets.
#[derive(Clone, Copy)]
pub enum HexError {
    NotHex,
    TooLong,
}

// ---- writing

// The digit of a value below 16; the letters stand 39 characters after the figures.
fn lower_digit(value: u8) -> u8
    requires { value < 16 }
    ensures { result ≡ lower_digit value }
{
    b'0' + value + 39 * (value / 10)
}

impl Output {
    // Octets as hexadecimal.
    pub fn put_hex(&mut self, octets: &[u8])
        ensures { self.new ≡ appended 65536 (hex_text octets.now) self.old }
    {
        if octets.len() <= (SIZE - self.length) / 2 {
            for &octet in octets {
                self.put(&[lower_digit(octet / 16), lower_digit(octet % 16)]);
            }
        }
    }

    // One octet as two digits.
    pub fn put_hex_octet(&mut self, octet: u8)
        ensures { self.new ≡ appended 65536 (hex_text (octet ∷ [])) self.old }
    {
        self.put_hex(&[octet]);
    }
}

// ---- reading

// The value of a digit; none of another character. Through a number, 16 for none, which the compiler works out without a
// branch: figures and letters come in no order, and tests of their ranges make reading a request take half as long again.
#[tactic(auto, unfolding(crate::specs::Hexadecimal::digit_value, time::specs::Time::is_hex, time::specs::Time::hex_value, octets::specs::Choice::within))]
pub fn digit_value(c: u8) -> Option<u8>
    ensures { result ≡ digit_value c }
{
    let is_digit = ((b'0' <= c) & (c <= b'9'))
        | ((b'A' <= c) & (c <= b'F'))
        | ((b'a' <= c) & (c <= b'f'));
    let value = if is_digit { c % 16 + 9 * (c / 64) } else { 16 };
    (value < 16).then_some(value)
}

// Whether a text is an even number of digits.
pub fn is_hex_text(text: &[u8]) -> bool
    ensures { result ≡ is_hex_text text.now }
{
    text.len() % 2 == 0 && text.iter().all(|c| digit_value(*c).is_some())
}

// Stores the octets of an even number of digits from the start of a lent buffer on; their number.
fn put_octets_of(text: &[u8], out: &mut [u8]) -> usize
    requires { (is_hex_text text.now ≡ true) × (length text.now / 2 ≤ length out.old) }
    ensures { Wrote 0 (octets_of text.now) out.old result out.new }
{
    let (pairs, _) = text.as_chunks::<2>();
    // Stored by index: what a `zip` with `iter_mut` leaves behind did not prove.
    for (i, &[first, second]) in pairs.iter().enumerate() {
        let high = digit_value(first).unwrap();
        let low = digit_value(second).unwrap();
        out[i] = 16 * high + low;
    }
    pairs.len()
}

// Reads digits, and stores their octets from the start of a lent buffer on, and how many; an error leaves it as it was.
pub fn read_hex(text: &[u8], out: &mut [u8]) -> Result<usize, HexError>
    ensures { (result, out.new) ≡ read_into text.now out.old }
{
    if !is_hex_text(text) {
        return Err(HexError::NotHex);
    }
    if out.len() < text.len() / 2 {
        return Err(HexError::TooLong);
    }
    Ok(put_octets_of(text, out))
}
