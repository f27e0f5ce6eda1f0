// Times (TS 23.040 §9.2.3.11): fourteen digits and seven octets.
#![tactic(auto)]

pub mod timestamp;

ghost use Rattle.std.specs.Prelude.{◌≡◌, true, ◌+◌, ◌≤◌, ◌<◌, length, take, drop};
ghost use Rattle.octets.specs.Lent.{Wrote};
ghost use Rattle.time.specs.Time.{hex_digit, is_hex, hex_value, time_digits, time_in, time_octets, is_time};

use octets::Held;

// A time as a record holds it: digits.
pub type Time = Held<14>;

// The capital hexadecimal digit of a value below 16; the letters stand 7 characters after the figures.
pub fn hex_digit(value: u8) -> u8
    requires { value < 16 }
    ensures { result ≡ hex_digit value }
{
    b'0' + value + 7 * (value / 10)
}

// A hexadecimal digit, either case.
fn is_hex(c: u8) -> bool
    ensures { result ≡ is_hex c }
{
    ((b'0' <= c) & (c <= b'9')) | ((b'A' <= c) & (c <= b'F')) | ((b'a' <= c) & (c <= b'f'))
}

// The value of a hexadecimal digit, either case: the low half of its octet, and 9 more for a letter.
fn hex_value(c: u8) -> u8
    requires { is_hex c ≡ true }
    ensures { (result ≡ hex_value c) × (result < 16) }
{
    c % 16 + 9 * (c / 64)
}

// Fourteen hexadecimal digits, either case.
pub fn is_time(digits: &[u8]) -> bool
    ensures { result ≡ is_time digits.now }
{
    digits.len() == 14 && digits.iter().all(|c| is_hex(*c))
}

// Writes the seven octets of a time from `at` on; the place after them.
#[inline(always)]
pub fn encode_time(digits: &[u8], out: &mut [u8], at: usize) -> usize
    requires { (is_time digits.now ≡ true) × (at + 7 ≤ length out.old) }
    ensures { Wrote at (time_octets digits.now) out.old result out.new }
{
    // With their number seven, which is known in compiling: without it writing a report with a time takes half as long again.
    let (pairs, _) = digits[..14].as_chunks::<2>();
    // By place: octets from `at` on and pairs of digits, zipped, would name the same seven places twice.
    for (i, &[first, second]) in pairs.iter().enumerate() {
        out[at + i] = hex_value(first) + 16 * hex_value(second);
    }
    at + 7
}

// The fourteen digits of the seven octets from `at` on, as capitals.
pub fn decode_time(data: &[u8], at: usize) -> [u8; 14]
    requires { at + 7 ≤ length «data».now }
    ensures { result ≡ time_digits (take 7 (drop at «data».now)) }
{
    let mut digits = [0u8; 14];
    // By place: an octet gives two digits; chunks would leave the same two writes.
    for (i, octet) in data[at..at + 7].iter().enumerate() {
        digits[2 * i] = hex_digit(octet % 16);
        digits[2 * i + 1] = hex_digit(octet / 16);
    }
    digits
}

// The time of the seven octets from `at` on.
pub fn time_at(data: &[u8], at: usize) -> Time
    requires { at + 7 ≤ length «data».now }
    ensures { result ≡ time_in (take 7 (drop at «data».now)) }
{
    Time {
        octets: decode_time(data, at),
        length: 14,
    }
}
