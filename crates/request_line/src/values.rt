// What a field or the value of a key may hold: numbers, octets, times and validity periods. Each function reads a value,
// and gives none where it has not the form.
ghost use Rattle.std.specs.Prelude.{◌≡◌, ◌↔◌, ◌≤◌, [], ◌∷◌, Some, None, IsSome};

use crate::elements::elements;
use octets::Held;
use output::hexadecimal::{HexError, read_hex};
use text_fields::slices::first;
use tpdu::{RpOutcome, Time};

// How many digits a number may have.
const MOST_DIGITS: usize = 9;

// A decimal number of at most nine digits.
pub fn decimal(text: &[u8]) -> Option<u32> {
    if text.is_empty() || MOST_DIGITS < text.len() {
        return None;
    }
    let mut n = 0u32;
    for c in text {
        let digit = char::from(*c).to_digit(10)?;
        n = n.checked_mul(10)?.checked_add(digit)?;
    }
    Some(n)
}

// Nothing: the value is -.
pub fn absent(value: &[u8]) -> Option<()>
    ensures { IsSome result ↔ value.now ≡ 45 ∷ [] }
{
    (value == b"-".as_slice()).then_some(())
}

// What another function reads of a value, unless it is -.
pub fn optional<T: Copy, F: FnOnce(&[u8]) -> Option<T>>(value: &[u8], read: F) -> Option<Option<T>>
    requires { F.IsAlwaysCallable read }
    ensures { value.now ≡ 45 ∷ [] → result ≡ Some None }
{
    if absent(value).is_some() {
        return Some(None);
    }
    Some(Some(read(value)?))
}

// ---- numbers

pub fn flag(value: &[u8]) -> Option<bool> {
    match value {
        b"0" => Some(false),
        b"1" => Some(true),
        _ => None,
    }
}

// A number to 255.
pub fn number(value: &[u8]) -> Option<u8> {
    u8::try_from(decimal(value)?).ok()
}

pub fn reference(value: &[u8]) -> Option<u16> {
    u16::try_from(decimal(value)?).ok()
}

// How many bits a reference has.
#[derive(Clone, Copy, Debug, PartialEq, Eq)]
pub enum ReferenceWidth {
    Eight,
    Sixteen,
}

pub fn width(value: &[u8]) -> Option<ReferenceWidth> {
    match decimal(value)? {
        8 => Some(ReferenceWidth::Eight),
        16 => Some(ReferenceWidth::Sixteen),
        _ => None,
    }
}

// A number from -128 to 127.
pub fn zone(value: &[u8]) -> Option<i8> {
    let quarters = match value.strip_prefix(b"-") {
        Some(digits) => -i64::from(decimal(digits)?),
        None => i64::from(decimal(value)?),
    };
    i8::try_from(quarters).ok()
}

// The outcome of a report.
pub fn outcome(value: &[u8]) -> Option<RpOutcome> {
    match value {
        b"ack" => Some(RpOutcome::RpAck),
        b"error" => Some(RpOutcome::RpError),
        _ => None,
    }
}

// ---- octets, in hexadecimal: - is none

// Stores the octets of a value if they all fit; how many there are in all.
pub fn octets_if_fit(value: &[u8], room: &mut [u8]) -> Option<usize> {
    let digits = match absent(value) {
        Some(()) => b"",
        None => value,
    };
    match read_hex(digits, room) {
        Ok(n) => Some(n),
        Err(HexError::TooLong) => Some(digits.len() / 2),
        Err(HexError::NotHex) => None,
    }
}

// The same, but stores those that fit.
pub fn octets(value: &[u8], room: &mut [u8]) -> Option<usize> {
    let n = octets_if_fit(value, room)?;
    if room.len() < n {
        let kept = n.min(room.len());
        let _ = read_hex(first(value, 2 * kept), room);
    }
    Some(n)
}

// So many octets, no more and no fewer.
fn octets_exactly<const N: usize>(value: &[u8]) -> Option<[u8; N]> {
    let mut octets = [0u8; N];
    match read_hex(value, &mut octets) {
        Ok(n) if n == N => Some(octets),
        _ => None,
    }
}

pub fn octet(value: &[u8]) -> Option<u8> {
    let [octet] = octets_exactly::<1>(value)?;
    Some(octet)
}

// Octets as a record holds them: those that fit, and how many there are in all.
pub fn held<const N: usize>(value: &[u8]) -> Option<Held<N>>
    requires { N ≤ 65536 }
{
    let mut room = [0u8; N];
    let length = octets(value, &mut room)?;
    Some(Held {
        octets: room,
        length,
    })
}

// ---- times and validity periods

// The digits of a time, those that fit, and how many there are in all. They are any octets, as they stand; after x: they
// are given in hexadecimal.
pub fn time(value: &[u8]) -> Option<Time> {
    if let Some(given) = value.strip_prefix(b"x:") {
        return held::<14>(given);
    }
    let mut digits = [0u8; 14];
    let kept = first(value, 14);
    digits[..kept.len()].copy_from_slice(kept);
    Some(Held {
        octets: digits,
        length: value.len(),
    })
}

// A validity period: - is none.
#[derive(Clone, Copy)]
pub enum GivenPeriod {
    None,
    Relative(u8),
    Absolute(Time),
    Enhanced([u8; 7]),
}

// A validity period: `relative:`, `absolute:` or `enhanced:`, and a value.
pub fn period(value: &[u8]) -> Option<GivenPeriod> {
    if let Some(given) = value.strip_prefix(b"relative:") {
        return octet(given).map(GivenPeriod::Relative);
    }
    if let Some(digits) = value.strip_prefix(b"absolute:") {
        return time(digits).map(GivenPeriod::Absolute);
    }
    if let Some(octets) = value.strip_prefix(b"enhanced:") {
        return octets_exactly::<7>(octets).map(GivenPeriod::Enhanced);
    }
    absent(value)?;
    Some(GivenPeriod::None)
}

// ---- the forms of a value

// What a field or a value is to hold.
#[derive(Clone, Copy, Debug, PartialEq, Eq)]
pub enum Form {
    // anything
    Word,
    Flag,
    // a number to 255
    Number,
    OptionalNumber,
    // a number of up to nine digits
    Count,
    Reference,
    Width,
    Zone,
    Octet,
    OptionalOctet,
    // an octet that is a coding
    Coding,
    Octets,
    Elements,
    Time,
    Period,
    Outcome,
    // nothing: -
    Absent,
}

impl Form {
    // Whether a value has the form.
    pub fn is_met(self, value: &[u8]) -> bool {
        match self {
            Form::Word => true,
            Form::Flag => flag(value).is_some(),
            Form::Number => number(value).is_some(),
            Form::OptionalNumber => optional(value, number).is_some(),
            Form::Count => decimal(value).is_some(),
            Form::Reference => reference(value).is_some(),
            Form::Width => width(value).is_some(),
            Form::Zone => zone(value).is_some(),
            Form::Octet | Form::Coding => octet(value).is_some(),
            Form::OptionalOctet => optional(value, octet).is_some(),
            Form::Octets => octets(value, &mut []).is_some(),
            Form::Elements => elements(value).is_some(),
            Form::Time => time(value).is_some(),
            Form::Period => period(value).is_some(),
            Form::Outcome => outcome(value).is_some(),
            Form::Absent => absent(value).is_some(),
        }
    }
}
