// Times and relative validity periods, as people write them.
ghost use Rattle.std.specs.Prelude.{◌<◌, IfSome};

use output::Output;
use output::hexadecimal::digit_value;
use std::fmt::Write;

// The value of a decimal digit.
fn decimal_digit(c: u8) -> Option<u8>
    ensures { IfSome result (λ d. d < 10) }
{
    match c {
        b'0'..=b'9' => Some(c - b'0'),
        _ => None,
    }
}

// The number of two decimal digits.
fn number(tens: u8, ones: u8) -> Option<u8> {
    Some(decimal_digit(tens)? * 10 + decimal_digit(ones)?)
}

// ---- times: fourteen digits, YYMMDDhhmmssZZ

// The sign of a zone: 8 is added to the first digit of a negative one (TS 23.040 §9.2.3.11).
fn zone_sign(tens: u8) -> char {
    match tens {
        b'0'..=b'7' => '+',
        _ => '-',
    }
}

// The quarters of an hour of a zone, without its sign.
fn zone_quarters(tens: u8, ones: u8) -> Option<u8> {
    Some(digit_value(tens)? % 8 * 10 + decimal_digit(ones)?)
}

// Whether digits begin with a date and a time in the calendar's ranges.
fn is_date_and_time(digits: &[u8; 14]) -> bool {
    let mut values = [0u8; 6];
    for (value, pair) in values.iter_mut().zip(digits.chunks_exact(2)) {
        let Some(n) = number(pair[0], pair[1]) else {
            return false;
        };
        *value = n;
    }
    let [year, month, day, hour, minute, second] = values;
    tpdu::timestamp_digits(year, month, day, hour, minute, second, 0).is_ok()
}

// Date and time: `2024-02-15 12:30:45`. Each pair of digits stands after what separates it from the one before.
fn put_date_and_time(out: &mut Output, digits: &[u8; 14]) {
    let separators = ["20", "-", "-", " ", ":", ":"];
    for (separator, pair) in separators.iter().zip(digits.chunks_exact(2)) {
        out.put_text(separator);
        out.put(pair);
    }
}

// A zone: ` +01:00`.
fn put_zone(out: &mut Output, sign: char, quarters: u8) {
    let hours = quarters / 4;
    let minutes = quarters % 4 * 15;
    let _ = write!(out, " {sign}{hours:02}:{minutes:02}");
}

// A time as `2024-02-15 12:30:45 +00:00`, or its digits as they are.
pub fn put_calendar_time(out: &mut Output, digits: [u8; 14]) {
    match zone_quarters(digits[12], digits[13]) {
        Some(quarters) if is_date_and_time(&digits) => {
            put_date_and_time(out, &digits);
            put_zone(out, zone_sign(digits[12]), quarters);
        }
        _ => {
            out.put(&digits);
            out.put(b" (no calendar time)");
        }
    }
}

// ---- relative validity periods

// A number of units: `1 hour`, `2 days`.
fn put_count(out: &mut Output, n: u64, unit: &str) {
    let ending = if n == 1 { "" } else { "s" };
    let _ = write!(out, "{n} {unit}{ending}");
}

// Minutes as hours and minutes.
fn put_minutes(out: &mut Output, minutes: u64) {
    if minutes < 60 {
        return put_count(out, minutes, "minute");
    }
    put_count(out, minutes / 60, "hour");
    if minutes % 60 != 0 {
        out.put(b" ");
        put_count(out, minutes % 60, "minute");
    }
}

// A period by its octet (TS 23.040 §9.2.3.12.1).
fn put_period_length(out: &mut Output, v: u8) {
    let n = u64::from(v);
    match v {
        0..=143 => put_minutes(out, (n + 1) * 5),
        144..=167 => put_minutes(out, 12 * 60 + (n - 143) * 30),
        168..=196 => put_count(out, n - 166, "day"),
        _ => put_count(out, n - 192, "week"),
    }
}

// A relative validity period: `relative 170 (4 days)`.
pub fn put_relative(out: &mut Output, v: u8) {
    let _ = write!(out, "relative {v} (");
    put_period_length(out, v);
    out.put(b")");
}
