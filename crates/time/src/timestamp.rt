// A time from its calendar values and zone (TS 23.040 §9.2.3.11).
ghost use Rattle.std.specs.Prelude.{◌≡◌, [], ◌∷◌, ◌≤◌, nat_abs};
ghost use Rattle.time.specs.Internal.{decimal_octet};
ghost use Rattle.time.specs.Time.{time_digits};
ghost use Rattle.time.specs.Timestamp.{in_calendar, zone_sign, timestamp};

use octets::Refusal;

// Every calendar value is in its range.
fn in_calendar(year: u8, month: u8, day: u8, hour: u8, minute: u8, second: u8) -> bool
    ensures { result ≡ in_calendar year month day hour minute second }
{
    (year <= 99)
        & ((1 <= month) & (month <= 12))
        & ((1 <= day) & (day <= 31))
        & (hour <= 23)
        & (minute <= 59)
        & (second <= 59)
}

// A zone without its sign.
fn quarter_hours(zone: i8) -> u8
    ensures { result ≡ nat_abs zone }
{
    if zone < 0 {
        -(zone as i16) as u8
    } else {
        zone as u8
    }
}

// Bit 3 of the seventh octet says that the zone is negative.
const NEGATIVE: u8 = 8;

// The sign of a zone.
fn zone_sign(zone: i8) -> u8
    ensures { (result ≡ zone_sign zone) × (result ≤ 8) }
{
    octets::flag(zone < 0, NEGATIVE)
}

// The octet whose digits are the two decimal digits of a value.
fn decimal_octet(value: u8) -> u8
    ensures { result ≡ decimal_octet value }
{
    value / 10 + 16 * (value % 10)
}

// The digits of six values, two decimal digits each, and of the octet of a zone.
fn digits_of(year: u8, month: u8, day: u8, hour: u8, minute: u8, second: u8, zone: u8) -> [u8; 14]
    ensures { result ≡ time_digits (decimal_octet year ∷ decimal_octet month ∷ decimal_octet day ∷ decimal_octet hour ∷ decimal_octet minute ∷ decimal_octet second ∷ zone ∷ []) }
{
    let octets = [
        decimal_octet(year),
        decimal_octet(month),
        decimal_octet(day),
        decimal_octet(hour),
        decimal_octet(minute),
        decimal_octet(second),
        zone,
    ];
    crate::decode_time(&octets, 0)
}

// The fourteen digits of a time from its calendar values and zone: two decimal digits each, and the sign of the zone in its first digit.
// Seven values, as the Rust takes them.
pub fn timestamp_digits(
    year: u8,
    month: u8,
    day: u8,
    hour: u8,
    minute: u8,
    second: u8,
    time_zone_quarter_hours: i8,
) -> Result<[u8; 14], Refusal>
    ensures { result ≡ timestamp year month day hour minute second time_zone_quarter_hours }
{
    if !in_calendar(year, month, day, hour, minute, second) {
        return Err(Refusal::CalendarOutOfRange);
    }
    let quarters = quarter_hours(time_zone_quarter_hours);
    if 79 < quarters {
        return Err(Refusal::ZoneOutOfRange);
    }
    let zone = decimal_octet(quarters) + zone_sign(time_zone_quarter_hours);
    Ok(digits_of(year, month, day, hour, minute, second, zone))
}
