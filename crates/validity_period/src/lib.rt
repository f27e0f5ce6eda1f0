// The validity period (TS 23.040 §9.2.3.3, §9.2.3.12).
#![tactic(auto)]

ghost use Rattle.std.specs.Prelude.{◌≡◌, true, ◌+◌, ◌≤◌, length};
ghost use Rattle.octets.specs.Lent.{Wrote};
ghost use Rattle.octets.specs.Arrays.{pad};
ghost use Rattle.time.specs.Time.{time_in};
ghost use Rattle.validity_period.specs.Validity.{format_of, period_in, of_format, period_size, period_octets, time_holds};

use time::Time;

// TP-Validity-Period-Format (TS 23.040 §9.2.3.3). Numbers: a record keeps two bits as it was given them, and the writer
// refuses a format that its period does not have (5).
pub const VALIDITY_PERIOD_FORMAT_NONE: u8 = 0;

pub const VALIDITY_PERIOD_FORMAT_ENHANCED: u8 = 1;

pub const VALIDITY_PERIOD_FORMAT_RELATIVE: u8 = 2;

pub const VALIDITY_PERIOD_FORMAT_ABSOLUTE: u8 = 3;

// TP-Validity-Period (§9.2.3.12). The digits of an absolute one and the seven octets of an enhanced one stand beside it.
#[derive(Clone, Copy, Debug, Default, PartialEq, Eq)]
pub enum ValidityPeriod {
    #[default]
    None,
    Relative(u8),
    Absolute,
    Enhanced,
}

impl ValidityPeriod {
    // The TP-VPF value that announces this format.
    pub fn format(self) -> u8
        ensures { (result ≡ format_of self) × (result ≤ 3) }
    {
        match self {
            ValidityPeriod::None => VALIDITY_PERIOD_FORMAT_NONE,
            ValidityPeriod::Relative(_) => VALIDITY_PERIOD_FORMAT_RELATIVE,
            ValidityPeriod::Absolute => VALIDITY_PERIOD_FORMAT_ABSOLUTE,
            ValidityPeriod::Enhanced => VALIDITY_PERIOD_FORMAT_ENHANCED,
        }
    }
}

// The octets of a validity period in a format.
pub fn validity_octets(format: u8) -> usize
    ensures { (result ≡ period_size format) × (result ≤ 7) }
{
    match format {
        VALIDITY_PERIOD_FORMAT_NONE => 0,
        VALIDITY_PERIOD_FORMAT_RELATIVE => 1,
        _ => 7,
    }
}

// The validity period of octets in a format.
pub fn period_in(format: u8, octets: &[u8]) -> ValidityPeriod
    requires { length octets.now ≡ period_size format }
    ensures { result ≡ period_in format octets.now }
{
    match format {
        VALIDITY_PERIOD_FORMAT_NONE => ValidityPeriod::None,
        VALIDITY_PERIOD_FORMAT_RELATIVE => ValidityPeriod::Relative(octets[0]),
        VALIDITY_PERIOD_FORMAT_ABSOLUTE => ValidityPeriod::Absolute,
        _ => ValidityPeriod::Enhanced,
    }
}

// The digits that stand beside it.
pub fn digits_in(format: u8, octets: &[u8]) -> Time
    requires { length octets.now ≡ period_size format }
    ensures { result ≡ time_in (of_format 3 format octets.now) }
{
    if format != VALIDITY_PERIOD_FORMAT_ABSOLUTE {
        return Time::default();
    }
    time::time_at(octets, 0)
}

// The seven octets that stand beside it.
pub fn enhanced_in(format: u8, octets: &[u8]) -> [u8; 7]
    requires { length octets.now ≡ period_size format }
    ensures { result ≡ pad 7 (of_format 1 format octets.now) }
{
    let mut enhanced = [0u8; 7];
    if format == VALIDITY_PERIOD_FORMAT_ENHANCED {
        octets::put_octets(&mut enhanced, 0, octets);
    }
    enhanced
}

// Whether the digits of a validity period can be written.
pub fn check_period(period: ValidityPeriod, digits: &[u8]) -> bool
    ensures { result ≡ time_holds period digits.now }
{
    match period {
        ValidityPeriod::Absolute => time::is_time(digits),
        ValidityPeriod::None | ValidityPeriod::Relative(_) | ValidityPeriod::Enhanced => true,
    }
}

// Writes a validity period that was checked; the place after it.
pub fn put_period(
    period: ValidityPeriod,
    digits: &[u8],
    enhanced: &[u8],
    out: &mut [u8],
    at: usize,
) -> usize
    requires { (time_holds period digits.now ≡ true) × (length enhanced.now ≡ 7) × (at + period_size (format_of period) ≤ length out.old) }
    ensures { Wrote at (period_octets period digits.now enhanced.now) out.old result out.new }
{
    match period {
        ValidityPeriod::None => at,
        ValidityPeriod::Relative(x) => octets::put_octet(out, at, x),
        ValidityPeriod::Absolute => time::encode_time(digits, out, at),
        ValidityPeriod::Enhanced => octets::put_octets(out, at, enhanced),
    }
}
