// A report's fields written: one way for both kinds.
ghost use Rattle.std.specs.Prelude.{◌≡◌, true, ◌+◌, ◌≤◌, ◌<◌, length, option_copied};
ghost use Rattle.octets.specs.Lent.{Wrote, lend};
ghost use Rattle.parameters.specs.Optional.{held};
ghost use Rattle.report.specs.Report.{octets_of};
ghost use Rattle.report.specs.Internal.{time_if, time_holds, fields_with, making};

use octets::Refusal;
use parameters::ParameterOctets;

// The fields of a report but its time and its user data.
#[derive(Clone, Copy)]
pub struct ReportValues {
    pub mti: u8,
    pub udhi: bool,
    pub cause: Option<u8>,
    pub indicator: u8,
    pub parameters: ParameterOctets,
}

// Writes the time of a report that has one; the place after it.
#[inline(always)]
fn put_time(digits: Option<&[u8]>, out: &mut [u8], at: usize) -> usize
    requires { (time_holds (option_copied digits) ≡ true) × (at + length (time_if (option_copied digits)) ≤ length out.old) }
    ensures { Wrote at (time_if (option_copied digits.entry)) out.old result out.new }
{
    match digits {
        None => at,
        Some(digits) => time::encode_time(digits, out, at),
    }
}

// Writes values that were checked; how many octets they take. Compiled into its callers, as `put_time` and `encode_fields`
// are: a report is written in half the time so.
#[inline(always)]
fn put_fields(v: ReportValues, digits: Option<&[u8]>, data: &[u8], out: &mut [u8]) -> usize
    requires { (v.mti < 4) × (time_holds (option_copied digits) ≡ true) × (2 + held v.cause + length (time_if (option_copied digits)) + (held v.parameters.pid + held v.parameters.dcs + held v.parameters.udl + length «data».now) ≤ length out.old) }
    ensures { Wrote 0 (octets_of v.mti (fields_with v (option_copied digits.entry) «data».now)) out.old result out.new }
{
    let first = layout::first_octet(v.mti, false, v.udhi, false, false, false, false);
    let p1 = octets::put_octet(out, 0, first);
    let p2 = parameters::put_optional(out, p1, v.cause);
    let p3 = octets::put_octet(out, p2, v.indicator);
    let p4 = put_time(digits, out, p3);
    v.parameters.put(out, p4, data)
}

// Whether the time of a report that has one is a time.
fn time_holds(digits: Option<&[u8]>) -> bool
    ensures { result ≡ time_holds (option_copied digits.entry) }
{
    digits.map_or(true, |digits| time::is_time(digits))
}

// Writes the values to the start of a lent output, user data within a limit: checks in order, then the size, then the
// octets.
#[inline(always)]
pub fn encode_fields(
    limit: usize,
    v: ReportValues,
    digits: Option<&[u8]>,
    data: &[u8],
    out: &mut [u8],
) -> Result<usize, Refusal>
    requires { (v.mti < 4) × (length «data».now ≤ 255) }
    ensures { (result, out.new) ≡ lend (making limit v (option_copied digits.entry) «data».now) out.old }
{
    v.parameters.check_parameter_indicator(v.indicator)?;
    if !time_holds(digits) {
        return Err(Refusal::NotATime);
    }
    v.parameters.check_data(limit, data.len())?;
    let size = octets::length_if(digits.is_some(), crate::TIME_OCTETS)
        + v.parameters.size(data.len());
    if out.len() < 2 + parameters::octets_held(v.cause) + size {
        return Err(Refusal::OutputTooShort);
    }
    Ok(put_fields(v, digits, data, out))
}
