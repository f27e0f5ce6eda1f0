// SMS-STATUS-REPORT (TS 23.040 §9.2.2.3), written from its fields' values.
ghost use Rattle.std.specs.Prelude.{◌≡◌, true, ◌+◌, ◌/◌, ◌≤◌, ◌<◌, length, Ok, Err};
ghost use Rattle.octets.specs.Lent.{Wrote, lend};
ghost use Rattle.octets.specs.Checks.{found};
ghost use Rattle.time.specs.Time.{is_time};
ghost use Rattle.address.specs.Writing.{address_making};
ghost use Rattle.address.specs.Internal.{check_of};
ghost use Rattle.status_report.specs.StatusReport.{optional_checks};
ghost use Rattle.status_report.specs.Internal.{parameters_in, optional_size, octets_after, octets_in, making};

use address::writing::Number;
use octets::Refusal;
use parameters::ParameterOctets;

// The fields of one octet, the indicator and the parameters.
#[derive(Clone, Copy, Debug, PartialEq, Eq)]
pub struct StatusReportValues {
    pub first: u8,
    pub mr: u8,
    pub status: u8,
    pub indicator: Option<u8>,
    pub parameters: ParameterOctets,
}

// Whether indicator, parameters and user data go together, and the last keep within a limit.
fn check_optional(limit: usize, v: StatusReportValues, data: &[u8]) -> Result<(), Refusal>
    requires { length «data».now ≤ 255 }
    ensures { result ≡ found (optional_checks limit v.indicator (parameters_in v «data».now)) }
{
    let Some(indicator) = v.indicator else {
        if v.parameters.size(data.len()) != 0 {
            return Err(Refusal::ParametersWithoutIndicator);
        }
        return Ok(());
    };
    v.parameters.check_parameter_indicator(indicator)?;
    v.parameters.check_data(limit, data.len())
}

// Writes what follows the address from `at` on; the place after it.
#[tactic(auto, using(octets::proofs::Laws::kept_by, time::proofs::Laws::time_size))]
fn put_after_address(
    v: StatusReportValues,
    scts: &[u8],
    dt: &[u8],
    data: &[u8],
    out: &mut [u8],
    at: usize,
) -> usize
    requires { (is_time scts.now ≡ true) × (is_time dt.now ≡ true) × (at + 15 + optional_size v (length «data».now) ≤ length out.old) }
    ensures { Wrote at (octets_after v scts.now dt.now «data».now) out.old result out.new }
{
    let p1 = time::encode_time(scts, out, at);
    let p2 = time::encode_time(dt, out, p1);
    let p3 = octets::put_octet(out, p2, v.status);
    let p4 = parameters::put_optional(out, p3, v.indicator);
    v.parameters.put(out, p4, data)
}

// Writes values that were checked; how many octets they take.
#[tactic(auto, using(octets::proofs::Laws::kept_by, address::proofs::Checks::fine_size))]
fn put_fields(
    v: StatusReportValues,
    number: Number<'_>,
    count: usize,
    scts: &[u8],
    dt: &[u8],
    data: &[u8],
    out: &mut [u8],
) -> usize
    requires { (check_of (address_making number.ton number.npi number.text.now) ≡ Ok count) × (is_time scts.now ≡ true) × (is_time dt.now ≡ true) × (19 + (count + 1) / 2 + optional_size v (length «data».now) ≤ length out.old) }
    ensures { Wrote 0 (octets_in v number.entry.ton number.entry.npi number.entry.text.now scts.now dt.now «data».now) out.old result out.new }
{
    let p1 = octets::put_octet(out, 0, v.first);
    let p2 = octets::put_octet(out, p1, v.mr);
    let p3 = address::writing::put_address(number, count, out, p2);
    put_after_address(v, scts, dt, data, out, p3)
}

// Writes the values to the start of a lent output, user data within a limit: checks in order, then the size, then the
// octets.
#[tactic(auto, using(address::proofs::Checks::fine_small))]
pub fn encode_fields(
    limit: usize,
    v: StatusReportValues,
    number: Number<'_>,
    scts: &[u8],
    dt: &[u8],
    data: &[u8],
    out: &mut [u8],
) -> Result<usize, Refusal>
    requires { length «data».now ≤ 255 }
    ensures { (result, out.new) ≡ lend (making limit v number.entry.ton number.entry.npi number.entry.text.now scts.now dt.now «data».now) out.old }
{
    let count = address::writing::check_address(number)?;
    if !time::is_time(scts) {
        return Err(Refusal::NotATime);
    }
    if !time::is_time(dt) {
        return Err(Refusal::NotATime);
    }
    check_optional(limit, v, data)?;
    let size = parameters::octets_held(v.indicator) + v.parameters.size(data.len());
    if out.len() < 19 + (count + 1) / 2 + size {
        return Err(Refusal::OutputTooShort);
    }
    Ok(put_fields(v, number, count, scts, dt, data, out))
}
