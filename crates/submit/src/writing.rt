// SMS-SUBMIT (TS 23.040 §9.2.2.2), written from its fields' values.
ghost use Rattle.std.specs.Prelude.{◌≡◌, true, ◌+◌, ◌/◌, ◌≤◌, length, Ok, Err};
ghost use Rattle.octets.specs.Lent.{Wrote, lend};
ghost use Rattle.address.specs.Writing.{address_making};
ghost use Rattle.address.specs.Internal.{check_of};
ghost use Rattle.validity_period.specs.Validity.{format_of, period_size, period_octets, time_holds};
ghost use Rattle.submit.specs.Internal.{parts_in, octets_in, making};

use address::writing::Number;
use layout::MTI_SUBMIT;
use octets::Refusal;
use validity_period::ValidityPeriod;

// TP-MTI, TP-VPF, the fields of one octet, and the validity period.
#[derive(Clone, Copy)]
pub struct SubmitValues {
    pub mti: u8,
    pub vpf: u8,
    pub first: u8,
    pub mr: u8,
    pub pid: u8,
    pub dcs: u8,
    pub period: ValidityPeriod,
    pub udl: u8,
}

// Writes values that were checked, with the address, the digits or octets of the validity period and the user data; how many octets they take.
#[tactic(auto, using(octets::proofs::Laws::kept_by, address::proofs::Checks::fine_size, validity_period::proofs::Period::period_size_lem))]
#[inline(always)]
fn put_fields(
    v: SubmitValues,
    number: Number<'_>,
    count: usize,
    digits: &[u8],
    enhanced: &[u8],
    data: &[u8],
    out: &mut [u8],
) -> usize
    requires { (check_of (address_making number.ton number.npi number.text.now) ≡ Ok count) × (time_holds v.period digits.now ≡ true) × (length enhanced.now ≡ 7) × (7 + (count + 1) / 2 + period_size (format_of v.period) + length «data».now ≤ length out.old) }
    ensures { Wrote 0 (octets_in v number.entry.ton number.entry.npi number.entry.text.now (period_octets v.period digits.now enhanced.now) «data».now) out.old result out.new }
{
    let period = v.period;
    let p1 = octets::put_octet(out, 0, v.first);
    let p2 = octets::put_octet(out, p1, v.mr);
    let p3 = address::writing::put_address(number, count, out, p2);
    let p4 = octets::put_octet(out, p3, v.pid);
    let p5 = octets::put_octet(out, p4, v.dcs);
    let p6 = validity_period::put_period(period, digits, enhanced, out, p5);
    let p7 = octets::put_octet(out, p6, v.udl);
    octets::put_octets(out, p7, data)
}

// Writes the values to the start of a lent output: checks in order, then the size, then the octets.
#[tactic(auto, using(address::proofs::Checks::fine_small))]
pub fn encode_fields(
    v: SubmitValues,
    destination: Option<Number<'_>>,
    digits: &[u8],
    enhanced: [u8; 7],
    data: &[u8],
    out: &mut [u8],
) -> Result<usize, Refusal>
    ensures { (result, out.new) ≡ lend (making v (parts_in destination.entry) digits.now enhanced «data».now) out.old }
{
    let period = v.period;
    if v.mti != MTI_SUBMIT {
        return Err(Refusal::WrongMessageType);
    }
    if v.vpf != period.format() {
        return Err(Refusal::ValidityFormatDisagrees);
    }
    let Some(number) = destination else {
        return Err(Refusal::NoDestination);
    };
    coding::check_user_data(v.dcs, v.udl, data.len())?;
    let count = address::writing::check_address(number)?;
    if !validity_period::check_period(period, digits) {
        return Err(Refusal::NotATime);
    }
    let validity = validity_period::validity_octets(v.vpf);
    if out.len() < 7 + (count + 1) / 2 + validity + data.len() {
        return Err(Refusal::OutputTooShort);
    }
    Ok(put_fields(v, number, count, digits, &enhanced, data, out))
}
