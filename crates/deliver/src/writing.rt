// SMS-DELIVER (TS 23.040 §9.2.2.1), written from its fields' values.
ghost use Rattle.std.specs.Prelude.{◌≡◌, true, ◌+◌, ◌/◌, ◌≤◌, length, Ok, Err};
ghost use Rattle.octets.specs.Lent.{Wrote, lend};
ghost use Rattle.time.specs.Time.{is_time};
ghost use Rattle.address.specs.Writing.{address_making};
ghost use Rattle.address.specs.Internal.{check_of};
ghost use Rattle.deliver.specs.Internal.{octets_in, making};

use address::writing::Number;
use layout::MTI_DELIVER;
use octets::Refusal;

// TP-MTI, and the fields of one octet.
#[derive(Clone, Copy, Debug, PartialEq, Eq)]
pub struct DeliverValues {
    pub mti: u8,
    pub first: u8,
    pub pid: u8,
    pub dcs: u8,
    pub udl: u8,
}

// Writes values that were checked, with the address, the time's digits and the user data; how many octets they take.
#[tactic(auto, using(octets::proofs::Laws::kept_by, time::proofs::Laws::time_size, address::proofs::Checks::fine_size))]
#[inline(always)]
fn put_fields(
    v: DeliverValues,
    number: Number<'_>,
    count: usize,
    digits: &[u8],
    data: &[u8],
    out: &mut [u8],
) -> usize
    requires { (check_of (address_making number.ton number.npi number.text.now) ≡ Ok count) × (is_time digits.now ≡ true) × (13 + (count + 1) / 2 + length «data».now ≤ length out.old) }
    ensures { Wrote 0 (octets_in v number.entry.ton number.entry.npi number.entry.text.now digits.now «data».now) out.old result out.new }
{
    let p1 = octets::put_octet(out, 0, v.first);
    let p2 = address::writing::put_address(number, count, out, p1);
    let p3 = octets::put_octet(out, p2, v.pid);
    let p4 = octets::put_octet(out, p3, v.dcs);
    let p5 = time::encode_time(digits, out, p4);
    let p6 = octets::put_octet(out, p5, v.udl);
    octets::put_octets(out, p6, data)
}

// Writes the values to the start of a lent output: checks in order, then the size, then the octets.
#[tactic(auto, using(address::proofs::Checks::fine_small))]
pub fn encode_fields(
    v: DeliverValues,
    number: Number<'_>,
    digits: &[u8],
    data: &[u8],
    out: &mut [u8],
) -> Result<usize, Refusal>
    ensures { (result, out.new) ≡ lend (making v number.entry.ton number.entry.npi number.entry.text.now digits.now «data».now) out.old }
{
    if v.mti != MTI_DELIVER {
        return Err(Refusal::WrongMessageType);
    }
    coding::check_user_data(v.dcs, v.udl, data.len())?;
    let count = address::writing::check_address(number)?;
    if !time::is_time(digits) {
        return Err(Refusal::NotATime);
    }
    if out.len() < 13 + (count + 1) / 2 + data.len() {
        return Err(Refusal::OutputTooShort);
    }
    Ok(put_fields(v, number, count, digits, data, out))
}
