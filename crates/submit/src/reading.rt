// SMS-SUBMIT (TS 23.040 §9.2.2.2), its fields found in a string. Each field read is taken apart with let-else, as document 01 has it.
ghost use Rattle.std.specs.Prelude.{◌≡◌, ◌+◌, ◌≤◌, length, drop};
ghost use Rattle.layout.specs.Layout.{read_from, cut, address as addressKind};
ghost use Rattle.address.specs.Address.{address_size, canonical_address};
ghost use Rattle.submit.specs.Layout.{header_size, fields};
ghost use Rattle.submit.specs.Internal.{after_coding, found_says, Inside};

use layout::MTI_SUBMIT;
use octets::{Place, Refusal};

// The fields of one octet, and where the others start: the address, so many octets of validity, and so many octets of user data, the first `header` of them the header.
#[derive(Clone, Copy, Debug, PartialEq, Eq)]
pub struct SubmitFields {
    pub first: u8,
    pub mr: u8,
    pub address: usize,
    pub pid: u8,
    pub dcs: u8,
    pub validity: usize,
    pub validity_octets: usize,
    pub udl: u8,
    pub data: usize,
    pub octets: usize,
    pub header: usize,
}

// The octets that a header takes; none without TP-UDHI.
#[tactic(auto, unfolding(crate::specs::Layout::header_size))]
fn header_size(udhi: bool, data: &[u8]) -> usize
    ensures { (result ≡ header_size udhi «data».now) × (result ≤ 256) }
{
    octets::length_if(udhi, user_data_header::header_octets(data))
}

// What follows TP-DCS.
#[tactic(auto, using(octets::proofs::Places::span_there))]
fn after_coding(
    data: &[u8],
    first: u8,
    mr: u8,
    address: usize,
    pid: u8,
    dcs: u8,
    place: Place,
) -> Result<SubmitFields, Refusal>
    requires { (address + address_size (drop address «data».now) ≤ length «data».now) × (place.at ≤ length «data».now) }
    ensures { (found_says «data».now result ≡ read_from (after_coding first mr (canonical_address (cut addressKind (drop address «data».now))) pid dcs) «data».now place.at) × Inside «data».now address result }
{
    let validity_octets = validity_period::validity_octets(first / 8 % 4);
    let Some((validity, place2)) = place.span(data, validity_octets) else {
        return Err(Refusal::OctetsEnd);
    };
    let Some((udl, place3)) = place2.octet(data) else {
        return Err(Refusal::OctetsEnd);
    };
    let octets = coding::user_data_octets(coding::user_data_coding(dcs), udl);
    let Some((start, place4)) = place3.span(data, octets) else {
        return Err(Refusal::OctetsEnd);
    };
    let end = place4.at;
    let header = header_size(first / 64 % 2 == 1, &data[start..end]);
    if octets < header {
        return Err(Refusal::HeaderNotWhole);
    }
    if !user_data_header::in_count(coding::user_data_coding(dcs), udl, header) {
        return Err(Refusal::HeaderPassesCount);
    }
    Ok(SubmitFields {
        first,
        mr,
        address,
        pid,
        dcs,
        validity,
        validity_octets,
        udl,
        data: start,
        octets,
        header,
    })
}

// The fields of a message.
pub fn fields_of(data: &[u8]) -> Result<SubmitFields, Refusal>
    ensures { (found_says «data».now result ≡ read_from fields «data».now 0) × Inside «data».now 2 result }
{
    let start = Place { at: 0 };
    let Some((first, place)) = start.octet(data) else {
        return Err(Refusal::OctetsEnd);
    };
    if first % 4 != MTI_SUBMIT {
        return Err(Refusal::WrongMessageType);
    }
    let Some((mr, place2)) = place.octet(data) else {
        return Err(Refusal::OctetsEnd);
    };
    let Some((address, place3)) = address::address_span(data, place2) else {
        return Err(Refusal::OctetsEnd);
    };
    let Some((pid, place4)) = place3.octet(data) else {
        return Err(Refusal::OctetsEnd);
    };
    let Some((dcs, place5)) = place4.octet(data) else {
        return Err(Refusal::OctetsEnd);
    };
    after_coding(data, first, mr, address, pid, dcs, place5)
}
