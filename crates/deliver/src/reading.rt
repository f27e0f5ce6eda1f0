// SMS-DELIVER (TS 23.040 §9.2.2.1), its fields found in a string. Each field read is taken apart with let-else, as document 01 has it.
ghost use Rattle.std.specs.Prelude.{◌≡◌, ◌+◌, ◌≤◌, length, drop, IfOk};
ghost use Rattle.layout.specs.Layout.{read_from, kept, cut, address as addressKind};
ghost use Rattle.address.specs.Address.{address_size, canonical_address};
ghost use Rattle.deliver.specs.Layout.{bits, fields};
ghost use Rattle.deliver.specs.Internal.{after_address, after_coding, found_says, Inside};

use layout::MTI_DELIVER;
use octets::{Place, Refusal};

// The fields of one octet, and where the others start: the address, the time, and so many octets of user data.
#[derive(Clone, Copy, Debug, PartialEq, Eq)]
pub struct DeliverFields {
    pub first: u8,
    pub address: usize,
    pub pid: u8,
    pub dcs: u8,
    pub timestamp: usize,
    pub udl: u8,
    pub data: usize,
    pub octets: usize,
}

// What follows TP-DCS.
fn after_coding(
    data: &[u8],
    first: u8,
    address: usize,
    pid: u8,
    dcs: u8,
    place: Place,
) -> Result<DeliverFields, Refusal>
    requires { (address + address_size (drop address «data».now) ≤ length «data».now) × (place.at ≤ length «data».now) }
    ensures { (found_says «data».now result ≡ read_from (after_coding (kept bits first) (canonical_address (cut addressKind (drop address «data».now))) pid dcs) «data».now place.at) × IfOk result (Inside «data».now address) }
{
    let Some((timestamp, place2)) = place.span(data, 7) else {
        return Err(Refusal::OctetsEnd);
    };
    let Some((udl, place3)) = place2.octet(data) else {
        return Err(Refusal::OctetsEnd);
    };
    let octets = coding::user_data_octets(coding::user_data_coding(dcs), udl);
    let Some((start, _)) = place3.span(data, octets) else {
        return Err(Refusal::OctetsEnd);
    };
    Ok(DeliverFields {
        first,
        address,
        pid,
        dcs,
        timestamp,
        udl,
        data: start,
        octets,
    })
}

// What follows the address.
fn after_address(
    data: &[u8],
    first: u8,
    address: usize,
    place: Place,
) -> Result<DeliverFields, Refusal>
    requires { address + address_size (drop address «data».now) ≤ length «data».now }
    ensures { (found_says «data».now result ≡ read_from (after_address (kept bits first) (canonical_address (cut addressKind (drop address «data».now)))) «data».now place.at) × IfOk result (Inside «data».now address) }
{
    let Some((pid, place2)) = place.octet(data) else {
        return Err(Refusal::OctetsEnd);
    };
    let Some((dcs, place3)) = place2.octet(data) else {
        return Err(Refusal::OctetsEnd);
    };
    after_coding(data, first, address, pid, dcs, place3)
}

// The fields of a message.
pub fn fields_of(data: &[u8]) -> Result<DeliverFields, Refusal>
    ensures { (found_says «data».now result ≡ read_from fields «data».now 0) × IfOk result (Inside «data».now 1) }
{
    let start = Place { at: 0 };
    let Some((first, place)) = start.octet(data) else {
        return Err(Refusal::OctetsEnd);
    };
    if first % 4 != MTI_DELIVER {
        return Err(Refusal::WrongMessageType);
    }
    let Some((address, place2)) = address::address_span(data, place) else {
        return Err(Refusal::OctetsEnd);
    };
    after_address(data, first, address, place2)
}
