// SMS-STATUS-REPORT (TS 23.040 §9.2.2.3), its fields found in a string. Each field read is taken apart with let-else, as document 01 has it.
ghost use Rattle.std.specs.Prelude.{◌≡◌, ◌+◌, ◌≤◌, length, take, drop, IfOk};
ghost use Rattle.layout.specs.Layout.{read_from, kept, cut, address as addressKind};
ghost use Rattle.address.specs.Address.{address_size, canonical_address};
ghost use Rattle.status_report.specs.Layout.{bits, fields};
ghost use Rattle.status_report.specs.Internal.{fields_with, after_status, after_address, found_says, Inside};

use layout::MTI_STATUS_REPORT;
use octets::{Place, Refusal};
use parameters::ParameterOctets;

// The fields of one octet, and where the others start: the address, the two times, and so many octets of user data.
#[derive(Clone, Copy, Debug, PartialEq, Eq)]
pub struct StatusReportFields {
    pub first: u8,
    pub mr: u8,
    pub address: usize,
    pub timestamp: usize,
    pub discharge: usize,
    pub status: u8,
    pub indicator: Option<u8>,
    pub parameters: ParameterOctets,
    pub data: usize,
    pub octets: usize,
}

// What follows TP-Status: the end, or indicator and parameters.
fn after_status(
    data: &[u8],
    first: u8,
    mr: u8,
    address: usize,
    timestamp: usize,
    discharge: usize,
    status: u8,
    place: Place,
) -> Result<StatusReportFields, Refusal>
    requires { (address + address_size (drop address «data».now) ≤ length «data».now) × (timestamp + 7 ≤ length «data».now) × (discharge + 7 ≤ length «data».now) × (place.at ≤ length «data».now) }
    ensures { (found_says «data».now result ≡ read_from (after_status (fields_with (kept bits first) mr (canonical_address (cut addressKind (drop address «data».now))) (take 7 (drop timestamp «data».now)) (take 7 (drop discharge «data».now)) status)) «data».now place.at) × IfOk result (Inside «data».now address) }
{
    let at = place.at;
    if at >= data.len() {
        return Ok(StatusReportFields {
            first,
            mr,
            address,
            timestamp,
            discharge,
            status,
            indicator: None,
            parameters: ParameterOctets {
                pid: None,
                dcs: None,
                udl: None,
            },
            data: at,
            octets: 0,
        });
    }
    let Some((indicator, next)) = parameters::reading::read_indicator(data, place) else {
        return Err(Refusal::OctetsEnd);
    };
    let Some(read) = parameters::reading::read_parameters(data, next, indicator) else {
        return Err(Refusal::OctetsEnd);
    };
    Ok(StatusReportFields {
        first,
        mr,
        address,
        timestamp,
        discharge,
        status,
        indicator: Some(indicator),
        parameters: read.parameters,
        data: read.next.at - read.octets,
        octets: read.octets,
    })
}

// What follows the address.
fn after_address(
    data: &[u8],
    first: u8,
    mr: u8,
    address: usize,
    place: Place,
) -> Result<StatusReportFields, Refusal>
    requires { (address + address_size (drop address «data».now) ≤ length «data».now) × (place.at ≤ length «data».now) }
    ensures { (found_says «data».now result ≡ read_from (after_address (kept bits first) mr (canonical_address (cut addressKind (drop address «data».now)))) «data».now place.at) × IfOk result (Inside «data».now address) }
{
    let Some((timestamp, place2)) = place.span(data, 7) else {
        return Err(Refusal::OctetsEnd);
    };
    let Some((discharge, place3)) = place2.span(data, 7) else {
        return Err(Refusal::OctetsEnd);
    };
    let Some((status, place4)) = place3.octet(data) else {
        return Err(Refusal::OctetsEnd);
    };
    after_status(
        data, first, mr, address, timestamp, discharge, status, place4,
    )
}

// The fields of a message.
pub fn fields_of(data: &[u8]) -> Result<StatusReportFields, Refusal>
    ensures { (found_says «data».now result ≡ read_from fields «data».now 0) × IfOk result (Inside «data».now 2) }
{
    let start = Place { at: 0 };
    let Some((first, place)) = start.octet(data) else {
        return Err(Refusal::OctetsEnd);
    };
    if first % 4 != MTI_STATUS_REPORT {
        return Err(Refusal::WrongMessageType);
    }
    let Some((mr, place2)) = place.octet(data) else {
        return Err(Refusal::OctetsEnd);
    };
    let Some((address, place3)) = address::address_span(data, place2) else {
        return Err(Refusal::OctetsEnd);
    };
    after_address(data, first, mr, address, place3)
}
