// The requests for an address of the relay layer: read, and written.
use crate::fields;
use output::Output;
use request_line::values;
use text_fields::fields::{Fields, field};
use tpdu::{Refusal, RelayAddress};

fn address(out: &mut Output, address: Option<RelayAddress>) {
    match address {
        Some(a) => fields::address(out, a.ton, a.npi, a.address.as_slice()),
        None => out.put(b" ton=- npi=- address=-"),
    }
}

// The address at the start of octets, with the number of octets read.
pub fn read(octets: &[u8], out: &mut Output) -> Result<(), Refusal> {
    let read = RelayAddress::decode(octets)?;
    out.put(b"ok read=");
    out.put_decimal(read.octets_read as u64);
    address(out, read.address);
    Ok(())
}

// Whether a line gives no address to write: all its values are -.
pub fn gives_none(line: &[u8]) -> bool {
    Fields::of(line)
        .skip(1)
        .all(|value| values::absent(value).is_some())
}

// The address that a line gives; none if its values are -.
fn address_in(line: &[u8]) -> Option<RelayAddress> {
    Some(RelayAddress {
        ton: values::number(field(line, 1)?)?,
        npi: values::number(field(line, 2)?)?,
        address: values::held::<508>(field(line, 3)?)?,
    })
}

// The octets of the address that a line gives.
pub fn write(line: &[u8], out: &mut Output) -> Result<(), Refusal> {
    fields::written::<255, _>(out, |lent| RelayAddress::encode(address_in(line), lent))
}
