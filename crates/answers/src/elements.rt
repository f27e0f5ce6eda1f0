// The requests for the elements of a header: read as a list, and written from one.
use crate::fields;
use output::Output;
use request_line::elements::elements;
use tpdu::Refusal;
use wording::elements::put_list;

// The elements of a header.
pub fn read(header: &[u8], out: &mut Output) -> Result<(), Refusal> {
    let elements = tpdu::read_header_elements(header)?;
    out.put(b"ok elements=");
    put_list(out, &elements);
    Ok(())
}

// The header of elements.
pub fn write(list: &[u8], out: &mut Output) -> Result<(), Refusal> {
    fields::written::<256, _>(out, |lent| {
        elements(list).map_or(Ok(0), |elements| elements.encode(lent))
    })
}
