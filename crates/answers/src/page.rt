// The request for the shift page of status reports.
use crate::fields;
use output::Output;
use request_line::values;
use text_fields::fields::Fields;
use text_fields::slices::first;
use tpdu::{Refusal, SmsStatusReport};

// Reads the status report that a field holds in hexadecimal.
pub fn read_report(value: &[u8]) -> Result<SmsStatusReport, Refusal> {
    let mut octets = [0u8; 4096];
    let n = values::octets(value, &mut octets).unwrap_or(0);
    Ok(SmsStatusReport::decode(first(&octets, n))?.message)
}

// The page of the status reports that the fields after the name hold.
pub fn answer(line: &[u8], out: &mut Output) -> Result<(), Refusal> {
    let count = Fields::of(line).skip(1).count();
    let mut reports = [SmsStatusReport::default(); 100];
    if count < reports.len() {
        for (report, value) in reports.iter_mut().zip(Fields::of(line).skip(1)) {
            *report = read_report(value)?;
        }
    }
    let given = reports.get(..count).unwrap_or(&reports);
    fields::written::<3939, _>(out, |lent| tpdu::shift_page(given, lent))
}
