// User data shown: the coding, the header with its elements if there is one, and the text, or the data as they are.
use crate::lines::{coding_line, octets_line, unread_line, utf8_line, utf16_line};
use output::Output;
use tpdu::{Refusal, UserData, UserDataCoding};
use wording::elements::put_lines;
use wording::labels::Label;

// ---- headers

// A header in hexadecimal, and a line for each of its elements, or why it has none that can be read.
fn header_lines(out: &mut Output, header: &[u8]) {
    match tpdu::read_header_elements(header) {
        Ok(elements) => {
            octets_line(out, Label::Header, header);
            put_lines(out, &elements);
        }
        Err(why) => unread_line(out, Label::Header, header, why),
    }
}

// ---- 7-bit coding: each gives how many escapes were replaced in the text

fn septets(out: &mut Output, udl: u8, data: &[u8]) -> Result<usize, Refusal> {
    let read = tpdu::unpack_gsm7(data, usize::from(udl))?;
    utf8_line(out, read.text.as_slice());
    Ok(read.replaced_escapes)
}

fn header_and_septets(out: &mut Output, udl: u8, data: &[u8]) -> Result<usize, Refusal> {
    let read = tpdu::unpack_gsm7_with_header(data, usize::from(udl))?;
    header_lines(out, read.header.as_slice());
    utf8_line(out, read.text.as_slice());
    Ok(read.replaced_escapes)
}

// ---- other codings

// Text if the coding is UCS2, else data.
fn whole_octets(out: &mut Output, coding: UserDataCoding, data: &[u8]) {
    match coding {
        UserDataCoding::Ucs2 => utf16_line(out, data),
        _ => octets_line(out, Label::Data, data),
    }
}

// The header, which its first octet counts, and what is after it; the data as they are if the header doesn't fit.
fn header_and_octets(out: &mut Output, coding: UserDataCoding, data: &[u8]) {
    let size = data.first().map_or(0, |length| usize::from(*length) + 1);
    if size == 0 || data.len() < size {
        return octets_line(out, Label::Data, data);
    }
    let (header, text) = data.split_at(size);
    header_lines(out, header);
    whole_octets(out, coding, text);
}

// ---- any coding

// The header, if there is one, and the text or data; how many escapes were replaced in the text.
fn header_and_text(
    out: &mut Output,
    udhi: bool,
    coding: UserDataCoding,
    udl: u8,
    data: &[u8],
) -> Result<usize, Refusal> {
    match (coding, udhi) {
        (UserDataCoding::Gsm7Bit, true) => return header_and_septets(out, udl, data),
        (UserDataCoding::Gsm7Bit, false) => return septets(out, udl, data),
        (_, true) => header_and_octets(out, coding, data),
        (_, false) => whole_octets(out, coding, data),
    }
    Ok(0)
}

// The coding, and what is in the data, or the data that their text can't be read from; how many escapes were replaced in
// their text.
pub fn user_data(out: &mut Output, udhi: bool, dcs: u8, udl: u8, data: UserData) -> usize {
    coding_line(out, dcs);
    let octets = data.as_slice();
    match header_and_text(out, udhi, tpdu::user_data_coding(dcs), udl, octets) {
        Ok(replaced) => replaced,
        Err(why) => {
            unread_line(out, Label::Data, octets, why);
            0
        }
    }
}

// The user data of a report; without TP-UDL, the coding alone, if it is held. No TP-DCS means 0.
pub fn optional_user_data(
    out: &mut Output,
    udhi: bool,
    dcs: Option<u8>,
    udl: Option<u8>,
    data: UserData,
) -> usize {
    match udl {
        Some(n) => user_data(out, udhi, dcs.unwrap_or(0), n, data),
        None => {
            if let Some(dcs) = dcs {
                coding_line(out, dcs);
            }
            0
        }
    }
}
