// The requests that name no kind of message: text packed, converted, sent in parts and unpacked, addresses, codings,
// times, header elements, and what else stands in docs/REQUESTS.md after these.
use crate::{blocks, elements, fields, page, relay};
use output::Output;
use request_line::reasons::{Reason, check_fields, check_list};
use request_line::values;
use request_line::values::Form;
use text_fields::fields::field;
use text_fields::slices::first;
use tpdu::{Packed, Refusal, SMSAddress, UserDataCoding};

// ---- the requests

#[derive(Clone, Copy, Debug, PartialEq, Eq)]
pub enum Conversion {
    Unpack,
    UnpackHeader,
    Pack,
    PackHeader,
    Parts,
    Address,
    Coding,
    Digits,
    Elements,
    WriteElements,
    Relay,
    RelayWrite,
    ToColumns,
    FromColumns,
    Page,
    Ucs2ToGsm7,
    Gsm7ToUcs2,
}

// The request with a name.
pub fn conversion_named(name: &[u8]) -> Option<Conversion> {
    Some(match name {
        b"unpack" => Conversion::Unpack,
        b"unpack-header" => Conversion::UnpackHeader,
        b"pack" => Conversion::Pack,
        b"pack-header" => Conversion::PackHeader,
        b"parts" => Conversion::Parts,
        b"address" => Conversion::Address,
        b"coding" => Conversion::Coding,
        b"digits" => Conversion::Digits,
        b"elements" => Conversion::Elements,
        b"write-elements" => Conversion::WriteElements,
        b"relay" => Conversion::Relay,
        b"relay-write" => Conversion::RelayWrite,
        b"to-columns" => Conversion::ToColumns,
        b"from-columns" => Conversion::FromColumns,
        b"page" => Conversion::Page,
        b"ucs2-to-gsm7" => Conversion::Ucs2ToGsm7,
        b"gsm7-to-ucs2" => Conversion::Gsm7ToUcs2,
        _ => return None,
    })
}

// Whether the line of a request is well formed.
pub fn check(request: Conversion, line: &[u8]) -> Result<(), Reason> {
    match request {
        Conversion::Unpack | Conversion::UnpackHeader | Conversion::Gsm7ToUcs2 => {
            check_fields(&[Form::Word, Form::Count, Form::Octets], line)
        }
        Conversion::Pack
        | Conversion::Elements
        | Conversion::Relay
        | Conversion::FromColumns
        | Conversion::Ucs2ToGsm7 => check_fields(&[Form::Word, Form::Octets], line),
        Conversion::PackHeader => check_fields(&[Form::Word, Form::Octets, Form::Octets], line),
        Conversion::Parts => check_fields(&[Form::Word, Form::Octet, Form::Octets], line),
        Conversion::RelayWrite if relay::gives_none(line) => check_fields(
            &[Form::Word, Form::Absent, Form::Absent, Form::Absent],
            line,
        ),
        Conversion::Address | Conversion::RelayWrite => check_fields(
            &[Form::Word, Form::Number, Form::Number, Form::Octets],
            line,
        ),
        Conversion::Coding => check_fields(&[Form::Word, Form::Coding], line),
        Conversion::Digits => check_fields(
            &[
                Form::Word,
                Form::Number,
                Form::Number,
                Form::Number,
                Form::Number,
                Form::Number,
                Form::Number,
                Form::Zone,
            ],
            line,
        ),
        Conversion::WriteElements => check_fields(&[Form::Word, Form::Elements], line),
        Conversion::ToColumns | Conversion::Page => check_list(Form::Octets, line),
    }
}

// ---- text

fn unpack(octets: &[u8], septets: usize, out: &mut Output) -> Result<(), Refusal> {
    let read = tpdu::unpack_gsm7(octets, septets)?;
    fields::octets(out, b"ok text=", read.text.as_slice());
    fields::replaced(out, read.replaced_escapes);
    Ok(())
}

fn unpack_header(octets: &[u8], septets: usize, out: &mut Output) -> Result<(), Refusal> {
    let read = tpdu::unpack_gsm7_with_header(octets, septets)?;
    fields::octets(out, b"ok header=", read.header.as_slice());
    fields::octets(out, b" text=", read.text.as_slice());
    fields::replaced(out, read.replaced_escapes);
    Ok(())
}

// A number after its name, and octets that were written.
fn number_and_octets(out: &mut Output, name: &str, n: usize, octets: &[u8]) {
    out.put_text(name);
    out.put_decimal(n as u64);
    fields::octets(out, b" octets=", octets);
}

// What a packer answers, and the octets that it writes.
fn packed<F: FnOnce(&mut [u8]) -> Result<Packed, Refusal>>(
    out: &mut Output,
    pack: F,
) -> Result<(), Refusal>
    requires { F.IsAlwaysCallable pack }
{
    let mut lent = [0u8; 255];
    let p = pack(&mut lent)?;
    number_and_octets(out, "ok septets=", p.septets, first(&lent, p.octets));
    Ok(())
}

fn pack_header(line: &[u8], octets: &[u8], out: &mut Output) -> Result<(), Refusal> {
    let mut array = [0u8; 4096];
    let n = values::octets(field(line, 1).unwrap_or_default(), &mut array).unwrap_or(0);
    let header = first(&array, n);
    packed(
        out,
        |lent| tpdu::pack_gsm7_with_header(header, octets, lent),
    )
}

// The messages of a text. A line holds at most 4,091 octets of text, which are at most 8,182 septets, in 54 parts.
fn parts(line: &[u8], octets: &[u8], out: &mut Output) -> Result<(), Refusal> {
    let reference = octet(line);
    let mut lent = [0u8; 8192];
    let sent = tpdu::pack_gsm7_concatenated(octets, reference, &mut lent)?;
    number_and_octets(
        out,
        "ok messages=",
        sent.messages,
        first(&lent, sent.octets),
    );
    Ok(())
}

// ---- addresses, codings and times

// The number that a field holds.
fn number(line: &[u8], n: usize) -> u8 {
    values::number(field(line, n).unwrap_or_default()).unwrap_or(0)
}

// The octet that a line's first field after the name holds.
fn octet(line: &[u8]) -> u8 {
    values::octet(field(line, 1).unwrap_or_default()).unwrap_or(0)
}

// The address of a request: type, plan and text.
pub fn address_in(line: &[u8]) -> SMSAddress {
    SMSAddress {
        ton: number(line, 1),
        npi: number(line, 2),
        address: values::held::<290>(field(line, 3).unwrap_or_default()).unwrap_or_default(),
    }
}

fn coding(line: &[u8], out: &mut Output) {
    out.put_text(match tpdu::user_data_coding(octet(line)) {
        UserDataCoding::Gsm7Bit => "ok 7bit",
        UserDataCoding::EightBit => "ok 8bit",
        UserDataCoding::Ucs2 => "ok ucs2",
        UserDataCoding::Compressed => "ok compressed",
    });
}

fn digits(line: &[u8], out: &mut Output) -> Result<(), Refusal> {
    let digits = tpdu::timestamp_digits(
        number(line, 1),
        number(line, 2),
        number(line, 3),
        number(line, 4),
        number(line, 5),
        number(line, 6),
        values::zone(field(line, 7).unwrap_or_default()).unwrap_or(0),
    )?;
    out.put(b"ok ");
    out.put(&digits);
    Ok(())
}

// ---- answers

// The septets that a request counts.
fn count(line: &[u8]) -> usize {
    values::decimal(field(line, 1).unwrap_or_default()).map_or(0, |n| n as usize)
}

// The answer to a request whose last field holds these octets.
pub fn answer(
    request: Conversion,
    line: &[u8],
    octets: &[u8],
    out: &mut Output,
) -> Result<(), Refusal> {
    match request {
        Conversion::Unpack => unpack(octets, count(line), out),
        Conversion::UnpackHeader => unpack_header(octets, count(line), out),
        Conversion::Pack => packed(out, |lent| tpdu::pack_gsm7(octets, lent)),
        Conversion::PackHeader => pack_header(line, octets, out),
        Conversion::Parts => parts(line, octets, out),
        Conversion::Address => {
            fields::written::<255, _>(out, |lent| address_in(line).encode(lent))
        }
        Conversion::Coding => {
            coding(line, out);
            Ok(())
        }
        Conversion::Digits => digits(line, out),
        Conversion::Elements => elements::read(octets, out),
        Conversion::WriteElements => elements::write(field(line, 1).unwrap_or_default(), out),
        Conversion::Relay => relay::read(octets, out),
        Conversion::RelayWrite => relay::write(line, out),
        Conversion::ToColumns => blocks::write(line, out),
        Conversion::FromColumns => blocks::read(octets, out),
        Conversion::Page => page::answer(line, out),
        Conversion::Ucs2ToGsm7 => packed(out, |lent| tpdu::ucs2_to_gsm7(octets, lent)),
        // At most 255 septets are shown, two octets each.
        Conversion::Gsm7ToUcs2 => fields::written::<510, _>(out, |lent| {
            tpdu::gsm7_to_ucs2(octets, count(line), lent)
        }),
    }
}
