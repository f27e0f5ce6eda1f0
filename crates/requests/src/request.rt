// What a line asks for, and its answer.
use answers::conversions::{Conversion, conversion_named};
use answers::gathering::{Store, StoreRequest, store_request_named};
use answers::{conversions, fields, gathering, reading, writing};
use output::Output;
use request_line::keys::{Kind, Report, kind_named, report_named};
use request_line::readers::{Reader, reader_named};
use request_line::reasons::{Reason, check_fields, put_bad};
use request_line::values::Form;
use request_line::{keys, values};
use text_fields::fields::{Fields, field};
use text_fields::slices::first;
use tpdu::{Refusal, RpOutcome};
use wording::refusals::{Audience, put_refused};

// What a line can ask for: a message read, or read and written back; a record written, within the published crate's
// limit of user data or the standard's; a conversion, or something of the store.
#[derive(Clone, Copy, Debug, PartialEq, Eq)]
enum Request {
    Read(Reader),
    Rewrite(Reader),
    Write(Kind),
    WriteToStandard(Report),
    Convert(Conversion),
    Gather(StoreRequest),
}

fn request_named(name: &[u8]) -> Option<Request> {
    if let Some(report) = name.strip_prefix(b"enc-standard-") {
        return report_named(report).map(Request::WriteToStandard);
    }
    if let Some(kind) = name.strip_prefix(b"enc-") {
        return kind_named(kind).map(Request::Write);
    }
    if let Some(reader) = name.strip_prefix(b"re-") {
        return reader_named(reader).map(Request::Rewrite);
    }
    reader_named(name)
        .map(Request::Read)
        .or(conversion_named(name).map(Request::Convert))
        .or(store_request_named(name).map(Request::Gather))
}

// Whether the line of a request is well formed, or the reason against it.
fn check(request: Request, line: &[u8]) -> Result<(), Reason> {
    match request {
        Request::Read(_) | Request::Rewrite(_) => check_fields(&[Form::Word, Form::Octets], line),
        Request::Write(kind) => keys::check_record(kind, line),
        Request::WriteToStandard(report) => keys::check_record(Kind::Report(report), line),
        Request::Convert(conversion) => conversions::check(conversion, line),
        Request::Gather(of_store) => gathering::check(of_store, line),
    }
}

// The request of a line that is well formed.
fn request_of(line: &[u8]) -> Result<Request, Reason> {
    let name = field(line, 0).ok_or(Reason::EmptyLine)?;
    let request = request_named(name).ok_or(Reason::UnknownRequest)?;
    check(request, line)?;
    Ok(request)
}

// ---- answers

// The program between two lines: the parts that are stored, the answers not yet written out, and whom they are for.
#[derive(Drop)]
pub struct Session {
    pub store: Store,
    pub out: Output,
    pub audience: Audience,
}

impl Session {
    // The store is zeros, which is empty.
    pub fn new(audience: Audience) -> Self {
        Session {
            store: [0u8; 37696],
            out: Output::new(),
            audience,
        }
    }
}

fn answer_read(
    reader: Reader,
    octets: &[u8],
    audience: Audience,
    out: &mut Output,
) -> Result<(), Refusal> {
    match audience {
        Audience::Programs => reading::answer(reader, octets, out),
        Audience::People => {
            display::show_message(reader, octets, out);
            Ok(())
        }
    }
}

// Reads a message and writes it back.
fn rewrite(reader: Reader, octets: &[u8], lent: &mut [u8]) -> Result<usize, Refusal> {
    match reader {
        Reader::Deliver => tpdu::canonical_deliver(octets, lent),
        Reader::Submit => tpdu::canonical_submit(octets, lent),
        Reader::SubmitReport(RpOutcome::RpAck) => tpdu::canonical_submit_report_ack(octets, lent),
        Reader::SubmitReport(RpOutcome::RpError) => {
            tpdu::canonical_submit_report_error(octets, lent)
        }
        Reader::DeliverReport(RpOutcome::RpAck) => tpdu::canonical_deliver_report_ack(octets, lent),
        Reader::DeliverReport(RpOutcome::RpError) => {
            tpdu::canonical_deliver_report_error(octets, lent)
        }
        Reader::StatusReport => tpdu::canonical_status_report(octets, lent),
    }
}

// The answer to a request that is well formed, or the refusal that is the answer.
fn answer_request(request: Request, line: &[u8], session: &mut Session) -> Result<(), Refusal> {
    let mut array = [0u8; 4096];
    let last = Fields::of(line).last().unwrap_or_default();
    let n = values::octets(last, &mut array).unwrap_or(0);
    let octets = first(&array, n);
    let out = &mut session.out;
    match request {
        Request::Read(reader) => answer_read(reader, octets, session.audience, out),
        Request::Rewrite(reader) => {
            fields::written::<255, _>(out, |lent| rewrite(reader, octets, lent))
        }
        Request::Write(kind) => writing::answer(kind, line, out),
        Request::WriteToStandard(report) => writing::answer_to_standard(report, line, out),
        Request::Convert(conversion) => conversions::answer(conversion, line, octets, out),
        Request::Gather(of_store) => {
            gathering::answer(of_store, line, octets, &mut session.store, out)
        }
    }
}

// The answer to a line, without its end.
pub fn answer(line: &[u8], session: &mut Session) {
    match request_of(line) {
        Ok(request) => {
            if let Err(why) = answer_request(request, line, session) {
                put_refused(&mut session.out, why, session.audience);
            }
        }
        Err(reason) => put_bad(&mut session.out, reason),
    }
}
