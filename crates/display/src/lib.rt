// Messages shown for people: the kind of message, and a line for each field that is there.
#![tactic(auto)]

mod lines;
mod user_data;

use crate::lines::{
    address_line, cause_line, octets_line, reference_line, refused_line, relative_line,
    stand_ins_line, status_line, time_line, words_line,
};
use crate::user_data::{optional_user_data, user_data};
use output::Output;
use request_line::readers::{Reader, read_deliver_report, read_submit_report};
use tpdu::{
    Refusal, RpOutcome, SMSAddress, SmsDeliver, SmsStatusReport, SmsSubmit, Time, ValidityPeriod,
};
use wording::labels::Label;

// ---- messages: the kind and, if its reader gives a record, the fields

// At most 145 are replaced in an address, and 255 in user data.
const MOST_REPLACED: usize = 255;

// A line for the characters that stand in for others: those that the reader counted, and those of the user data, which
// were unpacked to be shown.
fn stand_ins(out: &mut Output, in_data: usize, counted: usize) {
    stand_ins_line(out, in_data.min(MOST_REPLACED) + counted.min(MOST_REPLACED));
}

fn deliver(out: &mut Output, octets: &[u8]) -> Result<(), Refusal> {
    out.put(b"SMS-DELIVER\n");
    let read = SmsDeliver::decode(octets)?;
    let message = read.message;
    address_line(out, Label::From, message.tp_originating_address);
    time_line(out, Label::Time, message.tp_service_centre_timestamp);
    let replaced = user_data(
        out,
        message.tp_udhi,
        message.tp_dcs,
        message.tp_user_data_length,
        message.tp_user_data,
    );
    stand_ins(out, replaced, read.replaced_escapes);
    Ok(())
}

fn destination(out: &mut Output, destination: Option<SMSAddress>) {
    match destination {
        Some(address) => address_line(out, Label::To, address),
        None => words_line(out, Label::To, "no destination"),
    }
}

// No line without a validity period.
fn validity(out: &mut Output, period: ValidityPeriod, time: Time, octets: [u8; 7]) {
    match period {
        ValidityPeriod::None => (),
        ValidityPeriod::Relative(v) => relative_line(out, v),
        ValidityPeriod::Absolute => time_line(out, Label::Valid, time),
        ValidityPeriod::Enhanced => octets_line(out, Label::Valid, &octets),
    }
}

// A line if a status report is requested.
fn report(out: &mut Output, is_requested: bool) {
    if is_requested {
        words_line(out, Label::Report, "requested");
    }
}

// What is shown before the user data of a SUBMIT.
fn before_user_data(out: &mut Output, message: SmsSubmit) {
    destination(out, message.tp_destination_address);
    reference_line(out, message.tp_mr);
    validity(
        out,
        message.tp_validity_period,
        message.validity_period_digits,
        message.validity_period_octets,
    );
    report(out, message.tp_srr);
}

// The reader has counted its user data too.
fn submit(out: &mut Output, octets: &[u8]) -> Result<(), Refusal> {
    out.put(b"SMS-SUBMIT\n");
    let read = tpdu::decode_sms_submit_tpdu(octets)?;
    let message = read.message;
    before_user_data(out, message);
    user_data(
        out,
        message.tp_udhi,
        message.tp_dcs,
        message.tp_user_data_length,
        message.tp_user_data_raw,
    );
    stand_ins_line(out, read.replaced_escapes);
    Ok(())
}

// No line without a cause.
fn cause(out: &mut Output, cause: Option<u8>) {
    if let Some(x) = cause {
        cause_line(out, x);
    }
}

// The heading of a report: its kind, and the outcome that carries it.
fn heading(out: &mut Output, kind: &str, outcome: RpOutcome) {
    out.put_text(kind);
    match outcome {
        RpOutcome::RpAck => out.put(b" (RP-ACK)\n"),
        RpOutcome::RpError => out.put(b" (RP-ERROR)\n"),
    }
}

// The outcome of a report is the one that its record holds; a refusal has no record, and then it is the one that was
// asked for.
fn submit_report(out: &mut Output, octets: &[u8], asked: RpOutcome) -> Result<(), Refusal> {
    let read = read_submit_report(octets, asked);
    let outcome = read.map_or(asked, |read| read.message.rp_outcome);
    heading(out, "SMS-SUBMIT-REPORT", outcome);
    let read = read?;
    let message = read.message;
    cause(out, message.tp_failure_cause);
    time_line(out, Label::Time, message.tp_service_centre_timestamp);
    let replaced = optional_user_data(
        out,
        message.tp_udhi == 1,
        message.tp_dcs,
        message.tp_user_data_length,
        message.tp_user_data,
    );
    stand_ins(out, replaced, read.replaced_escapes);
    Ok(())
}

fn deliver_report(out: &mut Output, octets: &[u8], asked: RpOutcome) -> Result<(), Refusal> {
    let read = read_deliver_report(octets, asked);
    let outcome = read.map_or(asked, |read| read.message.rp_outcome);
    heading(out, "SMS-DELIVER-REPORT", outcome);
    let read = read?;
    let message = read.message;
    cause(out, message.tp_failure_cause);
    let replaced = optional_user_data(
        out,
        message.tp_udhi,
        message.tp_dcs,
        message.tp_user_data_length,
        message.tp_user_data,
    );
    stand_ins(out, replaced, read.replaced_escapes);
    Ok(())
}

// When a message was sent, when it was done with, and how.
fn fate(out: &mut Output, sent: Time, done: Time, status: u8) {
    time_line(out, Label::Sent, sent);
    time_line(out, Label::Done, done);
    status_line(out, status);
}

fn status_report(out: &mut Output, octets: &[u8]) -> Result<(), Refusal> {
    out.put(b"SMS-STATUS-REPORT\n");
    let read = SmsStatusReport::decode(octets)?;
    let message = read.message;
    address_line(out, Label::To, message.tp_recipient_address);
    reference_line(out, message.tp_mr);
    fate(
        out,
        message.tp_service_centre_timestamp,
        message.tp_discharge_time,
        message.tp_status,
    );
    let replaced = optional_user_data(
        out,
        message.tp_udhi,
        message.tp_dcs,
        message.tp_user_data_length,
        message.tp_user_data,
    );
    stand_ins(out, replaced, read.replaced_escapes);
    Ok(())
}

// ---- any message

// A message in several lines; after its kind, why its reader gives no record.
pub fn show_message(reader: Reader, octets: &[u8], out: &mut Output) {
    let shown = match reader {
        Reader::Deliver => deliver(out, octets),
        Reader::Submit => submit(out, octets),
        Reader::SubmitReport(asked) => submit_report(out, octets, asked),
        Reader::DeliverReport(asked) => deliver_report(out, octets, asked),
        Reader::StatusReport => status_report(out, octets),
    };
    if let Err(why) = shown {
        refused_line(out, why);
    }
}
