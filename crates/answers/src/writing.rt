// The `enc-` and `enc-standard-` requests: a record made of the values of its keys, and what its writer answers.
use crate::fields;
use output::Output;
use request_line::keys::{Key, Kind, Report, value};
use request_line::values::GivenPeriod;
use request_line::{keys, values};
use tpdu::{
    Refusal, RpOutcome, SMSAddress, SmsDeliver, SmsDeliverReport, SmsStatusReport, SmsSubmit,
    SmsSubmitReport, SubmitText, Time, UserData, ValidityPeriod,
};

// ---- the values of keys

fn flag(line: &[u8], key: Key) -> bool {
    values::flag(value(line, key)).unwrap_or(false)
}

fn number(line: &[u8], key: Key) -> u8 {
    values::number(value(line, key)).unwrap_or(0)
}

fn octet(line: &[u8], key: Key) -> u8 {
    values::octet(value(line, key)).unwrap_or(0)
}

// None where the value is -.
fn optional_number(line: &[u8], key: Key) -> Option<u8> {
    values::number(value(line, key))
}

fn optional_octet(line: &[u8], key: Key) -> Option<u8> {
    values::octet(value(line, key))
}

fn outcome(line: &[u8]) -> RpOutcome {
    values::outcome(value(line, Key::Outcome)).unwrap_or(RpOutcome::RpAck)
}

fn time(line: &[u8], key: Key) -> Time {
    values::time(value(line, key)).unwrap_or_default()
}

fn user_data(line: &[u8]) -> UserData {
    values::held::<255>(value(line, Key::Ud)).unwrap_or_default()
}

fn address_of(line: &[u8]) -> SMSAddress {
    SMSAddress {
        ton: number(line, Key::Ton),
        npi: number(line, Key::Npi),
        address: values::held::<290>(value(line, Key::Address)).unwrap_or_default(),
    }
}

// A validity period, with its digits if it is absolute, and with its octets if it is enhanced; else they are none, and
// zeros.
fn period_of(value: &[u8]) -> (ValidityPeriod, Time, [u8; 7]) {
    let none = Time::default();
    match values::period(value) {
        Some(GivenPeriod::Relative(octet)) => (ValidityPeriod::Relative(octet), none, [0; 7]),
        Some(GivenPeriod::Absolute(digits)) => (ValidityPeriod::Absolute, digits, [0; 7]),
        Some(GivenPeriod::Enhanced(octets)) => (ValidityPeriod::Enhanced, none, octets),
        Some(GivenPeriod::None) | None => (ValidityPeriod::None, none, [0; 7]),
    }
}

// ---- records

fn deliver(line: &[u8]) -> SmsDeliver {
    let originator = address_of(line);
    let scts = time(line, Key::Scts);
    let ud = user_data(line);
    SmsDeliver {
        tp_rp: flag(line, Key::Rp),
        tp_udhi: flag(line, Key::Udhi),
        tp_sri: flag(line, Key::Sri),
        tp_lp: flag(line, Key::Lp),
        tp_mms: flag(line, Key::Mms),
        tp_mti: number(line, Key::Mti),
        tp_originating_address: originator,
        tp_pid: octet(line, Key::Pid),
        tp_dcs: octet(line, Key::Dcs),
        tp_service_centre_timestamp: scts,
        tp_user_data_length: number(line, Key::Udl),
        tp_user_data: ud,
    }
}

fn submit(line: &[u8]) -> SmsSubmit {
    let destination = (!keys::no_destination(line)).then_some(address_of(line));
    let (period, digits, octets) = period_of(value(line, Key::Vp));
    let ud = user_data(line);
    SmsSubmit {
        tp_rp: flag(line, Key::Rp),
        tp_udhi: flag(line, Key::Udhi),
        tp_srr: flag(line, Key::Srr),
        tp_mti: number(line, Key::Mti),
        tp_rd: flag(line, Key::Rd),
        tp_vpf: number(line, Key::Vpf),
        tp_mr: octet(line, Key::Mr),
        tp_destination_address: destination,
        tp_pid: octet(line, Key::Pid),
        tp_dcs: octet(line, Key::Dcs),
        tp_validity_period: period,
        validity_period_digits: digits,
        validity_period_octets: octets,
        tp_user_data_length: number(line, Key::Udl),
        tp_user_data_raw: ud,
        tp_user_data_header: None,
        tp_user_data: SubmitText::default(),
    }
}

fn submit_report(line: &[u8]) -> SmsSubmitReport {
    let scts = time(line, Key::Scts);
    let ud = user_data(line);
    SmsSubmitReport {
        tp_udhi: number(line, Key::Udhi),
        tp_failure_cause: optional_octet(line, Key::Fcs),
        tp_parameter_indicator: octet(line, Key::Pi),
        tp_service_centre_timestamp: scts,
        tp_pid: optional_octet(line, Key::Pid),
        tp_dcs: optional_octet(line, Key::Dcs),
        tp_user_data_length: optional_number(line, Key::Udl),
        tp_user_data: ud,
        rp_outcome: outcome(line),
    }
}

fn deliver_report(line: &[u8]) -> SmsDeliverReport {
    let ud = user_data(line);
    SmsDeliverReport {
        tp_udhi: flag(line, Key::Udhi),
        tp_failure_cause: optional_octet(line, Key::Fcs),
        tp_parameter_indicator: octet(line, Key::Pi),
        tp_pid: optional_octet(line, Key::Pid),
        tp_dcs: optional_octet(line, Key::Dcs),
        tp_user_data_length: optional_number(line, Key::Udl),
        tp_user_data: ud,
        rp_outcome: outcome(line),
    }
}

fn status_report(line: &[u8]) -> SmsStatusReport {
    let recipient = address_of(line);
    let scts = time(line, Key::Scts);
    let dt = time(line, Key::Dt);
    let ud = user_data(line);
    SmsStatusReport {
        tp_udhi: flag(line, Key::Udhi),
        tp_srq: flag(line, Key::Srq),
        tp_lp: flag(line, Key::Lp),
        tp_mms: flag(line, Key::Mms),
        tp_mr: octet(line, Key::Mr),
        tp_recipient_address: recipient,
        tp_service_centre_timestamp: scts,
        tp_discharge_time: dt,
        tp_status: octet(line, Key::St),
        tp_parameter_indicator: optional_octet(line, Key::Pi),
        tp_pid: optional_octet(line, Key::Pid),
        tp_dcs: optional_octet(line, Key::Dcs),
        tp_user_data_length: optional_number(line, Key::Udl),
        tp_user_data: ud,
    }
}

// ---- answers

// Writes a record within the published crate's limit of user data.
fn write(kind: Kind, line: &[u8], lent: &mut [u8]) -> Result<usize, Refusal> {
    match kind {
        Kind::Deliver => deliver(line).encode(lent),
        Kind::Submit => submit(line).encode(lent),
        Kind::Report(Report::SubmitReport) => submit_report(line).encode(lent),
        Kind::Report(Report::DeliverReport) => deliver_report(line).encode(lent),
        Kind::Report(Report::StatusReport) => status_report(line).encode(lent),
    }
}

// The answer to a line that gives a record of a kind.
pub fn answer(kind: Kind, line: &[u8], out: &mut Output) -> Result<(), Refusal> {
    fields::written::<255, _>(out, |lent| write(kind, line, lent))
}

// Writes a report within the standard's limit.
fn write_to_standard(report: Report, line: &[u8], lent: &mut [u8]) -> Result<usize, Refusal> {
    match report {
        Report::SubmitReport => submit_report(line).encode_to_standard(lent),
        Report::DeliverReport => deliver_report(line).encode_to_standard(lent),
        Report::StatusReport => status_report(line).encode_to_standard(lent),
    }
}

pub fn answer_to_standard(report: Report, line: &[u8], out: &mut Output) -> Result<(), Refusal> {
    fields::written::<255, _>(out, |lent| write_to_standard(report, line, lent))
}
