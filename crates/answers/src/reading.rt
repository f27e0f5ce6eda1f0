// The requests that name a reader: the fields of the record that it gives. Functions are named for what they write.
use crate::fields;
use output::Output;
use request_line::readers::{Reader, read_deliver_report, read_submit_report};
use tpdu::{
    DeliverRead, DeliverReportRead, Refusal, RpOutcome, SMSAddress, SmsDeliver, SmsDeliverReport,
    SmsStatusReport, SmsSubmit, SmsSubmitReport, StatusReportRead, SubmitRead, SubmitReportRead,
    SubmitText, Time, UserData, ValidityPeriod,
};

// ---- fields

fn address(out: &mut Output, a: SMSAddress) {
    fields::address(out, a.ton, a.npi, a.address.as_slice());
}

fn protocol_and_coding(out: &mut Output, pid: u8, dcs: u8) {
    fields::octet(out, b" pid=", pid);
    fields::octet(out, b" dcs=", dcs);
}

fn user_data(out: &mut Output, udl: u8, ud: UserData) {
    fields::number(out, b" udl=", udl);
    fields::user_data(out, b" ud=", ud);
}

fn optional_octet(out: &mut Output, name: &[u8], x: Option<u8>) {
    fields::optional(out, name, x, fields::octet);
}

// The parameters of a report.
fn parameters(out: &mut Output, pid: Option<u8>, dcs: Option<u8>, udl: Option<u8>, ud: UserData) {
    optional_octet(out, b" pid=", pid);
    optional_octet(out, b" dcs=", dcs);
    fields::optional(out, b" udl=", udl, fields::number);
    fields::user_data(out, b" ud=", ud);
}

// ---- records: each function takes what a reader gives

fn time_and_data(out: &mut Output, scts: Time, udl: u8, ud: UserData) {
    fields::time(out, b" scts=", scts);
    user_data(out, udl, ud);
}

fn deliver(out: &mut Output, read: DeliverRead) {
    let m = read.message;
    fields::numbers(
        out,
        &[
            (b"ok rp=", u8::from(m.tp_rp)),
            (b" udhi=", u8::from(m.tp_udhi)),
            (b" sri=", u8::from(m.tp_sri)),
            (b" lp=", u8::from(m.tp_lp)),
            (b" mms=", u8::from(m.tp_mms)),
            (b" mti=", m.tp_mti),
        ],
    );
    address(out, m.tp_originating_address);
    protocol_and_coding(out, m.tp_pid, m.tp_dcs);
    time_and_data(
        out,
        m.tp_service_centre_timestamp,
        m.tp_user_data_length,
        m.tp_user_data,
    );
    fields::replaced(out, read.replaced_escapes);
}

fn period(out: &mut Output, p: ValidityPeriod, time: Time, octets: [u8; 7]) {
    match p {
        ValidityPeriod::None => fields::absent(out, b" vp="),
        ValidityPeriod::Relative(x) => fields::octet(out, b" vp=relative:", x),
        ValidityPeriod::Absolute => fields::time(out, b" vp=absolute:", time),
        ValidityPeriod::Enhanced => fields::octets(out, b" vp=enhanced:", &octets),
    }
}

fn text(out: &mut Output, t: SubmitText) {
    fields::octets(out, b" text=", t.as_slice());
}

// What follows TP-DCS in a SUBMIT.
fn after_coding(out: &mut Output, m: SmsSubmit) {
    period(
        out,
        m.tp_validity_period,
        m.validity_period_digits,
        m.validity_period_octets,
    );
    user_data(out, m.tp_user_data_length, m.tp_user_data_raw);
    fields::optional(out, b" header=", m.tp_user_data_header, fields::user_data);
    text(out, m.tp_user_data);
}

// What stands before TP-PID in a SUBMIT.
fn before_protocol(out: &mut Output, m: SmsSubmit) {
    fields::numbers(
        out,
        &[
            (b" rp=", u8::from(m.tp_rp)),
            (b" udhi=", u8::from(m.tp_udhi)),
            (b" srr=", u8::from(m.tp_srr)),
            (b" vpf=", m.tp_vpf),
            (b" rd=", u8::from(m.tp_rd)),
            (b" mti=", m.tp_mti),
        ],
    );
    fields::octet(out, b" mr=", m.tp_mr);
    if let Some(destination) = m.tp_destination_address {
        address(out, destination);
    }
}

fn octets_read(out: &mut Output, count: usize) {
    out.put(b"ok read=");
    out.put_decimal(count as u64);
}

fn submit(out: &mut Output, read: SubmitRead) {
    let m = read.message;
    octets_read(out, read.octets_read);
    before_protocol(out, m);
    protocol_and_coding(out, m.tp_pid, m.tp_dcs);
    after_coding(out, m);
    fields::replaced(out, read.replaced_escapes);
}

// What stands before the parameters in a report with an outcome, but for a time.
fn report_numbers(out: &mut Output, udhi: u8, fcs: Option<u8>, pi: u8) {
    fields::number(out, b"ok udhi=", udhi);
    optional_octet(out, b" fcs=", fcs);
    fields::octet(out, b" pi=", pi);
}

fn rp_outcome(out: &mut Output, o: RpOutcome) {
    match o {
        RpOutcome::RpAck => out.put(b" outcome=ack"),
        RpOutcome::RpError => out.put(b" outcome=error"),
    }
}

fn submit_report(out: &mut Output, read: SubmitReportRead) {
    let m = read.message;
    report_numbers(out, m.tp_udhi, m.tp_failure_cause, m.tp_parameter_indicator);
    fields::time(out, b" scts=", m.tp_service_centre_timestamp);
    parameters(
        out,
        m.tp_pid,
        m.tp_dcs,
        m.tp_user_data_length,
        m.tp_user_data,
    );
    rp_outcome(out, m.rp_outcome);
    fields::replaced(out, read.replaced_escapes);
}

fn deliver_report(out: &mut Output, read: DeliverReportRead) {
    let m = read.message;
    report_numbers(
        out,
        u8::from(m.tp_udhi),
        m.tp_failure_cause,
        m.tp_parameter_indicator,
    );
    parameters(
        out,
        m.tp_pid,
        m.tp_dcs,
        m.tp_user_data_length,
        m.tp_user_data,
    );
    rp_outcome(out, m.rp_outcome);
    fields::replaced(out, read.replaced_escapes);
}

fn times_and_status(out: &mut Output, scts: Time, dt: Time, st: u8) {
    fields::time(out, b" scts=", scts);
    fields::time(out, b" dt=", dt);
    fields::octet(out, b" st=", st);
}

// What stands before the indicator in a STATUS-REPORT.
fn before_indicator(out: &mut Output, m: SmsStatusReport) {
    fields::numbers(
        out,
        &[
            (b"ok udhi=", u8::from(m.tp_udhi)),
            (b" srq=", u8::from(m.tp_srq)),
            (b" lp=", u8::from(m.tp_lp)),
            (b" mms=", u8::from(m.tp_mms)),
        ],
    );
    fields::octet(out, b" mr=", m.tp_mr);
    address(out, m.tp_recipient_address);
    times_and_status(
        out,
        m.tp_service_centre_timestamp,
        m.tp_discharge_time,
        m.tp_status,
    )
}

fn status_report(out: &mut Output, read: StatusReportRead) {
    let m = read.message;
    before_indicator(out, m);
    optional_octet(out, b" pi=", m.tp_parameter_indicator);
    parameters(
        out,
        m.tp_pid,
        m.tp_dcs,
        m.tp_user_data_length,
        m.tp_user_data,
    );
    fields::replaced(out, read.replaced_escapes);
}

// The answer of a reader.
pub fn answer(reader: Reader, octets: &[u8], out: &mut Output) -> Result<(), Refusal> {
    match reader {
        Reader::Deliver => deliver(out, SmsDeliver::decode(octets)?),
        Reader::Submit => submit(out, tpdu::decode_sms_submit_tpdu(octets)?),
        Reader::SubmitReport(outcome) => submit_report(out, read_submit_report(octets, outcome)?),
        Reader::DeliverReport(outcome) => {
            deliver_report(out, read_deliver_report(octets, outcome)?)
        }
        Reader::StatusReport => status_report(out, SmsStatusReport::decode(octets)?),
    }
    Ok(())
}
