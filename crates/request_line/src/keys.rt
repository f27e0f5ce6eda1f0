// The keys of an `enc-` request: which a kind of message has, where a line gives them, and the form of each value.
use crate::reasons::Reason;
use crate::values::{Form, absent};
use text_fields::fields::Fields;
use text_fields::slices::find;

// ---- the keys

#[derive(Clone, Copy, Debug, PartialEq, Eq)]
pub enum Key {
    Rp,
    Udhi,
    Sri,
    Lp,
    Mms,
    Srr,
    Rd,
    Srq,
    Mti,
    Vpf,
    Ton,
    Npi,
    Udl,
    Mr,
    Pid,
    Dcs,
    Fcs,
    Pi,
    St,
    Address,
    Scts,
    Dt,
    Vp,
    Ud,
    Outcome,
}

// The keys, in their order.
const KEYS: [Key; 25] = [
    Key::Rp,
    Key::Udhi,
    Key::Sri,
    Key::Lp,
    Key::Mms,
    Key::Srr,
    Key::Rd,
    Key::Srq,
    Key::Mti,
    Key::Vpf,
    Key::Ton,
    Key::Npi,
    Key::Udl,
    Key::Mr,
    Key::Pid,
    Key::Dcs,
    Key::Fcs,
    Key::Pi,
    Key::St,
    Key::Address,
    Key::Scts,
    Key::Dt,
    Key::Vp,
    Key::Ud,
    Key::Outcome,
];

impl Key {
    pub fn name(self) -> &'static str {
        match self {
            Key::Rp => "rp",
            Key::Udhi => "udhi",
            Key::Sri => "sri",
            Key::Lp => "lp",
            Key::Mms => "mms",
            Key::Srr => "srr",
            Key::Rd => "rd",
            Key::Srq => "srq",
            Key::Mti => "mti",
            Key::Vpf => "vpf",
            Key::Ton => "ton",
            Key::Npi => "npi",
            Key::Udl => "udl",
            Key::Mr => "mr",
            Key::Pid => "pid",
            Key::Dcs => "dcs",
            Key::Fcs => "fcs",
            Key::Pi => "pi",
            Key::St => "st",
            Key::Address => "address",
            Key::Scts => "scts",
            Key::Dt => "dt",
            Key::Vp => "vp",
            Key::Ud => "ud",
            Key::Outcome => "outcome",
        }
    }

    fn named(name: &[u8]) -> Option<Key> {
        KEYS.iter()
            .copied()
            .find(|key| key.name().as_bytes() == name)
    }
}

// ---- the kinds of message that can be written

#[derive(Clone, Copy, Debug, PartialEq, Eq)]
pub enum Kind {
    Deliver,
    Submit,
    Report(Report),
}

// Those that the standard holds to another limit of user data.
#[derive(Clone, Copy, Debug, PartialEq, Eq)]
pub enum Report {
    SubmitReport,
    DeliverReport,
    StatusReport,
}

pub fn report_named(name: &[u8]) -> Option<Report> {
    match name {
        b"submit-report" => Some(Report::SubmitReport),
        b"deliver-report" => Some(Report::DeliverReport),
        b"status-report" => Some(Report::StatusReport),
        _ => None,
    }
}

pub fn kind_named(name: &[u8]) -> Option<Kind> {
    match name {
        b"deliver" => Some(Kind::Deliver),
        b"submit" => Some(Kind::Submit),
        _ => report_named(name).map(Kind::Report),
    }
}

// ---- the forms of values: none where a kind has no such key

fn deliver_form(key: Key) -> Option<Form> {
    match key {
        Key::Rp | Key::Udhi | Key::Sri | Key::Lp | Key::Mms => Some(Form::Flag),
        Key::Mti | Key::Ton | Key::Npi | Key::Udl => Some(Form::Number),
        Key::Pid | Key::Dcs => Some(Form::Octet),
        Key::Address | Key::Ud => Some(Form::Octets),
        Key::Scts => Some(Form::Time),
        _ => None,
    }
}

fn submit_form(key: Key) -> Option<Form> {
    match key {
        Key::Rp | Key::Udhi | Key::Srr | Key::Rd => Some(Form::Flag),
        Key::Mti | Key::Vpf | Key::Ton | Key::Npi | Key::Udl => Some(Form::Number),
        Key::Mr | Key::Pid | Key::Dcs => Some(Form::Octet),
        Key::Address | Key::Ud => Some(Form::Octets),
        Key::Vp => Some(Form::Period),
        _ => None,
    }
}

// The same without destination: the values of three keys are -.
fn submit_form_without_destination(key: Key) -> Option<Form> {
    match key {
        Key::Ton | Key::Npi | Key::Address => Some(Form::Absent),
        _ => submit_form(key),
    }
}

fn report_form(report: Report, key: Key) -> Option<Form> {
    match key {
        Key::Udl => Some(Form::OptionalNumber),
        Key::Pid | Key::Dcs => Some(Form::OptionalOctet),
        Key::Ud => Some(Form::Octets),
        _ => match report {
            Report::SubmitReport => submit_report_form(key),
            Report::DeliverReport => deliver_report_form(key),
            Report::StatusReport => status_report_form(key),
        },
    }
}

fn submit_report_form(key: Key) -> Option<Form> {
    match key {
        Key::Udhi => Some(Form::Number),
        Key::Fcs => Some(Form::OptionalOctet),
        Key::Pi => Some(Form::Octet),
        Key::Scts => Some(Form::Time),
        Key::Outcome => Some(Form::Outcome),
        _ => None,
    }
}

fn deliver_report_form(key: Key) -> Option<Form> {
    match key {
        Key::Udhi => Some(Form::Flag),
        Key::Fcs => Some(Form::OptionalOctet),
        Key::Pi => Some(Form::Octet),
        Key::Outcome => Some(Form::Outcome),
        _ => None,
    }
}

fn status_report_form(key: Key) -> Option<Form> {
    match key {
        Key::Udhi | Key::Lp | Key::Mms | Key::Srq => Some(Form::Flag),
        Key::Ton | Key::Npi => Some(Form::Number),
        Key::Mr | Key::St => Some(Form::Octet),
        Key::Pi => Some(Form::OptionalOctet),
        Key::Address => Some(Form::Octets),
        Key::Scts | Key::Dt => Some(Form::Time),
        _ => None,
    }
}

// The form of each key's value, in the order of the keys.
type Forms = [Option<Form>; 25];

// The forms for a line that gives a record of a kind.
fn forms(kind: Kind, line: &[u8]) -> Forms {
    match kind {
        Kind::Deliver => KEYS.map(deliver_form),
        Kind::Submit if no_destination(line) => KEYS.map(submit_form_without_destination),
        Kind::Submit => KEYS.map(submit_form),
        Kind::Report(report) => KEYS.map(|key| report_form(report, key)),
    }
}

// Whether there is such a key.
fn has_key(forms: &Forms, key: Key) -> bool {
    forms[key as usize].is_some()
}

// How many fields a request has: its name, and one for each key.
fn fields_of(forms: &Forms) -> usize {
    1 + forms.iter().filter(|form| form.is_some()).count()
}

// ---- the keys of a line

// The key that a field gives a value.
fn key_of(field: &[u8]) -> Option<Key> {
    let end = find(field, 0, b'=')?;
    Key::named(&field[..end])
}

// The value that a field gives a key; none where it gives that key none. Held against the one name, since to name the key of
// each field for each value takes a request to write half as long again.
fn value_in(field: &[u8], key: Key) -> Option<&[u8]> {
    field
        .strip_prefix(key.name().as_bytes())?
        .strip_prefix(b"=")
}

// The value of a key; no octets if a line has none.
pub fn value(line: &[u8], key: Key) -> &[u8] {
    for field in Fields::of(line) {
        if let Some(value) = value_in(field, key) {
            return value;
        }
    }
    b""
}

// Whether a line gives a SUBMIT without destination: three values are -.
pub fn no_destination(line: &[u8]) -> bool {
    let destination = [Key::Ton, Key::Npi, Key::Address];
    destination
        .iter()
        .all(|key| absent(value(line, *key)).is_some())
}

// ---- whether a line is well formed, or the reason against it

// The key of field i: there is such a key, and it wasn't there before.
fn check_key(forms: &Forms, line: &[u8], i: usize, field: &[u8]) -> Result<(), Reason> {
    let key = key_of(field).ok_or(Reason::UnknownKey)?;
    if !has_key(forms, key) {
        return Err(Reason::UnknownKey);
    }
    if Fields::of(line).position(|other| value_in(other, key).is_some()) != Some(i) {
        return Err(Reason::KeyGivenTwice);
    }
    Ok(())
}

// The keys: their number, and each from the left.
fn check_keys(forms: &Forms, line: &[u8]) -> Result<(), Reason> {
    if Fields::of(line).count() != fields_of(forms) {
        return Err(Reason::NumberOfFields);
    }
    for (i, field) in Fields::of(line).enumerate().skip(1) {
        check_key(forms, line, i, field)?;
    }
    Ok(())
}

// The values, in the order of the keys: each has its form.
fn check_values(forms: &Forms, line: &[u8]) -> Result<(), Reason> {
    for (key, form) in KEYS.iter().zip(forms) {
        if form.is_some_and(|form| !form.is_met(value(line, *key))) {
            return Err(Reason::ValueOf(*key));
        }
    }
    Ok(())
}

// A line that gives a record of a kind.
pub fn check_record(kind: Kind, line: &[u8]) -> Result<(), Reason> {
    let forms = forms(kind, line);
    check_keys(&forms, line)?;
    check_values(&forms, line)
}
