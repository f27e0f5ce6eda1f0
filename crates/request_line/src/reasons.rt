// Why a line isn't well formed.
use crate::keys::Key;
use crate::values::Form;
use output::Output;
use std::fmt;
use std::fmt::Write;
use text_fields::fields::Fields;

#[derive(Clone, Copy, Debug, PartialEq, Eq)]
pub enum Reason {
    LineTooLong,
    EmptyLine,
    UnknownRequest,
    NumberOfFields,
    Octets,
    Number,
    Coding,
    UnknownKey,
    KeyGivenTwice,
    ValueOf(Key),
}

impl fmt::Display for Reason {
    fn fmt<W: fmt::Write>(&self, f: &mut fmt::Formatter<W>) -> fmt::Result {
        match self {
            Reason::LineTooLong => f.write_str("line too long"),
            Reason::EmptyLine => f.write_str("empty line"),
            Reason::UnknownRequest => f.write_str("unknown request"),
            Reason::NumberOfFields => f.write_str("number of fields"),
            Reason::Octets => f.write_str("octets"),
            Reason::Number => f.write_str("number"),
            Reason::Coding => f.write_str("coding"),
            Reason::UnknownKey => f.write_str("unknown key"),
            Reason::KeyGivenTwice => f.write_str("key given twice"),
            Reason::ValueOf(key) => {
                let name = key.name();
                write!(f, "value of {name}")
            }
        }
    }
}

// The answer to a line that isn't well formed.
pub fn put_bad(out: &mut Output, reason: Reason) {
    let _ = write!(out, "bad {reason}");
}

// The reason against a field that has not its form.
fn against_form(form: Form) -> Reason {
    match form {
        Form::Octet | Form::OptionalOctet | Form::Octets | Form::Elements => Reason::Octets,
        Form::Coding => Reason::Coding,
        _ => Reason::Number,
    }
}

// Whether the fields of a line have these forms; if not, the reason: their number, or the first field from the left that
// has not its form.
pub fn check_fields(forms: &[Form], line: &[u8]) -> Result<(), Reason> {
    if Fields::of(line).count() != forms.len() {
        return Err(Reason::NumberOfFields);
    }
    for (form, field) in forms.iter().zip(Fields::of(line)) {
        if !form.is_met(field) {
            return Err(against_form(*form));
        }
    }
    Ok(())
}

// The same of a line whose fields after the first, none or more, are to have one form.
pub fn check_list(form: Form, line: &[u8]) -> Result<(), Reason> {
    if Fields::of(line).skip(1).all(|field| form.is_met(field)) {
        Ok(())
    } else {
        Err(against_form(form))
    }
}
