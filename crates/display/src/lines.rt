// The lines in which a message is shown: a label and a value each. Functions are named for what they write.
use output::Output;
use std::fmt::Write;
use tpdu::{Refusal, SMSAddress, Time};
use utf16::{put_utf8, put_utf16};
use wording::calendar::{put_calendar_time, put_relative};
use wording::labels::{Label, put_label};
use wording::meanings::{put_cause, put_coding, put_status};
use wording::refusals::meaning;
use wording::values::{put_octets, put_unless_empty};

// A line: its label, and the value that a closure writes.
fn line<F: FnOnce(&mut Output)>(out: &mut Output, label: Label, value: F)
    requires { F.IsAlwaysCallable value }
{
    put_label(out, label);
    value(out);
    out.put(b"\n");
}

// Words that are always the same.
pub fn words_line(out: &mut Output, label: Label, words: &str) {
    line(out, label, |out| out.put_text(words));
}

// ---- octets and texts

// Octets in hexadecimal.
pub fn octets_line(out: &mut Output, label: Label, octets: &[u8]) {
    line(out, label, |out| put_octets(out, octets));
}

// A text that is given as UTF-8.
pub fn utf8_line(out: &mut Output, text: &[u8]) {
    line(out, Label::Text, |out| {
        put_unless_empty(out, text, put_utf8)
    });
}

// A text that is given as UTF-16.
pub fn utf16_line(out: &mut Output, octets: &[u8]) {
    line(out, Label::Text, |out| {
        put_unless_empty(out, octets, put_utf16)
    });
}

// ---- addresses

const INTERNATIONAL: u8 = 1;

// The text of an address, after a plus if its type is international.
fn put_address(out: &mut Output, ton: u8, text: &[u8]) {
    if ton == INTERNATIONAL {
        out.put(b"+");
    }
    put_utf8(out, text);
}

pub fn address_line(out: &mut Output, label: Label, value: SMSAddress) {
    let text = value.address.as_slice();
    line(out, label, |out| {
        put_unless_empty(out, text, |out, text| put_address(out, value.ton, text))
    });
}

// ---- times and numbers

// No line if the time is absent.
pub fn time_line(out: &mut Output, label: Label, time: Time) {
    if time.length != 0 {
        line(out, label, |out| put_calendar_time(out, time.octets));
    }
}

pub fn relative_line(out: &mut Output, period: u8) {
    line(out, Label::Valid, |out| put_relative(out, period));
}

pub fn reference_line(out: &mut Output, reference: u8) {
    line(
        out,
        Label::Reference,
        |out| out.put_decimal(u64::from(reference)),
    );
}

// ---- what an octet means

pub fn coding_line(out: &mut Output, dcs: u8) {
    line(out, Label::Coding, |out| put_coding(out, dcs));
}

pub fn status_line(out: &mut Output, status: u8) {
    line(out, Label::Status, |out| put_status(out, status));
}

pub fn cause_line(out: &mut Output, cause: u8) {
    line(out, Label::Cause, |out| put_cause(out, cause));
}

// ---- characters that stand in for others

fn put_stand_ins(out: &mut Output, n: usize) {
    let _ = match n {
        1 => write!(out, "1 character stands in for another"),
        _ => write!(out, "{n} characters stand in for others"),
    };
}

// How many characters stand in for others; no line where none does.
pub fn stand_ins_line(out: &mut Output, n: usize) {
    if n != 0 {
        line(out, Label::Note, |out| put_stand_ins(out, n));
    }
}

// ---- refusals

// A refusal's number and meaning: `2 The octets end inside a field`.
fn put_in_words(out: &mut Output, refusal: Refusal) {
    let number = refusal.number();
    let meaning = meaning(refusal);
    let _ = write!(out, "{number} {meaning}");
}

pub fn refused_line(out: &mut Output, refusal: Refusal) {
    line(out, Label::Refused, |out| put_in_words(out, refusal));
}

// Octets, and in parentheses why they can't be read.
fn put_unread(out: &mut Output, octets: &[u8], refusal: Refusal) {
    put_octets(out, octets);
    out.put(b" (");
    put_in_words(out, refusal);
    out.put(b")");
}

// Octets that can't be read, and why.
pub fn unread_line(out: &mut Output, label: Label, octets: &[u8], refusal: Refusal) {
    line(out, label, |out| put_unread(out, octets, refusal));
}
