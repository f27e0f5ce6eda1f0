// The program tpdutool: requests on standard input, a line each, are answered on standard output (docs/REQUESTS.md). It has
// no `Vec` and no `String`: the project has no heap, so memory is fixed, and what an array does not hold is refused by its
// length.
#![tactic(auto)]

mod lines;
mod page;
mod request;

use std::env::{Env, FillError};
use std::io;
use text_fields::slices::first;
use tpdu::ALPHABET_OCTETS;
use wording::refusals::Audience;

// How the program is used.
fn say_usage<R: Print>(rt: &R) -> io::Result<()> {
    rt.write_all(
        b"\
tpdutool         answers requests on standard input, a line each, with a line each
tpdutool show    answers for people, several lines a message
tpdutool page    prints the shift page of the status reports on standard input
tpdutool alphabet
                 prints the default alphabet and its extension table, a line for each code
tpdutool help    says this

deliver HEX, submit HEX, submit-report-ack HEX, submit-report-error HEX,
deliver-report-ack HEX, deliver-report-error HEX, status-report HEX
                             the fields of a message
re-KIND HEX                  a message of one of these kinds, read and written back
enc-KIND key=value ..        the octets of a record: deliver, submit, submit-report,
                             deliver-report, status-report
enc-standard-KIND ..         the same of a report, with the standard's limit of user data
unpack COUNT HEX             the text of so many septets
unpack-header COUNT HEX      the same after a header
pack HEX                     the septets of a text, which is given as UTF-8
pack-header HEX HEX          the same after a header
parts REF HEX                a text as one message, or in parts with this reference
part HEX                     a DELIVER that is a part of a message, kept in the store
take TON NPI HEX REF WIDTH TOTAL
                             a message of the store that is whole, by its sender
drop TON NPI HEX REF WIDTH TOTAL
                             a message leaves the store
empty-store                  all messages leave it
address TON NPI HEX          the octets of an address
coding DCS                   the coding of user data
digits Y M D H M S Z         the digits of a time
elements HEX                 the elements of a header
write-elements II:HEX,..     the header of elements
relay HEX                    the address of the relay layer at the start of octets
relay-write TON NPI HEX      the octets of an address of the relay layer; - - - is none
to-columns HEX HEX ..        the log block of octet strings, by column
from-columns HEX             the octet strings of a log block
page HEX ..                  the shift page of status reports
ucs2-to-gsm7 HEX             the septets of a text, which is given as UCS2
gsm7-to-ucs2 COUNT HEX       the UCS2 of so many septets

docs/REQUESTS.md has the keys and the answers.
",
    )
}

// The default alphabet and its extension table, a line for each code.
fn print_alphabet<R: Print>(rt: &R) -> io::Result<()> {
    let mut lines = [0u8; ALPHABET_OCTETS];
    let n = tpdu::alphabet_lines(&mut lines).unwrap_or_default();
    rt.write_all(first(&lines, n))
}

// Whether there is an argument of this number.
fn has_argument<R: Env>(rt: &R, number: usize) -> bool {
    match rt.arg(number, &mut []) {
        Err(FillError::NotPresent) => false,
        _ => true,
    }
}

// Does what an argument asks for, if no other follows it.
fn run_argument<R: Env + Input + Print>(rt: &R, argument: &[u8]) -> io::Result<()> {
    let is_last = !has_argument(rt, 2);
    if is_last && argument == b"show".as_slice() {
        return lines::answer_requests(rt, Audience::People);
    }
    if is_last && argument == b"page".as_slice() {
        return page::print_page(rt);
    }
    if is_last && argument == b"alphabet".as_slice() {
        return print_alphabet(rt);
    }
    say_usage(rt)
}

// Without an argument it answers requests, with `show` for people; with `page` it prints a page, with `alphabet` the
// alphabet; else it says how it is used.
pub fn run<R: Env + Input + Print>(rt: &R) -> io::Result<()> {
    let mut argument = [0u8; 16];
    match rt.arg(1, &mut argument) {
        Err(FillError::NotPresent) => lines::answer_requests(rt, Audience::Programs),
        Err(FillError::TooLong) => say_usage(rt),
        Ok(n) => run_argument(rt, first(&argument, n)),
    }
}
