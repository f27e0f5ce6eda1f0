// The requests for parts gathered as they come, in the one store that the program keeps.
use crate::conversions::address_in;
use crate::fields;
use output::Output;
use request_line::reasons::{Reason, check_fields};
use request_line::values;
use request_line::values::{Form, ReferenceWidth};
use std::fmt::Write;
use text_fields::fields::field;
use text_fields::slices::first;
use tpdu::{MessageDropped, MessageTaken, Reference, Refusal, SMSAddress};

// The store.
pub type Store = [u8; 37696];

// ---- the requests

#[derive(Clone, Copy, Debug, PartialEq, Eq)]
pub enum StoreRequest {
    EmptyStore,
    Part,
    Take,
    Drop,
}

// The request with a name.
pub fn store_request_named(name: &[u8]) -> Option<StoreRequest> {
    match name {
        b"empty-store" => Some(StoreRequest::EmptyStore),
        b"part" => Some(StoreRequest::Part),
        b"take" => Some(StoreRequest::Take),
        b"drop" => Some(StoreRequest::Drop),
        _ => None,
    }
}

// The reference that a request names; none if it passes its width.
fn reference_in(line: &[u8]) -> Option<Reference> {
    let reference = field(line, 4)?;
    match values::width(field(line, 5)?)? {
        ReferenceWidth::Eight => values::number(reference).map(Reference::Eight),
        ReferenceWidth::Sixteen => values::reference(reference).map(Reference::Sixteen),
    }
}

// The line of a request for a message.
fn check_message(line: &[u8]) -> Result<(), Reason> {
    check_fields(
        &[
            Form::Word,
            Form::Number,
            Form::Number,
            Form::Octets,
            Form::Reference,
            Form::Width,
            Form::Number,
        ],
        line,
    )?;
    reference_in(line).ok_or(Reason::Number)?;
    Ok(())
}

// Whether the line of a request is well formed.
pub fn check(request: StoreRequest, line: &[u8]) -> Result<(), Reason> {
    match request {
        StoreRequest::EmptyStore => check_fields(&[Form::Word], line),
        StoreRequest::Part => check_fields(&[Form::Word, Form::Octets], line),
        StoreRequest::Take | StoreRequest::Drop => check_message(line),
    }
}

// ---- answers

// Empties the store.
fn empty(store: &mut Store, out: &mut Output) -> Result<(), Refusal> {
    tpdu::empty_store(store)?;
    out.put(b"ok");
    Ok(())
}

// A reference and its width.
fn put_reference(out: &mut Output, reference: Reference) {
    let _ = match reference {
        Reference::Eight(r) => write!(out, "ok reference={r} width=8"),
        Reference::Sixteen(r) => write!(out, "ok reference={r} width=16"),
    };
}

// Accepts a part: its numbers, and those that are still missing.
fn part(store: &mut Store, octets: &[u8], out: &mut Output) -> Result<(), Refusal> {
    let accepted = tpdu::accept_part(store, octets)?;
    put_reference(out, accepted.part.reference);
    fields::number(out, b" total=", accepted.part.total);
    fields::number(out, b" number=", accepted.part.number);
    fields::list(out, b" missing=", accepted.missing.as_slice());
    Ok(())
}

// The message that a request names: its sender, its reference and how many parts it has.
fn message_in(line: &[u8]) -> (SMSAddress, Reference, u8) {
    let reference = reference_in(line).unwrap_or(Reference::Eight(0));
    let total = values::number(field(line, 6).unwrap_or_default()).unwrap_or(0);
    (address_in(line), reference, total)
}

// Takes a message.
fn take(store: &mut Store, line: &[u8], out: &mut Output) -> Result<(), Refusal> {
    let (sender, reference, total) = message_in(line);
    let mut lent = [0u8; 4080];
    match tpdu::take_message(store, sender, reference, total, &mut lent)? {
        MessageTaken::Whole(dcs, n) => {
            fields::octet(out, b"ok dcs=", dcs);
            fields::octets(out, b" octets=", first(&lent, n));
        }
        MessageTaken::NotOpen => out.put(b"not open"),
        MessageTaken::NotWhole => out.put(b"not whole"),
    }
    Ok(())
}

// Drops a message.
fn drop(store: &mut Store, line: &[u8], out: &mut Output) -> Result<(), Refusal> {
    let (sender, reference, total) = message_in(line);
    match tpdu::drop_message(store, sender, reference, total)? {
        MessageDropped::Done => out.put(b"ok"),
        MessageDropped::NotOpen => out.put(b"not open"),
    }
    Ok(())
}

// The answer to a request whose last field holds these octets.
pub fn answer(
    request: StoreRequest,
    line: &[u8],
    octets: &[u8],
    store: &mut Store,
    out: &mut Output,
) -> Result<(), Refusal> {
    match request {
        StoreRequest::EmptyStore => empty(store, out),
        StoreRequest::Part => part(store, octets, out),
        StoreRequest::Take => take(store, line, out),
        StoreRequest::Drop => drop(store, line, out),
    }
}
