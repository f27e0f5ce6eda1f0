// The elements of a user data header (TS 23.040 §9.2.3.24): as a list, or for people in a line each, with what parts and
// ports say.
use crate::labels::{Label, put_label};
use crate::values::put_octets;
use output::Output;
use std::fmt::Write;
use text_fields::slices::first;
use tpdu::HeaderElements;

// ---- what an element says

// A part of a concatenated message, whose reference has 8 or 16 bits.
const PART_8: u8 = 0x00;

const PART_16: u8 = 0x08;

// The ports of applications, of 8 or 16 bits.
const PORTS_8: u8 = 0x04;

const PORTS_16: u8 = 0x05;

fn put_part(out: &mut Output, reference: u16, total: u8, number: u8) {
    let _ = write!(out, "part {number} of {total}, reference {reference}");
}

fn put_ports(out: &mut Output, destination: u16, originator: u16) {
    let _ = write!(
        out,
        "destination port {destination}, originator port {originator}"
    );
}

// The value of an element: in words for a part and for ports, if it has their length; else in hexadecimal.
fn put_value(out: &mut Output, identifier: u8, value: &[u8]) {
    match (identifier, value) {
        (PORTS_8, &[d, o]) => put_ports(out, u16::from(d), u16::from(o)),
        (PART_8, &[reference, total, number]) => {
            put_part(out, u16::from(reference), total, number)
        }
        (PORTS_16, &[d0, d1, o0, o1]) => {
            put_ports(
                out,
                u16::from_be_bytes([d0, d1]),
                u16::from_be_bytes([o0, o1]),
            )
        }
        (PART_16, &[r0, r1, total, number]) => {
            put_part(out, u16::from_be_bytes([r0, r1]), total, number)
        }
        _ => put_octets(out, value),
    }
}

// An element as a line: `  element   00 part 1 of 2, reference 7`.
fn put_line(out: &mut Output, identifier: u8, value: &[u8]) {
    put_label(out, Label::Element);
    let _ = write!(out, "{identifier:02x} ");
    put_value(out, identifier, value);
    out.put(b"\n");
}

// An element in a list: `00:070201`.
fn put_item(out: &mut Output, identifier: u8, value: &[u8]) {
    let _ = write!(out, "{identifier:02x}:");
    out.put_hex(value);
}

// Does something with each element, from the first.
fn each_element<F: FnMut(u8, &[u8])>(elements: &HeaderElements, mut put: F)
    requires { F.IsAlwaysCallable put }
{
    let mut rest = elements.octets.as_slice();
    let listed = elements.identifiers.iter().zip(&elements.lengths);
    for (identifier, length) in listed.take(elements.count) {
        let value = first(rest, usize::from(*length));
        rest = &rest[value.len()..];
        put(*identifier, value);
    }
}

// The elements for people, in lines.
pub fn put_lines(out: &mut Output, elements: &HeaderElements) {
    each_element(elements, |identifier, value| {
        put_line(out, identifier, value)
    });
}

// The elements with commas between.
pub fn put_list(out: &mut Output, elements: &HeaderElements) {
    let mut separator = "";
    each_element(elements, |identifier, value| {
        out.put_text(separator);
        put_item(out, identifier, value);
        separator = ",";
    });
}
