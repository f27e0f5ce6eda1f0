// The requests for log blocks by column: octet strings rearranged, and back.
use crate::fields;
use output::Output;
use request_line::values::octets_if_fit;
use text_fields::fields::Fields;
use text_fields::slices::first;
use tpdu::Refusal;

// Stores the strings that a line's fields after the first hold, end to end, and their lengths; how many there are. A
// line holds at most 4,091 of them, and as many octets.
fn strings_of(line: &[u8], octets: &mut [u8], lengths: &mut [usize]) -> usize {
    let mut filled = 0;
    let mut count = 0;
    let values = Fields::of(line).skip(1).zip(lengths.iter_mut());
    for (i, (value, length)) in values.enumerate() {
        let n = octets_if_fit(value, &mut octets[filled..]).unwrap_or(0);
        filled += n.min(octets.len() - filled);
        *length = n;
        count = i + 1;
    }
    count
}

// The block of strings.
pub fn write(line: &[u8], out: &mut Output) -> Result<(), Refusal> {
    let mut octets = [0u8; 4096];
    let mut lengths = [0usize; 4096];
    let count = strings_of(line, &mut octets, &mut lengths);
    let lengths = first(&lengths, count);
    fields::written::<8192, _>(out, |lent| tpdu::to_columns(&octets, lengths, lent))
}

// A string after a space, - where it is empty.
fn put_string(out: &mut Output, string: &[u8]) {
    if string.is_empty() {
        out.put(b" -");
    } else {
        fields::octets(out, b" ", string);
    }
}

// Strings that lie end to end.
fn put_strings(out: &mut Output, octets: &[u8], lengths: &[usize]) {
    let mut rest = octets;
    for length in lengths {
        let string = first(rest, *length);
        put_string(out, string);
        rest = &rest[string.len()..];
    }
}

// The strings of a block. A line holds fewer octets than the strings are lent, and a block at most 1,000 strings.
pub fn read(block: &[u8], out: &mut Output) -> Result<(), Refusal> {
    let mut octets = [0u8; 4096];
    let mut lengths = [0usize; 1000];
    let read = tpdu::from_columns(block, &mut octets, &mut lengths)?;
    out.put(b"ok");
    put_strings(out, &octets, first(&lengths, read.strings));
    Ok(())
}
