// The elements of a header in a request: an identifier, a colon and octets each, with commas between; - is none.
use crate::values::{absent, octet, octets_if_fit};
use tpdu::HeaderElements;

// The identifier of an element, and the digits of its octets.
fn parts(element: &[u8]) -> Option<(u8, &[u8])> {
    let (identifier, rest) = element.split_at_checked(2)?;
    Some((octet(identifier)?, rest.strip_prefix(b":")?))
}

// The elements of a value. Those that the arrays do not hold are counted too, and a length is 255 at most: the writer
// then refuses with 25.
pub fn elements(value: &[u8]) -> Option<HeaderElements> {
    let mut identifiers = [0u8; 127];
    let mut lengths = [0u8; 127];
    let mut octets = [0u8; 253];
    let mut count = 0;
    let mut filled = 0;
    let mut list = value.split(|c| *c == b',');
    // - is no element
    if absent(value).is_some() {
        list.next();
    }
    for (i, element) in list.enumerate() {
        let (identifier, digits) = parts(element)?;
        let n = octets_if_fit(digits, &mut octets[filled..])?;
        if i < 127 {
            identifiers[i] = identifier;
            lengths[i] = n.min(255) as u8;
        }
        filled += n.min(253 - filled);
        count = i + 1;
    }
    Some(HeaderElements {
        count,
        identifiers,
        lengths,
        octets,
    })
}
