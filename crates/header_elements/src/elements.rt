// Elements as they lie in the octets of a header after its first: identifier, length, and that many octets.
ghost use Rattle.std.specs.Prelude.{◌≡◌, length};
ghost use Rattle.std.specs.Iterator.{at_most};
ghost use Rattle.header_elements.specs.InOctets.{FirstElement, GivesElement, octets_left};

use octets::Refusal;

// An element of a header.
#[derive(Clone, Copy, Debug, PartialEq, Eq)]
pub struct Element<'a> {
    pub identifier: u8,
    pub value: &'a [u8],
}

// The elements of what is left of a header, from the left; octets that are no whole element are refused.
#[derive(Clone, Debug, Drop)]
pub struct Elements<'a> {
    rest: &'a [u8],
}

// The first element, and the octets after it; none where it is not whole.
fn first_element(octets: &[u8]) -> Option<(Element<'_>, &[u8])>
    ensures { FirstElement octets.now result }
{
    let [identifier, length, rest @ ..] = octets else {
        return None;
    };
    let (value, after) = rest.split_at_checked(*length as usize)?;
    let identifier = *identifier;
    Some((Element { identifier, value }, after))
}

impl<'a> Elements<'a> {
    pub fn of(octets: &'a [u8]) -> Elements<'a>
        ensures { octets_left result ≡ octets.now }
    {
        Elements { rest: octets }
    }
}

impl<'a> Iterator for Elements<'a> {
    type Item = Result<Element<'a>, Refusal>;

    ghost next_gives = { GivesElement };

    ghost remaining = { λ e. at_most (length (octets_left e)) };

    fn next(&mut self) -> Option<Result<Element<'a>, Refusal>> {
        let octets = self.rest;
        if octets.is_empty() {
            return None;
        }
        let Some((element, after)) = first_element(octets) else {
            self.rest = &[];
            return Some(Err(Refusal::ElementPassesHeader));
        };
        self.rest = after;
        Some(Ok(element))
    }
}
