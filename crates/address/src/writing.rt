// Addresses (TS 23.040 §9.1.2.5), written from type of number, plan and text.
ghost use Rattle.std.specs.Prelude.{◌≡◌, [], map, ◌+◌, ◌/◌, ◌≤◌, length, get_or, Ok, Err};
ghost use Rattle.std.specs.Bool.{then_some};
ghost use Rattle.octets.specs.Each.{each};
ghost use Rattle.octets.specs.Lent.{Wrote, lend};
ghost use Rattle.octets.specs.SemiOctets.{in_pairs};
ghost use Rattle.septets.specs.Septets.{octet_count, packed_septets};
ghost use Rattle.gsm7.specs.Writing.{septets_of};
ghost use Rattle.address.specs.Writing.{digit_value, is_digit, address_octets, octets_or, text_field, limited, address_making};
ghost use Rattle.address.specs.Internal.{check_of, Spells, septets_or};

use octets::Refusal;

// A number, as its field is: a record keeps three bits as it was given them.
pub const TYPE_OF_NUMBER_ALPHANUMERIC: u8 = 5;

// Type of number, numbering plan, and digits or text, as an address field carries them (§9.1.2.5).
#[derive(Clone, Copy, Debug, PartialEq, Eq)]
pub struct Number<'a> {
    pub ton: u8,
    pub npi: u8,
    pub text: &'a [u8],
}

// The semi-octet of a character; none for one that is no digit.
fn semi_octet_from_character(character: u8) -> Option<u8>
    ensures { result ≡ then_some (is_digit character) (digit_value character) }
{
    match character {
        b'0'..=b'9' => Some(character - b'0'),
        b'*' => Some(0xA),
        b'#' => Some(0xB),
        b'a'..=b'c' => Some(character - b'a' + 0xC),
        _ => None,
    }
}

// A digit, *, #, a, b or c.
fn is_digit(character: u8) -> bool
    ensures { result ≡ is_digit character }
{
    semi_octet_from_character(character).is_some()
}

// Every character is one.
pub fn all_digits(text: &[u8]) -> bool
    ensures { result ≡ each is_digit text.now }
{
    text.iter().all(|c| is_digit(*c))
}

// The semi-octet of character i, F after the end.
fn semi_octet_or_f(text: &[u8], i: usize) -> u8
    ensures { (result ≡ get_or (map digit_value text.now) i 15) × (result ≤ 15) }
{
    match text.get(i) {
        Some(character) => semi_octet_from_character(*character).unwrap_or(0xF),
        None => 0xF,
    }
}

// Writes digits two to an octet; the place after them.
pub fn put_digits(text: &[u8], out: &mut [u8], at: usize) -> usize
    requires { at + (length text.now + 1) / 2 ≤ length out.old }
    ensures { Wrote at (in_pairs (map digit_value text.now)) out.old result out.new }
{
    let octets = (text.len() + 1) / 2;
    // By place: an octet takes two characters, the last one perhaps one; chunks would leave the same two reads.
    for j in 0..octets {
        let first = semi_octet_or_f(text, 2 * j);
        let second = semi_octet_or_f(text, 2 * j + 1);
        out[at + j] = first + 16 * second;
    }
    at + octets
}

// Writes a text in septets; the place after it.
fn put_septets(text: &[u8], out: &mut [u8], at: usize) -> usize
    requires { Spells (septets_of text.now) 11 × (at + octet_count 0 (length (septets_or (septets_of text.now))) ≤ length out.old) }
    ensures { Wrote at (packed_septets 0 (septets_or (septets_of text.now))) out.old result out.new }
{
    let mut codes = [0u8; 255];
    let Ok(count) = gsm7::encode::scan_text(text, &mut codes) else {
        return at;
    };
    septets::pack_octets(&codes[..count], 0, out, at)
}

// Whether a text in septets can be written: its length octet, or the refusal.
fn check_text(number: Number<'_>) -> Result<usize, Refusal>
    ensures { result ≡ check_of (limited (text_field 5 number.entry.npi (septets_of number.entry.text.now))) }
{
    let mut codes = [0u8; 255];
    let count = gsm7::encode::scan_text(number.text, &mut codes)?;
    if 11 < count {
        return Err(Refusal::AddressTooLong);
    }
    Ok((count * 7 + 3) / 4)
}

// Whether type, plan and text can be written: the length octet, or the refusal. Like `put_address` it is no method of
// `Number`, since a user of crate tpdu can call those.
pub fn check_address(number: Number<'_>) -> Result<usize, Refusal>
    ensures { result ≡ check_of (address_making number.entry.ton number.entry.npi number.entry.text.now) }
{
    if 7 < number.ton {
        return Err(Refusal::NumberTypeOrPlanTooLarge);
    }
    if 15 < number.npi {
        return Err(Refusal::NumberTypeOrPlanTooLarge);
    }
    if number.ton == TYPE_OF_NUMBER_ALPHANUMERIC {
        return check_text(number);
    }
    if !all_digits(number.text) {
        return Err(Refusal::NotInAlphabet);
    }
    if 20 < number.text.len() {
        return Err(Refusal::AddressTooLong);
    }
    Ok(number.text.len())
}

// Writes an address that was checked, with the length octet that the check told; the place after it.
pub fn put_address(number: Number<'_>, count: usize, out: &mut [u8], at: usize) -> usize
    requires { (check_of (address_making number.ton number.npi number.text.now) ≡ Ok count) × (at + 2 + (count + 1) / 2 ≤ length out.old) }
    ensures { Wrote at (octets_or [] (address_octets number.entry.ton number.entry.npi number.entry.text.now)) out.old result out.new }
{
    out[at] = count as u8;
    out[at + 1] = 128 + number.ton * 16 + number.npi;
    if number.ton == TYPE_OF_NUMBER_ALPHANUMERIC {
        return put_septets(number.text, out, at + 2);
    }
    put_digits(number.text, out, at + 2)
}

impl Number<'_> {
    // Writes type, plan and text to the start of a lent output.
    pub fn encode(self, out: &mut [u8]) -> Result<usize, Refusal>
        ensures { (result, out.new) ≡ lend (address_making self.entry.ton self.entry.npi self.entry.text.now) out.old }
    {
        let count = check_address(self)?;
        let needed = 2 + (count + 1) / 2;
        if out.len() < needed {
            return Err(Refusal::OutputTooShort);
        }
        Ok(put_address(self, count, out, 0))
    }
}
