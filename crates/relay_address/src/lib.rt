// Addresses of the relay layer (TS 24.011 §8.2.5). Each field read is taken apart with let-else, as document 01 has it.
#![tactic(auto)]

ghost use Rattle.std.specs.Prelude.{◌≡◌, ◌+◌, ◌/◌, ◌≤◌, length, None};
ghost use Rattle.octets.specs.Checks.{found, checked};
ghost use Rattle.octets.specs.Lent.{Wrote, lend};
ghost use Rattle.relay_address.specs.Relay.{relay_read, relay_octets, relay_checks, relay_making};

use address::writing::{Number, TYPE_OF_NUMBER_ALPHANUMERIC};
use octets::{Held, Place, Refusal};

// An address of the relay layer. `address` holds digits.
// A type of its own beside `SMSAddress`: one can't be given for the other, and each has its own readers and writers.
#[derive(Clone, Copy, Debug, Default)]
pub struct RelayAddress {
    pub ton: u8,
    pub npi: u8,
    pub address: Held<508>,
}

// What reading gives: the address, if there is one, and the number of octets read.
#[derive(Clone, Copy, Debug)]
pub struct RelayAddressRead {
    pub address: Option<RelayAddress>,
    pub octets_read: usize,
}

// No address, and no octets read. By hand: an edit plants a wrong body.
impl Default for RelayAddressRead {
    ghost is_default = { λ r. (r.address ≡ None) × (r.octets_read ≡ 0) };

    fn default() -> Self {
        RelayAddressRead {
            address: None,
            octets_read: 0,
        }
    }
}

// Whether type, plan and digits can be written.
fn check_digits(number: Number<'_>) -> Result<(), Refusal>
    ensures { result ≡ found (relay_checks number.entry.ton number.entry.npi number.entry.text.now) }
{
    if !((number.ton <= 7) & (number.npi <= 15)) {
        return Err(Refusal::NumberTypeOrPlanTooLarge);
    }
    if number.ton == TYPE_OF_NUMBER_ALPHANUMERIC {
        return Err(Refusal::AlphanumericRelayAddress);
    }
    if !address::writing::all_digits(number.text) {
        return Err(Refusal::NotInAlphabet);
    }
    if 20 < number.text.len() {
        return Err(Refusal::AddressTooLong);
    }
    Ok(())
}

// Writes type, plan and digits that were checked; the place after them.
fn put_address(number: Number<'_>, out: &mut [u8]) -> usize
    requires { (number.ton ≤ 7) × (number.npi ≤ 15) × (length number.text.now ≤ 20) × (2 + (length number.text.now + 1) / 2 ≤ length out.old) }
    ensures { Wrote 0 (relay_octets number.entry.ton number.entry.npi number.entry.text.now) out.old result out.new }
{
    out[0] = 1 + ((number.text.len() + 1) / 2) as u8;
    out[1] = 128 + number.ton * 16 + number.npi;
    address::writing::put_digits(number.text, out, 2)
}

// Writes type, plan and digits to the start of a lent output.
fn encode_digits(number: Number<'_>, out: &mut [u8]) -> Result<usize, Refusal>
    ensures { (result, out.new) ≡ lend (checked (relay_checks number.entry.ton number.entry.npi number.entry.text.now) (relay_octets number.entry.ton number.entry.npi number.entry.text.now)) out.old }
{
    check_digits(number)?;
    if out.len() < 2 + (number.text.len() + 1) / 2 {
        return Err(Refusal::OutputTooShort);
    }
    Ok(put_address(number, out))
}

impl RelayAddress {
    // Reads the address at the start of octets; octets after it are not looked at.
    pub fn decode(data: &[u8]) -> Result<RelayAddressRead, Refusal>
        ensures { result ≡ relay_read «data».now }
    {
        let start = Place { at: 0 };
        let Some((count, after_length)) = start.octet(data) else {
            return Err(Refusal::OctetsEnd);
        };
        if count == 0 {
            return Ok(RelayAddressRead {
                address: None,
                octets_read: 1,
            });
        }
        let Some((type_of_address, after_type)) = after_length.octet(data) else {
            return Err(Refusal::OctetsEnd);
        };
        let value_octets = count as usize - 1;
        let Some((at, next)) = after_type.span(data, value_octets) else {
            return Err(Refusal::OctetsEnd);
        };
        let end = next.at;
        let semi_octets = 2 * value_octets;
        let mut address = [0u8; 508];
        let length = address::digits_text(&data[at..end], semi_octets, &mut address);
        Ok(RelayAddressRead {
            address: Some(RelayAddress {
                ton: type_of_address / 16 % 8,
                npi: type_of_address % 16,
                address: Held {
                    octets: address,
                    length,
                },
            }),
            octets_read: end,
        })
    }

    // Writes the address to the start of a lent output; no address is 00.
    pub fn encode(address: Option<RelayAddress>, out: &mut [u8]) -> Result<usize, Refusal>
        ensures { (result, out.new) ≡ lend (relay_making address) out.old }
    {
        let Some(held) = address else {
            if out.is_empty() {
                return Err(Refusal::OutputTooShort);
            }
            return Ok(octets::put_octet(out, 0, 0));
        };
        if !held.address.fits() {
            return Err(Refusal::LengthTooLarge);
        }
        let number = Number {
            ton: held.ton,
            npi: held.npi,
            text: held.address.as_slice(),
        };
        encode_digits(number, out)
    }
}
