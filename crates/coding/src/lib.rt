// TP-Data-Coding-Scheme (TS 23.038 §4), and what TP-User-Data-Length counts.
#![tactic(auto)]

ghost use Rattle.std.specs.Prelude.{◌≡◌};
ghost use Rattle.octets.specs.Checks.{found};
ghost use Rattle.coding.specs.Coding.{coding_of, data_octets, data_within, checked_data};

use octets::{Held, Refusal};

#[derive(Clone, Copy, Debug, PartialEq, Eq)]
pub enum UserDataCoding {
    Gsm7Bit,
    EightBit,
    Ucs2,
    Compressed,
}

// The coding that a TP-DCS octet announces.
pub fn user_data_coding(dcs: u8) -> UserDataCoding
    ensures { result ≡ coding_of dcs }
{
    let high = dcs / 16;
    match high {
        0..=7 => {
            if dcs / 32 % 2 == 1 {
                return UserDataCoding::Compressed;
            }
            match dcs / 4 % 4 {
                1 => UserDataCoding::EightBit,
                2 => UserDataCoding::Ucs2,
                _ => UserDataCoding::Gsm7Bit,
            }
        }
        8..=0xD => UserDataCoding::Gsm7Bit,
        0xE => UserDataCoding::Ucs2,
        _ => {
            if dcs / 4 % 2 == 1 {
                UserDataCoding::EightBit
            } else {
                UserDataCoding::Gsm7Bit
            }
        }
    }
}

// The octets of a TP-User-Data whose TP-User-Data-Length is `length`. (This crate stands beside septets, which counts so too.)
pub fn user_data_octets(coding: UserDataCoding, length: u8) -> usize
    ensures { result ≡ data_octets coding length }
{
    match coding {
        UserDataCoding::Gsm7Bit => (length as usize * 7 + 7) / 8,
        UserDataCoding::EightBit => length as usize,
        UserDataCoding::Ucs2 => length as usize,
        UserDataCoding::Compressed => length as usize,
    }
}

// TP-User-Data as a record holds them.
pub type UserData = Held<255>;

// The octets that user data may have in a ported writer.
pub const MAX_USER_DATA_OCTETS: usize = 140;

// Whether user data of so many octets go with DCS and TP-User-Data-Length, and keep within a limit.
pub fn check_user_data_within(
    limit: usize,
    dcs: u8,
    length: u8,
    octets: usize,
) -> Result<(), Refusal>
    ensures { result ≡ found (data_within limit dcs length octets) }
{
    if octets != user_data_octets(user_data_coding(dcs), length) {
        return Err(Refusal::UserDataLengthDisagrees);
    }
    if limit < octets {
        return Err(Refusal::UserDataTooLong);
    }
    Ok(())
}

// The same within the limit of the ported writers.
pub fn check_user_data(dcs: u8, length: u8, octets: usize) -> Result<(), Refusal>
    ensures { result ≡ checked_data dcs length octets }
{
    check_user_data_within(MAX_USER_DATA_OCTETS, dcs, length, octets)
}
