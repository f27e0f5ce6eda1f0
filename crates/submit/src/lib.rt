// SMS-SUBMIT (TS 23.040 §9.2.2.2).
#![tactic(auto)]

pub mod reading;
pub mod writing;

ghost use Rattle.std.specs.Prelude.{◌≡◌, true, [], ◌++◌, ◌+◌, ◌-◌, ◌≤◌, length, take, drop, Ok, Err};
ghost use Rattle.octets.specs.Checks.{all_fit};
ghost use Rattle.octets.specs.Lent.{Wrote, lend};
ghost use Rattle.coding.specs.Coding.{data_octets};
ghost use Rattle.septets.specs.Septets.{header_septets, fill_bits, septets_in};
ghost use Rattle.gsm7.specs.Reading.{text_of, replaced_in, replaced_in_all};
ghost use Rattle.user_data_header.specs.Header.{in_count};
ghost use Rattle.layout.specs.Layout.{read, answer};
ghost use Rattle.submit.specs.Internal.{fields_at, Inside, parts_in, parts_held};
ghost use Rattle.submit.specs.Submit.{submit, submitted, read_with, readable, data_septets, lengths_of, submitting};

use crate::reading::SubmitFields;
use crate::writing::SubmitValues;
use address::SMSAddress;
use address::writing::Number;
use coding::{UserData, UserDataCoding};
use gsm7::decode::TextPut;
use layout::MTI_SUBMIT;
use octets::{Held, Refusal};
use time::Time;
use validity_period::{VALIDITY_PERIOD_FORMAT_ABSOLUTE, ValidityPeriod};

// The readable form of user data.
pub type SubmitText = Held<510>;

// Its default is the blank message.
#[derive(Clone, Copy, Debug, Default)]
pub struct SmsSubmit {
    pub tp_rp: bool,
    pub tp_udhi: bool,
    pub tp_srr: bool,
    pub tp_mti: u8,
    pub tp_rd: bool,
    pub tp_vpf: u8,
    pub tp_mr: u8,
    pub tp_destination_address: Option<SMSAddress>,
    pub tp_pid: u8,
    pub tp_dcs: u8,
    pub tp_validity_period: ValidityPeriod,
    pub validity_period_digits: Time,
    pub validity_period_octets: [u8; 7],
    pub tp_user_data_length: u8,
    pub tp_user_data_raw: UserData,
    pub tp_user_data_header: Option<UserData>,
    pub tp_user_data: SubmitText,
}

// What reading gives: the message, the number of octets read, and the number of escapes in its text that led to no character of the extension table.
// No `MessageRead`, since the number of octets stands beside it.
#[derive(Clone, Copy, Debug)]
pub struct SubmitRead {
    pub message: SmsSubmit,
    pub octets_read: usize,
    pub replaced_escapes: usize,
}

// The blank message of no octets, with nothing replaced. By hand: an edit plants a wrong body.
impl Default for SubmitRead {
    ghost is_default = { λ r. ⟦<SmsSubmit as Default>⟧.is_default r.message × ((r.octets_read ≡ 0) × (r.replaced_escapes ≡ 0)) };

    fn default() -> Self {
        SubmitRead {
            message: SmsSubmit::default(),
            octets_read: 0,
            replaced_escapes: 0,
        }
    }
}

// Stores a header of h octets and the text after it.
fn put_with_header(septets: usize, h: usize, data: &[u8], text: &mut [u8; 510]) -> TextPut
    requires { (h ≤ length «data».now) × (header_septets h ≤ septets) × (septets ≤ 255) × (length text.old ≡ 510) }
    ensures { Wrote 0 (take h «data».now ++ text_of (septets_in (drop h «data».now) (fill_bits h) (septets - header_septets h))) text.old result.end text.new × (result.replaced ≡ replaced_in (septets_in (drop h «data».now) (fill_bits h) (septets - header_septets h))) }
{
    let in_header = septets::header_septets(h);
    let at = octets::put_octets(text, 0, &data[..h]);
    gsm7::decode::unpack_septets(
        &data[h..],
        septets::fill_bits(h),
        septets - in_header,
        text,
        at,
    )
}

// Stores user data as they stand.
fn put_raw(data: &[u8], text: &mut [u8; 510]) -> TextPut
    requires { length «data».now ≤ length text.old }
    ensures { Wrote 0 «data».now text.old result.end text.new × (result.replaced ≡ 0) }
{
    TextPut {
        end: octets::put_octets(text, 0, data),
        replaced: 0,
    }
}

// Stores the readable form of user data.
#[tactic(auto, using(coding::proofs::Laws::data_at_most), unfolding(crate::specs::Submit::readable, crate::specs::Submit::data_septets, user_data_header::specs::Header::in_count, gsm7::specs::Reading::replaced_in))]
fn put_readable(
    coding: UserDataCoding,
    udl: u8,
    h: usize,
    data: &[u8],
    text: &mut [u8; 510],
) -> TextPut
    requires { (h ≤ length «data».now) × (in_count coding udl h ≡ true) × (length «data».now ≡ data_octets coding udl) × (length text.old ≡ 510) }
    ensures { Wrote 0 (readable coding udl h «data».now) text.old result.end text.new × (result.replaced ≡ replaced_in (data_septets coding udl h «data».now)) }
{
    match coding {
        UserDataCoding::Gsm7Bit => put_with_header(udl as usize, h, data, text),
        UserDataCoding::EightBit | UserDataCoding::Ucs2 | UserDataCoding::Compressed => {
            put_raw(data, text)
        }
    }
}

// The message of fields that are there.
fn message(data: &[u8], f: SubmitFields) -> SubmitRead
    requires { Inside «data».now 2 (Ok f) }
    ensures { result ≡ read_with «data».now (submitted (fields_at «data».now f)) (f.«data» + f.octets) }
{
    let first = f.first;
    let dcs = f.dcs;
    let udl = f.udl;
    let h = f.header;
    let format = first / 8 % 4;
    let validity = f.validity;
    let start = f.data;
    let end = start + f.octets;
    let vp = &data[validity..validity + f.validity_octets];
    let ud = &data[start..end];
    let read = address::address_at(data, f.address);
    let destination = read.address;
    let in_address = read.replaced;
    let mut octets = [0u8; 510];
    let put = put_readable(coding::user_data_coding(dcs), udl, h, ud, &mut octets);
    let replaced_escapes = in_address + put.replaced;
    SubmitRead {
        message: SmsSubmit {
            tp_rp: first / 128 % 2 == 1,
            tp_udhi: first / 64 % 2 == 1,
            tp_srr: first / 32 % 2 == 1,
            tp_mti: first % 4,
            tp_rd: first / 4 % 2 == 1,
            tp_vpf: format,
            tp_mr: f.mr,
            tp_destination_address: Some(destination),
            tp_pid: f.pid,
            tp_dcs: dcs,
            tp_validity_period: validity_period::period_in(format, vp),
            validity_period_digits: validity_period::digits_in(format, vp),
            validity_period_octets: validity_period::enhanced_in(format, vp),
            tp_user_data_length: udl,
            tp_user_data_raw: octets::hold(ud),
            tp_user_data_header: (first / 64 % 2 == 1).then_some(octets::hold(&ud[..h])),
            tp_user_data: SubmitText {
                octets,
                length: put.end,
            },
        },
        octets_read: end,
        replaced_escapes,
    }
}

// Reads a message.
pub fn decode_sms_submit_tpdu(data: &[u8]) -> Result<SubmitRead, Refusal>
    ensures { result ≡ answer (read_with «data».now) (read submit «data».now) }
{
    let fields = reading::fields_of(data)?;
    Ok(message(data, fields))
}

// Type, plan and text of an address, if there is one.
#[inline(always)]
fn number_of(address: &Option<SMSAddress>) -> Option<Number<'_>>
    ensures { parts_in result ≡ parts_held address.now }
{
    address.as_ref().map(|address| address.number())
}

impl SmsSubmit {
    // Whether each length that counts keeps within its array: not that of an absent destination or header, nor that of
    // digits in another format than the absolute one.
    fn lengths_fit(&self) -> bool
        ensures { result ≡ all_fit (lengths_of self.now) }
    {
        let destination = self
            .tp_destination_address
            .map_or(true, |to| to.address.fits());
        let absolute = self.tp_validity_period.format() == VALIDITY_PERIOD_FORMAT_ABSOLUTE;
        let digits = !absolute | self.validity_period_digits.fits();
        let header = self
            .tp_user_data_header
            .map_or(true, |header| header.fits());
        destination
            & (digits & (self.tp_user_data_raw.fits() & (header & self.tp_user_data.fits())))
    }

    // Writes the message to the start of a lent output.
    pub fn encode(self, out: &mut [u8]) -> Result<usize, Refusal>
        ensures { (result, out.new) ≡ lend (submitting self) out.old }
    {
        let vpf = self.tp_vpf;
        if !self.lengths_fit() {
            return Err(Refusal::LengthTooLarge);
        }
        let values = SubmitValues {
            mti: self.tp_mti,
            vpf,
            first: layout::first_octet(
                MTI_SUBMIT,
                self.tp_rp,
                self.tp_udhi,
                self.tp_srr,
                vpf / 2 % 2 == 1,
                vpf % 2 == 1,
                self.tp_rd,
            ),
            mr: self.tp_mr,
            pid: self.tp_pid,
            dcs: self.tp_dcs,
            period: self.tp_validity_period,
            udl: self.tp_user_data_length,
        };
        let digits = self.validity_period_digits.as_slice();
        let enhanced = self.validity_period_octets;
        let data = self.tp_user_data_raw.as_slice();
        // By value: with a reference into the record itself more of the record is kept in memory, and copied.
        let to = self.tp_destination_address;
        writing::encode_fields(values, number_of(&to), digits, enhanced, data, out)
    }
}
