// SMS-DELIVER (TS 23.040 §9.2.2.1).
#![tactic(auto)]

pub mod reading;
pub mod writing;

ghost use Rattle.std.specs.Prelude.{◌≡◌};
ghost use Rattle.octets.specs.Lent.{lend};
ghost use Rattle.layout.specs.Layout.{read, answer};
ghost use Rattle.deliver.specs.Internal.{fields_at, reached_at, Inside};
ghost use Rattle.deliver.specs.Deliver.{blank, delivered, deliver, read_with, delivering};

use crate::reading::DeliverFields;
use crate::writing::DeliverValues;
use address::SMSAddress;
use coding::UserData;
use layout::{MTI_DELIVER, MessageRead};
use octets::Refusal;
use time::Time;

#[derive(Clone, Copy, Debug)]
pub struct SmsDeliver {
    pub tp_rp: bool,
    pub tp_udhi: bool,
    pub tp_sri: bool,
    pub tp_lp: bool,
    pub tp_mms: bool,
    pub tp_mti: u8,
    pub tp_originating_address: SMSAddress,
    pub tp_pid: u8,
    pub tp_dcs: u8,
    pub tp_service_centre_timestamp: Time,
    pub tp_user_data_length: u8,
    pub tp_user_data: UserData,
}

// The blank message. By hand: an edit plants a wrong body.
impl Default for SmsDeliver {
    ghost is_default = { λ r. r ≡ blank };

    #[tactic(auto, unfolding(crate::specs::Deliver::blank, address::specs::Address::address_with, time::specs::Time::time_digits))]
    fn default() -> Self {
        SmsDeliver {
            tp_rp: false,
            tp_udhi: false,
            tp_sri: false,
            tp_lp: false,
            tp_mms: false,
            tp_mti: 0,
            tp_originating_address: SMSAddress::default(),
            tp_pid: 0,
            tp_dcs: 0,
            tp_service_centre_timestamp: Time::default(),
            tp_user_data_length: 0,
            tp_user_data: UserData::default(),
        }
    }
}

// What reading gives.
pub type DeliverRead = MessageRead<SmsDeliver>;

// The message of fields that are there.
fn message(data: &[u8], f: DeliverFields) -> DeliverRead
    requires { Inside «data».now 1 f }
    ensures { result ≡ read_with «data».now (delivered (fields_at «data».now f)) (reached_at f) }
{
    let start = f.data;
    let end = start + f.octets;
    let first = f.first;
    let read = address::address_at(data, f.address);
    let originator = read.address;
    let timestamp = time::time_at(data, f.timestamp);
    let user_data = octets::hold(&data[start..end]);
    DeliverRead {
        message: SmsDeliver {
            tp_rp: first / 128 % 2 == 1,
            tp_udhi: first / 64 % 2 == 1,
            tp_sri: first / 32 % 2 == 1,
            tp_lp: first / 8 % 2 == 1,
            tp_mms: first / 4 % 2 == 1,
            tp_mti: first % 4,
            tp_originating_address: originator,
            tp_pid: f.pid,
            tp_dcs: f.dcs,
            tp_service_centre_timestamp: timestamp,
            tp_user_data_length: f.udl,
            tp_user_data: user_data,
        },
        replaced_escapes: read.replaced,
    }
}

impl SmsDeliver {
    // Writes the message to the start of a lent output.
    pub fn encode(self, out: &mut [u8]) -> Result<usize, Refusal>
        ensures { (result, out.new) ≡ lend (delivering self) out.old }
    {
        let fit = self.tp_originating_address.address.fits()
            & (self.tp_service_centre_timestamp.fits() & self.tp_user_data.fits());
        if !fit {
            return Err(Refusal::LengthTooLarge);
        }
        let values = DeliverValues {
            mti: self.tp_mti,
            first: layout::first_octet(
                MTI_DELIVER,
                self.tp_rp,
                self.tp_udhi,
                self.tp_sri,
                false,
                self.tp_lp,
                self.tp_mms,
            ),
            pid: self.tp_pid,
            dcs: self.tp_dcs,
            udl: self.tp_user_data_length,
        };
        writing::encode_fields(
            values,
            self.tp_originating_address.number(),
            self.tp_service_centre_timestamp.as_slice(),
            self.tp_user_data.as_slice(),
            out,
        )
    }

    // Reads a message.
    pub fn decode(data: &[u8]) -> Result<DeliverRead, Refusal>
        ensures { result ≡ answer (read_with «data».now) (read deliver «data».now) }
    {
        let fields = reading::fields_of(data)?;
        Ok(message(data, fields))
    }
}
