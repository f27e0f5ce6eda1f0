// SMS-STATUS-REPORT (TS 23.040 §9.2.2.3).
#![tactic(auto)]

pub mod reading;
pub mod writing;

ghost use Rattle.std.specs.Prelude.{◌≡◌};
ghost use Rattle.octets.specs.Checks.{all_fit};
ghost use Rattle.octets.specs.Lent.{lend};
ghost use Rattle.layout.specs.Layout.{read, answer};
ghost use Rattle.status_report.specs.Internal.{fields_at, reached_at, Inside};
ghost use Rattle.status_report.specs.StatusReport.{status_reported, status_report, read_with, lengths_of, status_reporting_within, status_reporting, status_reporting_to_standard};

use crate::reading::StatusReportFields;
use crate::writing::StatusReportValues;
use address::SMSAddress;
use coding::UserData;
use layout::{MTI_STATUS_REPORT, MessageRead};
use octets::Refusal;
use parameters::ParameterOctets;
use time::Time;

// The octets of user data in the standard's table of the message (TS 23.040 §9.2.2.3).
const STANDARD_USER_DATA_OCTETS: usize = 131;

// Its default is the blank message.
#[derive(Clone, Copy, Debug, Default)]
pub struct SmsStatusReport {
    pub tp_udhi: bool,
    pub tp_srq: bool,
    pub tp_lp: bool,
    pub tp_mms: bool,
    pub tp_mr: u8,
    pub tp_recipient_address: SMSAddress,
    pub tp_service_centre_timestamp: Time,
    pub tp_discharge_time: Time,
    pub tp_status: u8,
    pub tp_parameter_indicator: Option<u8>,
    pub tp_pid: Option<u8>,
    pub tp_dcs: Option<u8>,
    pub tp_user_data_length: Option<u8>,
    pub tp_user_data: UserData,
}

// What reading gives.
pub type StatusReportRead = MessageRead<SmsStatusReport>;

// The message of fields that are there.
fn message(data: &[u8], f: StatusReportFields) -> StatusReportRead
    requires { Inside «data».now 2 f }
    ensures { result ≡ read_with «data».now (status_reported (fields_at «data».now f)) (reached_at f) }
{
    let start = f.data;
    let end = start + f.octets;
    let first = f.first;
    let parameters = f.parameters;
    let read = address::address_at(data, f.address);
    let recipient = read.address;
    let timestamp = time::time_at(data, f.timestamp);
    let discharge_time = time::time_at(data, f.discharge);
    let user_data = octets::hold(&data[start..end]);
    StatusReportRead {
        message: SmsStatusReport {
            tp_udhi: first / 64 % 2 == 1,
            tp_srq: first / 32 % 2 == 1,
            tp_lp: first / 8 % 2 == 1,
            tp_mms: first / 4 % 2 == 1,
            tp_mr: f.mr,
            tp_recipient_address: recipient,
            tp_service_centre_timestamp: timestamp,
            tp_discharge_time: discharge_time,
            tp_status: f.status,
            tp_parameter_indicator: f.indicator,
            tp_pid: parameters.pid,
            tp_dcs: parameters.dcs,
            tp_user_data_length: parameters.udl,
            tp_user_data: user_data,
        },
        replaced_escapes: read.replaced,
    }
}

impl SmsStatusReport {
    // Whether each length keeps within its array.
    pub fn fits(&self) -> bool
        ensures { result ≡ all_fit (lengths_of self.now) }
    {
        self.tp_recipient_address.address.fits()
            & (self.tp_service_centre_timestamp.fits()
                & (self.tp_discharge_time.fits() & self.tp_user_data.fits()))
    }

    // Writes the message to the start of a lent output, its user data within a limit.
    fn encode_within(self, limit: usize, out: &mut [u8]) -> Result<usize, Refusal>
        ensures { (result, out.new) ≡ lend (status_reporting_within limit self) out.old }
    {
        if !self.fits() {
            return Err(Refusal::LengthTooLarge);
        }
        let first = layout::first_octet(
            MTI_STATUS_REPORT,
            false,
            self.tp_udhi,
            self.tp_srq,
            false,
            self.tp_lp,
            self.tp_mms,
        );
        let values = StatusReportValues {
            first,
            mr: self.tp_mr,
            status: self.tp_status,
            indicator: self.tp_parameter_indicator,
            parameters: ParameterOctets {
                pid: self.tp_pid,
                dcs: self.tp_dcs,
                udl: self.tp_user_data_length,
            },
        };
        writing::encode_fields(
            limit,
            values,
            self.tp_recipient_address.number(),
            self.tp_service_centre_timestamp.as_slice(),
            self.tp_discharge_time.as_slice(),
            self.tp_user_data.as_slice(),
            out,
        )
    }

    // Writes the message to the start of a lent output.
    pub fn encode(self, out: &mut [u8]) -> Result<usize, Refusal>
        ensures { (result, out.new) ≡ lend (status_reporting self) out.old }
    {
        self.encode_within(coding::MAX_USER_DATA_OCTETS, out)
    }

    // The same with the limit of user data that the standard's table has, in place of the published crate's.
    pub fn encode_to_standard(self, out: &mut [u8]) -> Result<usize, Refusal>
        ensures { (result, out.new) ≡ lend (status_reporting_to_standard self) out.old }
    {
        self.encode_within(STANDARD_USER_DATA_OCTETS, out)
    }

    // Reads a message.
    pub fn decode(data: &[u8]) -> Result<StatusReportRead, Refusal>
        ensures { result ≡ answer (read_with «data».now) (read status_report «data».now) }
    {
        let fields = reading::fields_of(data)?;
        Ok(message(data, fields))
    }
}
