// SMS-SUBMIT-REPORT (TS 23.040 §9.2.2.2a), the acknowledgement of an SMS-SUBMIT or SMS-COMMAND.
#![tactic(auto)]

ghost use Rattle.std.specs.Prelude.{◌≡◌, ◌+◌, ◌≤◌, length, IfSome};
ghost use Rattle.octets.specs.Lent.{lend};
ghost use Rattle.time.specs.Time.{time_in};
ghost use Rattle.layout.specs.Layout.{read, answer};
ghost use Rattle.parameters.specs.declared.RpOutcome.TheVariants.{RpAck, RpError};
ghost use Rattle.report.specs.Internal.{time_at, fields_at, Inside};
ghost use Rattle.submit_report.specs.SubmitReport.{submit_reported, blank, layout_of, read_with, submit_reporting_within, submit_reporting, submit_reporting_to_standard};

use coding::UserData;
use layout::{MTI_SUBMIT, MessageRead};
use octets::Refusal;
use parameters::{ParameterOctets, RpOutcome};
use report::reading::ReportFields;
use report::writing::ReportValues;
use time::Time;

// The octets of user data in the standard's tables of a report in an RP-ACK and in an RP-ERROR (TS 23.040 §9.2.2.2a).
const RP_ACK_USER_DATA_OCTETS: usize = 152;

const RP_ERROR_USER_DATA_OCTETS: usize = 151;

// TP-UDHI of a record is a number: 0 or 1.
const MAX_UDHI: u8 = 1;

#[derive(Clone, Copy, Debug)]
pub struct SmsSubmitReport {
    pub tp_udhi: u8,
    pub tp_failure_cause: Option<u8>,
    pub tp_parameter_indicator: u8,
    pub tp_service_centre_timestamp: Time,
    pub tp_pid: Option<u8>,
    pub tp_dcs: Option<u8>,
    pub tp_user_data_length: Option<u8>,
    pub tp_user_data: UserData,
    pub rp_outcome: RpOutcome,
}

// The blank record, which holds RP-ACK whatever the entry point. By hand: an edit plants a wrong body.
impl Default for SmsSubmitReport {
    ghost is_default = { λ r. r ≡ blank };

    fn default() -> Self {
        message(&[], ReportFields::default())
    }
}

// What reading gives; the kind has no text, so no escapes were replaced: 0.
pub type SubmitReportRead = MessageRead<SmsSubmitReport>;

// The time at a place, if there is one.
#[tactic(auto, unfolding(time::specs::Time::time_digits))]
fn time_if(data: &[u8], place: Option<usize>) -> Time
    requires { IfSome place (λ at. at + 7 ≤ length «data».now) }
    ensures { result ≡ time_in (time_at «data».now place) }
{
    place.map_or(Time::default(), |at| time::time_at(data, at))
}

// The report of fields that are there.
fn message(data: &[u8], f: ReportFields) -> SmsSubmitReport
    requires { Inside «data».now f }
    ensures { result ≡ submit_reported (fields_at «data».now f) }
{
    SmsSubmitReport {
        tp_udhi: octets::flag(f.udhi, 1),
        tp_failure_cause: f.cause,
        tp_parameter_indicator: f.indicator,
        tp_service_centre_timestamp: time_if(data, f.timestamp),
        tp_pid: f.parameters.pid,
        tp_dcs: f.parameters.dcs,
        tp_user_data_length: f.parameters.udl,
        tp_user_data: octets::hold(&data[f.data..f.data + f.octets]),
        rp_outcome: f.rp_outcome,
    }
}

// The report that a string is, read as one of this outcome.
fn decode(data: &[u8], rp_outcome: RpOutcome) -> Result<SubmitReportRead, Refusal>
    ensures { result ≡ answer (read_with «data».now) (read (layout_of rp_outcome) «data».now) }
{
    let f = report::reading::fields_of(data, MTI_SUBMIT, true, rp_outcome)?;
    Ok(MessageRead {
        message: message(data, f),
        replaced_escapes: 0,
    })
}

impl SmsSubmitReport {
    // The layout carried in an RP-ACK (no TP-Failure-Cause).
    pub fn decode_for_rp_ack(data: &[u8]) -> Result<SubmitReportRead, Refusal>
        ensures { result ≡ answer (read_with «data».now) (read (layout_of RpAck) «data».now) }
    {
        decode(data, RpOutcome::RpAck)
    }

    // The layout carried in an RP-ERROR (TP-Failure-Cause present). Where an unused bit of the first octet is set the
    // rest is not examined, and the cause reads as "Unspecified error cause".
    pub fn decode_for_rp_error(data: &[u8]) -> Result<SubmitReportRead, Refusal>
        ensures { result ≡ answer (read_with «data».now) (read (layout_of RpError) «data».now) }
    {
        decode(data, RpOutcome::RpError)
    }

    // Writes the report to the start of a lent output, its user data within a limit.
    fn encode_within(self, limit: usize, out: &mut [u8]) -> Result<usize, Refusal>
        ensures { (result, out.new) ≡ lend (submit_reporting_within limit self) out.old }
    {
        let fit = self.tp_service_centre_timestamp.fits() & self.tp_user_data.fits();
        if !fit {
            return Err(Refusal::LengthTooLarge);
        }
        if !parameters::outcome_agrees(self.rp_outcome, self.tp_failure_cause) {
            return Err(Refusal::OutcomeDisagrees);
        }
        if self.tp_udhi > MAX_UDHI {
            return Err(Refusal::UdhiTooLarge);
        }
        let values = ReportValues {
            mti: MTI_SUBMIT,
            udhi: self.tp_udhi == 1,
            cause: self.tp_failure_cause,
            indicator: self.tp_parameter_indicator,
            parameters: ParameterOctets {
                pid: self.tp_pid,
                dcs: self.tp_dcs,
                udl: self.tp_user_data_length,
            },
        };
        report::writing::encode_fields(
            limit,
            values,
            Some(self.tp_service_centre_timestamp.as_slice()),
            self.tp_user_data.as_slice(),
            out,
        )
    }

    // Writes the report to the start of a lent output.
    pub fn encode(self, out: &mut [u8]) -> Result<usize, Refusal>
        ensures { (result, out.new) ≡ lend (submit_reporting self) out.old }
    {
        self.encode_within(coding::MAX_USER_DATA_OCTETS, out)
    }

    // The same with the limit of user data that the standard's tables have, in place of the published crate's.
    pub fn encode_to_standard(self, out: &mut [u8]) -> Result<usize, Refusal>
        ensures { (result, out.new) ≡ lend (submit_reporting_to_standard self) out.old }
    {
        let limit = report::standard_limit(
            RP_ACK_USER_DATA_OCTETS,
            RP_ERROR_USER_DATA_OCTETS,
            self.tp_failure_cause,
        );
        self.encode_within(limit, out)
    }
}
