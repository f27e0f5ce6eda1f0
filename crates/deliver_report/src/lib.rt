// SMS-DELIVER-REPORT (TS 23.040 §9.2.2.1a), the acknowledgement of an SMS-DELIVER or SMS-STATUS-REPORT.
#![tactic(auto)]

ghost use Rattle.std.specs.Prelude.{◌≡◌};
ghost use Rattle.octets.specs.Lent.{lend};
ghost use Rattle.layout.specs.Layout.{read, answer};
ghost use Rattle.parameters.specs.declared.RpOutcome.TheVariants.{RpAck, RpError};
ghost use Rattle.report.specs.Internal.{fields_at, Inside};
ghost use Rattle.deliver_report.specs.DeliverReport.{deliver_reported, blank, layout_of, read_with, deliver_reporting_within, deliver_reporting, deliver_reporting_to_standard};

use coding::UserData;
use layout::{MTI_DELIVER, MessageRead};
use octets::Refusal;
use parameters::{ParameterOctets, RpOutcome};
use report::reading::ReportFields;
use report::writing::ReportValues;

// The octets of user data in the standard's tables of a report in an RP-ACK and in an RP-ERROR (TS 23.040 §9.2.2.1a).
const RP_ACK_USER_DATA_OCTETS: usize = 159;

const RP_ERROR_USER_DATA_OCTETS: usize = 158;

#[derive(Clone, Copy, Debug)]
pub struct SmsDeliverReport {
    pub tp_udhi: bool,
    pub tp_failure_cause: Option<u8>,
    pub tp_parameter_indicator: u8,
    pub tp_pid: Option<u8>,
    pub tp_dcs: Option<u8>,
    pub tp_user_data_length: Option<u8>,
    pub tp_user_data: UserData,
    pub rp_outcome: RpOutcome,
}

// The blank record, which holds RP-ACK whatever the entry point. By hand: an edit plants a wrong body.
impl Default for SmsDeliverReport {
    ghost is_default = { λ r. r ≡ blank };

    fn default() -> Self {
        message(&[], ReportFields::default())
    }
}

// What reading gives; the kind has no text, so no escapes were replaced: 0.
pub type DeliverReportRead = MessageRead<SmsDeliverReport>;

// The report of fields that are there.
fn message(data: &[u8], f: ReportFields) -> SmsDeliverReport
    requires { Inside «data».now f }
    ensures { result ≡ deliver_reported (fields_at «data».now f) }
{
    SmsDeliverReport {
        tp_udhi: f.udhi,
        tp_failure_cause: f.cause,
        tp_parameter_indicator: f.indicator,
        tp_pid: f.parameters.pid,
        tp_dcs: f.parameters.dcs,
        tp_user_data_length: f.parameters.udl,
        tp_user_data: octets::hold(&data[f.data..f.data + f.octets]),
        rp_outcome: f.rp_outcome,
    }
}

// The report that a string is, read as one of this outcome.
fn decode(data: &[u8], rp_outcome: RpOutcome) -> Result<DeliverReportRead, Refusal>
    ensures { result ≡ answer (read_with «data».now) (read (layout_of rp_outcome) «data».now) }
{
    let f = report::reading::fields_of(data, MTI_DELIVER, false, rp_outcome)?;
    Ok(MessageRead {
        message: message(data, f),
        replaced_escapes: 0,
    })
}

impl SmsDeliverReport {
    // The layout carried in an RP-ACK (no TP-Failure-Cause).
    pub fn decode_for_rp_ack(data: &[u8]) -> Result<DeliverReportRead, Refusal>
        ensures { result ≡ answer (read_with «data».now) (read (layout_of RpAck) «data».now) }
    {
        decode(data, RpOutcome::RpAck)
    }

    // The layout carried in an RP-ERROR (TP-Failure-Cause present). Where an unused bit of the first octet is set the
    // rest is not examined, and the cause reads as "Unspecified error cause".
    pub fn decode_for_rp_error(data: &[u8]) -> Result<DeliverReportRead, Refusal>
        ensures { result ≡ answer (read_with «data».now) (read (layout_of RpError) «data».now) }
    {
        decode(data, RpOutcome::RpError)
    }

    // Writes the report to the start of a lent output, its user data within a limit.
    fn encode_within(self, limit: usize, out: &mut [u8]) -> Result<usize, Refusal>
        ensures { (result, out.new) ≡ lend (deliver_reporting_within limit self) out.old }
    {
        if !self.tp_user_data.fits() {
            return Err(Refusal::LengthTooLarge);
        }
        if !parameters::outcome_agrees(self.rp_outcome, self.tp_failure_cause) {
            return Err(Refusal::OutcomeDisagrees);
        }
        let values = ReportValues {
            mti: MTI_DELIVER,
            udhi: self.tp_udhi,
            cause: self.tp_failure_cause,
            indicator: self.tp_parameter_indicator,
            parameters: ParameterOctets {
                pid: self.tp_pid,
                dcs: self.tp_dcs,
                udl: self.tp_user_data_length,
            },
        };
        report::writing::encode_fields(limit, values, None, self.tp_user_data.as_slice(), out)
    }

    // Writes the report to the start of a lent output.
    pub fn encode(self, out: &mut [u8]) -> Result<usize, Refusal>
        ensures { (result, out.new) ≡ lend (deliver_reporting self) out.old }
    {
        self.encode_within(coding::MAX_USER_DATA_OCTETS, out)
    }

    // The same with the limit of user data that the standard's tables have, in place of the published crate's.
    pub fn encode_to_standard(self, out: &mut [u8]) -> Result<usize, Refusal>
        ensures { (result, out.new) ≡ lend (deliver_reporting_to_standard self) out.old }
    {
        let limit = report::standard_limit(
            RP_ACK_USER_DATA_OCTETS,
            RP_ERROR_USER_DATA_OCTETS,
            self.tp_failure_cause,
        );
        self.encode_within(limit, out)
    }
}
