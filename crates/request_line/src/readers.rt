// The readers of messages, by their names in requests.
ghost use Rattle.std.specs.Prelude.{◌≡◌};
ghost use Rattle.layout.specs.Layout.{read, answer};
ghost use Rattle.submit_report.specs.SubmitReport.{read_with as submitted, layout_of as submit_layout};
ghost use Rattle.deliver_report.specs.DeliverReport.{read_with as delivered, layout_of as deliver_layout};

use tpdu::{
    DeliverReportRead, Refusal, RpOutcome, SmsDeliverReport, SmsSubmitReport, SubmitReportRead,
};

// What reads a message; the reader of a report by the outcome that carries it.
#[derive(Clone, Copy, Debug, PartialEq, Eq)]
pub enum Reader {
    Deliver,
    Submit,
    SubmitReport(RpOutcome),
    DeliverReport(RpOutcome),
    StatusReport,
}

pub fn reader_named(name: &[u8]) -> Option<Reader> {
    match name {
        b"deliver" => Some(Reader::Deliver),
        b"submit" => Some(Reader::Submit),
        b"submit-report-ack" => Some(Reader::SubmitReport(RpOutcome::RpAck)),
        b"submit-report-error" => Some(Reader::SubmitReport(RpOutcome::RpError)),
        b"deliver-report-ack" => Some(Reader::DeliverReport(RpOutcome::RpAck)),
        b"deliver-report-error" => Some(Reader::DeliverReport(RpOutcome::RpError)),
        b"status-report" => Some(Reader::StatusReport),
        _ => None,
    }
}

pub fn read_submit_report(octets: &[u8], outcome: RpOutcome) -> Result<SubmitReportRead, Refusal>
    ensures { result ≡ answer (submitted octets.now) (read (submit_layout outcome) octets.now) }
{
    match outcome {
        RpOutcome::RpAck => SmsSubmitReport::decode_for_rp_ack(octets),
        RpOutcome::RpError => SmsSubmitReport::decode_for_rp_error(octets),
    }
}

pub fn read_deliver_report(octets: &[u8], outcome: RpOutcome) -> Result<DeliverReportRead, Refusal>
    ensures { result ≡ answer (delivered octets.now) (read (deliver_layout outcome) octets.now) }
{
    match outcome {
        RpOutcome::RpAck => SmsDeliverReport::decode_for_rp_ack(octets),
        RpOutcome::RpError => SmsDeliverReport::decode_for_rp_error(octets),
    }
}
