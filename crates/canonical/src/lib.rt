// Reading and writing back: the canonical octets of a message.
#![tactic(auto, using(layout::proofs::Rewriting::refused_whole))]

ghost use Rattle.std.specs.Prelude.{◌≡◌};
ghost use Rattle.octets.specs.Lent.{lend};
ghost use Rattle.layout.specs.Demand.{rewriting};
ghost use Rattle.layout.specs.Layout.{read};
ghost use Rattle.parameters.specs.declared.RpOutcome.TheVariants.{RpAck, RpError};
ghost use Rattle.submit.specs.Submit.{submit as submitLayout, submitting};
ghost use Rattle.deliver.specs.Deliver.{deliver as deliverLayout, delivering};
ghost use Rattle.submit_report.specs.SubmitReport.{layout_of as submitReportLayout, submit_reporting};
ghost use Rattle.deliver_report.specs.DeliverReport.{layout_of as deliverReportLayout, deliver_reporting};
ghost use Rattle.status_report.specs.StatusReport.{status_report, status_reporting};

use deliver::SmsDeliver;
use deliver_report::SmsDeliverReport;
use octets::Refusal;
use status_report::SmsStatusReport;
use submit_report::SmsSubmitReport;

// A function for each kind: one generic function would need a trait that says of each kind what its `decode` and `encode`
// say already, and each of these is no more than those two calls.

// Reads a message, and writes it back.
pub fn canonical_submit(data: &[u8], out: &mut [u8]) -> Result<usize, Refusal>
    ensures { (result, out.new) ≡ lend (rewriting submitting (read submitLayout «data».now)) out.old }
{
    let read = submit::decode_sms_submit_tpdu(data)?;
    read.message.encode(out)
}

// Reads a message, and writes it back.
pub fn canonical_deliver(data: &[u8], out: &mut [u8]) -> Result<usize, Refusal>
    ensures { (result, out.new) ≡ lend (rewriting delivering (read deliverLayout «data».now)) out.old }
{
    let read = SmsDeliver::decode(data)?;
    read.message.encode(out)
}

// Reads a report carried in an RP-ACK, and writes it back.
pub fn canonical_submit_report_ack(data: &[u8], out: &mut [u8]) -> Result<usize, Refusal>
    ensures { (result, out.new) ≡ lend (rewriting submit_reporting (read (submitReportLayout RpAck) «data».now)) out.old }
{
    let read = SmsSubmitReport::decode_for_rp_ack(data)?;
    read.message.encode(out)
}

// Reads a report carried in an RP-ERROR, and writes it back.
pub fn canonical_submit_report_error(data: &[u8], out: &mut [u8]) -> Result<usize, Refusal>
    ensures { (result, out.new) ≡ lend (rewriting submit_reporting (read (submitReportLayout RpError) «data».now)) out.old }
{
    let read = SmsSubmitReport::decode_for_rp_error(data)?;
    read.message.encode(out)
}

// Reads a report carried in an RP-ACK, and writes it back.
pub fn canonical_deliver_report_ack(data: &[u8], out: &mut [u8]) -> Result<usize, Refusal>
    ensures { (result, out.new) ≡ lend (rewriting deliver_reporting (read (deliverReportLayout RpAck) «data».now)) out.old }
{
    let read = SmsDeliverReport::decode_for_rp_ack(data)?;
    read.message.encode(out)
}

// Reads a report carried in an RP-ERROR, and writes it back.
pub fn canonical_deliver_report_error(data: &[u8], out: &mut [u8]) -> Result<usize, Refusal>
    ensures { (result, out.new) ≡ lend (rewriting deliver_reporting (read (deliverReportLayout RpError) «data».now)) out.old }
{
    let read = SmsDeliverReport::decode_for_rp_error(data)?;
    read.message.encode(out)
}

// Reads a report, and writes it back.
pub fn canonical_status_report(data: &[u8], out: &mut [u8]) -> Result<usize, Refusal>
    ensures { (result, out.new) ≡ lend (rewriting status_reporting (read status_report «data».now)) out.old }
{
    let read = SmsStatusReport::decode(data)?;
    read.message.encode(out)
}
