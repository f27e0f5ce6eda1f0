// The fields of a report found in a string: one way for the four entry points. Each field read is taken apart with let-else, as document 01 has it.
ghost use Rattle.std.specs.Prelude.{◌≡◌, IfOk};
ghost use Rattle.layout.specs.Layout.{read, read_from, answer, alone};
ghost use Rattle.report.specs.Report.{layout_of};
ghost use Rattle.report.specs.Internal.{nothing, after_cause, found_says, Inside};

use octets::{Place, Refusal};
use parameters::{ParameterOctets, RpOutcome};

// Bits 7 and 5-2 of the first octet of a report, which are unused.
const REPORT_UNUSED_BITS: u8 = 0xBC;
// TP-FCS "Unspecified error cause" (TS 23.040 §9.2.3.22).
const FAILURE_CAUSE_UNSPECIFIED: u8 = 0xFF;

// The fields of one octet, and where the others start: the time if there is one, and so many octets of user data.
#[derive(Clone, Copy, Debug, PartialEq, Eq)]
pub struct ReportFields {
    pub rp_outcome: RpOutcome,
    pub udhi: bool,
    pub cause: Option<u8>,
    pub indicator: u8,
    pub timestamp: Option<usize>,
    pub parameters: ParameterOctets,
    pub data: usize,
    pub octets: usize,
}

// Those of the blank record, which holds RP-ACK whatever the entry point. By hand: an edit plants a wrong body.
impl Default for ReportFields {
    ghost is_default = { λ f. f ≡ nothing };

    fn default() -> Self {
        ReportFields {
            rp_outcome: RpOutcome::RpAck,
            udhi: false,
            cause: None,
            indicator: 0,
            timestamp: None,
            parameters: ParameterOctets::default(),
            data: 0,
            octets: 0,
        }
    }
}

// What follows first octet and cause.
fn after_cause(
    data: &[u8],
    place: Place,
    has_time: bool,
    rp_outcome: RpOutcome,
    udhi: bool,
    cause: Option<u8>,
) -> Result<ReportFields, Refusal>
    ensures { (found_says «data».now result ≡ answer alone (read_from (after_cause has_time rp_outcome udhi cause) «data».now place.at)) × IfOk result (Inside «data».now) }
{
    let Some((indicator, place)) = parameters::reading::read_indicator(data, place) else {
        return Err(Refusal::OctetsEnd);
    };
    let time_octets = octets::length_if(has_time, crate::TIME_OCTETS);
    let Some((timestamp, place)) = place.span(data, time_octets) else {
        return Err(Refusal::OctetsEnd);
    };
    let Some(read) = parameters::reading::read_parameters(data, place, indicator) else {
        return Err(Refusal::OctetsEnd);
    };
    Ok(ReportFields {
        rp_outcome,
        udhi,
        cause,
        indicator,
        timestamp: has_time.then_some(timestamp),
        parameters: read.parameters,
        data: read.next.at - read.octets,
        octets: read.octets,
    })
}

// The fields of a report with this TP-MTI, with a time or without, as an entry point reads it: a cause is there in an
// RP-ERROR only. Where an unused bit of its first octet is set the rest is not examined, and the cause reads as
// "Unspecified error cause".
// `mti` and `has_time` are the two arguments by which the two reports differ, as in the definition.
pub fn fields_of(
    data: &[u8],
    mti: u8,
    has_time: bool,
    rp_outcome: RpOutcome,
) -> Result<ReportFields, Refusal>
    ensures { (found_says «data».now result ≡ answer alone (read (layout_of mti has_time rp_outcome) «data».now)) × IfOk result (Inside «data».now) }
{
    let start = Place { at: 0 };
    let Some((first, place)) = start.octet(data) else {
        return Err(Refusal::OctetsEnd);
    };
    if first % 4 != mti {
        return Err(Refusal::WrongMessageType);
    }
    let udhi = first / 64 % 2 == 1;
    match rp_outcome {
        RpOutcome::RpAck => after_cause(data, place, has_time, rp_outcome, udhi, None),
        RpOutcome::RpError => {
            if first & REPORT_UNUSED_BITS != 0 {
                return Ok(ReportFields {
                    rp_outcome: RpOutcome::RpError,
                    cause: Some(FAILURE_CAUSE_UNSPECIFIED),
                    ..ReportFields::default()
                });
            }
            let Some((cause, next)) = place.octet(data) else {
                return Err(Refusal::OctetsEnd);
            };
            after_cause(data, next, has_time, rp_outcome, udhi, Some(cause))
        }
    }
}
