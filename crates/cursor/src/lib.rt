// A cursor: octets and a place in them. Messages that lie one after the other are read through it in turn.
#![tactic(auto)]

ghost use Rattle.std.specs.Prelude.{◌≡◌, drop};
ghost use Rattle.cursor.specs.From.{behind_place, octet_from, submit_from, deliver_from, submit_report_ack_from, submit_report_error_from, deliver_report_ack_from, deliver_report_error_from, status_report_from};

use deliver::{DeliverRead, SmsDeliver};
use deliver_report::{DeliverReportRead, SmsDeliverReport};
use octets::Refusal;
use status_report::{SmsStatusReport, StatusReportRead};
use submit::SubmitRead;
use submit_report::{SmsSubmitReport, SubmitReportRead};

#[derive(Clone, Copy)]
pub struct Cursor<'a> {
    pub octets: &'a [u8],
    pub place: usize,
}

impl<'a> Cursor<'a> {
    // A cursor at the start of the octets.
    pub fn new(octets: &'a [u8]) -> Cursor<'a>
        ensures { (result.octets ≡ octets.entry) × (result.place ≡ 0) }
    {
        Cursor { octets, place: 0 }
    }

    // The place.
    pub fn place(self) -> usize
        ensures { result ≡ self.entry.place }
    {
        self.place
    }

    // The octets from the place on; none past the end.
    pub fn rest(self) -> &'a [u8]
        ensures { result.now ≡ drop self.entry.place self.entry.octets.now }
    {
        &self.octets[self.place.min(self.octets.len())..]
    }

    // The same octets, the place so many further on, but not past the end.
    #[tactic(auto, unfolding(crate::specs::From::behind_place))]
    pub fn behind(self, count: usize) -> Cursor<'a>
        ensures { (result.octets ≡ self.entry.octets) × (result.place ≡ behind_place self.entry.octets.now self.entry.place count) }
    {
        Cursor {
            octets: self.octets,
            place: self.place.saturating_add(count).min(self.octets.len()),
        }
    }

    // The octet at the place, with the next place.
    #[tactic(auto, unfolding(crate::specs::From::octet_from))]
    pub fn read_octet(self) -> Result<(u8, usize), Refusal>
        ensures { result ≡ octet_from self.entry.octets.now self.entry.place }
    {
        let Some(octet) = self.octets.get(self.place) else {
            return Err(Refusal::OctetsEnd);
        };
        Ok((*octet, self.place + 1))
    }

    // The message that starts at the place, by kind.
    pub fn decode_sms_submit_tpdu(self) -> Result<SubmitRead, Refusal>
        ensures { result ≡ submit_from self.entry.octets.now self.entry.place }
    {
        submit::decode_sms_submit_tpdu(self.rest())
    }

    pub fn decode_deliver(self) -> Result<DeliverRead, Refusal>
        ensures { result ≡ deliver_from self.entry.octets.now self.entry.place }
    {
        SmsDeliver::decode(self.rest())
    }

    pub fn decode_submit_report_ack(self) -> Result<SubmitReportRead, Refusal>
        ensures { result ≡ submit_report_ack_from self.entry.octets.now self.entry.place }
    {
        SmsSubmitReport::decode_for_rp_ack(self.rest())
    }

    pub fn decode_submit_report_error(self) -> Result<SubmitReportRead, Refusal>
        ensures { result ≡ submit_report_error_from self.entry.octets.now self.entry.place }
    {
        SmsSubmitReport::decode_for_rp_error(self.rest())
    }

    pub fn decode_deliver_report_ack(self) -> Result<DeliverReportRead, Refusal>
        ensures { result ≡ deliver_report_ack_from self.entry.octets.now self.entry.place }
    {
        SmsDeliverReport::decode_for_rp_ack(self.rest())
    }

    pub fn decode_deliver_report_error(self) -> Result<DeliverReportRead, Refusal>
        ensures { result ≡ deliver_report_error_from self.entry.octets.now self.entry.place }
    {
        SmsDeliverReport::decode_for_rp_error(self.rest())
    }

    pub fn decode_status_report(self) -> Result<StatusReportRead, Refusal>
        ensures { result ≡ status_report_from self.entry.octets.now self.entry.place }
    {
        SmsStatusReport::decode(self.rest())
    }
}

// The SUBMIT that stands behind so many octets.
pub fn submit_behind(octets: &[u8], count: usize) -> Result<SubmitRead, Refusal>
    ensures { result ≡ submit_from octets.now count }
{
    Cursor::new(octets).behind(count).decode_sms_submit_tpdu()
}
