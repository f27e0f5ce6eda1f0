// Functions over slices for a driver in another language, which times them beside the Rust (oracle/bench). Each answers
// a number that depends on its result: a count, or 256 and the refusal's number. The arrays of what is read go to lent
// ones, so that the compiler can't leave them out. What the C interface asks for stays: long lists of values, arrays beside
// their lengths, and a flag beside the header that it says is there.
#![tactic(auto)]

ghost use Rattle.std.specs.Prelude.{◌≡◌, ◌+◌, true, [], replicate, Some, None, Ok, Err};
ghost use Rattle.std.specs.Bool.{then_some};
ghost use Rattle.octets.specs.Lent.{lend};
ghost use Rattle.gsm7.specs.Packing.{packing};
ghost use Rattle.gsm7.specs.Reading.{unpacked};
ghost use Rattle.concatenation.specs.Messages.{concatenating};
ghost use Rattle.ucs2.specs.Ucs2.{to_gsm7, to_ucs2};
ghost use Rattle.part_number.specs.declared.Reference.TheVariants.{Eight};
ghost use Rattle.header_elements.specs.Record.{elements_read, header_making};
ghost use Rattle.relay_address.specs.Relay.{relay_read, relay_making};
ghost use Rattle.reassembly.specs.Calls.{emptied, accepting, taking_by};
ghost use Rattle.columns.specs.Answers.{writing, reading, lend_both};
ghost use Rattle.time.specs.Timestamp.{timestamp};
ghost use Rattle.address.specs.Address.{encoding};
ghost use Rattle.layout.specs.Layout.{read, answer};
ghost use Rattle.parameters.specs.declared.RpOutcome.TheVariants.{RpAck};
ghost use Rattle.validity_period.specs.declared.ValidityPeriod.TheVariants.{Relative};
ghost use Rattle.submit.specs.Submit.{submit, submitting, read_with as submitReadWith};
ghost use Rattle.deliver.specs.Deliver.{deliver, delivering, read_with as deliverReadWith};
ghost use Rattle.status_report.specs.StatusReport.{status_report, status_reporting, read_with as statusReportReadWith};
ghost use Rattle.submit_report.specs.SubmitReport.{layout_of as submitReportLayout, submit_reporting, read_with as submitReportReadWith};
ghost use Rattle.deliver_report.specs.DeliverReport.{layout_of as deliverReportLayout, deliver_reporting, read_with as deliverReportReadWith};
ghost use Rattle.octets.specs.Refusals.{refusal_number};
ghost use Rattle.bench_exports.specs.Numbers.{address_array, user_data_array, count_number, lent_number, packed_number, sent_number, emptied_number, accepted_number, strings_number, message_number, taken_number, deliver_number, submit_number, status_report_number, submit_report_number, deliver_report_number, unpacked_number, digits_number, elements_number, relay_number};

use octets::Held;
use tpdu::{
    HeaderElements, MessageTaken, Reference, Refusal, RelayAddress, RpOutcome, SMSAddress,
    SmsDeliver, SmsDeliverReport, SmsStatusReport, SmsSubmit, SmsSubmitReport, Time, UserData,
    ValidityPeriod,
};

// The number of a refusal.
fn refused(why: Refusal) -> usize
    ensures { result ≡ 256 + refusal_number why }
{
    256 + why.number() as usize
}

// The number of a writer's answer.
fn written(w: Result<usize, Refusal>) -> usize
    ensures { result ≡ count_number w }
{
    w.unwrap_or_else(|why| refused(why))
}

// The arrays of what a message may have: zeros where it isn't there.
#[tactic(auto, unfolding(octets::specs::Held::holding, octets::specs::Arrays::pad))]
fn address_array(address: Option<SMSAddress>) -> [u8; 290]
    ensures { result ≡ address_array address }
{
    address.unwrap_or_default().address.octets
}

#[tactic(auto, unfolding(octets::specs::Held::holding, octets::specs::Arrays::pad))]
fn user_data_array(user_data: Option<UserData>) -> [u8; 255]
    ensures { result ≡ user_data_array user_data }
{
    user_data.unwrap_or_default().octets
}

// The first octets of an array.
fn held<const N: usize>(octets: &[u8; N], length: usize) -> Held<N>
    ensures { result ≡ record { octets = octets.now; length = length } }
{
    Held {
        octets: *octets,
        length,
    }
}

// An address whose text is the first octets of an array.
fn address_of(ton: u8, npi: u8, text: &[u8; 290], length: usize) -> SMSAddress
    ensures { result ≡ record { ton = ton; npi = npi; address = record { octets = text.now; length = length } } }
{
    SMSAddress {
        ton,
        npi,
        address: held(text, length),
    }
}

// The number of octets of user data, and the arrays of the message.
#[unsafe(no_mangle)]
pub extern "C" fn tpdu_read_deliver(
    data: &[u8],
    address: &mut [u8; 290],
    time: &mut [u8; 14],
    user_data: &mut [u8; 255],
) -> usize
    ensures { (result, address.new, time.new, user_data.new) ≡ deliver_number (answer (deliverReadWith «data».now) (read deliver «data».now)) }
{
    match SmsDeliver::decode(data) {
        Ok(read) => {
            let number = read.message.tp_originating_address.address.octets;
            *address = number;
            let sent_digits = read.message.tp_service_centre_timestamp.octets;
            *time = sent_digits;
            let octets = read.message.tp_user_data.octets;
            *user_data = octets;
            read.message.tp_user_data.length
        }
        Err(why) => {
            *address = [0; 290];
            *time = [0; 14];
            *user_data = [0; 255];
            refused(why)
        }
    }
}

// The number of octets read, and the arrays of the message, without those of its validity period.
#[unsafe(no_mangle)]
pub extern "C" fn tpdu_read_submit(
    data: &[u8],
    address: &mut [u8; 290],
    user_data: &mut [u8; 255],
    header: &mut [u8; 255],
    text: &mut [u8; 510],
) -> usize
    ensures { (result, address.new, user_data.new, header.new, text.new) ≡ submit_number (answer (submitReadWith «data».now) (read submit «data».now)) }
{
    match tpdu::decode_sms_submit_tpdu(data) {
        Ok(read) => {
            *address = address_array(read.message.tp_destination_address);
            let octets = read.message.tp_user_data_raw.octets;
            *user_data = octets;
            *header = user_data_array(read.message.tp_user_data_header);
            let shown = read.message.tp_user_data.octets;
            *text = shown;
            read.octets_read
        }
        Err(why) => {
            *address = [0; 290];
            *user_data = [0; 255];
            *header = [0; 255];
            *text = [0; 510];
            refused(why)
        }
    }
}

// The number of octets of user data, and the arrays of the message.
#[unsafe(no_mangle)]
pub extern "C" fn tpdu_read_status_report(
    data: &[u8],
    address: &mut [u8; 290],
    sent: &mut [u8; 14],
    done: &mut [u8; 14],
    user_data: &mut [u8; 255],
) -> usize
    ensures { (result, address.new, sent.new, done.new, user_data.new) ≡ status_report_number (answer (statusReportReadWith «data».now) (read status_report «data».now)) }
{
    match SmsStatusReport::decode(data) {
        Ok(read) => {
            let number = read.message.tp_recipient_address.address.octets;
            *address = number;
            let sent_digits = read.message.tp_service_centre_timestamp.octets;
            *sent = sent_digits;
            let done_digits = read.message.tp_discharge_time.octets;
            *done = done_digits;
            let octets = read.message.tp_user_data.octets;
            *user_data = octets;
            read.message.tp_user_data.length
        }
        Err(why) => {
            *address = [0; 290];
            *sent = [0; 14];
            *done = [0; 14];
            *user_data = [0; 255];
            refused(why)
        }
    }
}

#[unsafe(no_mangle)]
pub extern "C" fn tpdu_read_submit_report(
    data: &[u8],
    time: &mut [u8; 14],
    user_data: &mut [u8; 255],
) -> usize
    ensures { (result, time.new, user_data.new) ≡ submit_report_number (answer (submitReportReadWith «data».now) (read (submitReportLayout RpAck) «data».now)) }
{
    match SmsSubmitReport::decode_for_rp_ack(data) {
        Ok(read) => {
            let sent_digits = read.message.tp_service_centre_timestamp.octets;
            *time = sent_digits;
            let octets = read.message.tp_user_data.octets;
            *user_data = octets;
            read.message.tp_user_data.length
        }
        Err(why) => {
            *time = [0; 14];
            *user_data = [0; 255];
            refused(why)
        }
    }
}

#[unsafe(no_mangle)]
pub extern "C" fn tpdu_read_deliver_report(data: &[u8], user_data: &mut [u8; 255]) -> usize
    ensures { (result, user_data.new) ≡ deliver_report_number (answer (deliverReportReadWith «data».now) (read (deliverReportLayout RpAck) «data».now)) }
{
    match SmsDeliverReport::decode_for_rp_ack(data) {
        Ok(read) => {
            let octets = read.message.tp_user_data.octets;
            *user_data = octets;
            read.message.tp_user_data.length
        }
        Err(why) => {
            *user_data = [0; 255];
            refused(why)
        }
    }
}

// The number of octets packed.
#[unsafe(no_mangle)]
pub extern "C" fn tpdu_pack(text: &[u8], out: &mut [u8]) -> usize
    ensures { (result, out.new) ≡ packed_number (lend (packing [] text.now) out.old) }
{
    written(tpdu::pack_gsm7(text, out).map(|packed| packed.octets))
}

// The number of octets of a text's messages.
#[unsafe(no_mangle)]
pub extern "C" fn tpdu_concatenate(text: &[u8], reference: u8, out: &mut [u8]) -> usize
    ensures { (result, out.new) ≡ sent_number (lend (concatenating reference text.now) out.old) }
{
    written(tpdu::pack_gsm7_concatenated(text, reference, out).map(|sent| sent.octets))
}

// The number of octets of a block by column.
#[unsafe(no_mangle)]
pub extern "C" fn tpdu_to_columns(octets: &[u8], lengths: &[usize], out: &mut [u8]) -> usize
    ensures { (result, out.new) ≡ lent_number (lend (writing octets.now lengths.now) out.old) }
{
    written(tpdu::to_columns(octets, lengths, out))
}

// The number of octets of the strings of a block.
#[unsafe(no_mangle)]
pub extern "C" fn tpdu_from_columns(block: &[u8], octets: &mut [u8], lengths: &mut [usize]) -> usize
    ensures { (result, octets.new, lengths.new) ≡ strings_number (lend_both (reading block.now) octets.old lengths.old) }
{
    written(tpdu::from_columns(block, octets, lengths).map(|strings| strings.octets))
}

// 0, and the store is empty.
#[unsafe(no_mangle)]
pub extern "C" fn tpdu_empty_store(store: &mut [u8]) -> usize
    ensures { (result, store.new) ≡ emptied_number (emptied store.old) }
{
    written(tpdu::empty_store(store).map(|()| 0))
}

// How many parts of the message are still missing.
#[unsafe(no_mangle)]
pub extern "C" fn tpdu_accept_part(store: &mut [u8], data: &[u8]) -> usize
    ensures { (result, store.new) ≡ accepted_number (accepting «data».now store.old) }
{
    written(tpdu::accept_part(store, data).map(|accepted| accepted.missing.length))
}

// The number of octets of text, and the text.
#[unsafe(no_mangle)]
pub extern "C" fn tpdu_unpack(data: &[u8], septets: usize, text: &mut [u8; 510]) -> usize
    ensures { (result, text.new) ≡ unpacked_number (unpacked «data».now 0 septets) }
{
    match tpdu::unpack_gsm7(data, septets) {
        Ok(read) => {
            let shown = read.text.octets;
            *text = shown;
            read.text.length
        }
        Err(why) => {
            *text = [0; 510];
            refused(why)
        }
    }
}

// The number of octets packed.
#[unsafe(no_mangle)]
pub extern "C" fn tpdu_ucs2_to_gsm7(ucs2: &[u8], out: &mut [u8]) -> usize
    ensures { (result, out.new) ≡ packed_number (lend (to_gsm7 ucs2.now) out.old) }
{
    written(tpdu::ucs2_to_gsm7(ucs2, out).map(|packed| packed.octets))
}

// The number of octets of UCS2.
#[unsafe(no_mangle)]
pub extern "C" fn tpdu_gsm7_to_ucs2(data: &[u8], septets: usize, out: &mut [u8]) -> usize
    ensures { (result, out.new) ≡ lent_number (lend (to_ucs2 «data».now septets) out.old) }
{
    written(tpdu::gsm7_to_ucs2(data, septets, out))
}

// An address whose text is the first octets of an array.
#[unsafe(no_mangle)]
pub extern "C" fn tpdu_address(
    ton: u8,
    npi: u8,
    text: &[u8; 290],
    length: usize,
    out: &mut [u8],
) -> usize
    ensures { (result, out.new) ≡ lent_number (lend (encoding (record { ton = ton; npi = npi; address = record { octets = text.now; length = length } })) out.old) }
{
    written(address_of(ton, npi, text, length).encode(out))
}

// The digits of a time, and their number.
#[unsafe(no_mangle)]
pub extern "C" fn tpdu_digits(
    year: u8,
    month: u8,
    day: u8,
    hour: u8,
    minute: u8,
    second: u8,
    zone: i8,
    digits: &mut [u8; 14],
) -> usize
    ensures { (result, digits.new) ≡ digits_number (timestamp year month day hour minute second zone) }
{
    match tpdu::timestamp_digits(year, month, day, hour, minute, second, zone) {
        Ok(read) => {
            *digits = read;
            14
        }
        Err(why) => {
            *digits = [0; 14];
            refused(why)
        }
    }
}

// The number of elements of a header, and their arrays.
#[unsafe(no_mangle)]
pub extern "C" fn tpdu_read_elements(
    header: &[u8],
    identifiers: &mut [u8; 127],
    lengths: &mut [u8; 127],
    values: &mut [u8; 253],
) -> usize
    ensures { (result, identifiers.new, lengths.new, values.new) ≡ elements_number (elements_read header.now) }
{
    match tpdu::read_header_elements(header) {
        Ok(read) => {
            let given = read.identifiers;
            *identifiers = given;
            let sizes = read.lengths;
            *lengths = sizes;
            let octets = read.octets;
            *values = octets;
            read.count
        }
        Err(why) => {
            *identifiers = [0; 127];
            *lengths = [0; 127];
            *values = [0; 253];
            refused(why)
        }
    }
}

// A header of elements that lie in arrays.
#[unsafe(no_mangle)]
pub extern "C" fn tpdu_write_elements(
    count: usize,
    identifiers: &[u8; 127],
    lengths: &[u8; 127],
    values: &[u8; 253],
    out: &mut [u8],
) -> usize
    ensures { (result, out.new) ≡ lent_number (lend (header_making (record { count = count; identifiers = identifiers.now; lengths = lengths.now; octets = values.now })) out.old) }
{
    let e = HeaderElements {
        count,
        identifiers: *identifiers,
        lengths: *lengths,
        octets: *values,
    };
    written(e.encode(out))
}

// The number of octets of an address of the relay layer, and its digits.
#[unsafe(no_mangle)]
pub extern "C" fn tpdu_read_relay_address(data: &[u8], digits: &mut [u8; 508]) -> usize
    ensures { (result, digits.new) ≡ relay_number (relay_read «data».now) }
{
    match tpdu::RelayAddress::decode(data) {
        Ok(read) => {
            match &read.address {
                Some(relay) => *digits = relay.address.octets,
                None => *digits = [0; 508],
            }
            read.octets_read
        }
        Err(why) => {
            *digits = [0; 508];
            refused(why)
        }
    }
}

// An address of the relay layer whose digits are the first octets of an array.
#[unsafe(no_mangle)]
pub extern "C" fn tpdu_write_relay_address(
    ton: u8,
    npi: u8,
    digits: &[u8; 508],
    length: usize,
    out: &mut [u8],
) -> usize
    ensures { (result, out.new) ≡ lent_number (lend (relay_making (Some (record { ton = ton; npi = npi; address = record { octets = digits.now; length = length } }))) out.old) }
{
    let a = RelayAddress {
        ton,
        npi,
        address: held(digits, length),
    };
    written(RelayAddress::encode(Some(a), out))
}

// The number of what taking a message answers.
fn message_octets(taken: Result<MessageTaken, Refusal>) -> usize
    ensures { result ≡ message_number taken }
{
    match taken {
        Ok(MessageTaken::Whole(_, n)) => n,
        Ok(MessageTaken::NotOpen) => 0,
        Ok(MessageTaken::NotWhole) => 0,
        Err(why) => refused(why),
    }
}

// The number of octets of a whole message, with a reference of one octet, of the address whose text is the first octets
// of an array.
#[unsafe(no_mangle)]
pub extern "C" fn tpdu_take_message(
    store: &mut [u8],
    ton: u8,
    npi: u8,
    text: &[u8; 290],
    length: usize,
    reference: u8,
    total: u8,
    out: &mut [u8],
) -> usize
    ensures { (result, store.new, out.new) ≡ taken_number (taking_by (record { ton = ton; npi = npi; address = record { octets = text.now; length = length } }) (Eight reference) total store.old out.old) }
{
    let a = address_of(ton, npi, text, length);
    message_octets(tpdu::take_message(store, a, Reference::Eight(reference), total, out))
}

// A message of its parts, written; the arrays hold what their lengths say.
#[unsafe(no_mangle)]
pub extern "C" fn tpdu_write_deliver(
    tp_rp: bool,
    tp_udhi: bool,
    tp_sri: bool,
    tp_lp: bool,
    tp_mms: bool,
    tp_mti: u8,
    ton: u8,
    npi: u8,
    address: &[u8; 290],
    address_length: usize,
    tp_pid: u8,
    tp_dcs: u8,
    time: &[u8; 14],
    tp_user_data_length: u8,
    user_data: &[u8; 255],
    length: usize,
    out: &mut [u8],
) -> usize
    ensures { (result, out.new) ≡ lent_number (lend (delivering (record { tp_rp = tp_rp; tp_udhi = tp_udhi; tp_sri = tp_sri; tp_lp = tp_lp; tp_mms = tp_mms; tp_mti = tp_mti; tp_originating_address = record { ton = ton; npi = npi; address = record { octets = address.now; length = address_length } }; tp_pid = tp_pid; tp_dcs = tp_dcs; tp_service_centre_timestamp = record { octets = time.now; length = 14 }; tp_user_data_length = tp_user_data_length; tp_user_data = record { octets = user_data.now; length = length } })) out.old) }
{
    let m = SmsDeliver {
        tp_rp,
        tp_udhi,
        tp_sri,
        tp_lp,
        tp_mms,
        tp_mti,
        tp_originating_address: address_of(ton, npi, address, address_length),
        tp_pid,
        tp_dcs,
        tp_service_centre_timestamp: held(time, 14),
        tp_user_data_length,
        tp_user_data: held(user_data, length),
    };
    written(m.encode(out))
}

#[unsafe(no_mangle)]
pub extern "C" fn tpdu_write_status_report(
    tp_udhi: bool,
    tp_srq: bool,
    tp_lp: bool,
    tp_mms: bool,
    tp_mr: u8,
    ton: u8,
    npi: u8,
    address: &[u8; 290],
    address_length: usize,
    sent: &[u8; 14],
    done: &[u8; 14],
    tp_status: u8,
    user_data: &[u8; 255],
    length: usize,
    out: &mut [u8],
) -> usize
    ensures { (result, out.new) ≡ lent_number (lend (status_reporting (record { tp_udhi = tp_udhi; tp_srq = tp_srq; tp_lp = tp_lp; tp_mms = tp_mms; tp_mr = tp_mr; tp_recipient_address = record { ton = ton; npi = npi; address = record { octets = address.now; length = address_length } }; tp_service_centre_timestamp = record { octets = sent.now; length = 14 }; tp_discharge_time = record { octets = done.now; length = 14 }; tp_status = tp_status; tp_parameter_indicator = None; tp_pid = None; tp_dcs = None; tp_user_data_length = None; tp_user_data = record { octets = user_data.now; length = length } })) out.old) }
{
    let m = SmsStatusReport {
        tp_udhi,
        tp_srq,
        tp_lp,
        tp_mms,
        tp_mr,
        tp_recipient_address: address_of(ton, npi, address, address_length),
        tp_service_centre_timestamp: held(sent, 14),
        tp_discharge_time: held(done, 14),
        tp_status,
        tp_parameter_indicator: None,
        tp_pid: None,
        tp_dcs: None,
        tp_user_data_length: None,
        tp_user_data: held(user_data, length),
    };
    written(m.encode(out))
}

#[unsafe(no_mangle)]
pub extern "C" fn tpdu_write_submit_report(
    tp_udhi: u8,
    tp_parameter_indicator: u8,
    time: &[u8; 14],
    pid: u8,
    dcs: u8,
    udl: u8,
    user_data: &[u8; 255],
    length: usize,
    out: &mut [u8],
) -> usize
    ensures { (result, out.new) ≡ lent_number (lend (submit_reporting (record { tp_udhi = tp_udhi; tp_failure_cause = None; tp_parameter_indicator = tp_parameter_indicator; tp_service_centre_timestamp = record { octets = time.now; length = 14 }; tp_pid = Some pid; tp_dcs = Some dcs; tp_user_data_length = Some udl; tp_user_data = record { octets = user_data.now; length = length }; rp_outcome = RpAck })) out.old) }
{
    let m = SmsSubmitReport {
        tp_udhi,
        tp_failure_cause: None,
        tp_parameter_indicator,
        tp_service_centre_timestamp: held(time, 14),
        tp_pid: Some(pid),
        tp_dcs: Some(dcs),
        tp_user_data_length: Some(udl),
        tp_user_data: held(user_data, length),
        rp_outcome: RpOutcome::RpAck,
    };
    written(m.encode(out))
}

#[unsafe(no_mangle)]
pub extern "C" fn tpdu_write_deliver_report(
    tp_udhi: bool,
    tp_parameter_indicator: u8,
    pid: u8,
    dcs: u8,
    udl: u8,
    user_data: &[u8; 255],
    length: usize,
    out: &mut [u8],
) -> usize
    ensures { (result, out.new) ≡ lent_number (lend (deliver_reporting (record { tp_udhi = tp_udhi; tp_failure_cause = None; tp_parameter_indicator = tp_parameter_indicator; tp_pid = Some pid; tp_dcs = Some dcs; tp_user_data_length = Some udl; tp_user_data = record { octets = user_data.now; length = length }; rp_outcome = RpAck })) out.old) }
{
    let m = SmsDeliverReport {
        tp_udhi,
        tp_failure_cause: None,
        tp_parameter_indicator,
        tp_pid: Some(pid),
        tp_dcs: Some(dcs),
        tp_user_data_length: Some(udl),
        tp_user_data: held(user_data, length),
        rp_outcome: RpOutcome::RpAck,
    };
    written(m.encode(out))
}

// The validity period is relative.
#[unsafe(no_mangle)]
pub extern "C" fn tpdu_write_submit(
    tp_rp: bool,
    tp_udhi: bool,
    tp_srr: bool,
    tp_mti: u8,
    tp_rd: bool,
    tp_vpf: u8,
    tp_mr: u8,
    ton: u8,
    npi: u8,
    address: &[u8; 290],
    address_length: usize,
    tp_pid: u8,
    tp_dcs: u8,
    period: u8,
    tp_user_data_length: u8,
    user_data: &[u8; 255],
    length: usize,
    has_user_data_header: bool,
    header: &[u8; 255],
    header_length: usize,
    text: &[u8; 510],
    text_length: usize,
    out: &mut [u8],
) -> usize
    ensures { (result, out.new) ≡ lent_number (lend (submitting (record { tp_rp = tp_rp; tp_udhi = tp_udhi; tp_srr = tp_srr; tp_mti = tp_mti; tp_rd = tp_rd; tp_vpf = tp_vpf; tp_mr = tp_mr; tp_destination_address = Some (record { ton = ton; npi = npi; address = record { octets = address.now; length = address_length } }); tp_pid = tp_pid; tp_dcs = tp_dcs; tp_validity_period = Relative period; validity_period_digits = record { octets = replicate 14 0; length = 0 }; validity_period_octets = replicate 7 0; tp_user_data_length = tp_user_data_length; tp_user_data_raw = record { octets = user_data.now; length = length }; tp_user_data_header = then_some has_user_data_header (record { octets = header.now; length = header_length }); tp_user_data = record { octets = text.now; length = text_length } })) out.old) }
{
    let m = SmsSubmit {
        tp_rp,
        tp_udhi,
        tp_srr,
        tp_mti,
        tp_rd,
        tp_vpf,
        tp_mr,
        tp_destination_address: Some(address_of(ton, npi, address, address_length)),
        tp_pid,
        tp_dcs,
        tp_validity_period: ValidityPeriod::Relative(period),
        validity_period_digits: Time::default(),
        validity_period_octets: [0u8; 7],
        tp_user_data_length,
        tp_user_data_raw: held(user_data, length),
        tp_user_data_header: has_user_data_header.then_some(held(header, header_length)),
        tp_user_data: held(text, text_length),
    };
    written(m.encode(out))
}
