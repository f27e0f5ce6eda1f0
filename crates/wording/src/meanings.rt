// What an octet means: coding schemes, statuses and causes.
use output::Output;
use std::fmt::Write;
use tpdu::UserDataCoding;

fn coding_name(dcs: u8) -> &'static str {
    match tpdu::user_data_coding(dcs) {
        UserDataCoding::Gsm7Bit => "7-bit",
        UserDataCoding::EightBit => "8-bit",
        UserDataCoding::Ucs2 => "UCS2",
        UserDataCoding::Compressed => "compressed",
    }
}

// A coding with its TP-DCS (TS 23.038 §4): `7-bit (DCS 00)`.
pub fn put_coding(out: &mut Output, dcs: u8) {
    let name = coding_name(dcs);
    let _ = write!(out, "{name} (DCS {dcs:02x})");
}

// What a group of 32 statuses says of the transaction.
fn status_group(status: u8) -> &'static str {
    match status {
        0x00..=0x1F => "transaction completed: ",
        0x20..=0x3F => "temporary error, still trying: ",
        0x40..=0x5F => "permanent error, not trying any more: ",
        0x60..=0x7F => "temporary error, not trying any more: ",
        _ => "",
    }
}

// The statuses from 60 to 6F mean the same as those from 20 to 2F.
fn status_meaning(status: u8) -> &'static str {
    match status {
        0x00 => "Short message received by the SME",
        0x01 => {
            "Short message forwarded by the SC to the SME but the SC is unable to confirm delivery"
        }
        0x02 => "Short message replaced by the SC",
        0x20 | 0x60 => "Congestion",
        0x21 | 0x61 => "SME busy",
        0x22 | 0x62 => "No response from SME",
        0x23 | 0x63 => "Service rejected",
        0x24 | 0x64 => "Quality of service not available",
        0x25 | 0x65 => "Error in SME",
        0x40 => "Remote procedure error",
        0x41 => "Incompatible destination",
        0x42 => "Connection rejected by SME",
        0x43 => "Not obtainable",
        0x44 => "Quality of service not available",
        0x45 => "No interworking available",
        0x46 => "SM Validity Period Expired",
        0x47 => "SM Deleted by originating SME",
        0x48 => "SM Deleted by SC Administration",
        0x49 => "SM does not exist",
        0x10..=0x1F | 0x30..=0x3F | 0x50..=0x5F | 0x70..=0x7F => "Values specific to each SC",
        _ => "Reserved",
    }
}

// A TP-Status and what it means (TS 23.040 §9.2.3.15).
pub fn put_status(out: &mut Output, status: u8) {
    let group = status_group(status);
    let meaning = status_meaning(status);
    let _ = write!(out, "{status:02x} {group}{meaning}");
}

// The causes: those of TP-PID and TP-DCS, of commands and messages, of the service centre, and of the mobile station.
fn cause_meaning(cause: u8) -> &'static str {
    match cause {
        0x80 => "Telematic interworking not supported",
        0x81 => "Short message Type 0 not supported",
        0x82 => "Cannot replace short message",
        0x8F => "Unspecified TP-PID error",
        0x90 => "Data coding scheme (alphabet) not supported",
        0x91 => "Message class not supported",
        0x9F => "Unspecified TP-DCS error",
        0xA0 => "Command cannot be actioned",
        0xA1 => "Command unsupported",
        0xAF => "Unspecified TP-Command error",
        0xB0 => "TPDU not supported",
        0xC0 => "SC busy",
        0xC1 => "No SC subscription",
        0xC2 => "SC system failure",
        0xC3 => "Invalid SME address",
        0xC4 => "Destination SME barred",
        0xC5 => "SM Rejected-Duplicate SM",
        0xC6 => "TP-VPF not supported",
        0xC7 => "TP-VP not supported",
        0xD0 => "(U)SIM SMS storage full",
        0xD1 => "No SMS storage capability in (U)SIM",
        0xD2 => "Error in MS",
        0xD3 => "Memory Capacity Exceeded",
        0xD4 => "(U)SIM Application Toolkit Busy",
        0xD5 => "(U)SIM data download error",
        0xE0..=0xFE => "Values specific to an application",
        0xFF => "Unspecified error cause",
        _ => "Reserved",
    }
}

// A TP-Failure-Cause and what it means (TS 23.040 §9.2.3.22).
pub fn put_cause(out: &mut Output, cause: u8) {
    let meaning = cause_meaning(cause);
    let _ = write!(out, "{cause:02x} {meaning}");
}
