// What SMS-DELIVER-REPORT and SMS-SUBMIT-REPORT share (TS 23.040 §9.2.2.1a, §9.2.2.2a): all but TP-MTI, the time and the
// numbers of the standard's limits.
#![tactic(auto)]

pub mod reading;
pub mod writing;

ghost use Rattle.std.specs.Prelude.{◌≡◌};
ghost use Rattle.report.specs.Report.{standard_limit};

// The octets of TP-Service-Centre-Time-Stamp.
const TIME_OCTETS: usize = 7;

// The standard's limit of user data, of those of its tables for an RP-ACK and for an RP-ERROR, which a cause held means.
pub fn standard_limit(rp_ack: usize, rp_error: usize, cause: Option<u8>) -> usize
    ensures { result ≡ standard_limit rp_ack rp_error cause }
{
    match cause {
        None => rp_ack,
        Some(_) => rp_error,
    }
}
