// What the reports share: an octet of a record that may be absent (a parameter, the cause, an indicator), and the outcome
// that carries a report.
#![tactic(auto)]

pub mod reading;
pub mod writing;

ghost use Rattle.std.specs.Prelude.{◌≡◌, ◌+◌, ◌≤◌, length};
ghost use Rattle.octets.specs.Lent.{Wrote};
ghost use Rattle.parameters.specs.Optional.{octets_held, held};
ghost use Rattle.parameters.specs.Outcome.{outcome_agrees};

// The octets of a report's parameters (TS 23.040 §9.2.3.27), each held or not.
#[derive(Clone, Copy, Debug, Default, PartialEq, Eq)]
pub struct ParameterOctets {
    pub pid: Option<u8>,
    pub dcs: Option<u8>,
    pub udl: Option<u8>,
}

// What carries a report: an RP-ACK, or an RP-ERROR, which alone has a cause. A blank record holds RP-ACK.
#[derive(Clone, Copy, Debug, Default, PartialEq, Eq)]
pub enum RpOutcome {
    #[default]
    RpAck,
    RpError,
}

// Whether an outcome and the cause held agree: an RP-ERROR has one, an RP-ACK none.
pub fn outcome_agrees(outcome: RpOutcome, cause: Option<u8>) -> bool
    ensures { result ≡ outcome_agrees outcome cause }
{
    match outcome {
        RpOutcome::RpAck => cause.is_none(),
        RpOutcome::RpError => cause.is_some(),
    }
}

// How many octets an optional octet takes.
pub fn octets_held(octet: Option<u8>) -> usize
    ensures { result ≡ held octet }
{
    match octet {
        None => 0,
        Some(_) => 1,
    }
}

// Writes an optional octet at `at`; the place after it.
pub fn put_optional(out: &mut [u8], at: usize, octet: Option<u8>) -> usize
    requires { at + held octet ≤ length out.old }
    ensures { Wrote at (octets_held octet) out.old result out.new }
{
    match octet {
        None => at,
        Some(x) => octets::put_octet(out, at, x),
    }
}
