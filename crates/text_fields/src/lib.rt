// The fields of a line, and octets cut and searched where std has no method for it.
#![tactic(auto)]

pub mod fields;
pub mod slices;
