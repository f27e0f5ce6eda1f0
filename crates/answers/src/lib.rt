// The answers to requests: a reader's record, a writer's octets, conversions that need no message, and parts gathered.
#![tactic(auto)]

mod blocks;
pub mod conversions;
mod elements;
pub mod fields;
pub mod gathering;
pub mod page;
pub mod reading;
mod relay;
pub mod writing;
