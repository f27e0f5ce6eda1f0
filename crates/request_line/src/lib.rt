// The line of a request: what its fields may hold, header elements, the keys of a record, the readers of messages, and why a line isn't well formed.
#![tactic(auto)]

pub mod elements;
pub mod keys;
pub mod readers;
pub mod reasons;
pub mod values;
