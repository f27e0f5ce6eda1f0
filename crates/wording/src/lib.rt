// What octets mean, in words for people: times, codings, statuses, causes, header elements and
// refusals; and the labels of lines.
#![tactic(auto)]

pub mod calendar;
pub mod elements;
pub mod labels;
pub mod meanings;
pub mod refusals;
pub mod values;
