// GSM 7-bit default alphabet text (TS 23.038 §6.2.1): the text of septets, and the septets of a text.
#![tactic(auto)]

pub mod decode;
pub mod encode;
pub mod packing;
