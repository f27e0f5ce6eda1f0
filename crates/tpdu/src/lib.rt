// SMS transfer-layer codec (TS 23.040, TS 23.038), the face: every public function and type, nothing else. What the Rust
// crate tpdu has too stands under its names.
#![tactic(auto)]

pub use address::SMSAddress;
pub use alphabet_table::{ALPHABET_OCTETS, alphabet_lines};
pub use canonical::{
    canonical_deliver, canonical_deliver_report_ack, canonical_deliver_report_error,
    canonical_status_report, canonical_submit, canonical_submit_report_ack,
    canonical_submit_report_error,
};
pub use coding::{UserData, UserDataCoding, user_data_coding};
pub use columns::{Strings, from_columns, to_columns};
pub use concatenation::{Concatenated, pack_gsm7_concatenated};
pub use cursor::{Cursor, submit_behind};
pub use deliver::{DeliverRead, SmsDeliver};
pub use deliver_report::{DeliverReportRead, SmsDeliverReport};
pub use gsm7::decode::{Unpacked, unpack_gsm7};
pub use gsm7::packing::{Packed, pack_gsm7};
pub use header_elements::{HeaderElements, read_header_elements};
pub use octets::{Held, Refusal};
pub use parameters::RpOutcome;
pub use part_number::{PartNumber, Reference};
pub use reassembly::{
    MESSAGE_OCTETS, MessageDropped, MessageTaken, PartAccepted, STORE_OCTETS, accept_part,
    drop_message, empty_store, take_message,
};
pub use relay_address::{RelayAddress, RelayAddressRead};
pub use shift_page::shift_page;
pub use status_report::{SmsStatusReport, StatusReportRead};
pub use submit::{SmsSubmit, SubmitRead, SubmitText, decode_sms_submit_tpdu};
pub use submit_report::{SmsSubmitReport, SubmitReportRead};
pub use time::Time;
pub use time::timestamp::timestamp_digits;
pub use ucs2::{gsm7_to_ucs2, ucs2_to_gsm7};
pub use user_data_header::{UnpackedWithHeader, pack_gsm7_with_header, unpack_gsm7_with_header};
pub use validity_period::ValidityPeriod;
