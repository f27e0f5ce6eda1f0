// The refusals in words: what each means. Its number is what `Display` prints, its name what `Debug` does.
use output::Output;
use std::fmt::Write;
use tpdu::Refusal;

pub fn meaning(refusal: Refusal) -> &'static str {
    match refusal {
        Refusal::LengthTooLarge => {
            "A record's length field passes its array, or a text reader's count passes 255"
        }
        Refusal::OctetsEnd => "The octets end inside a field",
        Refusal::WrongMessageType => "TP-MTI isn't the kind's",
        Refusal::UdhiTooLarge => "SUBMIT-REPORT's UDHI field passes 1",
        Refusal::ValidityFormatDisagrees => "VPF disagrees with the validity period held",
        Refusal::NoDestination => "SUBMIT has no destination",
        Refusal::UserDataLengthDisagrees => "User data length disagrees with UDL and DCS",
        Refusal::UserDataTooLong => "User data pass the limit of the writer",
        Refusal::NumberTypeOrPlanTooLarge => "Type of number passes 7 or plan passes 15",
        Refusal::NotInAlphabet => "A character isn't in the alphabet used, or isn't UTF-8",
        Refusal::AddressTooLong => "The address value passes 10 octets",
        Refusal::NotATime => "A time isn't 14 hexadecimal digits",
        Refusal::IndicatorDisagrees => "Indicator and parameters held disagree",
        Refusal::IndicatorExtended => "Indicator bit 7 is set in writing",
        Refusal::UserDataWithoutLength => "User data are held without UDL",
        Refusal::ParametersWithoutIndicator => {
            "STATUS-REPORT holds parameters or user data without indicator"
        }
        Refusal::HeaderNotWhole => {
            "The header is empty, longer than the data, or, in packing, not as long as its first octet says"
        }
        Refusal::HeaderPassesCount => "The header takes more septets than counted",
        Refusal::TooFewOctets => "Octets are too few for fill bits and septets",
        Refusal::CalendarOutOfRange => "A calendar value is out of range",
        Refusal::ZoneOutOfRange => "The zone passes 79 either way",
        Refusal::TooManySeptets => "Header and text take more than 255 septets",
        Refusal::OutputTooShort => "A lent output is too short",
        Refusal::ElementPassesHeader => {
            "An element passes the header's end, or a lone identifier octet is left"
        }
        Refusal::ElementsTooLong => {
            "Elements to be written need more than 255 octets after the first"
        }
        Refusal::TooManyParts => "No cutting of the text into at most 255 parts exists",
        Refusal::StoreFull => "A new message comes while 16 are open",
        Refusal::NotAPart => {
            "The user data are no part of a message in parts, or disagree with what is held of it"
        }
        Refusal::OutcomeDisagrees => "The outcome is RP-ERROR without a cause, or RP-ACK with one",
        Refusal::OddOctets => "The UCS2 has an odd number of octets",
        Refusal::InNeitherTable => "A character is in neither table of the alphabet",
        Refusal::AlphanumericRelayAddress => "A relay address to be written has type of number 5",
        Refusal::TooManyRecords => "More than 99 records",
        Refusal::RecipientNotPrintable => {
            "A recipient passes 20 octets or holds one outside 20 to 7E"
        }
        Refusal::StringsTooLarge => "More than 1,000 strings, or one longer than 255 octets",
        Refusal::BlockNotWhole => {
            "A block ends early, has octets left over, or has a number too large or with a needless group"
        }
    }
}

// Whom an answer is for.
#[derive(Clone, Copy, Debug, PartialEq, Eq)]
pub enum Audience {
    Programs,
    People,
}

// The answer that is a refusal: with its name, or, for people, with its meaning.
pub fn put_refused(out: &mut Output, refusal: Refusal, audience: Audience) {
    let meaning = meaning(refusal);
    let _ = match audience {
        Audience::Programs => write!(out, "{refusal} {refusal:?}"),
        Audience::People => write!(out, "{refusal} {meaning}"),
    };
}
