// The labels of lines.
use output::Output;
use std::fmt::Write;

#[derive(Clone, Copy, Debug, PartialEq, Eq)]
pub enum Label {
    From,
    To,
    Time,
    Sent,
    Done,
    Valid,
    Report,
    Reference,
    Status,
    Cause,
    Coding,
    Header,
    Text,
    Data,
    Refused,
    Element,
    Note,
}

impl Label {
    fn word(self) -> &'static str {
        match self {
            Label::From => "from",
            Label::To => "to",
            Label::Time => "time",
            Label::Sent => "sent",
            Label::Done => "done",
            Label::Valid => "valid",
            Label::Report => "report",
            Label::Reference => "reference",
            Label::Status => "status",
            Label::Cause => "cause",
            Label::Coding => "coding",
            Label::Header => "header",
            Label::Text => "text",
            Label::Data => "data",
            Label::Refused => "refused",
            Label::Element => "element",
            Label::Note => "note",
        }
    }
}

// The start of a line: two spaces, the label, and spaces up to the value.
pub fn put_label(out: &mut Output, label: Label) {
    let word = label.word();
    let _ = write!(out, "  {word:<10}");
}
