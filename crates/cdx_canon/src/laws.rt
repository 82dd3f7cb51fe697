//! The laws of canonical texts. Each is the contract of a function that does nothing.
//!
//! The *plain* bill is the bill with the label 1.5 and with a tools object without parts in place of an empty tool
//! list. The *canonical text* of a bill is the compact text of the JSON spelling of its plain bill in 1.5. A bill is
//! *shallow* where no component stands inside 32 components and no service inside 32 services, as in every bill that is
//! read. The laws ask for the shape of a bill and nothing of its texts.

ghost use Rattle.cdx_canon.specs.Canon.{OneText, TextReadsBack, KeepsText, RoadsKeepText, AnswersKeepText};

/// The texts of two shallow bills are equal exactly where their plain bills are, so exactly where the bills are the
/// same but for the label.
pub fn one_text()
    ensures { OneText }
{}

/// `serde_json` reads a value from the text of a shallow bill. This value denotes the plain bill in 1.5, and the
/// plain bill has the same text.
pub fn text_reads_back()
    ensures { TextReadsBack }
{}

/// What 1.5 keeps of a bill has the bill's text.
pub fn keeps_text()
    ensures { KeepsText }
{}

/// Where all hops of a road are JSON 1.5, each of its documents denotes in 1.5 a bill that has the text of the bill
/// that the first document denotes. So it is with the documents that `road` answers.
pub fn roads_keep_text()
    ensures roads { RoadsKeepText }
    ensures answers { AnswersKeepText }
{}
