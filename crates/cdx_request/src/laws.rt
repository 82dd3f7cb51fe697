//! The laws of requests and replies. Each is the contract of a function that does nothing.

ghost use Rattle.cdx_request.specs.Alone.{AskedAlone, DocsAlone, EventsAlone, HopsAlone, RequestsAlone, SentAlone};
ghost use Rattle.cdx_request.specs.Breaks.{BreaksLaw};
ghost use Rattle.cdx_request.specs.Served.{AnsweredHaveRoots, AnswersNest, AskedHaveRoots, DocsBack, EventsBack, MadeLaw, NoFloatRefused, NoFloats, ReplyLaw, RequestsBack, ValidLaw};

/// The events of a request that have no root break at one place: the first that no balanced list goes on with, or
/// their number where each of them goes on. That is the place of an answer that they are unbalanced.
pub fn breaks()
    ensures { BreaksLaw }
{}

/// The events of a document in an answer are read back from a request.
pub fn events_back()
    ensures { EventsBack }
{}

/// No other value is read as events: it is an array that writes them, one item for each, up to the order of members
/// and an empty list of attributes.
pub fn events_alone()
    ensures { EventsAlone }
{}

/// A document in an answer, and a request that is written, are read back, where the document has a root. Each document
/// that is asked or answered has one.
pub fn requests_back()
    ensures docs { DocsBack }
    ensures requests { RequestsBack }
    ensures asked { AskedHaveRoots }
    ensures answered { AnsweredHaveRoots }
{}

/// No other value is read as a document, a hop or a request: it is the one that writes it, up to the order of members
/// and an empty list of attributes in a document's events. That holds of what is asked before it is seen whether the
/// events are balanced, and of the request.
pub fn requests_alone()
    ensures sent { SentAlone }
    ensures docs { DocsAlone }
    ensures hops { HopsAlone }
    ensures asked { AskedAlone }
    ensures requests { RequestsAlone }
{}

/// No answer holds a float.
pub fn no_floats()
    ensures documents { NoFloats }
    ensures refused { NoFloatRefused }
{}

/// A reply of status 0 serves one request: it holds the documents of its road.
pub fn reply_law()
    ensures { ReplyLaw }
{}

/// A valid request that isn't too long is owed such a reply. A request is valid where its document denotes a bill that
/// fits every hop.
pub fn valid_law()
    ensures { ValidLaw }
{}

/// An answer of documents nests no deeper than 107 arrays and objects, so that `serde_json` reads it again.
pub fn answers_nest()
    ensures { AnswersNest }
{}

/// The road of a made bill is an XML document and then a JSON document, whose events and bytes its answer counts.
pub fn made_law()
    ensures { MadeLaw }
{}
