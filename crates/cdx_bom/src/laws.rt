//! The laws of roads, and of documents without their empty texts. Each is the contract of a function that does nothing.

ghost use Rattle.cdx_bom.specs.EmptyTexts.{ReadsAsWhole, MissesText};
ghost use Rattle.cdx_bom.specs.Laws.{RoadsSettle, PartsJoin, FirstMisses, SecondMisses, NoThird};

/// Roads settle. Take two roads from one document, or one road twice, and a hop of each, such that these hops have the
/// same form and version, the same lowest version so far, and as many hops through XML so far, counted to two, all of
/// this with the hop itself. Then their documents are equal, save that in JSON 1.5 the one may have an empty tool list
/// where the other has a tools object without parts.
pub fn roads_settle()
    ensures { RoadsSettle }
{}

/// A road in two parts, the second from the last document of the first, read in its version. Where neither part is
/// refused, the whole road has the documents of the first and then those of the second. The whole is refused for a
/// missing version exactly where the first part is, or where the first part isn't refused and the second is.
pub fn roads_join()
    ensures whole { PartsJoin }
    ensures first { FirstMisses }
    ensures second { SecondMisses }
    ensures only { NoThird }
{}

/// The document that a version writes of a shallow bill that fits it is read without its empty texts, as by
/// `Bom::parse_from_xml_v1_5` of what `without_empty_texts` gives. Where no attached text, license id or license name is
/// empty, the answer is the bill that the whole document denotes. Where one is, it is `UnexpectedElementReadError` at the
/// end of the first of these elements. Want of memory may come in place of either.
pub fn reads_without_empty_texts()
    ensures whole { ReadsAsWhole }
    ensures missing { MissesText }
{}
