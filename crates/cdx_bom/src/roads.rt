//! Documents beside those of the schema, and roads.

ghost use Rattle.std.specs.Prelude.{◌≡◌, IfOk, Ok, Some, option_map};
ghost use Rattle.cdx_models.specs.declared.bom.SpecVersion.{SpecVersion};
ghost use Rattle.cdx_schema.specs.Kinds.{a_bill};
ghost use Rattle.cdx_schema.specs.Keeping.{keep};
ghost use Rattle.cdx_schema.specs.Roads as roads;
ghost use Rattle.cdx_bom.specs.declared.doc.Doc.{Doc};
ghost use Rattle.cdx_bom.specs.Trees.{bom_tree};
ghost use Rattle.cdx_bom.specs.Docs.{IsDoc, hop_of, hops_of, refusal_of, AnswersDocs, AnswersRoad, AnswersHop};
ghost use Rattle.cdx_bom.specs.Hops.{any_first, DenotesBill, IsDenoted, stands_in, coming_back, next_of, hop_document, AnswersStart, StartsRoad};

use crate::bom::Bom;
use crate::doc::{Doc, Form, Hop, RoadError};
use crate::refused::lacks_version;
use crate::xml::writing::document_events;
use cdx_events::List;
use cdx_json::{Kept, ToJson};
use cdx_leaf::FromXmlDocument;
use cdx_models::SpecVersion;
use cdx_schema::Target;
use std::alloc::{AllocError, Global};

/// The document is one of the schema: the value that it holds, or the root that its events are the document of.
pub fn is_document(doc: &Doc)
    ensures { (x : roads.Doc) × IsDoc doc.now x }
{
    match doc {
        Doc::Json(_) => {}
        Doc::Xml(events) => {
            events.len();
        }
    }
}

/// A document is no other one of the schema.
pub fn one_document()
    ensures { (document : Doc) (x y : roads.Doc) → IsDoc document x → IsDoc document y → x ≡ y }
{}

// The bill that the document denotes, or its first fault.
fn bill_of(alloc: Global, doc: &Doc, version: SpecVersion) -> Result<Bom, RoadError>
    ensures { (x : roads.Doc) → IsDoc doc.now x → DenotesBill (roads.denotes x version) result }
{
    match doc {
        Doc::Json(value) => Ok(Bom::parse_json(alloc, value, version)?),
        Doc::Xml(events) => Ok(Bom::read_xml_document(alloc, events, version)?),
    }
}

// The document that a hop makes of the bill.
fn spell(alloc: Global, bill: &Bom, hop: Hop) -> Result<Doc, AllocError>
    ensures { IfOk result (λ d. IsDoc d (hop_document (bom_tree bill.now) (hop_of hop))) }
{
    match hop.form {
        Form::Json => Ok(Doc::Json(bill.to_value(alloc, hop.version)?)),
        Form::Xml => Ok(Doc::Xml(document_events(
            bill,
            Target {
                alloc,
                version: hop.version,
            },
        )?)),
    }
}

// The same of a bill that is freed with the call.
fn spell_freed(alloc: Global, bill: Bom, hop: Hop) -> Result<Doc, AllocError>
    ensures { IfOk result (λ d. IsDoc d (hop_document (bom_tree bill) (hop_of hop))) }
{
    let answer = spell(alloc, &bill, hop);
    drop(bill);
    answer
}

// Whether a hop is written in 1.3, which asks each component for a version.
fn asks_versions(hops: &[Hop]) -> bool
    ensures { result ≡ any_first (hops_of hops.now) }
{
    for hop in hops {
        if hop.version == SpecVersion::V1_3 {
            return true;
        }
    }
    false
}

/// Whether the version of each hop can hold the bill: where one is 1.3, each component outside of tools has a version.
/// It takes no memory.
#[tactic(auto, using(crate::proofs::Carried::asked))]
pub fn fits_all(bill: &Bom, hops: &[Hop]) -> bool
    ensures { result ≡ roads.fits_all (hops_of hops.now) (bom_tree bill.now) }
{
    !asks_versions(hops) || bill.fits(SpecVersion::V1_3)
}

/// The refusal of a road of which a hop's version can't hold the bill.
pub fn version_missing() -> RoadError
    ensures { refusal_of result ≡ Some roads.version_missing }
{
    RoadError::Bom(lacks_version())
}

// Whether what the hop's version has kept comes back of the hop's form.
fn stands_in(kept: &Bom, hop: Hop) -> bool
    ensures { result ≡ stands_in (hop_of hop).form (bom_tree kept.now) }
{
    match hop.form {
        Form::Json => true,
        Form::Xml => kept.survives(),
    }
}

// What the hop's version keeps of the bill, where its document denotes that.
fn coming_back(alloc: Global, bill: &Bom, hop: Hop) -> Result<Option<Bom>, AllocError>
    ensures { IfOk result
        (λ back. option_map bom_tree back ≡ coming_back (bom_tree bill.now) (hop_of hop)) }
{
    if !bill.fits(hop.version) {
        return Ok(None);
    }
    let kept = bill.kept(alloc, hop.version)?;
    if !stands_in(&kept, hop) {
        drop(kept);
        return Ok(None);
    }
    Ok(Some(kept))
}

/// The bill that the next hop of a road writes, after this hop has written its document of the bill: what the document
/// denotes, where the bill is one that a document denotes. Where the version can hold the bill and the form takes nothing
/// of it, that is what the version keeps, and no document is made; else the document is made and read, and `Json` or `Xml`
/// is its first fault. Want of memory comes only as `Memory`.
pub fn next_bill(alloc: Global, bill: Bom, hop: Hop) -> Result<Bom, RoadError>
    ensures exact { DenotesBill (next_of (bom_tree bill) (hop_of hop)) result }
    ensures denoted { IsDenoted (bom_tree bill) → DenotesBill
        (roads.denotes (hop_document (bom_tree bill) (hop_of hop)) hop.version) result }
{
    match coming_back(alloc, &bill, hop)? {
        Some(kept) => {
            drop(bill);
            Ok(kept)
        }
        None => {
            let doc = spell_freed(alloc, bill, hop)?;
            bill_of(alloc, &doc, hop.version)
        }
    }
}

// The same of a hop that has written this document.
fn read_again(alloc: Global, bill: Bom, doc: &Doc, hop: Hop) -> Result<Bom, RoadError>
    ensures { IsDoc doc.now (hop_document (bom_tree bill) (hop_of hop))
        → IsDenoted (bom_tree bill) → DenotesBill
        (roads.denotes (hop_document (bom_tree bill) (hop_of hop)) hop.version) result }
{
    let back = coming_back(alloc, &bill, hop)?;
    drop(bill);
    match back {
        Some(kept) => Ok(kept),
        None => bill_of(alloc, doc, hop.version),
    }
}

// The documents of the hops, each of the bill that the document before it denotes. The first hop writes the bill.
fn documents(alloc: Global, start: Bom, hops: &[Hop]) -> Result<List<Doc>, RoadError>
    ensures { (x : roads.Doc) (v : SpecVersion) → roads.denotes x v ≡ Ok (bom_tree start)
        → AnswersDocs (roads.hops_from x v (hops_of hops.now)) result }
{
    let mut docs = List::new(alloc);
    let Some((first, rest)) = hops.split_first() else {
        drop(start);
        return Ok(docs);
    };
    let mut bill = start;
    let mut hop = *first;
    for next in rest {
        let doc = spell(alloc, &bill, hop)?;
        bill = read_again(alloc, bill, &doc, hop)?;
        docs.push(doc)?;
        hop = *next;
    }
    let doc = spell_freed(alloc, bill, hop)?;
    docs.push(doc)?;
    Ok(docs)
}

// The bill, unless a hop's version can't hold it.
fn fitting(bill: Bom, hops: &[Hop]) -> Result<Bom, RoadError>
    ensures { (x : roads.Doc) (v : SpecVersion) → roads.denotes x v ≡ Ok (bom_tree bill)
        → AnswersStart x v (hops_of hops.now) result }
{
    if !fits_all(&bill, hops) {
        drop(bill);
        return Err(version_missing());
    }
    Ok(bill)
}

/// The documents of a road: each hop reads the document before it, in the version in which that was written, and
/// writes what its own version keeps of the bill, in its form. No hops make no documents.
///
/// `Json` or `Xml` is the first fault of `doc`, read in `version`. Else `Bom(BomSerializationError(V1_3, VersionMissing))`
/// comes exactly where a hop is in 1.3 and a component of the bill, outside of tools, has no version. Want of memory
/// comes only as `Memory`. A refused road gives no document.
pub fn road(
    alloc: Global,
    doc: &Doc,
    version: SpecVersion,
    hops: &[Hop],
) -> Result<List<Doc>, RoadError>
    ensures { AnswersRoad doc.now version hops.now result }
{
    let bill = bill_of(alloc, doc, version)?;
    let start = fitting(bill, hops)?;
    documents(alloc, start, hops)
}

/// The bill of a document, read in a version, or its first fault as `Json` or `Xml`. Nothing else needs the document: the
/// components of a JSON value are freed while they are read, and what else there is of it once its bill is read. Want of
/// memory comes only as `Memory`.
pub fn into_bill(alloc: Global, doc: Doc, version: SpecVersion) -> Result<Bom, RoadError>
    ensures { (x : roads.Doc) → IsDoc doc x → DenotesBill (roads.denotes x version) result }
{
    match doc {
        Doc::Json(value) => Ok(Bom::parse_owned(alloc, value, version)?),
        other => bill_of(alloc, &other, version),
    }
}

/// The bill with which the road of a document starts: each hop makes its document of a bill, and gives the next one by
/// `next_bill`. So a document can be printed as it is made, and none need be there as a whole. Refused as `road` is. The
/// document is freed once its bill is read. Want of memory comes only as `Memory`.
pub fn start_road(
    alloc: Global,
    doc: Doc,
    version: SpecVersion,
    hops: &[Hop],
) -> Result<Bom, RoadError>
    ensures { StartsRoad doc version hops.now result }
{
    let bill = into_bill(alloc, doc, version)?;
    fitting(bill, hops)
}

/// `road` of a document that nothing else needs. It is freed once its bill is read, so that its memory serves the
/// documents of the road.
pub fn into_road(
    alloc: Global,
    doc: Doc,
    version: SpecVersion,
    hops: &[Hop],
) -> Result<List<Doc>, RoadError>
    ensures { AnswersRoad doc version hops.now result }
{
    let start = start_road(alloc, doc, version, hops)?;
    documents(alloc, start, hops)
}

/// The road of one hop: the document that it makes of `doc`, which stands in `version`. Refused as `road` is: for the
/// document's first fault, and where the hop is in 1.3 for a component without a version. Want of memory comes only as
/// `Memory`.
pub fn recode(
    alloc: Global,
    doc: &Doc,
    version: SpecVersion,
    to: Form,
    new_version: SpecVersion,
) -> Result<Doc, RoadError>
    ensures { AnswersHop doc.now version (record { form = to; version = new_version }) result }
{
    let read = bill_of(alloc, doc, version)?;
    if !read.fits(new_version) {
        drop(read);
        return Err(version_missing());
    }
    let hop = Hop {
        form: to,
        version: new_version,
    };
    Ok(spell_freed(alloc, read, hop)?)
}
