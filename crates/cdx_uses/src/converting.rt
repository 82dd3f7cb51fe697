//! Converting a document.

ghost use Rattle.cdx_models.specs.declared.bom.SpecVersion.{SpecVersion};
ghost use Rattle.cdx_bom.specs.declared.doc.Doc.{Doc};
ghost use Rattle.cdx_bom.specs.declared.doc.Form.{Form};
ghost use Rattle.cdx_bom.specs.Docs.{AnswersHop};

use cdx_bom::{Doc, Form, RoadError, recode};
use cdx_models::SpecVersion;
use serde_json::Value;
use std::alloc::Global;

/// What XML 1.4 keeps of a bill that is given in JSON and read in 1.5: the one document of the road of one hop. Else
/// the bill's first fault.
pub fn xml_of_json(alloc: Global, value: Value) -> Result<Doc, RoadError>
    ensures { AnswersHop (Doc.Json value) SpecVersion.V1_5
        (record { form = Form.Xml; version = SpecVersion.V1_4 }) result }
{
    let doc = Doc::Json(value);
    recode(alloc, &doc, SpecVersion::V1_5, Form::Xml, SpecVersion::V1_4)
}
