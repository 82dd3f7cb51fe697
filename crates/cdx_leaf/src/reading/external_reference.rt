//! References to what stands outside the bill.

use crate::attribute::{child_or_error, required_attribute};
use crate::children::Children;
use crate::error::Reading;
use crate::from_xml::FromXml;
use crate::lists::read_items;
use crate::reading::parts::ReferencePart;
use crate::record::XmlRecord;
use crate::rule::Rule;
use crate::start::{End, Start};
use crate::take::take_one;
use crate::taken::Taken;
use cdx_events::EventReader;
use cdx_models::{ExternalReference, ExternalReferences, Uri};

impl Children for ReferencePart {
    ghost use Rattle.cdx_models.specs.Trees.{reference};
    ghost use Rattle.cdx_schema.specs.XmlReading.{record_plan};
    ghost use Rattle.cdx_leaf.specs.Parts.{reference_part};

    ghost slots = { reference_part };

    ghost plan = { λ r. record_plan reference };

    ghost depth = { λ r d. d };

    fn rule(&self) -> Rule {
        Rule::Strict
    }

    fn read_child(&mut self, reader: &mut EventReader<'_>, opened: &Start<'_>) -> Reading<Taken> {
        match opened.element.local_name.as_str() {
            "url" => take_one(reader, opened, &mut self.url),
            "comment" => take_one(reader, opened, &mut self.comment),
            "hashes" => take_one(reader, opened, &mut self.hashes),
            _ => Ok(Taken::Unknown),
        }
    }
}

impl XmlRecord for ExternalReference {
    ghost use Rattle.std.specs.Prelude.{refl};
    ghost use Rattle.cdx_models.specs.Trees.{reference};
    ghost use Rattle.cdx_leaf.specs.RowContents.{content_from_rows};

    type Part = ReferencePart;

    ghost no_content = { content_from_rows reference };

    ghost by_rows = { λ part. (refl, refl) };

    fn begin(opened: &Start<'_>) -> Reading<ReferencePart> {
        Ok(ReferencePart {
            external_reference_type: required_attribute(opened, "type")?,
            url: None,
            comment: None,
            hashes: None,
        })
    }

    fn finish(closed: &End<'_>, part: ReferencePart) -> Reading<ExternalReference> {
        let url = child_or_error(closed, part.url, "url")?;
        Ok(ExternalReference {
            external_reference_type: part.external_reference_type,
            url: Uri::from_text(url),
            comment: part.comment,
            hashes: part.hashes,
        })
    }
}

impl FromXml for ExternalReferences {
    ghost use Rattle.std.specs.Prelude.{refl};

    ghost depth = { λ d. d };

    ghost at_top = { refl };

    fn read_from(reader: &mut EventReader<'_>, opened: &Start<'_>) -> Reading<ExternalReferences> {
        Ok(ExternalReferences(read_items(reader, opened, "reference", Rule::Strict)?))
    }
}
