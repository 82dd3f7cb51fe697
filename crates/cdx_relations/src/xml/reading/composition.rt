//! How complete the parts of a bill are known.

ghost use Rattle.std.specs.Prelude.{refl};
ghost use Rattle.cdx_models.specs.Trees.{composition};
ghost use Rattle.cdx_schema.specs.XmlReading.{record_plan};
ghost use Rattle.cdx_relations.specs.Parts.{composition_part};
ghost use Rattle.cdx_leaf.specs.RowContents.{content_from_rows};

use crate::composition::{BomReference, Composition, Compositions};
use crate::parts::CompositionPart;
use cdx_events::EventReader;
use cdx_leaf::{
    Children, End, FromXml, Reading, Rule, Start, Taken, XmlRecord, attribute_or_error,
    attribute_since, child_or_error, closing_tag_or_error, read_items, take_list, take_one,
    take_one_since,
};
use cdx_models::SpecVersion;

impl FromXml for BomReference {
    ghost depth = { λ d. d };

    ghost at_top = { refl };

    fn read_from(reader: &mut EventReader<'_>, opened: &Start<'_>) -> Reading<BomReference> {
        let text = attribute_or_error(
            opened.alloc,
            reader.place() - 1,
            opened.element,
            opened.attributes,
            "ref",
        )?;
        closing_tag_or_error(opened.alloc, reader, opened.element)?;
        Ok(BomReference(text))
    }
}

impl Children for CompositionPart {
    ghost slots = { composition_part };

    ghost plan = { λ r. record_plan composition };

    ghost depth = { λ r d. d };

    fn rule(&self) -> Rule {
        Rule::Strict
    }

    fn read_child(&mut self, reader: &mut EventReader<'_>, opened: &Start<'_>) -> Reading<Taken> {
        match opened.element.local_name.as_str() {
            "aggregate" => take_one(reader, opened, &mut self.aggregate),
            "assemblies" => take_list(reader, opened, "assembly", Rule::Lax, &mut self.assemblies),
            "dependencies" => take_list(
                reader,
                opened,
                "dependency",
                Rule::Lax,
                &mut self.dependencies,
            ),
            "vulnerabilities" => {
                if !SpecVersion::V1_5.is_known_to(opened.version) {
                    return Ok(Taken::Unknown);
                }
                take_list(
                    reader,
                    opened,
                    "vulnerability",
                    Rule::Lax,
                    &mut self.vulnerabilities,
                )
            }
            "signature" => take_one_since(reader, opened, SpecVersion::V1_4, &mut self.signature),
            _ => Ok(Taken::Unknown),
        }
    }
}

impl XmlRecord for Composition {
    type Part = CompositionPart;

    ghost no_content = { content_from_rows composition };

    ghost by_rows = { λ part. (refl, refl) };

    fn begin(opened: &Start<'_>) -> Reading<CompositionPart> {
        Ok(CompositionPart {
            bom_ref: attribute_since(opened, SpecVersion::V1_5, "bom-ref")?,
            aggregate: None,
            assemblies: None,
            dependencies: None,
            vulnerabilities: None,
            signature: None,
        })
    }

    fn finish(closed: &End<'_>, part: CompositionPart) -> Reading<Composition> {
        let aggregate = child_or_error(closed, part.aggregate, "aggregate")?;
        Ok(Composition {
            bom_ref: part.bom_ref,
            aggregate,
            assemblies: part.assemblies,
            dependencies: part.dependencies,
            vulnerabilities: part.vulnerabilities,
            signature: part.signature,
        })
    }
}

impl FromXml for Compositions {
    ghost depth = { λ d. d };

    ghost at_top = { refl };

    fn read_from(reader: &mut EventReader<'_>, opened: &Start<'_>) -> Reading<Compositions> {
        Ok(Compositions(read_items(reader, opened, "composition", Rule::Lax)?))
    }
}
