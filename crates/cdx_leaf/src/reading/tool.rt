//! Tools that made a bill.

use crate::children::Children;
use crate::error::Reading;
use crate::record::XmlRecord;
use crate::rule::Rule;
use crate::start::{End, Start};
use crate::take::{take_one, take_one_since};
use crate::taken::Taken;
use cdx_events::EventReader;
use cdx_models::{SpecVersion, Tool};

impl Children for Tool {
    ghost use Rattle.cdx_models.specs.Trees.{tool};
    ghost use Rattle.cdx_schema.specs.XmlReading.{record_plan};
    ghost use Rattle.cdx_leaf.specs.Parts.{tool_slots};

    ghost slots = { tool_slots };

    ghost plan = { λ r. record_plan tool };

    ghost depth = { λ r d. d };

    fn rule(&self) -> Rule {
        Rule::Lax
    }

    fn read_child(&mut self, reader: &mut EventReader<'_>, opened: &Start<'_>) -> Reading<Taken> {
        match opened.element.local_name.as_str() {
            "vendor" => take_one(reader, opened, &mut self.vendor),
            "name" => take_one(reader, opened, &mut self.name),
            "version" => take_one(reader, opened, &mut self.version),
            "hashes" => take_one(reader, opened, &mut self.hashes),
            "externalReferences" => take_one_since(
                reader,
                opened,
                SpecVersion::V1_4,
                &mut self.external_references,
            ),
            _ => Ok(Taken::Unknown),
        }
    }
}

impl XmlRecord for Tool {
    ghost use Rattle.std.specs.Prelude.{refl};
    ghost use Rattle.cdx_models.specs.Trees.{tool};
    ghost use Rattle.cdx_leaf.specs.RowContents.{content_from_rows};

    type Part = Tool;

    ghost no_content = { content_from_rows tool };

    ghost by_rows = { λ part. (refl, refl) };

    fn begin(_opened: &Start<'_>) -> Reading<Tool> {
        Ok(Tool {
            vendor: None,
            name: None,
            version: None,
            hashes: None,
            external_references: None,
        })
    }

    fn finish(_closed: &End<'_>, part: Tool) -> Reading<Tool> {
        Ok(part)
    }
}
