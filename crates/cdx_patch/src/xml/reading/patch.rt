//! Patches read from XML.

ghost use Rattle.cdx_models.specs.Trees.{diff, patch};
ghost use Rattle.cdx_schema.specs.XmlReading.{record_plan};
ghost use Rattle.cdx_patch.specs.Slots.{diff_slots, patch_slots};
ghost use Rattle.std.specs.Prelude.{refl};
ghost use Rattle.cdx_leaf.specs.RowContents.{content_from_rows};

use crate::{Diff, Patch, Patches};
use cdx_events::EventReader;
use cdx_leaf::{
    Children, End, FromXml, Reading, Rule, Start, Taken, XmlRecord, read_items, required_attribute,
    take_list, take_one,
};

impl Children for Diff {
    ghost slots = { diff_slots };

    ghost plan = { λ r. record_plan diff };

    ghost depth = { λ r d. d };

    fn rule(&self) -> Rule {
        Rule::Lax
    }

    fn read_child(&mut self, reader: &mut EventReader<'_>, opened: &Start<'_>) -> Reading<Taken> {
        match opened.element.local_name.as_str() {
            "text" => take_one(reader, opened, &mut self.text),
            "url" => take_one(reader, opened, &mut self.url),
            _ => Ok(Taken::Unknown),
        }
    }
}

impl XmlRecord for Diff {
    type Part = Diff;

    ghost no_content = { content_from_rows diff };

    ghost by_rows = { λ part. (refl, refl) };

    fn begin(_opened: &Start<'_>) -> Reading<Diff> {
        Ok(Diff {
            text: None,
            url: None,
        })
    }

    fn finish(_closed: &End<'_>, part: Diff) -> Reading<Diff> {
        Ok(part)
    }
}

impl Children for Patch {
    ghost slots = { patch_slots };

    ghost plan = { λ r. record_plan patch };

    ghost depth = { λ r d. d };

    fn rule(&self) -> Rule {
        Rule::Lax
    }

    fn read_child(&mut self, reader: &mut EventReader<'_>, opened: &Start<'_>) -> Reading<Taken> {
        match opened.element.local_name.as_str() {
            "diff" => take_one(reader, opened, &mut self.diff),
            "resolves" => take_list(reader, opened, "issue", Rule::Strict, &mut self.resolves),
            _ => Ok(Taken::Unknown),
        }
    }
}

impl XmlRecord for Patch {
    type Part = Patch;

    ghost no_content = { content_from_rows patch };

    ghost by_rows = { λ part. (refl, refl) };

    fn begin(opened: &Start<'_>) -> Reading<Patch> {
        Ok(Patch {
            patch_type: required_attribute(opened, "type")?,
            diff: None,
            resolves: None,
        })
    }

    fn finish(_closed: &End<'_>, part: Patch) -> Reading<Patch> {
        Ok(part)
    }
}

impl FromXml for Patches {
    ghost depth = { λ d. d };

    ghost at_top = { refl };

    fn read_from(reader: &mut EventReader<'_>, opened: &Start<'_>) -> Reading<Patches> {
        Ok(Patches(read_items(reader, opened, "patch", Rule::Lax)?))
    }
}
