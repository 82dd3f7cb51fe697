//! Software tags, platform names and evidence.

ghost use Rattle.cdx_models.specs.Trees.{swid, evidence, copyright};
ghost use Rattle.cdx_schema.specs.XmlReading.{record_plan};
ghost use Rattle.cdx_component_parts.specs.Parts.{swid_slots, evidence_slots, no_copyright_fields};
ghost use Rattle.std.specs.Prelude.{refl};
ghost use Rattle.cdx_leaf.specs.RowContents.{content_from_rows};
ghost use Rattle.cdx_component_parts.specs.Whole.{copyright_whole};

use crate::component::{ComponentEvidence, Copyright, CopyrightTexts, Cpe, Swid};
use cdx_events::{EventReader, Text};
use cdx_leaf::{
    Children, End, FromXml, Reading, Rule, Start, Taken, TextRecord, XmlRecord, attribute_or_none,
    attribute_value, read_items, read_text_record, required_attribute, take_one,
};

impl Children for Swid {
    ghost slots = { swid_slots };

    ghost plan = { λ r. record_plan swid };

    ghost depth = { λ r d. d };

    fn rule(&self) -> Rule {
        Rule::Lax
    }

    fn read_child(&mut self, reader: &mut EventReader<'_>, opened: &Start<'_>) -> Reading<Taken> {
        match opened.element.local_name.as_str() {
            "text" => take_one(reader, opened, &mut self.text),
            "url" => take_one(reader, opened, &mut self.url),
            _ => Ok(Taken::Unknown),
        }
    }
}

impl XmlRecord for Swid {
    type Part = Swid;

    ghost no_content = { content_from_rows swid };

    ghost by_rows = { λ part. (refl, refl) };

    fn begin(opened: &Start<'_>) -> Reading<Swid> {
        Ok(Swid {
            tag_id: required_attribute(opened, "tagId")?,
            name: required_attribute(opened, "name")?,
            version: attribute_or_none(opened.alloc, opened.attributes, "version")?,
            tag_version: attribute_value(opened, "tagVersion")?,
            patch: attribute_value(opened, "patch")?,
            text: None,
            url: None,
        })
    }

    fn finish(_closed: &End<'_>, part: Swid) -> Reading<Swid> {
        Ok(part)
    }
}

impl FromXml for Cpe {
    ghost depth = { λ d. d };

    ghost at_top = { refl };

    fn read_from(reader: &mut EventReader<'_>, opened: &Start<'_>) -> Reading<Cpe> {
        Ok(Cpe(Text::read_from(reader, opened)?))
    }
}

impl Children for ComponentEvidence {
    ghost slots = { evidence_slots };

    ghost plan = { λ r. record_plan evidence };

    ghost depth = { λ r d. d };

    fn rule(&self) -> Rule {
        Rule::Passing
    }

    fn read_child(&mut self, reader: &mut EventReader<'_>, opened: &Start<'_>) -> Reading<Taken> {
        match opened.element.local_name.as_str() {
            "licenses" => take_one(reader, opened, &mut self.licenses),
            "copyright" => take_one(reader, opened, &mut self.copyright),
            _ => Ok(Taken::Unknown),
        }
    }
}

impl XmlRecord for ComponentEvidence {
    type Part = ComponentEvidence;

    ghost no_content = { content_from_rows evidence };

    ghost by_rows = { λ part. (refl, refl) };

    fn begin(_opened: &Start<'_>) -> Reading<ComponentEvidence> {
        Ok(ComponentEvidence {
            licenses: None,
            copyright: None,
        })
    }

    fn finish(_closed: &End<'_>, part: ComponentEvidence) -> Reading<ComponentEvidence> {
        Ok(part)
    }
}

impl TextRecord for Copyright {
    type Start = ();

    ghost start = { no_copyright_fields };

    ghost at = { 0 };

    ghost content = { content_from_rows copyright };

    ghost whole = { copyright_whole };

    fn begin(_opened: &Start<'_>) -> Reading<()> {
        Ok(())
    }

    fn with_text(_begun: (), content: Text) -> Copyright {
        Copyright { text: content }
    }
}

impl FromXml for Copyright {
    ghost depth = { λ d. d };

    ghost at_top = { refl };

    fn read_from(reader: &mut EventReader<'_>, opened: &Start<'_>) -> Reading<Copyright> {
        read_text_record(reader, opened)
    }
}

impl FromXml for CopyrightTexts {
    ghost depth = { λ d. d };

    ghost at_top = { refl };

    fn read_from(reader: &mut EventReader<'_>, opened: &Start<'_>) -> Reading<CopyrightTexts> {
        Ok(CopyrightTexts(read_items(reader, opened, "text", Rule::Strict)?))
    }
}
