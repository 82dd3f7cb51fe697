//! Issues read from XML.

ghost use Rattle.cdx_models.specs.Trees.{source, issue};
ghost use Rattle.cdx_schema.specs.XmlReading.{record_plan};
ghost use Rattle.cdx_patch.specs.Slots.{source_slots, issue_slots};
ghost use Rattle.std.specs.Prelude.{refl};
ghost use Rattle.cdx_leaf.specs.RowContents.{content_from_rows};

use crate::{Issue, Source};
use cdx_events::EventReader;
use cdx_leaf::{
    Children, End, Reading, Rule, Start, Taken, XmlRecord, required_attribute, take_list, take_one,
};

impl Children for Source {
    ghost slots = { source_slots };

    ghost plan = { λ r. record_plan source };

    ghost depth = { λ r d. d };

    fn rule(&self) -> Rule {
        Rule::Strict
    }

    fn read_child(&mut self, reader: &mut EventReader<'_>, opened: &Start<'_>) -> Reading<Taken> {
        match opened.element.local_name.as_str() {
            "name" => take_one(reader, opened, &mut self.name),
            "url" => take_one(reader, opened, &mut self.url),
            _ => Ok(Taken::Unknown),
        }
    }
}

impl XmlRecord for Source {
    type Part = Source;

    ghost no_content = { content_from_rows source };

    ghost by_rows = { λ part. (refl, refl) };

    fn begin(_opened: &Start<'_>) -> Reading<Source> {
        Ok(Source {
            name: None,
            url: None,
        })
    }

    fn finish(_closed: &End<'_>, part: Source) -> Reading<Source> {
        Ok(part)
    }
}

impl Children for Issue {
    ghost slots = { issue_slots };

    ghost plan = { λ r. record_plan issue };

    ghost depth = { λ r d. d };

    fn rule(&self) -> Rule {
        Rule::Lax
    }

    fn read_child(&mut self, reader: &mut EventReader<'_>, opened: &Start<'_>) -> Reading<Taken> {
        match opened.element.local_name.as_str() {
            "id" => take_one(reader, opened, &mut self.id),
            "name" => take_one(reader, opened, &mut self.name),
            "description" => take_one(reader, opened, &mut self.description),
            "source" => take_one(reader, opened, &mut self.source),
            "references" => take_list(reader, opened, "url", Rule::Strict, &mut self.references),
            _ => Ok(Taken::Unknown),
        }
    }
}

impl XmlRecord for Issue {
    type Part = Issue;

    ghost no_content = { content_from_rows issue };

    ghost by_rows = { λ part. (refl, refl) };

    fn begin(opened: &Start<'_>) -> Reading<Issue> {
        Ok(Issue {
            issue_type: required_attribute(opened, "type")?,
            id: None,
            name: None,
            description: None,
            source: None,
            references: None,
        })
    }

    fn finish(_closed: &End<'_>, part: Issue) -> Reading<Issue> {
        Ok(part)
    }
}
