//! Commits, and who made them, read from XML.

ghost use Rattle.cdx_models.specs.Trees.{action, commit};
ghost use Rattle.cdx_schema.specs.XmlReading.{record_plan};
ghost use Rattle.cdx_code.specs.Slots.{action_slots, commit_slots};
ghost use Rattle.std.specs.Prelude.{refl};
ghost use Rattle.cdx_leaf.specs.RowContents.{content_from_rows};

use crate::{Commit, Commits, IdentifiableAction};
use cdx_events::EventReader;
use cdx_leaf::{
    Children, End, FromXml, Reading, Rule, Start, Taken, XmlRecord, read_items, take_one,
};

impl Children for IdentifiableAction {
    ghost slots = { action_slots };

    ghost plan = { λ r. record_plan action };

    ghost depth = { λ r d. d };

    fn rule(&self) -> Rule {
        Rule::Lax
    }

    fn read_child(&mut self, reader: &mut EventReader<'_>, opened: &Start<'_>) -> Reading<Taken> {
        match opened.element.local_name.as_str() {
            "timestamp" => take_one(reader, opened, &mut self.timestamp),
            "name" => take_one(reader, opened, &mut self.name),
            "email" => take_one(reader, opened, &mut self.email),
            _ => Ok(Taken::Unknown),
        }
    }
}

impl XmlRecord for IdentifiableAction {
    type Part = IdentifiableAction;

    ghost no_content = { content_from_rows action };

    ghost by_rows = { λ part. (refl, refl) };

    fn begin(_opened: &Start<'_>) -> Reading<IdentifiableAction> {
        Ok(IdentifiableAction {
            timestamp: None,
            name: None,
            email: None,
        })
    }

    fn finish(_closed: &End<'_>, part: IdentifiableAction) -> Reading<IdentifiableAction> {
        Ok(part)
    }
}

impl Children for Commit {
    ghost slots = { commit_slots };

    ghost plan = { λ r. record_plan commit };

    ghost depth = { λ r d. d };

    fn rule(&self) -> Rule {
        Rule::Lax
    }

    fn read_child(&mut self, reader: &mut EventReader<'_>, opened: &Start<'_>) -> Reading<Taken> {
        match opened.element.local_name.as_str() {
            "uid" => take_one(reader, opened, &mut self.uid),
            "url" => take_one(reader, opened, &mut self.url),
            "author" => take_one(reader, opened, &mut self.author),
            "committer" => take_one(reader, opened, &mut self.committer),
            "message" => take_one(reader, opened, &mut self.message),
            _ => Ok(Taken::Unknown),
        }
    }
}

impl XmlRecord for Commit {
    type Part = Commit;

    ghost no_content = { content_from_rows commit };

    ghost by_rows = { λ part. (refl, refl) };

    fn begin(_opened: &Start<'_>) -> Reading<Commit> {
        Ok(Commit {
            uid: None,
            url: None,
            author: None,
            committer: None,
            message: None,
        })
    }

    fn finish(_closed: &End<'_>, part: Commit) -> Reading<Commit> {
        Ok(part)
    }
}

impl FromXml for Commits {
    ghost depth = { λ d. d };

    ghost at_top = { refl };

    fn read_from(reader: &mut EventReader<'_>, opened: &Start<'_>) -> Reading<Commits> {
        Ok(Commits(read_items(reader, opened, "commit", Rule::Lax)?))
    }
}
