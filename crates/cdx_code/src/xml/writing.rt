//! Commits, and who made them, written as XML.

ghost use Rattle.std.specs.Prelude.{refl, codes};

use crate::{Commit, Commits, IdentifiableAction};
use cdx_events::{EventWriter, List, OwnedAttribute};
use cdx_schema::Target;
use cdx_write::{
    Element, HasContent, Item, Tagged, WriteResult, WrittenRecord, put_child, write_list,
};
use std::alloc::AllocError;

impl WrittenRecord for IdentifiableAction {
    #[tactic(auto, unfolding(cdx_write::proofs::OnRows::on_rows))]
    fn attributes(&self, target: Target) -> Result<List<OwnedAttribute>, AllocError> {
        Ok(List::new(target.alloc))
    }

    #[tactic(auto, unfolding(cdx_write::proofs::OnRows::on_rows), using(cdx_write::proofs::OnRows::in_turn))]
    fn write_rows(&self, writer: &mut EventWriter, target: Target) -> WriteResult {
        put_child(writer, "timestamp", &self.timestamp, target)?;
        put_child(writer, "name", &self.name, target)?;
        put_child(writer, "email", &self.email, target)
    }
}

impl HasContent for IdentifiableAction {
    fn has_content(&self) -> bool {
        true
    }
}

impl WrittenRecord for Commit {
    #[tactic(auto, unfolding(cdx_write::proofs::OnRows::on_rows))]
    fn attributes(&self, target: Target) -> Result<List<OwnedAttribute>, AllocError> {
        Ok(List::new(target.alloc))
    }

    #[tactic(auto, unfolding(cdx_write::proofs::OnRows::on_rows), using(cdx_write::proofs::OnRows::in_turn))]
    fn write_rows(&self, writer: &mut EventWriter, target: Target) -> WriteResult {
        put_child(writer, "uid", &self.uid, target)?;
        put_child(writer, "url", &self.url, target)?;
        put_child(writer, "author", &self.author, target)?;
        put_child(writer, "committer", &self.committer, target)?;
        put_child(writer, "message", &self.message, target)
    }
}

impl Item for Commit {
    fn is_passed_over(&self) -> bool {
        false
    }
}

impl HasContent for Commit {
    fn has_content(&self) -> bool {
        true
    }
}

impl Tagged for Commit {
    ghost own_name = { codes "commit" };

    fn own_name() -> &'static str {
        "commit"
    }
}

impl Element for Commits {
    ghost keeps = { refl };

    #[tactic(auto, unfolding(cdx_schema::specs::Table::list))]
    fn write_as(&self, writer: &mut EventWriter, tag: &str, target: Target) -> WriteResult {
        write_list(writer, tag, "commit", &self.0, target)
    }
}

impl HasContent for Commits {
    fn has_content(&self) -> bool {
        true
    }
}

impl Tagged for Commits {
    ghost own_name = { codes "commits" };

    fn own_name() -> &'static str {
        "commits"
    }
}
