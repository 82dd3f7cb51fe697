//! Software tags, platform names, media types and evidence.

ghost use Rattle.std.specs.Prelude.{refl, codes};
ghost use Rattle.cdx_write.specs.Lone.{text_is_lone};
ghost use Rattle.cdx_write.specs.Stays.{evidence_keeps_hollow};

use crate::component::{ComponentEvidence, Copyright, CopyrightTexts, Cpe, MimeType, Swid};
use cdx_events::{EventWriter, List, OwnedAttribute, Text};
use cdx_schema::Target;
use cdx_write::{
    Element, Filled, HasContent, Item, Lone, Tagged, WriteResult, WrittenRecord, is_there,
    put_attribute, put_cdata, put_child, put_required_attribute, write_list, write_lone,
};
use std::alloc::{AllocError, Global};

impl WrittenRecord for Swid {
    #[tactic(auto, unfolding(cdx_write::proofs::OnRows::on_rows))]
    fn attributes(&self, target: Target) -> Result<List<OwnedAttribute>, AllocError> {
        let mut attributes = List::new(target.alloc);
        put_required_attribute(&mut attributes, "tagId", &self.tag_id, target)?;
        put_required_attribute(&mut attributes, "name", &self.name, target)?;
        put_attribute(&mut attributes, "version", &self.version, target)?;
        put_attribute(&mut attributes, "tagVersion", &self.tag_version, target)?;
        put_attribute(&mut attributes, "patch", &self.patch, target)?;
        Ok(attributes)
    }

    #[tactic(auto, unfolding(cdx_write::proofs::OnRows::on_rows), using(cdx_write::proofs::OnRows::in_turn))]
    fn write_rows(&self, writer: &mut EventWriter, target: Target) -> WriteResult {
        put_child(writer, "text", &self.text, target)?;
        put_child(writer, "url", &self.url, target)
    }
}

impl HasContent for Swid {
    fn has_content(&self) -> bool {
        true
    }
}

impl Tagged for Swid {
    ghost own_name = { codes "swid" };

    fn own_name() -> &'static str {
        "swid"
    }
}

impl Lone for Cpe {
    ghost lone = { λ x. text_is_lone _ };

    fn xml_text(&self, alloc: Global) -> Result<Text, AllocError> {
        self.0.copy(alloc)
    }
}

impl Element for Cpe {
    ghost keeps = { refl };

    fn write_as(&self, writer: &mut EventWriter, tag: &str, target: Target) -> WriteResult {
        write_lone(writer, tag, self, target)
    }
}

impl HasContent for Cpe {
    fn has_content(&self) -> bool {
        true
    }
}

impl Tagged for Cpe {
    ghost own_name = { codes "cpe" };

    fn own_name() -> &'static str {
        "cpe"
    }
}

impl Lone for MimeType {
    ghost lone = { λ x. text_is_lone _ };

    fn xml_text(&self, alloc: Global) -> Result<Text, AllocError> {
        self.0.copy(alloc)
    }
}

impl WrittenRecord for ComponentEvidence {
    #[tactic(auto, unfolding(cdx_write::proofs::OnRows::on_rows))]
    fn attributes(&self, target: Target) -> Result<List<OwnedAttribute>, AllocError> {
        Ok(List::new(target.alloc))
    }

    #[tactic(auto, unfolding(cdx_write::proofs::OnRows::on_rows), using(cdx_write::proofs::OnRows::in_turn))]
    fn write_rows(&self, writer: &mut EventWriter, target: Target) -> WriteResult {
        put_child(writer, "licenses", &self.licenses, target)?;
        put_child(writer, "copyright", &self.copyright, target)
    }
}

impl Filled for ComponentEvidence {
    ghost keeps_hollow = { λ x. evidence_keeps_hollow _ };

    fn is_hollow(&self) -> bool {
        !self.has_content()
    }
}

impl HasContent for ComponentEvidence {
    /// False exactly where both fields are absent.
    fn has_content(&self) -> bool {
        is_there(&self.licenses) || is_there(&self.copyright)
    }
}

impl Tagged for ComponentEvidence {
    ghost own_name = { codes "evidence" };

    fn own_name() -> &'static str {
        "evidence"
    }
}

impl WrittenRecord for Copyright {
    #[tactic(auto, unfolding(cdx_write::proofs::OnRows::on_rows))]
    fn attributes(&self, target: Target) -> Result<List<OwnedAttribute>, AllocError> {
        Ok(List::new(target.alloc))
    }

    #[tactic(auto, unfolding(cdx_write::proofs::OnRows::on_rows), using(cdx_write::proofs::OnRows::in_turn))]
    fn write_rows(&self, writer: &mut EventWriter, target: Target) -> WriteResult {
        put_cdata(target.alloc, writer, &self.text)
    }
}

impl Item for Copyright {
    fn is_passed_over(&self) -> bool {
        false
    }
}

impl HasContent for Copyright {
    fn has_content(&self) -> bool {
        true
    }
}

impl Tagged for Copyright {
    ghost own_name = { codes "text" };

    fn own_name() -> &'static str {
        "text"
    }
}

impl Element for CopyrightTexts {
    ghost keeps = { refl };

    #[tactic(auto, unfolding(cdx_schema::specs::Table::list))]
    fn write_as(&self, writer: &mut EventWriter, tag: &str, target: Target) -> WriteResult {
        write_list(writer, tag, "text", &self.0, target)
    }
}

impl HasContent for CopyrightTexts {
    fn has_content(&self) -> bool {
        true
    }
}

impl Tagged for CopyrightTexts {
    ghost own_name = { codes "copyright" };

    fn own_name() -> &'static str {
        "copyright"
    }
}
