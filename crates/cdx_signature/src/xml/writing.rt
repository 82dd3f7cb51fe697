//! Signatures as XML events.

ghost use Rattle.std.specs.Prelude.{refl, codes, [], ◌∷◌, ◌++◌};
ghost use Rattle.cdx_signature.specs.Records.{signer_tree};
ghost use Rattle.cdx_models.specs.Trees.{signer, list_tree};
ghost use Rattle.cdx_schema.specs.Kinds.{Lists, a_record, a_list};
ghost use Rattle.cdx_write.specs.Listed.{IsListOf};
ghost use Rattle.cdx_write.specs.Lone.{text_is_lone};
ghost use Rattle.cdx_write.specs.Spelling.{untagged, spelled_events};
ghost use Rattle.cdx_write.specs.WillWrite.{will_write};
ghost use Rattle.cdx_write.specs.Writing.{Appends, start_tag, end_tag};

use crate::signature::{Algorithm, Signature, Signer};
use cdx_events::{EventWriter, List, OwnedAttribute, Text};
use cdx_models::{SpecVersion, XmlWriteError};
use cdx_schema::Target;
use cdx_write::{
    Element, HasContent, Item, Lone, Tagged, ToXml, WriteResult, WrittenRecord, put_required_child,
    write_close_tag, write_list, write_lone, write_record, write_start_tag,
};
use std::alloc::{AllocError, Global};

impl Lone for Algorithm {
    ghost lone = { λ x. text_is_lone _ };

    fn xml_text(&self, alloc: Global) -> Result<Text, AllocError> {
        Text::new(alloc, self.as_str())
    }
}

impl Element for Algorithm {
    ghost keeps = { refl };

    fn write_as(&self, writer: &mut EventWriter, tag: &str, target: Target) -> WriteResult {
        write_lone(writer, tag, self, target)
    }
}

impl WrittenRecord for Signer {
    #[tactic(auto, unfolding(cdx_write::proofs::OnRows::on_rows))]
    fn attributes(&self, target: Target) -> Result<List<OwnedAttribute>, AllocError> {
        Ok(List::new(target.alloc))
    }

    fn write_rows(&self, writer: &mut EventWriter, target: Target) -> WriteResult {
        put_required_child(writer, "algorithm", &self.algorithm, target)?;
        put_required_child(writer, "value", &self.value, target)
    }
}

impl Item for Signer {
    fn is_passed_over(&self) -> bool {
        false
    }
}

impl HasContent for Signer {
    fn has_content(&self) -> bool {
        true
    }
}

impl ToXml for Signer {
    ghost tag = { untagged };

    /// Without a tag, which whatever holds the signer writes.
    fn write_xml_element(
        &self,
        alloc: Global,
        writer: &mut EventWriter,
        version: SpecVersion,
    ) -> Result<(), XmlWriteError> {
        self.write_rows(writer, Target { alloc, version })
    }

    fn will_write(&self) -> bool {
        true
    }
}

/// Signers as the element `name` with each under the name `item_tag`, between the tags of the signature.
fn write_signers(
    writer: &mut EventWriter,
    tag: &str,
    name: &str,
    item_tag: &str,
    held: &List<Signer>,
    target: Target,
) -> WriteResult
    ensures { (l : Lists) → IsListOf (a_record signer) item_tag.now l
        → Appends writer.old writer.new (start_tag tag.now
        ∷ spelled_events (list_tree signer_tree held.now) target.version name.now (a_list l)
        ++ end_tag tag.now
        ∷ [])
        result }
{
    write_start_tag(target.alloc, writer, tag)?;
    write_list(writer, name, item_tag, held, target)?;
    write_close_tag(target.alloc, writer, tag)
}

impl Element for Signature {
    ghost keeps = { refl };

    fn write_as(&self, writer: &mut EventWriter, tag: &str, target: Target) -> WriteResult {
        match self {
            Signature::Signers(held) => {
                write_signers(writer, tag, "signers", "signer", held, target)
            }
            Signature::Chain(held) => write_signers(writer, tag, "chain", "chain", held, target),
            Signature::Single(held) => write_record(writer, tag, held, target),
        }
    }
}

impl HasContent for Signature {
    fn has_content(&self) -> bool {
        true
    }
}

impl Tagged for Signature {
    ghost own_name = { codes "signature" };

    fn own_name() -> &'static str {
        "signature"
    }
}
