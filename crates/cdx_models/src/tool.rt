//! Tools that made a bill.

ghost use Rattle.std.specs.Prelude.{◌≡◌, refl, None, ◌↔◌, IsTrue};
ghost use Rattle.cdx_models.specs.Records.{tool_tree};
ghost use Rattle.cdx_models.specs.Equal.{equal};
ghost use Rattle.cdx_models.specs.EqualLaws.{equal_laws};

use crate::external_reference::ExternalReferences;
use crate::hash::Hashes;
use crate::tree::{HasTree, copy_row, equal_row};
use cdx_events::Text;
use std::alloc::{AllocError, Global};

/// A tool that took part in making the bill.
#[derive(Debug)]
pub struct Tool {
    /// Who makes it.
    pub vendor: Option<Text>,
    /// Its name.
    pub name: Option<Text>,
    /// Its own version.
    pub version: Option<Text>,
    /// The hashes of its file.
    pub hashes: Option<Hashes>,
    /// Known from 1.4 on.
    pub external_references: Option<ExternalReferences>,
}

// By hand, so that one is freed by a call wherever it ends, and not field by field.
impl Drop for Tool {
    fn drop(self) {
        let Tool {
            vendor: _,
            name: _,
            version: _,
            hashes: _,
            external_references: _,
        } = self;
    }
}

impl Default for Tool {
    ghost is_default = { λ tool. tool ≡ record {
      vendor = None;
      name = None;
      version = None;
      hashes =
          None;
      external_references = None;
    } };

    /// The tool without any field.
    fn default() -> Tool {
        Tool {
            vendor: None,
            name: None,
            version: None,
            hashes: None,
            external_references: None,
        }
    }
}

impl HasTree for Tool {
    ghost tree = { tool_tree };

    ghost there = { λ x. refl };

    fn copy(&self, alloc: Global) -> Result<Tool, AllocError> {
        Ok(Tool {
            vendor: copy_row(alloc, &self.vendor)?,
            name: copy_row(alloc, &self.name)?,
            version: copy_row(alloc, &self.version)?,
            hashes: copy_row(alloc, &self.hashes)?,
            external_references: copy_row(alloc, &self.external_references)?,
        })
    }

    fn agrees(&self, other: &Tool) -> bool {
        equal_row(&self.vendor, &other.vendor)
            && equal_row(&self.name, &other.name)
            && equal_row(&self.version, &other.version)
            && equal_row(&self.hashes, &other.hashes)
            && equal_row(&self.external_references, &other.external_references)
    }
}

impl PartialEq for Tool {
    ghost eq = { λ a b. equal (tool_tree a) (tool_tree b) };

    ghost laws = { equal_laws tool_tree };

    fn eq(&self, other: &Tool) -> bool
        ensures test { result ≡ equal (tool_tree self.now) (tool_tree other.now) }
        ensures equality { IsTrue result ↔ (tool_tree self.now ≡ tool_tree other.now) }
    {
        self.equals(other)
    }
}
