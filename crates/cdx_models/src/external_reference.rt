//! References to what stands outside the bill.

ghost use Rattle.std.specs.Prelude.{◌≡◌, refl, IfOk, ◌↔◌, IsTrue};
ghost use Rattle.cdx_models.specs.Records.{uri_tree, reference_tree, references_tree};
ghost use Rattle.cdx_models.specs.Addresses.{begins_as_bom_link, uri_of, uri_text};
ghost use Rattle.cdx_models.specs.Equal.{equal};
ghost use Rattle.cdx_models.specs.EqualLaws.{equal_laws};

use crate::hash::Hashes;
use crate::tree::{HasTree, copy_row, equal_row};
use cdx_events::{List, Text};
use std::alloc::{AllocError, Global};

/// The address of an external reference, kept as its text.
#[derive(Debug, Drop)]
pub enum Uri {
    /// Any other address.
    Url(Text),
    /// A link to a bill or to a part of one, which begins with `urn:cdx:`.
    BomLink(Text),
}

impl Uri {
    /// The link to a bill exactly where the text begins with `urn:cdx:`, and else the plain address. It takes no memory.
    pub fn from_text(text: Text) -> Uri
        ensures { result ≡ uri_of text }
    {
        if is_bom_link(text.as_str()) {
            Uri::BomLink(text)
        } else {
            Uri::Url(text)
        }
    }

    /// The address's text. It takes no memory.
    pub fn as_str(&self) -> &str
        ensures { result.now ≡ uri_text self.now }
    {
        match self {
            Uri::Url(text) => text.as_str(),
            Uri::BomLink(text) => text.as_str(),
        }
    }
}

fn is_bom_link(text: &str) -> bool
    ensures { result ≡ begins_as_bom_link text.now }
{
    text.starts_with("urn:cdx:")
}

impl HasTree for Uri {
    ghost tree = { uri_tree };

    ghost there = { λ x. refl };

    fn copy(&self, alloc: Global) -> Result<Uri, AllocError>
        ensures equal { IfOk result (λ r. uri_tree r ≡ uri_tree self.now) }
        ensures variant { IfOk result (λ r. r ≡ self.now) }
    {
        match self {
            Uri::Url(text) => Ok(Uri::Url(text.copy(alloc)?)),
            Uri::BomLink(text) => Ok(Uri::BomLink(text.copy(alloc)?)),
        }
    }

    fn agrees(&self, other: &Uri) -> bool {
        self.as_str() == other.as_str()
    }
}

impl PartialEq for Uri {
    ghost eq = { λ a b. equal (uri_tree a) (uri_tree b) };

    ghost laws = { equal_laws uri_tree };

    fn eq(&self, other: &Uri) -> bool
        ensures test { result ≡ equal (uri_tree self.now) (uri_tree other.now) }
        ensures equality { IsTrue result ↔ (uri_tree self.now ≡ uri_tree other.now) }
    {
        self.equals(other)
    }
}

/// A resource outside the bill, as a website or a repository.
#[derive(Debug, Drop)]
pub struct ExternalReference {
    /// What the resource is, as `website`.
    pub external_reference_type: Text,
    /// Where it leads.
    pub url: Uri,
    /// What there is to say of it.
    pub comment: Option<Text>,
    /// Hashes of the resource's content.
    pub hashes: Option<Hashes>,
}

impl HasTree for ExternalReference {
    ghost tree = { reference_tree };

    ghost there = { λ x. refl };

    fn copy(&self, alloc: Global) -> Result<ExternalReference, AllocError> {
        Ok(ExternalReference {
            external_reference_type: self.external_reference_type.copy(alloc)?,
            url: self.url.copy(alloc)?,
            comment: copy_row(alloc, &self.comment)?,
            hashes: copy_row(alloc, &self.hashes)?,
        })
    }

    fn agrees(&self, other: &ExternalReference) -> bool {
        self.external_reference_type
            .agrees(&other.external_reference_type)
            && self.url.agrees(&other.url)
            && equal_row(&self.comment, &other.comment)
            && equal_row(&self.hashes, &other.hashes)
    }
}

impl PartialEq for ExternalReference {
    ghost eq = { λ a b. equal (reference_tree a) (reference_tree b) };

    ghost laws = { equal_laws reference_tree };

    fn eq(&self, other: &ExternalReference) -> bool
        ensures test { result ≡ equal (reference_tree self.now) (reference_tree other.now) }
        ensures equality { IsTrue result ↔ (reference_tree self.now ≡ reference_tree other.now) }
    {
        self.equals(other)
    }
}

/// External references, in order.
#[derive(Debug, Drop)]
pub struct ExternalReferences(pub List<ExternalReference>);

impl HasTree for ExternalReferences {
    ghost tree = { references_tree };

    ghost there = { λ x. refl };

    fn copy(&self, alloc: Global) -> Result<ExternalReferences, AllocError> {
        Ok(ExternalReferences(self.0.copy(alloc)?))
    }

    fn agrees(&self, other: &ExternalReferences) -> bool {
        self.0.agrees(&other.0)
    }
}

impl PartialEq for ExternalReferences {
    ghost eq = { λ a b. equal (references_tree a) (references_tree b) };

    ghost laws = { equal_laws references_tree };

    fn eq(&self, other: &ExternalReferences) -> bool
        ensures test { result ≡ equal (references_tree self.now) (references_tree other.now) }
        ensures equality { IsTrue result ↔ (references_tree self.now ≡ references_tree other.now) }
    {
        self.equals(other)
    }
}
