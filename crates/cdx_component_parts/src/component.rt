//! What a component is known by, and the evidence found in it.

ghost use Rattle.cdx_models.specs.Trees.{copyright, evidence, swid};
ghost use Rattle.cdx_schema.specs.Kinds.{a_list, a_text, copyright_texts};
ghost use Rattle.std.specs.Prelude.{refl, ◌≡◌, ◌↔◌, IsTrue};
ghost use Rattle.cdx_models.specs.Equal.{equal};
ghost use Rattle.cdx_models.specs.EqualLaws.{equal_laws};
ghost use Rattle.cdx_component_parts.specs.Records.{swid_tree, cpe_tree, mime_type_tree, evidence_tree, copyright_tree, copyrights_tree};

use cdx_events::{List, Text};
use cdx_license::Licenses;
use cdx_models::{AttachedText, HasTree, copy_row, equal_row};
use cdx_schema::{Kinded, Record};
use std::alloc::{AllocError, Global};

/// A tag of a software identification (ISO/IEC 19770-2).
#[derive(Debug)]
pub struct Swid {
    /// The tag that names the software.
    pub tag_id: Text,
    /// The name of the software that the tag is of.
    pub name: Text,
    /// The software's version.
    pub version: Option<Text>,
    /// The version of the tag itself.
    pub tag_version: Option<u32>,
    /// Whether the tag is of a patch.
    pub patch: Option<bool>,
    /// The tag itself.
    pub text: Option<AttachedText>,
    /// Where the tag can be found.
    pub url: Option<Text>,
}

// By hand, so that one is freed by a call wherever it ends, and not field by field.
impl Drop for Swid {
    fn drop(self) {
        let Swid {
            tag_id: _,
            name: _,
            version: _,
            tag_version: _,
            patch: _,
            text: _,
            url: _,
        } = self;
    }
}

impl HasTree for Swid {
    ghost tree = { swid_tree };

    ghost there = { λ x. refl };

    fn copy(&self, alloc: Global) -> Result<Swid, AllocError> {
        Ok(Swid {
            tag_id: self.tag_id.copy(alloc)?,
            name: self.name.copy(alloc)?,
            version: copy_row(alloc, &self.version)?,
            tag_version: copy_row(alloc, &self.tag_version)?,
            patch: copy_row(alloc, &self.patch)?,
            text: copy_row(alloc, &self.text)?,
            url: copy_row(alloc, &self.url)?,
        })
    }

    fn agrees(&self, other: &Swid) -> bool {
        self.tag_id.agrees(&other.tag_id)
            && self.name.agrees(&other.name)
            && equal_row(&self.version, &other.version)
            && equal_row(&self.tag_version, &other.tag_version)
            && equal_row(&self.patch, &other.patch)
            && equal_row(&self.text, &other.text)
            && equal_row(&self.url, &other.url)
    }
}

impl Record for Swid {
    ghost name = { swid };

    ghost is_record = { λ x. refl };

    ghost plain = { refl };
}

impl PartialEq for Swid {
    ghost eq = { λ a b. equal (swid_tree a) (swid_tree b) };

    ghost laws = { equal_laws swid_tree };

    fn eq(&self, other: &Swid) -> bool
        ensures test { result ≡ equal (swid_tree self.now) (swid_tree other.now) }
        ensures equality { IsTrue result ↔ (swid_tree self.now ≡ swid_tree other.now) }
    {
        self.equals(other)
    }
}

/// A name of a component in the Common Platform Enumeration, which isn't checked.
#[derive(Debug, Drop)]
pub struct Cpe(pub Text);

impl HasTree for Cpe {
    ghost tree = { cpe_tree };

    ghost there = { λ x. refl };

    fn copy(&self, alloc: Global) -> Result<Cpe, AllocError> {
        Ok(Cpe(self.0.copy(alloc)?))
    }

    fn agrees(&self, other: &Cpe) -> bool {
        self.0.agrees(&other.0)
    }
}

impl Kinded for Cpe {
    ghost kind = { a_text };
}

impl PartialEq for Cpe {
    ghost eq = { λ a b. equal (cpe_tree a) (cpe_tree b) };

    ghost laws = { equal_laws cpe_tree };

    fn eq(&self, other: &Cpe) -> bool
        ensures test { result ≡ equal (cpe_tree self.now) (cpe_tree other.now) }
        ensures equality { IsTrue result ↔ (cpe_tree self.now ≡ cpe_tree other.now) }
    {
        self.equals(other)
    }
}

/// The media type of a file, which isn't checked.
#[derive(Debug, Drop)]
pub struct MimeType(pub Text);

impl HasTree for MimeType {
    ghost tree = { mime_type_tree };

    ghost there = { λ x. refl };

    fn copy(&self, alloc: Global) -> Result<MimeType, AllocError> {
        Ok(MimeType(self.0.copy(alloc)?))
    }

    fn agrees(&self, other: &MimeType) -> bool {
        self.0.agrees(&other.0)
    }
}

impl Kinded for MimeType {
    ghost kind = { a_text };
}

impl PartialEq for MimeType {
    ghost eq = { λ a b. equal (mime_type_tree a) (mime_type_tree b) };

    ghost laws = { equal_laws mime_type_tree };

    fn eq(&self, other: &MimeType) -> bool
        ensures test { result ≡ equal (mime_type_tree self.now) (mime_type_tree other.now) }
        ensures equality { IsTrue result ↔ (mime_type_tree self.now ≡ mime_type_tree other.now) }
    {
        self.equals(other)
    }
}

/// What was found in a component's files.
#[derive(Debug, Drop)]
pub struct ComponentEvidence {
    /// The licenses that were found.
    pub licenses: Option<Licenses>,
    /// The copyright texts that were found.
    pub copyright: Option<CopyrightTexts>,
}

impl HasTree for ComponentEvidence {
    ghost tree = { evidence_tree };

    ghost there = { λ x. refl };

    fn copy(&self, alloc: Global) -> Result<ComponentEvidence, AllocError> {
        Ok(ComponentEvidence {
            licenses: copy_row(alloc, &self.licenses)?,
            copyright: copy_row(alloc, &self.copyright)?,
        })
    }

    fn agrees(&self, other: &ComponentEvidence) -> bool {
        equal_row(&self.licenses, &other.licenses) && equal_row(&self.copyright, &other.copyright)
    }
}

impl Record for ComponentEvidence {
    ghost name = { evidence };

    ghost is_record = { λ x. refl };

    ghost plain = { refl };
}

impl PartialEq for ComponentEvidence {
    ghost eq = { λ a b. equal (evidence_tree a) (evidence_tree b) };

    ghost laws = { equal_laws evidence_tree };

    fn eq(&self, other: &ComponentEvidence) -> bool
        ensures test { result ≡ equal (evidence_tree self.now) (evidence_tree other.now) }
        ensures equality { IsTrue result ↔ (evidence_tree self.now ≡ evidence_tree other.now) }
    {
        self.equals(other)
    }
}

/// A copyright statement.
#[derive(Debug, Drop)]
pub struct Copyright {
    /// The text.
    pub text: Text,
}

impl HasTree for Copyright {
    ghost tree = { copyright_tree };

    ghost there = { λ x. refl };

    fn copy(&self, alloc: Global) -> Result<Copyright, AllocError> {
        Ok(Copyright {
            text: self.text.copy(alloc)?,
        })
    }

    fn agrees(&self, other: &Copyright) -> bool {
        self.text.agrees(&other.text)
    }
}

impl Record for Copyright {
    ghost name = { copyright };

    ghost is_record = { λ x. refl };

    ghost plain = { refl };
}

impl PartialEq for Copyright {
    ghost eq = { λ a b. equal (copyright_tree a) (copyright_tree b) };

    ghost laws = { equal_laws copyright_tree };

    fn eq(&self, other: &Copyright) -> bool
        ensures test { result ≡ equal (copyright_tree self.now) (copyright_tree other.now) }
        ensures equality { IsTrue result ↔ (copyright_tree self.now ≡ copyright_tree other.now) }
    {
        self.equals(other)
    }
}

/// Copyright texts, in order.
#[derive(Debug, Drop)]
pub struct CopyrightTexts(pub List<Copyright>);

impl HasTree for CopyrightTexts {
    ghost tree = { copyrights_tree };

    ghost there = { λ x. refl };

    fn copy(&self, alloc: Global) -> Result<CopyrightTexts, AllocError> {
        Ok(CopyrightTexts(self.0.copy(alloc)?))
    }

    fn agrees(&self, other: &CopyrightTexts) -> bool {
        self.0.agrees(&other.0)
    }
}

impl Kinded for CopyrightTexts {
    ghost kind = { a_list copyright_texts };
}

impl PartialEq for CopyrightTexts {
    ghost eq = { λ a b. equal (copyrights_tree a) (copyrights_tree b) };

    ghost laws = { equal_laws copyrights_tree };

    fn eq(&self, other: &CopyrightTexts) -> bool
        ensures test { result ≡ equal (copyrights_tree self.now) (copyrights_tree other.now) }
        ensures equality { IsTrue result ↔ (copyrights_tree self.now ≡ copyrights_tree other.now) }
    {
        self.equals(other)
    }
}
