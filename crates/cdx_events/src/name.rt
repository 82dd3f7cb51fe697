//! Names, attributes and namespaces.

ghost use Rattle.std.specs.Prelude.{◌≡◌, IfOk};
ghost use Rattle.cdx_events.specs.Name.{local};

use crate::copied::Copied;
use crate::list::List;
use crate::text::Text;
use std::alloc::{AllocError, Global};

/// A name. Two names are equal where all three parts are.
#[derive(Debug, Drop, PartialEq, Eq)]
pub struct OwnedName {
    /// The name without its prefix.
    pub local_name: Text,
    /// The namespace that the prefix or the default stands for, where there is one.
    pub namespace: Option<Text>,
    /// The prefix, where there is one.
    pub prefix: Option<Text>,
}

/// An attribute of a start tag.
#[derive(Debug, Drop, PartialEq, Eq)]
pub struct OwnedAttribute {
    /// The name, as the document spells it.
    pub name: OwnedName,
    /// The value, with its references already put in.
    pub value: Text,
}

/// The default namespace in scope.
#[derive(Debug, Drop, PartialEq, Eq)]
pub struct Namespace {
    /// The namespace of names without a prefix, where there is one.
    pub default: Option<Text>,
}

fn copy_part(alloc: Global, part: &Option<Text>) -> Result<Option<Text>, AllocError>
    ensures { IfOk result (λ p. p ≡ part.now) }
{
    match part {
        None => Ok(None),
        Some(text) => Ok(Some(text.copy(alloc)?)),
    }
}

impl OwnedName {
    /// A name without namespace and prefix. Only want of memory refuses.
    pub fn local(alloc: Global, name: &str) -> Result<OwnedName, AllocError>
        ensures { IfOk result (λ n. n ≡ local name.now) }
    {
        Ok(OwnedName {
            local_name: Text::new(alloc, name)?,
            namespace: None,
            prefix: None,
        })
    }

    /// A copy, equal to its original. Only want of memory refuses.
    pub fn copy(&self, alloc: Global) -> Result<OwnedName, AllocError>
        ensures { IfOk result (λ n. n ≡ self.now) }
    {
        Ok(OwnedName {
            local_name: self.local_name.copy(alloc)?,
            namespace: copy_part(alloc, &self.namespace)?,
            prefix: copy_part(alloc, &self.prefix)?,
        })
    }
}

impl Copied for OwnedName {
    fn copied(&self, alloc: Global) -> Result<OwnedName, AllocError> {
        self.copy(alloc)
    }
}

impl OwnedAttribute {
    /// A copy, equal to its original. Only want of memory refuses.
    pub fn copy(&self, alloc: Global) -> Result<OwnedAttribute, AllocError>
        ensures { IfOk result (λ a. a ≡ self.now) }
    {
        Ok(OwnedAttribute {
            name: self.name.copy(alloc)?,
            value: self.value.copy(alloc)?,
        })
    }
}

impl Copied for OwnedAttribute {
    fn copied(&self, alloc: Global) -> Result<OwnedAttribute, AllocError> {
        self.copy(alloc)
    }
}

impl Namespace {
    /// A copy, equal to its original. Only want of memory refuses.
    pub fn copy(&self, alloc: Global) -> Result<Namespace, AllocError>
        ensures { IfOk result (λ n. n ≡ self.now) }
    {
        Ok(Namespace {
            default: copy_part(alloc, &self.default)?,
        })
    }
}

impl Copied for Namespace {
    fn copied(&self, alloc: Global) -> Result<Namespace, AllocError> {
        self.copy(alloc)
    }
}
