//! What is written as XML.

ghost use Rattle.std.specs.Prelude.{◌≡◌, Bool, is_some};
ghost use Rattle.cdx_models.specs.Trees.{Tree, present};
ghost use Rattle.cdx_schema.specs.Kinds.{Kind};
ghost use Rattle.cdx_write.specs.Spelling.{Tag, tagged, spelling};
ghost use Rattle.cdx_write.specs.WillWrite.{will_write};
ghost use Rattle.cdx_write.specs.Writing.{Appends};

use crate::element::{Element, HasContent, Tagged};
use cdx_events::EventWriter;
use cdx_models::{SpecVersion, XmlWriteError};
use cdx_schema::Target;
use std::alloc::Global;

/// What contracts see of a value that is written: its tree, and of one that may be absent the tree of what is there.
/// No value with content can be given another impl, so that none chooses what it is seen as.
pub trait Shown {
    // The tree as which contracts see the value.
    ghost shown: { Self → Tree };

    // The kind of that tree.
    ghost shown_kind: { Kind };

    // Whether there is something to write.
    ghost will_show: { Self → Bool };
}

/// A value is shown as its tree.
impl<T: HasContent> Shown for T {
    ghost shown = { T.tree };

    ghost shown_kind = { T.kind };

    ghost will_show = { λ x. will_write (T.tree x) };
}

/// A value that may be absent is shown where it is there, and there is something to write exactly there.
impl<T: Shown> Shown for Option<T> {
    ghost shown = { present T.shown };

    ghost shown_kind = { T.shown_kind };

    ghost will_show = { is_some };
}

/// A value that writes its element itself.
pub trait ToXml: Shown {
    // The name under which it is written, or that it has none.
    ghost tag: { Tag };

    /// Appends the spelling, in the version, of what the version keeps of the value. Only want of memory refuses;
    /// the writer then has a prefix of that.
    fn write_xml_element(
        &self,
        alloc: Global,
        writer: &mut EventWriter,
        version: SpecVersion,
    ) -> Result<(), XmlWriteError>
        ensures { Appends writer.old writer.new
            (spelling tag (Self.shown self.now) version Self.shown_kind) result };

    /// Whether there is something to write. It takes no memory.
    fn will_write(&self) -> bool
        ensures { result ≡ Self.will_show self.now };
}

/// A value that is written under a name that the caller gives.
pub trait ToInnerXml: Shown {
    /// Appends the spelling, in the version and under the name, of what the version keeps of the value. Only want of
    /// memory is refused; the writer then has a prefix of that.
    fn write_xml_named_element(
        &self,
        alloc: Global,
        writer: &mut EventWriter,
        version: SpecVersion,
        tag: &str,
    ) -> Result<(), XmlWriteError>
        ensures { Appends writer.old writer.new
            (spelling (tagged tag.now) (Self.shown self.now) version Self.shown_kind) result };

    /// Whether there is something to write. It takes no memory.
    fn will_write(&self) -> bool
        ensures { result ≡ Self.will_show self.now };
}

/// A value with a name of its own is written under that.
impl<T: Tagged> ToXml for T {
    ghost tag = { tagged T.own_name };

    fn write_xml_element(
        &self,
        alloc: Global,
        writer: &mut EventWriter,
        version: SpecVersion,
    ) -> Result<(), XmlWriteError> {
        self.write_as(writer, T::own_name(), Target { alloc, version })
    }

    fn will_write(&self) -> bool {
        self.has_content()
    }
}

/// A value that the record or the list around it writes under a name is written under any.
impl<T: Element + HasContent> ToInnerXml for T {
    fn write_xml_named_element(
        &self,
        alloc: Global,
        writer: &mut EventWriter,
        version: SpecVersion,
        tag: &str,
    ) -> Result<(), XmlWriteError> {
        self.write_as(writer, tag, Target { alloc, version })
    }

    fn will_write(&self) -> bool {
        self.has_content()
    }
}

impl<T: ToXml> ToXml for Option<T> {
    ghost tag = { T.tag };

    /// `None` writes nothing.
    fn write_xml_element(
        &self,
        alloc: Global,
        writer: &mut EventWriter,
        version: SpecVersion,
    ) -> Result<(), XmlWriteError> {
        match self {
            None => Ok(()),
            Some(held) => held.write_xml_element(alloc, writer, version),
        }
    }

    fn will_write(&self) -> bool {
        self.is_some()
    }
}

impl<T: ToInnerXml> ToInnerXml for Option<T> {
    /// `None` writes nothing.
    fn write_xml_named_element(
        &self,
        alloc: Global,
        writer: &mut EventWriter,
        version: SpecVersion,
        tag: &str,
    ) -> Result<(), XmlWriteError> {
        match self {
            None => Ok(()),
            Some(held) => held.write_xml_named_element(alloc, writer, version, tag),
        }
    }

    fn will_write(&self) -> bool {
        self.is_some()
    }
}
