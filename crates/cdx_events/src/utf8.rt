//! Texts are in UTF-8, since they are strings. Contracts see a text as its bytes alone, so they are told of it where they
//! need it.

ghost use Rattle.std.specs.Prelude.{IsTrue};
ghost use Rattle.std.specs.List.{list_all};

use crate::event::XmlEvent;
use crate::name::OwnedAttribute;
use crate::text::Text;

/// A value whose texts are in UTF-8.
pub trait InUtf8 {
    ghost use Rattle.std.specs.Prelude.{Bool, IsTrue};

    /// Whether they are.
    ghost in_utf8: { Self → Bool };

    /// Tells contracts that its texts are in UTF-8. It does nothing else.
    fn tell(&self)
        ensures { IsTrue (in_utf8 self.now) };
}

/// Tells it of each item of a list.
pub(crate) fn tell_all<T: InUtf8>(items: &[T])
    ensures { IsTrue (list_all T.in_utf8 items.now) }
{
    for item in items {
        item.tell();
    }
}

impl InUtf8 for Text {
    ghost use Rattle.std.specs.Str.{is_utf8};

    ghost in_utf8 = { is_utf8 };

    fn tell(&self) {
        let _text = self.as_str();
    }
}

impl InUtf8 for OwnedAttribute {
    ghost use Rattle.cdx_events.specs.Utf8.{value_in_utf8};

    ghost in_utf8 = { value_in_utf8 };

    fn tell(&self) {
        self.value.tell();
    }
}

impl InUtf8 for XmlEvent {
    ghost use Rattle.cdx_events.specs.Utf8.{in_utf8};

    ghost in_utf8 = { in_utf8 };

    fn tell(&self) {
        match self {
            XmlEvent::StartElement { attributes, .. } => tell_all(attributes.as_slice()),
            XmlEvent::Characters(text) => text.tell(),
            XmlEvent::CData(text) => text.tell(),
            _ => {}
        }
    }
}
