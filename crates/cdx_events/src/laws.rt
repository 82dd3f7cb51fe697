//! Laws of events. Each is the contract of a function that does nothing.

ghost use Rattle.std.specs.Prelude.{◌≡◌, List, Some};
ghost use Rattle.cdx_events.specs.declared.event.XmlEvent.{XmlEvent};
ghost use Rattle.cdx_events.specs.declared.name.OwnedName.{OwnedName};
ghost use Rattle.cdx_events.specs.declared.name.OwnedAttribute.{OwnedAttribute};
ghost use Rattle.cdx_events.specs.declared.name.Namespace.{Namespace};
ghost use Rattle.cdx_events.specs.Nodes.{Nodes, element, document};
ghost use Rattle.cdx_events.specs.Balance.{OpenElement};
ghost use Rattle.cdx_events.specs.Root.{root_of};

/// A list of events has a root exactly where it is that root's document, so it has at most one.
pub fn one_root()
    ensures found { (n : OwnedName) (a : List OwnedAttribute) (s : Namespace) (nodes : Nodes)
        → root_of (document (element n a s nodes))
        ≡ Some (record { name = n; attributes = a; namespace = s; before = nodes }) }
    ensures only { (events : List XmlEvent) (r : OpenElement) → root_of events ≡ Some r
        → events ≡ document (element r.name r.attributes r.namespace r.before) }
{}
