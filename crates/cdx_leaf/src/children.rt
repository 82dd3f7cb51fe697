//! What is read child by child: one loop for records and lists alike, over the trait `Children`.
//!
//! What is read may hold in its state what its children need, as a depth: `depth` tells contracts of it. Records that stand
//! in themselves aren't read here, since the checker gives a cycle of calls through a bound no proof: machines with a stack
//! of their own read them.

ghost use Rattle.cdx_events.specs.Nodes.{Nodes};
ghost use Rattle.cdx_events.specs.declared.event.XmlEvent.{XmlEvent};
ghost use Rattle.std.specs.Prelude.{List};
ghost use Rattle.cdx_schema.specs.Depth.{Depth};
ghost use Rattle.cdx_leaf.specs.Reading.{IsAt, IsIn, WithinElement, behind_end, Reads};
ghost use Rattle.cdx_leaf.specs.Each.{each_node, plan_step};
ghost use Rattle.cdx_leaf.specs.Begun.{ReadsBegun};

use crate::child::{after_child, next_child};
use crate::error::Reading;
use crate::rule::Rule;
use crate::start::Start;
use crate::taken::Taken;
use cdx_events::{EventReader, List};

/// What is read child by child, by a plan.
pub trait Children: Drop {
    ghost use Rattle.std.specs.Prelude.{◌≡◌};
    ghost use Rattle.cdx_models.specs.Trees.{Trees};
    ghost use Rattle.cdx_schema.specs.Depth.{Depth};
    ghost use Rattle.cdx_schema.specs.XmlReading.{Plan};
    ghost use Rattle.cdx_leaf.specs.Reading.{IsIn};
    ghost use Rattle.cdx_leaf.specs.Children.{TakesChild};
    ghost use Rattle.cdx_leaf.specs.Rules.{as_rule};

    /// What was read so far, a tree for each field.
    ghost slots: { Self → Trees };

    /// Which children it has, and what becomes of the rest: each field takes the last child, one child and no second one,
    /// or all of them.
    ghost plan: { Self → Plan };

    /// The depth at which children are read, of the one around the element.
    ghost depth: { Self → Depth → Depth };

    /// What becomes of what the plan has no child for: a lax record skips elements and refuses texts, a strict one refuses
    /// both, and a passing one lets both pass.
    fn rule(&self) -> Rule
        ensures { (plan self.now).rule ≡ as_rule result };

    /// Reads the element where its version knows a child of its name. Else, and where it is a second one of which one may
    /// stand, it reads nothing and says so. A refusal is the first fault of the child.
    fn read_child(&mut self, reader: &mut EventReader<'_>, opened: &Start<'_>) -> Reading<Taken>
        requires { IsIn reader.old opened.now.element.now }
        ensures takes { TakesChild (slots self.old) (slots self.new) reader.old reader.new
            opened.now.version (plan self.old) (depth self.old) opened.now.element.now
            opened.now.attributes.now result }
        ensures plan { plan self.new ≡ plan self.old }
        ensures depth { depth self.new ≡ depth self.old };
}

// Reads the children up to the element's end.
fn read_children<R: Children>(
    reader: &mut EventReader<'_>,
    opened: &Start<'_>,
    target: &mut R,
) -> Reading<()>
    requires { IsAt reader.old opened.now.element.now }
    ensures { (d : Depth) (nodes : Nodes) (rest : List XmlEvent)
        → WithinElement reader.old opened.now.element.now nodes rest
        → Reads (λ _. R.slots target.new) reader.old reader.new (behind_end reader.old nodes rest)
        (each_node (plan_step (R.plan target.old) opened.now.version (R.depth target.old d)
        opened.now.element.now.local_name) nodes reader.old.place (R.slots target.old))
        result }
{
    let rule = target.rule();
    'nodes: while let Some(child) = next_child(reader, opened, rule)? {
        let taken = target.read_child(reader, &child)?;
        after_child(reader, opened, rule, &child, taken)?;
    }
    Ok(())
}

/// What was begun by the element's attributes, read to the element's end; or else the fault that it was begun with, or the
/// first one of the content.
pub fn read_record<R: Children>(
    reader: &mut EventReader<'_>,
    opened: &Start<'_>,
    begun: Reading<R>,
) -> Reading<R>
    requires { IsIn reader.old opened.now.element.now }
    ensures { ReadsBegun R.slots R.plan R.depth reader.old reader.new opened.now.version
        opened.now.element.now begun result }
{
    let mut record = begun?;
    read_children(reader, opened, &mut record)?;
    Ok(record)
}
