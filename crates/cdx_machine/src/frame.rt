//! Elements that are read child by child.

ghost use Rattle.std.specs.Prelude.{◌≡◌, ◌<◌, List, IfOk, if◌then◌else◌};
ghost use Rattle.cdx_events.specs.declared.event.XmlEvent.{XmlEvent};
ghost use Rattle.cdx_models.specs.Versions.{knows};
ghost use Rattle.cdx_machine.specs.Frames.{skipped, Enters, FeedsChild};
ghost use Rattle.cdx_machine.specs.Machines.{CanStepChild};
ghost use Rattle.cdx_machine.specs.Several.{reads_boxed};

use crate::machine::Machine;
use crate::or::Machines;
use crate::refusal::refuse_in;
use cdx_events::{List, OwnedAttribute, OwnedName, Text, XmlEvent};
use cdx_leaf::{End, Rule, Start};
use cdx_models::{SpecVersion, XmlReadError};
use std::alloc::{AllocError, Global};
use std::mem::replace;

/// What a child's name stands for.
#[derive(Drop)]
pub enum FoundChild {
    /// The child of this position in the plan.
    At(usize),
    /// No child that the version knows.
    Unknown,
    /// A second one where one may stand.
    Second,
}

impl FoundChild {
    /// The child of the position, which is there from `since` on: none where the version doesn't know it.
    pub fn since(since: SpecVersion, version: SpecVersion, position: usize) -> FoundChild
        ensures { result
            ≡ (if knows since version then FoundChild.At position else FoundChild.Unknown) }
    {
        if since.is_known_to(version) {
            FoundChild::At(position)
        } else {
            FoundChild::Unknown
        }
    }
}

/// What stands open in an element.
#[derive(Drop)]
pub enum Inside<C> {
    /// No child.
    Nothing,
    /// A child that this machine reads.
    Read(C),
    /// A child that is skipped, with so many elements open in it.
    Skipped(usize),
}

/// What is read child by child, while it is read: the fields so far.
pub trait Frame: Drop {
    ghost use Rattle.std.specs.Prelude.{◌≡◌, ◌+◌, OnOk};
    ghost use Rattle.cdx_models.specs.Trees.{Tree, Trees};
    ghost use Rattle.cdx_schema.specs.Kinds.{Kind};
    ghost use Rattle.cdx_schema.specs.XmlReading.{Plan};
    ghost use Rattle.cdx_leaf.specs.Attribute.{GivesAt};
    ghost use Rattle.cdx_leaf.specs.Rules.{as_rule};
    ghost use Rattle.cdx_machine.specs.Contents.{First};
    ghost use Rattle.cdx_machine.specs.Frames.{Last, IsFrame};
    ghost use Rattle.cdx_machine.specs.Several.{kinds_of, found_from, Puts};

    /// What the element is read as.
    type Value: Drop;

    /// The machines of its children, in the plan's order.
    type Child: Machines;

    /// The tree of what it is read as.
    ghost tree: { Self.Value → Tree };

    /// The kind.
    ghost kind: { Kind };

    /// Which children it has, and what becomes of the rest.
    ghost plan: { Plan };

    /// What the attributes begin.
    ghost first: { First };

    /// What the fields come to at the element's end.
    ghost last: { Last };

    /// The fields so far.
    ghost slots: { Self → Trees };

    /// What becomes of what the plan has no child for.
    fn rule(&self) -> Rule
        ensures { plan.rule ≡ as_rule result };

    /// What the attributes begin, or their first fault, at the element's start.
    fn begin(opened: &Start<'_>) -> Result<Self, XmlReadError>
        ensures { GivesAt slots (opened.now.place + 1)
            (first opened.now.element.now.local_name opened.now.attributes.now opened.now.version
            opened.now.place) result };

    /// The child that the version knows by the name.
    fn find(&self, version: SpecVersion, name: &OwnedName) -> FoundChild
        ensures { result
            ≡ found_from 0 plan.children (slots self.now) version name.now.local_name };

    /// Puts what a child was read as into its field.
    fn put(
        &mut self,
        alloc: Global,
        value: <Self::Child as Machines>::Value,
    ) -> Result<(), AllocError>
        ensures { OnOk result (Puts plan.children (Self.Child.source value)
            (Self.Child.tree value) (slots self.old) (slots self.new)) };

    /// The value, or the fault of the first required child that is missing, at the element's end; or want of memory.
    fn finish(self, closed: &End<'_>) -> Result<Self::Value, XmlReadError>
        ensures { GivesAt tree (closed.now.place + 1)
            (last closed.now.element.now.local_name closed.now.version closed.now.place
            (slots self)) result };

    // The machines read the kinds of the children.
    ghost child_kinds: { Self.Child.kinds ≡ kinds_of plan.children };

    // The kind is read like this.
    ghost frame: { IsFrame kind plan first last };
}

/// Takes an event of a child that is skipped, in which so many elements are open. With its end nothing is open.
pub fn skip<C>(depth: usize, place: usize, event: &XmlEvent) -> Inside<C>
    requires { depth < place }
    ensures { result ≡ skipped depth event.now }
{
    match event {
        XmlEvent::StartElement { .. } => Inside::Skipped(depth + 1),
        XmlEvent::EndElement { .. } => {
            if depth == 0 {
                return Inside::Nothing;
            }
            Inside::Skipped(depth - 1)
        }
        _ => Inside::Skipped(depth),
    }
}

/// The value on the heap, so that what holds it stays small.
pub fn boxed<T: Drop>(alloc: Global, value: T) -> Result<Box<T>, AllocError>
    ensures { IfOk result (λ b. b.value ≡ value) }
{
    Ok(Box::new(alloc, value)?)
}

// Takes the start of a child of the element of this local name, at this place.
fn enter<F: Frame>(
    alloc: Global,
    version: SpecVersion,
    element: &Text,
    part: &F,
    place: usize,
    event: &XmlEvent,
    name: &OwnedName,
    attributes: &List<OwnedAttribute>,
) -> Result<Inside<Box<F::Child>>, XmlReadError>
    ensures { Enters (reads_boxed F.plan F.Child.position_of F.Child.holds) F.plan
        (F.slots part.now) version element.now place event.now name.now attributes.now result }
{
    match part.find(version, name) {
        FoundChild::At(position) => {
            let child = F::Child::start(
                position,
                &Start {
                    alloc,
                    place,
                    version,
                    element: name,
                    attributes,
                },
            )?;
            Ok(Inside::Read(boxed(alloc, child)?))
        }
        FoundChild::Unknown => {
            if !part.rule().skips() {
                return refuse_in(alloc, place, element, event);
            }
            Ok(Inside::Skipped(0))
        }
        FoundChild::Second => refuse_in(alloc, place, element, event),
    }
}

// Takes an event of an open child, at this place. With its end the value goes into its field, and nothing is open.
fn feed<F: Frame>(
    part: &mut F,
    mut child: Box<F::Child>,
    alloc: Global,
    place: usize,
    event: &XmlEvent,
) -> Result<Inside<Box<F::Child>>, XmlReadError>
    requires { CanStepChild (reads_boxed F.plan F.Child.position_of F.Child.holds) child place
        event.now }
    ensures { FeedsChild (reads_boxed F.plan F.Child.position_of F.Child.holds) (F.slots part.old)
        (F.slots part.new) child place event.now result }
{
    if !child.step(place, event)? {
        return Ok(Inside::Read(child));
    }
    let value = Box::into_inner(child).finish(place, event)?;
    part.put(alloc, value)?;
    Ok(Inside::Nothing)
}

/// The machine of an element that is read child by child.
#[derive(Drop)]
pub struct FrameMachine<F: Frame> {
    alloc: Global,
    version: SpecVersion,
    // The element's local name.
    name: Text,
    part: F,
    inside: Inside<Box<F::Child>>,
}

impl<F: Frame> Machine for FrameMachine<F> {
    ghost use Rattle.cdx_machine.specs.Frames.{holds_inside};
    ghost use Rattle.cdx_machine.specs.Several.{reads_boxed};

    type Value = F::Value;

    ghost tree = { F.tree };

    ghost kind = { F.kind };

    ghost holds = { λ m v p d o.
        holds_inside (reads_boxed F.plan F.Child.position_of F.Child.holds) F.first F.plan m.name
        m.version (F.slots m.part) m.inside v p d o };

    fn start(opened: &Start<'_>) -> Result<FrameMachine<F>, XmlReadError> {
        let part = F::begin(opened)?;
        Ok(FrameMachine {
            alloc: opened.alloc,
            version: opened.version,
            name: opened.element.local_name.copy(opened.alloc)?,
            part,
            inside: Inside::Nothing,
        })
    }

    fn step(&mut self, place: usize, event: &XmlEvent) -> Result<bool, XmlReadError> {
        match replace(&mut self.inside, Inside::Nothing) {
            Inside::Read(child) => {
                self.inside = feed(&mut self.part, child, self.alloc, place, event)?;
                Ok(false)
            }
            Inside::Skipped(depth) => {
                self.inside = skip(depth, place, event);
                Ok(false)
            }
            Inside::Nothing => match event {
                XmlEvent::StartElement {
                    name,
                    attributes,
                    ..
                } => {
                    self.inside = enter(
                        self.alloc,
                        self.version,
                        &self.name,
                        &self.part,
                        place,
                        event,
                        name,
                        attributes,
                    )?;
                    Ok(false)
                }
                XmlEvent::EndElement { .. } => Ok(true),
                _ => {
                    if !self.part.rule().passes() {
                        return refuse_in(self.alloc, place, &self.name, event);
                    }
                    Ok(false)
                }
            },
        }
    }

    fn finish(self, place: usize, event: &XmlEvent) -> Result<F::Value, XmlReadError> {
        let XmlEvent::EndElement { name } = event else {
            unreachable!()
        };
        self.part.finish(&End {
            alloc: self.alloc,
            place,
            version: self.version,
            element: name,
        })
    }
}
