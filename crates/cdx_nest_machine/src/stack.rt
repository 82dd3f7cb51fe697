//! The machine of the kinds that stand in themselves.

ghost use Rattle.std.specs.Prelude.{◌≡◌, [], ◌∷◌, ◌++◌, List, IfOk, OnOk};
ghost use Rattle.cdx_events.specs.declared.event.XmlEvent.{XmlEvent};
ghost use Rattle.cdx_events.specs.declared.event.XmlEvent.TheVariants.{StartElement, EndElement};
ghost use Rattle.cdx_events.specs.declared.name.Namespace.{Namespace};
ghost use Rattle.cdx_events.specs.declared.name.OwnedName.{OwnedName};
ghost use Rattle.cdx_events.specs.declared.name.OwnedAttribute.{OwnedAttribute};
ghost use Rattle.cdx_schema.specs.Depths.{depth_of};
ghost use Rattle.cdx_machine.specs.declared.frame.Inside.TheVariants.{Nothing};
ghost use Rattle.cdx_machine.specs.Frames.{FeedsChild};
ghost use Rattle.cdx_machine.specs.Machines.{CanStepChild};
ghost use Rattle.cdx_nest_machine.specs.Stacks.{StartsStack, CanStepStack, ProceedsStack, CanYieldStack, YieldsStack};
ghost use Rattle.cdx_nest_machine.specs.Frames.{leaf_holds, BeginsOpen};

use crate::keeps::HoldsBegun;
use crate::nested::{ChildReader, Nested};
use cdx_events::{List, OwnedAttribute, OwnedName, Text, XmlEvent};
use cdx_leaf::{End, Start};
use cdx_machine::{FoundChild, Inside, Leaves, boxed, refuse_in, skip};
use cdx_models::{SpecVersion, XmlReadError};
use cdx_schema::Depth;
use std::alloc::{AllocError, Global};
use std::mem::replace;

/// An open element: its local name, how deep its parts stand, and what was read of it.
#[derive(Drop)]
pub struct Open<F> {
    name: Text,
    depth: Depth,
    part: F,
}

/// An element in which a child of a nested kind is open, that of this position in the plan.
#[derive(Drop)]
pub struct Waiting<F> {
    open: Open<F>,
    position: usize,
}

/// An open child of a leaf kind, that of this position in the plan.
#[derive(Drop)]
pub struct LeafChild<M> {
    machine: Box<M>,
    position: usize,
}

/// The machine of an element of a nested kind. The frames of the elements around the innermost one wait below it.
pub struct StackMachine<F: Nested> {
    alloc: Global,
    version: SpecVersion,
    below: Vec<Waiting<F>>,
    top: Open<F>,
    inside: Inside<LeafChild<F::Leaf>>,
}

// By hand, so that one is freed by a call in the crates above, and not frame by frame.
impl<F: Nested> Drop for StackMachine<F> {
    fn drop(self) {
        let StackMachine {
            alloc: _,
            version: _,
            below: _,
            top: _,
            inside: _,
        } = self;
    }
}

impl<F: Nested> HoldsBegun for StackMachine<F> {
    ghost use Rattle.cdx_nest_machine.specs.Frames.{leaf_holds, shape_of, stack_holds};

    type Sort = F::Sort;

    ghost holds = { λ root m v p d o. stack_holds
        (shape_of F.as_kind F.sort_of F.fields F.child_of)
        (leaf_holds F.as_kind F.child_of F.Leaf.sort_of F.Leaf.holds) F.sort_of F.fields root
        m.below.items m.top m.version m.inside v p d o };
}

// Begins an element at this depth.
fn open_at<F: Nested>(
    sort: F::Sort,
    depth: Depth,
    opened: &Start<'_>,
) -> Result<Open<F>, XmlReadError>
    ensures sort { IfOk result (λ t. F.sort_of t.part ≡ sort) }
    ensures begins { BeginsOpen (F.as_kind sort) F.fields opened.now.place opened.now.version
        (depth_of depth) opened.now.element.now opened.now.attributes.now result }
{
    let Some(inner) = F::deeper(&sort, depth) else {
        return Err(XmlReadError::TooDeep {
            place: opened.place,
        });
    };
    let part = F::begin(sort, opened)?;
    Ok(Open {
        name: opened.element.local_name.copy(opened.alloc)?,
        depth: inner,
        part,
    })
}

// Takes an event of an open child of a leaf kind. With its end the value goes into its field, and nothing is open.
fn feed<F: Nested>(
    part: &mut F,
    child: LeafChild<F::Leaf>,
    alloc: Global,
    place: usize,
    event: &XmlEvent,
) -> Result<Inside<LeafChild<F::Leaf>>, XmlReadError>
    requires { CanStepChild (leaf_holds F.as_kind F.child_of F.Leaf.sort_of F.Leaf.holds
        (F.sort_of part.old)) child place event.now }
    ensures sort { F.sort_of part.new ≡ F.sort_of part.old }
    ensures feeds { FeedsChild (leaf_holds F.as_kind F.child_of F.Leaf.sort_of F.Leaf.holds
        (F.sort_of part.old)) (F.fields part.old) (F.fields part.new) child place event.now
        result }
{
    let LeafChild {
        mut machine,
        position,
    } = child;
    if !machine.step(place, event)? {
        return Ok(Inside::Read(LeafChild { machine, position }));
    }
    let value = Box::into_inner(machine).finish(place, event)?;
    part.put_leaf(position, alloc, value)?;
    Ok(Inside::Nothing)
}

// Puts a waiting element on top of those below.
fn push_below<W: Drop>(below: &mut Vec<W>, waiting: W) -> Result<(), AllocError>
    ensures { OnOk result (below.new.items ≡ below.old.items ++ waiting ∷ []) }
{
    below.push(waiting)?;
    Ok(())
}

impl<F: Nested> StackMachine<F> {
    /// Takes the element's start, inside so many components and services. A refusal is the fault of the start alone, as
    /// where the element is too deep, or want of memory.
    pub fn start(
        sort: F::Sort,
        depth: Depth,
        opened: &Start<'_>,
    ) -> Result<StackMachine<F>, XmlReadError>
        ensures { StartsStack (⟦<StackMachine<F> as HoldsBegun>⟧.holds sort) (F.as_kind sort)
            opened.now.version opened.now.place (depth_of depth) opened.now.element.now
            opened.now.attributes.now result }
    {
        let open = open_at::<F>(sort, depth, opened)?;
        Ok(StackMachine {
            alloc: opened.alloc,
            version: opened.version,
            below: Vec::new(opened.alloc),
            top: open,
            inside: Inside::Nothing,
        })
    }

    // Takes the start of a child of the top element.
    fn start_child(
        &mut self,
        place: usize,
        event: &XmlEvent,
        name: &OwnedName,
        attributes: &List<OwnedAttribute>,
    ) -> Result<bool, XmlReadError>
        requires can { CanStepStack ⟦<StackMachine<F> as HoldsBegun>⟧.holds self.old place
            event.now }
        requires nothing { self.old.inside ≡ Nothing }
        requires start { (z : Namespace)
            × (event.now ≡ StartElement name.now attributes.now z) }
        ensures { ProceedsStack ⟦<StackMachine<F> as HoldsBegun>⟧.holds F.as_kind self.old self.new
            place event.now result }
    {
        let opened = Start {
            alloc: self.alloc,
            place,
            version: self.version,
            element: name,
            attributes,
        };
        match self.top.part.find(self.version, name) {
            FoundChild::At(position) => match self.top.part.child(position) {
                ChildReader::Leaf(sort) => {
                    let started = F::Leaf::start(sort, &opened)?;
                    let machine = boxed(self.alloc, started)?;
                    self.inside = Inside::Read(LeafChild { machine, position });
                    Ok(false)
                }
                ChildReader::Nested(sort) => {
                    let open = open_at::<F>(sort, self.top.depth, &opened)?;
                    let open = replace(&mut self.top, open);
                    push_below(&mut self.below, Waiting { open, position })?;
                    Ok(false)
                }
            },
            FoundChild::Unknown => {
                if !self.top.part.rule().skips() {
                    return refuse_in(self.alloc, place, &self.top.name, event);
                }
                self.inside = Inside::Skipped(0);
                Ok(false)
            }
            FoundChild::Second => refuse_in(self.alloc, place, &self.top.name, event),
        }
    }

    // Takes the end of the top element. Where none is around it, `finish` is left to make the value.
    fn end(
        &mut self,
        place: usize,
        event: &XmlEvent,
        name: &OwnedName,
    ) -> Result<bool, XmlReadError>
        requires can { CanStepStack ⟦<StackMachine<F> as HoldsBegun>⟧.holds self.old place
            event.now }
        requires nothing { self.old.inside ≡ Nothing }
        requires end { event.now ≡ EndElement name.now }
        ensures { ProceedsStack ⟦<StackMachine<F> as HoldsBegun>⟧.holds F.as_kind self.old self.new
            place event.now result }
    {
        let Some(waiting) = self.below.pop() else {
            return Ok(true);
        };
        let ended = replace(&mut self.top, waiting.open);
        let value = ended.part.finish(&End {
            alloc: self.alloc,
            place,
            version: self.version,
            element: name,
        })?;
        self.top.part.put(waiting.position, self.alloc, value)?;
        Ok(false)
    }

    /// Takes the next event, at `place`, and says whether it is the element's end, of which the machine keeps nothing. A
    /// refusal comes with the first event through which the element has a fault; that is the fault, and it stands at this
    /// event. Or else memory ran out. Only the top frame is touched, or the one below it.
    pub fn step(&mut self, place: usize, event: &XmlEvent) -> Result<bool, XmlReadError>
        requires { CanStepStack ⟦<StackMachine<F> as HoldsBegun>⟧.holds self.old place event.now }
        ensures { ProceedsStack ⟦<StackMachine<F> as HoldsBegun>⟧.holds F.as_kind self.old self.new
            place event.now result }
    {
        match replace(&mut self.inside, Inside::Nothing) {
            Inside::Read(child) => {
                self.inside = feed(&mut self.top.part, child, self.alloc, place, event)?;
                Ok(false)
            }
            Inside::Skipped(depth) => {
                self.inside = skip(depth, place, event);
                Ok(false)
            }
            Inside::Nothing => match event {
                XmlEvent::StartElement {
                    name,
                    attributes,
                    ..
                } => self.start_child(place, event, name, attributes),
                XmlEvent::EndElement { name } => self.end(place, event, name),
                _ => {
                    if !self.top.part.rule().passes() {
                        return refuse_in(self.alloc, place, &self.top.name, event);
                    }
                    Ok(false)
                }
            },
        }
    }

    /// What the element is read as that this event ends, at `place`. A refusal is its fault, at its end, or want of memory.
    pub fn finish(self, place: usize, event: &XmlEvent) -> Result<F::Value, XmlReadError>
        requires { CanYieldStack ⟦<StackMachine<F> as HoldsBegun>⟧.holds self place event.now }
        ensures { YieldsStack ⟦<StackMachine<F> as HoldsBegun>⟧.holds F.as_kind F.tree F.value_sort
            self place event.now result }
    {
        let XmlEvent::EndElement { name } = event else {
            unreachable!()
        };
        let StackMachine {
            alloc,
            version,
            below: _,
            top,
            inside: _,
        } = self;
        top.part.finish(&End {
            alloc,
            place,
            version,
            element: name,
        })
    }
}
