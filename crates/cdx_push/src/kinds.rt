//! The names of the kinds that don't contain themselves, and what elements are read as.

use cdx_events::{List, Text};
use cdx_models::{
    AttachedText, ExternalReferences, Hashes, OrganizationalContact, OrganizationalEntity,
    Properties, Tool,
};
use cdx_push_code::{Commits, Patches};
use cdx_push_parts::{ComponentEvidence, Data, Licenses, Swid};
use cdx_push_relations::{Compositions, Dependencies, Signature};

/// What a machine reads an element as.
#[derive(Clone, Copy, Debug)]
pub enum LeafKind {
    /// A text.
    Text,
    /// `true` or `false`.
    Flag,
    /// A text with its content type and its encoding.
    AttachedText,
    /// The addresses of a service.
    Endpoints,
    /// The authors of a bill.
    Authors,
    /// An organization.
    Entity,
    /// Hashes.
    Hashes,
    /// Properties.
    Properties,
    /// Commits.
    Commits,
    /// Patches.
    Patches,
    /// References to what stands outside the bill.
    ExternalReferences,
    /// Dependencies.
    Dependencies,
    /// Compositions.
    Compositions,
    /// Licenses and expressions.
    Licenses,
    /// A signature.
    Signature,
    /// A tool.
    Tool,
    /// A software tag.
    Swid,
    /// The evidence of a component.
    Evidence,
    /// The data of a service.
    Data,
}

/// What an element was read as, in the variant that has the name of its kind.
#[derive(Drop)]
pub enum LeafValue {
    /// A text.
    Text(Text),
    /// `true` or `false`.
    Flag(bool),
    /// A text with its content type and its encoding.
    AttachedText(AttachedText),
    /// The addresses of a service.
    Endpoints(List<Text>),
    /// The authors of a bill.
    Authors(List<OrganizationalContact>),
    /// An organization.
    Entity(OrganizationalEntity),
    /// Hashes.
    Hashes(Hashes),
    /// Properties.
    Properties(Properties),
    /// Commits.
    Commits(Commits),
    /// Patches.
    Patches(Patches),
    /// References to what stands outside the bill.
    ExternalReferences(ExternalReferences),
    /// Dependencies.
    Dependencies(Dependencies),
    /// Compositions.
    Compositions(Compositions),
    /// Licenses and expressions.
    Licenses(Licenses),
    /// A signature.
    Signature(Signature),
    /// A tool.
    Tool(Tool),
    /// A software tag.
    Swid(Swid),
    /// The evidence of a component.
    Evidence(ComponentEvidence),
    /// The data of a service.
    Data(Data),
}

/// What became of an event.
#[derive(Drop)]
pub enum LeafStep {
    /// The element goes on.
    More,
    /// The element has ended, and was read as this.
    Done(LeafValue),
}
