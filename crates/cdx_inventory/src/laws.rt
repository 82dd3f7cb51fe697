//! The laws of what an inventory lists. Each is the contract of a function that does nothing.
//!
//! A bill's components are *listed* with their paths, each before what stands inside it: those of `components`, of the
//! metadata and its tools, and of pedigrees, at every depth. A path leads by the JSON names of members and the numbers of
//! items. The laws speak of trees with the shape of a bill, and ask nothing of their texts.

ghost use Rattle.cdx_inventory.specs.Listing.{ListsPaths, ListsAll, ListsKept};

/// For every bill: no two of the listed components have the same path, each path leads in the bill to its component,
/// and nothing but components is listed.
pub fn lists_paths()
    ensures { ListsPaths }
{}

/// For every bill: each component that stands anywhere in it is listed, each path that leads to a component is listed
/// with it, and as many components are listed as stand in the bill.
pub fn lists_all()
    ensures { ListsAll }
{}

/// For every bill and version: what the version keeps of the bill lists the components of the bill in the same order,
/// save those inside the metadata's tools object before 1.5, with the same path, name and version for each.
pub fn lists_kept()
    ensures { ListsKept }
{}
