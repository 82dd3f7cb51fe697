//! Which versions can hold a component without a version of its own, and lists of components and services.

use cdx_nest::{Component, Components, Metadata, Pedigree, Service, Services};
use cdx_test_cases::checks::{holds, row_holds};
use cdx_test_cases::forms::{V3, V4, V5, held};
use cdx_test_cases::rows::row;
use std::alloc::Global;
use std::test::Fail;

const BARE: &str = r#"{"name":"n","type":"file"}"#;

// Whether 1.4 and 1.3 can hold the component.
fn component_fits(alloc: Global, text: &str) -> Result<(bool, bool), Fail> {
    let component = held::<Component>(alloc, text, V4)?;
    Ok((component.fits(V4), component.fits(V3)))
}

// The same of the metadata.
fn metadata_fits(alloc: Global, text: &str) -> Result<(bool, bool), Fail> {
    let metadata = held::<Metadata>(alloc, text, V5)?;
    Ok((metadata.fits(V4), metadata.fits(V3)))
}

// Components that only 1.3 can't hold.
const WITHOUT_VERSION: &str = r#"
    {"name":"n","type":"file"}
    {"name":"n","type":"file","version":"1","components":[{"name":"n","type":"file"}]}
    {"name":"n","type":"file","version":"1","pedigree":{"variants":[{"name":"n","type":"file"}]}}
"#;

#[test]
fn versions_asked_in_1_3(rt: HostRuntime) -> Result<(), Fail> {
    let alloc = rt.alloc();
    for line in WITHOUT_VERSION.lines() {
        if let Some((text, _)) = row(line) {
            row_holds(
                text,
                "it fits 1.4 and not 1.3",
                component_fits(alloc, text)? == (true, false),
            )?;
        }
    }
    let main = r#"{"component":{"name":"n","type":"file"}}"#;
    holds(
        "metadata with such a component fits 1.4 and not 1.3",
        metadata_fits(alloc, main)? == (true, false),
    )?;
    let tool = r#"{"tools":{"components":[{"name":"n","type":"file"}]}}"#;
    holds(
        "metadata with such a tool fits both",
        metadata_fits(alloc, tool)? == (true, true),
    )
}

// The list of one component.
fn holding(alloc: Global, text: &str) -> Result<Components, Fail> {
    let mut components = Components::new(alloc);
    components.push(held::<Component>(alloc, text, V5)?)?;
    Ok(components)
}

// Whether the first of the list is the component itself.
fn is_first(alloc: Global, text: &str) -> Result<bool, Fail> {
    let one = held::<Component>(alloc, text, V5)?;
    Ok(holding(alloc, text)?.get(0) == Some(&one))
}

#[test]
fn lists_of_components(rt: HostRuntime) -> Result<(), Fail> {
    let alloc = rt.alloc();
    let is_empty = Components::new(alloc).len() == 0;
    holds("a new list is empty", is_empty)?;
    holds(
        "the first of the list is the component",
        is_first(alloc, BARE)?,
    )?;
    let components = holding(alloc, BARE)?;
    let is_equal = components == holding(alloc, BARE)?;
    let (count, has_second) = (components.as_slice().len(), components.get(1).is_some());
    drop(components);
    holds("the list has one component", count == 1)?;
    holds("the list has no second component", !has_second)?;
    holds("two lists of one component are equal", is_equal)
}

#[test]
fn lists_of_services(rt: HostRuntime) -> Result<(), Fail> {
    let alloc = rt.alloc();
    let mut services = Services::new(alloc);
    services.push(held::<Service>(alloc, r#"{"name":"n"}"#, V5)?)?;
    let (count, has_first) = (services.len(), services.get(0).is_some());
    let is_new = services == Services::new(alloc);
    drop(services);
    holds("the list has one service", count == 1)?;
    holds("the list has a first service", has_first)?;
    holds("the list isn't a new one", !is_new)?;
    let fits = held::<Pedigree>(alloc, "{}", V5)?.fits(V3);
    holds("a pedigree of nothing fits 1.3", fits)
}
