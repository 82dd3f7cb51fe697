//! Components, services, tools and metadata.

use crate::calls::record;
use cdx_nest::{Component, Components, Metadata, Pedigree, Service, Services, Tools};
use cdx_test_cases::checks::row_holds;
use cdx_test_cases::forms::{V3, V4, V5, held};
use std::test::Fail;

const COMPONENT: &str =
    r#"{"components":[{"name":"m","type":"file","version":"1"}],"name":"n","pedigree":{"notes":"t"},"type":"library","version":"1"} -> <component type=library|<name|=n|>name|<version|=1|>version|<pedigree|<notes|=t|>notes|>pedigree|<components|<component type=file|<name|=m|>name|<version|=1|>version|>component|>components|>component"#;

const COMPONENTS: &str =
    r#"[{"name":"n","type":"file"}] -> <components|<component type=file|<name|=n|>name|>component|>components"#;

const PEDIGREE: &str =
    r#"{"ancestors":[{"name":"n","type":"file"}],"commits":[],"notes":"t","patches":[]} -> <pedigree|<ancestors|<component type=file|<name|=n|>name|>component|>ancestors|<commits|>commits|<patches|>patches|<notes|=t|>notes|>pedigree"#;

#[test]
fn components(rt: HostRuntime) -> Result<(), Fail> {
    let alloc = rt.alloc();
    record::<Component>(alloc, COMPONENT)?;
    record::<Components>(alloc, COMPONENTS)?;
    record::<Pedigree>(alloc, PEDIGREE)
}

// A list of components is also written under other names.
const ANCESTORS: &str =
    r#"[{"name":"n","type":"file"}] -> <components|<component type=file|<name|=n|>name|>component|>components -> <ancestors|<component type=file|<name|=n|>name|>component|>ancestors"#;

#[test]
fn components_inside(rt: HostRuntime) -> Result<(), Fail> {
    record::<Components>(rt.alloc(), ANCESTORS)
}

const SERVICE: &str =
    r#"{"data":[],"name":"n","provider":{"name":"p"},"services":[{"name":"m"}]} -> <service|<provider|<name|=p|>name|>provider|<name|=n|>name|<data|>data|<services|<service|<name|=m|>name|>service|>services|>service"#;

const SERVICES: &str = r#"[{"name":"n"}] -> <services|<service|<name|=n|>name|>service|>services"#;

#[test]
fn services(rt: HostRuntime) -> Result<(), Fail> {
    let alloc = rt.alloc();
    record::<Service>(alloc, SERVICE)?;
    record::<Services>(alloc, SERVICES)
}

const LISTED: &str = r#"[{"name":"n"}] -> <tools|<tool|<name|=n|>name|>tool|>tools"#;

const TOOLS: &str =
    r#"{"components":[{"name":"n","type":"file"}],"services":[{"name":"m"}]} -> <tools|<services|<service|<name|=m|>name|>service|>services|<components|<component type=file|<name|=n|>name|>component|>components|>tools"#;

const METADATA: &str =
    r#"{"component":{"name":"n","type":"file"},"supplier":{"name":"s"},"timestamp":"t","tools":[{"name":"m"}]} -> <metadata|<timestamp|=t|>timestamp|<tools|<tool|<name|=m|>name|>tool|>tools|<component type=file|<name|=n|>name|>component|<supplier|<name|=s|>name|>supplier|>metadata"#;

#[test]
fn tools_and_metadata(rt: HostRuntime) -> Result<(), Fail> {
    let alloc = rt.alloc();
    record::<Tools>(alloc, LISTED)?;
    record::<Tools>(alloc, TOOLS)?;
    record::<Metadata>(alloc, METADATA)
}

const ONE: &str = r#"{"name":"n","type":"file"}"#;

const BARE: &str = r#"[{"name":"n","type":"file"}]"#;

const MAIN: &str = r#"{"component":{"name":"n","type":"file"}}"#;

const VARIANTS: &str = r#"{"variants":[{"name":"n","type":"file"}]}"#;

// What holds a component without a version of its own fits 1.4 and not 1.3.
#[test]
fn fitting(rt: HostRuntime) -> Result<(), Fail> {
    let alloc = rt.alloc();
    let component = held::<Component>(alloc, ONE, V5)?;
    let is_so = component.fits(V4) && !component.fits(V3);
    drop(component);
    row_holds(ONE, "it fits 1.4 and not 1.3", is_so)?;
    let components = held::<Components>(alloc, BARE, V5)?;
    let is_so = components.fits(V4) && !components.fits(V3);
    drop(components);
    row_holds(BARE, "it fits 1.4 and not 1.3", is_so)?;
    let pedigree = held::<Pedigree>(alloc, VARIANTS, V5)?;
    let is_so = pedigree.fits(V4) && !pedigree.fits(V3);
    drop(pedigree);
    row_holds(VARIANTS, "it fits 1.4 and not 1.3", is_so)?;
    let metadata = held::<Metadata>(alloc, MAIN, V5)?;
    let is_so = metadata.fits(V4) && !metadata.fits(V3);
    drop(metadata);
    row_holds(MAIN, "it fits 1.4 and not 1.3", is_so)
}
