//! Dependencies and compositions.

use crate::calls::{named, record};
use cdx_relations::{BomReference, Composition, Compositions, Dependencies, Dependency};
use std::test::Fail;

const DEPENDENCY: &str =
    r#"{"dependsOn":["b"],"ref":"a"} -> <dependency ref=a|<dependency ref=b|>dependency|>dependency"#;

const DEPENDENCIES: &str =
    r#"[{"ref":"a"}] -> <dependencies|<dependency ref=a|>dependency|>dependencies"#;

#[test]
fn dependencies(rt: HostRuntime) -> Result<(), Fail> {
    let alloc = rt.alloc();
    named::<BomReference>(alloc, r#""a" -> <n ref=a|>n"#)?;
    record::<Dependency>(alloc, DEPENDENCY)?;
    record::<Dependencies>(alloc, DEPENDENCIES)
}

const COMPOSITION: &str =
    r#"{"aggregate":"complete","assemblies":["a"],"bom-ref":"r","dependencies":["b"],"signature":{"algorithm":"ES256","value":"v"},"vulnerabilities":["c"]} -> <composition bom-ref=r|<aggregate|=complete|>aggregate|<assemblies|<assembly ref=a|>assembly|>assemblies|<dependencies|<dependency ref=b|>dependency|>dependencies|<vulnerabilities|<vulnerability ref=c|>vulnerability|>vulnerabilities|<signature|<algorithm|=ES256|>algorithm|<value|=v|>value|>signature|>composition"#;

const COMPOSITIONS: &str =
    r#"[{"aggregate":"complete"}] -> <compositions|<composition|<aggregate|=complete|>aggregate|>composition|>compositions"#;

#[test]
fn compositions(rt: HostRuntime) -> Result<(), Fail> {
    let alloc = rt.alloc();
    record::<Composition>(alloc, COMPOSITION)?;
    record::<Compositions>(alloc, COMPOSITIONS)
}
