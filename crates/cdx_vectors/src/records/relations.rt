//! Dependencies and compositions.

use crate::checks::{named, records};
use cdx_relations::{BomReference, Composition, Compositions, Dependencies, Dependency};
use std::test::Fail;

const BOM_REFERENCE: &str = r#"
    1.5 reads,keeps "a"
    1.5 parses <assembly ref=a|=x|>assembly -> unexpected 2 assembly Characters
    1.5 parses <assembly|=x|>assembly -> missing 1 assembly ref
    1.5 names "a" -> <n ref=a|>n
"#;

const DEPENDENCY: &str = r#"
    1.5 reads,keeps {"dependsOn":["b"],"ref":"a"}
    1.5 reads,keeps {"ref":"a"}
    1.5 reads {"ref":"a","dependsOn":null} -> WrongKind /dependsOn
    1.5 reads {"ref":"a","dependsOn":[]} -> {"ref":"a"}
"#;

const DEPENDENCIES: &str = r#"
    1.5 reads,keeps [{"ref":"a"}]
    1.5 parses <dependencies|<dependency ref=dependency|>dependency|<dependency ref=a|<dependency ref=b|>dependency|>dependency|>dependencies -> [{"ref":"dependency"},{"dependsOn":["b"],"ref":"a"}]
    1.5 writes [{"dependsOn":["b"],"ref":"a"}] -> <dependencies|<dependency ref=a|<dependency ref=b|>dependency|>dependency|>dependencies
    1.5 differs []
    1.5 differs [{"ref":"a","dependsOn":["b"]}]
    1.5 differs [{"ref":"x","dependsOn":["b"]}]
    1.5 differs [{"ref":"a","dependsOn":["x"]}]
"#;

const COMPOSITION: &str = r#"
    // a signature is known from 1.4 on, and a reference of its own and vulnerabilities from 1.5 on
    1.3 reads,keeps {"aggregate":"complete","assemblies":["a"],"bom-ref":"r","dependencies":["b"],"signature":{"signers":[]},"vulnerabilities":["c"]} -> {"aggregate":"complete","assemblies":["a"],"dependencies":["b"]}
    1.4 reads,keeps {"aggregate":"complete","assemblies":["a"],"bom-ref":"r","dependencies":["b"],"signature":{"signers":[]},"vulnerabilities":["c"]} -> {"aggregate":"complete","assemblies":["a"],"dependencies":["b"],"signature":{"signers":[]}}
    1.5 reads,keeps {"aggregate":"complete","assemblies":["a"],"bom-ref":"r","dependencies":["b"],"signature":{"signers":[]},"vulnerabilities":["c"]}
    1.3 reads {"aggregate":"complete","signature":1} -> {"aggregate":"complete"}
    // the reference as old documents spell it, and under both spellings
    1.5 reads,keeps {"aggregate":"a","bomRef":"r"} -> {"aggregate":"a","bom-ref":"r"}
    1.5 reads {"aggregate":"a","bom-ref":null,"bomRef":"r"} -> {"aggregate":"a","bom-ref":"r"}
    1.5 reads {"aggregate":"a","bom-ref":"r","bomRef":1} -> {"aggregate":"a","bom-ref":"r"}
    1.5 reads {"aggregate":"a","bom-ref":1,"bomRef":"r"} -> WrongKind /bom-ref
    1.5 reads {"aggregate":"a","bomRef":1} -> WrongKind /bomRef
    1.4 reads {"aggregate":"a","bom-ref":1,"bomRef":1} -> {"aggregate":"a"}
    1.4 reads {"aggregate":"complete","signature":1} -> WrongKind /signature
    1.3 parses <composition|<aggregate|=complete|>aggregate|<signature|>signature|>composition -> unexpected 5 composition StartElement
    1.5 parses <composition|<aggregate|=complete|>aggregate|<signature|>signature|>composition -> missing 6 signature algorithm
"#;

const COMPOSITIONS: &str = r#"
    1.5 reads,keeps [{"aggregate":"complete"}]
    1.3 parses <compositions|<composition bom-ref=r|<assemblies|<assembly ref=a|>assembly|>assemblies|<aggregate|=complete|>aggregate|>composition|>compositions -> [{"aggregate":"complete","assemblies":["a"]}]
    1.5 parses <compositions|<composition bom-ref=r|<assemblies|<assembly ref=a|>assembly|>assemblies|<aggregate|=complete|>aggregate|>composition|>compositions -> [{"aggregate":"complete","assemblies":["a"],"bom-ref":"r"}]
    1.3 writes [{"aggregate":"complete","assemblies":["a"],"bom-ref":"o","dependencies":["d"],"signature":{"algorithm":"ES256","value":"s"},"vulnerabilities":["v"]}] -> <compositions|<composition|<aggregate|=complete|>aggregate|<assemblies|<assembly ref=a|>assembly|>assemblies|<dependencies|<dependency ref=d|>dependency|>dependencies|>composition|>compositions
    1.4 writes [{"aggregate":"complete","assemblies":["a"],"bom-ref":"o","dependencies":["d"],"signature":{"algorithm":"ES256","value":"s"},"vulnerabilities":["v"]}] -> <compositions|<composition|<aggregate|=complete|>aggregate|<assemblies|<assembly ref=a|>assembly|>assemblies|<dependencies|<dependency ref=d|>dependency|>dependencies|<signature|<algorithm|=ES256|>algorithm|<value|=s|>value|>signature|>composition|>compositions
    1.5 writes [{"aggregate":"complete","assemblies":["a"],"bom-ref":"o","dependencies":["d"],"signature":{"algorithm":"ES256","value":"s"},"vulnerabilities":["v"]}] -> <compositions|<composition bom-ref=o|<aggregate|=complete|>aggregate|<assemblies|<assembly ref=a|>assembly|>assemblies|<dependencies|<dependency ref=d|>dependency|>dependencies|<vulnerabilities|<vulnerability ref=v|>vulnerability|>vulnerabilities|<signature|<algorithm|=ES256|>algorithm|<value|=s|>value|>signature|>composition|>compositions
    1.5 differs []
    1.5 differs [{"aggregate":"b"}]
    1.5 differs [{"aggregate":"x"}]
    1.5 differs [{"aggregate":"b","bom-ref":"a"}]
    1.5 differs [{"aggregate":"b","assemblies":["c"]}]
    1.5 differs [{"aggregate":"b","dependencies":["c"]}]
    1.5 differs [{"aggregate":"b","vulnerabilities":["c"]}]
    1.5 differs [{"aggregate":"b","signature":{"algorithm":"ES256","value":"c"}}]
"#;

#[test]
fn dependencies_and_compositions(rt: HostRuntime) -> Result<(), Fail> {
    let alloc = rt.alloc();
    named::<BomReference>(alloc, BOM_REFERENCE)?;
    records::<Dependency>(alloc, DEPENDENCY)?;
    records::<Dependencies>(alloc, DEPENDENCIES)?;
    records::<Composition>(alloc, COMPOSITION)?;
    records::<Compositions>(alloc, COMPOSITIONS)
}
