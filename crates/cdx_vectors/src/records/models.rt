//! Texts, hashes, properties, organizations, references and tools.

use crate::checks::{named, records, values};
use cdx_models::{
    AttachedText, ExternalReference, ExternalReferences, Hash, HashValue, Hashes,
    OrganizationalContact, OrganizationalEntity, Properties, Property, Tool, UrnUuid,
};
use std::test::Fail;

const BOOLEANS: &str = r#"
    1.5 reads,keeps true
    1.5 reads,keeps false
"#;

const NUMBERS: &str = r#"
    1.5 reads,keeps 0
    1.5 reads,keeps 4294967295
    1.5 reads 4294967296 -> OutOfRange
    1.5 reads -1 -> OutOfRange
"#;

const URN_UUID: &str = r#"
    1.5 differs "a"
    1.5 differs "b"
"#;

const HASH_VALUE: &str = r#"
    1.5 reads,keeps "ab"
"#;

const ATTACHED_TEXT: &str = r#"
    1.5 reads,keeps {"content":"c"}
    1.5 reads,keeps {"content":"c","contentType":"t","encoding":"base64"}
    // the last attribute of a name counts
    1.5 parses <text encoding=a encoding=base64|=t|>text -> {"content":"t","encoding":"base64"}
    1.5 parses <text|>text -> unexpected 2 text EndElement
    1.5 names {"content":"bXk=","contentType":"text/plain","encoding":"base64"} -> <n content-type=text/plain encoding=base64|=bXk=|>n
    1.5 differs {"content":"c","contentType":"a","encoding":"b"}
    1.5 differs {"content":"c","contentType":"x","encoding":"b"}
    1.5 differs {"content":"c","encoding":"b"}
    1.5 differs {"content":"c","contentType":"a","encoding":"x"}
    1.5 differs {"content":"x","contentType":"a","encoding":"b"}
"#;

const HASH: &str = r#"
    1.5 reads,keeps {"alg":"SHA-1","content":"ab"}
    1.5 writes {"alg":"SHA-256","content":"ab12"} -> <hash alg=SHA-256|=ab12|>hash
"#;

const HASHES: &str = r#"
    1.5 reads,keeps []
    1.5 reads,keeps [{"alg":"SHA-1","content":"ab"},{"alg":"MD5","content":"cd"}]
    1.5 reads [{"alg":"a","content":"b"},{"alg":null}] -> WrongKind /1/alg
    1.5 parses <hashes|<hash alg=algorithm alg=other|=hash value|>hash|>hashes -> [{"alg":"algorithm","content":"hash value"}]
    1.5 parses <hashes|>hashes -> []
    1.3 writes [{"alg":"SHA-256","content":"ab12"},{"alg":"MD5","content":"cd"}] -> <hashes|<hash alg=SHA-256|=ab12|>hash|<hash alg=MD5|=cd|>hash|>hashes
    1.5 fills [] -> written
    1.5 differs []
    1.5 differs [{"alg":"a","content":"b"}]
    1.5 differs [{"alg":"x","content":"b"}]
    1.5 differs [{"alg":"a","content":"x"}]
"#;

const PROPERTY: &str = r#"
    1.5 reads,keeps {"name":"n","value":"v"}
    1.5 writes {"name":"k","value":""} -> <property name=k|=|>property
"#;

const PROPERTIES: &str = r#"
    1.5 reads,keeps [{"name":"n","value":"v"}]
    1.5 parses <properties|<note|=x|>note|<property name=n|>property|>properties -> [{"name":"n","value":""}]
    1.5 writes [{"name":"k","value":""}] -> <properties|<property name=k|=|>property|>properties
    1.5 differs []
    1.5 differs [{"name":"a","value":"b"}]
    1.5 differs [{"name":"x","value":"b"}]
    1.5 differs [{"name":"a","value":"x"}]
"#;

#[test]
fn values_hashes_and_properties(rt: HostRuntime) -> Result<(), Fail> {
    let alloc = rt.alloc();
    values::<bool>(alloc, BOOLEANS)?;
    values::<u32>(alloc, NUMBERS)?;
    values::<UrnUuid>(alloc, URN_UUID)?;
    values::<HashValue>(alloc, HASH_VALUE)?;
    named::<AttachedText>(alloc, ATTACHED_TEXT)?;
    records::<Hash>(alloc, HASH)?;
    records::<Hashes>(alloc, HASHES)?;
    records::<Property>(alloc, PROPERTY)?;
    records::<Properties>(alloc, PROPERTIES)
}

const ORGANIZATIONAL_CONTACT: &str = r#"
    1.5 reads,keeps {}
    1.5 reads,keeps {"bom-ref":"r","email":"e","name":"n","phone":"p"}
    // the reference as old documents spell it, and under both spellings
    1.3 reads,keeps {"name":"n","bomRef":"r"} -> {"bom-ref":"r","name":"n"}
    1.3 reads {"name":"n","bom-ref":null,"bomRef":"r"} -> {"bom-ref":"r","name":"n"}
    1.3 reads {"name":"n","bom-ref":"r","bomRef":1} -> {"bom-ref":"r","name":"n"}
    1.3 reads {"name":"n","bom-ref":1,"bomRef":"r"} -> WrongKind /bom-ref
    1.3 reads {"name":"n","bomRef":1} -> WrongKind /bomRef
    1.5 parses <author|<name|=A|>name|>author -> {"name":"A"}
    1.5 names {"bom-ref":"c","email":"a@b","name":"Ann","phone":"12"} -> <n bom-ref=c|<name|=Ann|>name|<email|=a@b|>email|<phone|=12|>phone|>n
    // without name, email and phone it is written by itself, and passed over in a list
    1.5 names {"bom-ref":"c"} -> <n bom-ref=c|>n
    1.5 fills {"name":"a"} -> written
    1.5 fills {"bom-ref":"c"} -> passed over
    1.5 differs {"bom-ref":"a","name":"b","email":"c","phone":"d"}
    1.5 differs {"bom-ref":"x","name":"b","email":"c","phone":"d"}
    1.5 differs {"bom-ref":"a","name":"x","email":"c","phone":"d"}
    1.5 differs {"bom-ref":"a","name":"b","email":"x","phone":"d"}
    1.5 differs {"bom-ref":"a","name":"b","email":"c"}
"#;

const ORGANIZATIONAL_ENTITY: &str = r#"
    1.5 reads,keeps {"bom-ref":"r","contact":[{"name":"n"}],"name":"n","url":["u","w"]}
    // the reference as old documents spell it, and under both spellings
    1.3 reads,keeps {"name":"n","bomRef":"r"} -> {"bom-ref":"r","name":"n"}
    1.3 reads {"name":"n","bom-ref":null,"bomRef":"r"} -> {"bom-ref":"r","name":"n"}
    1.3 reads {"name":"n","bom-ref":"r","bomRef":1} -> {"bom-ref":"r","name":"n"}
    1.3 reads {"name":"n","bom-ref":1,"bomRef":"r"} -> WrongKind /bom-ref
    1.3 reads {"name":"n","bomRef":1} -> WrongKind /bomRef
    1.5 reads,keeps {"contact":[],"url":[]}
    1.5 parses <supplier bom-ref=r|<url|=a|>url|<note|>note|<url|=b|>url|>supplier -> {"bom-ref":"r","url":["a","b"]}
    1.5 names {"bom-ref":"e","contact":[{"bom-ref":"c"},{"bom-ref":"d","name":"Ann"}],"name":"Acme","url":["u","v"]} -> <n bom-ref=e|<name|=Acme|>name|<url|=u|>url|<url|=v|>url|<contact bom-ref=d|<name|=Ann|>name|>contact|>n
    1.5 names {"bom-ref":"e","contact":[{"bom-ref":"c"}],"url":[]} -> <n bom-ref=e|>n
    1.5 fills {"url":[]} -> written
    1.5 fills {"bom-ref":"e"} -> passed over
    1.5 differs {"name":"Acme"}
    1.5 differs {"bom-ref":"a","name":"Acme"}
    1.5 differs {}
    1.5 differs {"name":"Acme","url":["u"]}
    1.5 differs {"name":"Acme","contact":[{"name":"c"}]}
"#;

const EXTERNAL_REFERENCE: &str = r#"
    1.5 reads,keeps {"comment":"c","hashes":[],"type":"t","url":"u"}
    1.3 writes {"comment":"own","hashes":[{"alg":"SHA-256","content":"ab12"}],"type":"vcs","url":"urn:cdx:a"} -> <reference type=vcs|<url|=urn:cdx:a|>url|<comment|=own|>comment|<hashes|<hash alg=SHA-256|=ab12|>hash|>hashes|>reference
    1.5 differs {"type":"a","url":"b","comment":"c","hashes":[]}
    1.5 differs {"type":"x","url":"b","comment":"c","hashes":[]}
    1.5 differs {"type":"a","url":"x","comment":"c","hashes":[]}
    1.5 differs {"type":"a","url":"b","hashes":[]}
    1.5 differs {"type":"a","url":"b","comment":"c"}
"#;

const EXTERNAL_REFERENCES: &str = r#"
    1.5 reads,keeps [{"type":"t","url":"u"}]
    1.5 parses <externalReferences|<reference type=bom|<url|=urn:cdx:x|>url|>reference|>externalReferences -> [{"type":"bom","url":"urn:cdx:x"}]
    1.5 writes [{"type":"vcs","url":"u"}] -> <externalReferences|<reference type=vcs|<url|=u|>url|>reference|>externalReferences
"#;

const TOOL: &str = r#"
    1.5 reads,keeps {"externalReferences":[],"hashes":[],"name":"n","vendor":"v","version":"1"}
    1.5 reads {"hashes":[{"alg":"a"}]} -> Missing /hashes/0/content
    1.5 reads {"name":null,"other":1} -> {}
    // external references are known from 1.4 on
    1.3 keeps {"externalReferences":[],"name":"t"} -> {"name":"t"}
    1.4 keeps {"externalReferences":[],"name":"t"}
    1.3 parses <tool|<name|=my_tool|>name|<externalReferences|>externalReferences|>tool -> {"name":"my_tool"}
    1.5 parses <tool|<name|=my_tool|>name|<externalReferences|>externalReferences|>tool -> {"externalReferences":[],"name":"my_tool"}
    1.4 writes {"externalReferences":[{"type":"vcs","url":"u"}],"hashes":[{"alg":"MD5","content":"cd"}],"name":"scan","vendor":"acme","version":"2"} -> <tool|<vendor|=acme|>vendor|<name|=scan|>name|<version|=2|>version|<hashes|<hash alg=MD5|=cd|>hash|>hashes|<externalReferences|<reference type=vcs|<url|=u|>url|>reference|>externalReferences|>tool
    1.3 writes {"externalReferences":[{"type":"vcs","url":"u"}],"hashes":[{"alg":"MD5","content":"cd"}],"name":"scan","vendor":"acme","version":"2"} -> <tool|<vendor|=acme|>vendor|<name|=scan|>name|<version|=2|>version|<hashes|<hash alg=MD5|=cd|>hash|>hashes|>tool
    1.3 writes {"externalReferences":[{"type":"vcs","url":"u"}]} -> <tool|>tool
    1.5 fills {"name":"t"} -> written
    1.5 fills {"externalReferences":[{"type":"vcs","url":"u"}]} -> passed over
    1.5 differs {}
    1.5 differs {"vendor":"a"}
    1.5 differs {"name":"a"}
    1.5 differs {"version":"a"}
    1.5 differs {"hashes":[]}
    1.5 differs {"externalReferences":[]}
"#;

#[test]
fn organizations_references_and_tools(rt: HostRuntime) -> Result<(), Fail> {
    let alloc = rt.alloc();
    named::<OrganizationalContact>(alloc, ORGANIZATIONAL_CONTACT)?;
    named::<OrganizationalEntity>(alloc, ORGANIZATIONAL_ENTITY)?;
    records::<ExternalReference>(alloc, EXTERNAL_REFERENCE)?;
    records::<ExternalReferences>(alloc, EXTERNAL_REFERENCES)?;
    records::<Tool>(alloc, TOOL)
}
