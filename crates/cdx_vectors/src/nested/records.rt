//! Components, services, tools and metadata.

use crate::checks::records;
use cdx_nest::{Component, Metadata, Service, Tools};
use std::test::Fail;

const COMPONENT: &str = r#"
    1.3 reads {"name":"n","type":"file"} -> Missing /version
    1.4 reads {"name":"n","type":"file"}
    1.5 parses <component type=library|=x|>component -> unexpected 2 component Characters
    1.5 parses <component|=x|>component -> missing 1 component type
    1.5 parses <component type=file|<version|=1|>version|>component -> missing 5 component name
    1.5 parses <component type=file|<note|<name|>name|>note|<name|=m|>name|<name|=n|>name|>component -> {"name":"n","type":"file"}
    1.5 parses <component type=file|<modified|=yes|>modified|>component -> parse 4 modified yes xs:boolean
    1.5 parses <component type=file|<components|=x|>components|>component -> unexpected 3 components Characters
    1.3 parses <component type=file|<name|=n|>name|>component -> missing 5 component version
    1.3 parses <component type=file|<signature|>signature|<version|>version|>component -> missing 6 component name
    // a component is known to a version but for its signature
    1.3 carries {"author":"a","bom-ref":"r","components":[{"name":"n","type":"file","version":"1"}],"copyright":"c","cpe":"cpe:/a:b","description":"d","evidence":{"copyright":[{"text":"c"}],"licenses":[{"expression":"MIT"}]},"externalReferences":[{"type":"vcs","url":"u"}],"group":"g","hashes":[{"alg":"MD5","content":"ab"}],"licenses":[{"license":{"id":"MIT"}}],"mime-type":"text/plain","modified":true,"name":"n","pedigree":{"ancestors":[{"name":"n","type":"file","version":"1"}],"commits":[{"uid":"u"}],"descendants":[],"notes":"n","patches":[{"type":"backport"}],"variants":[]},"properties":[{"name":"n","value":"v"}],"publisher":"p","purl":"pkg:a/b","scope":"required","signature":{"algorithm":"ES256","value":"v"},"supplier":{"name":"s"},"swid":{"name":"n","tagId":"t"},"type":"library","version":"1"} -> <component type=library mime-type=text/plain bom-ref=r|<supplier|<name|=s|>name|>supplier|<author|=a|>author|<publisher|=p|>publisher|<group|=g|>group|<name|=n|>name|<version|=1|>version|<description|=d|>description|<scope|=required|>scope|<hashes|<hash alg=MD5|=ab|>hash|>hashes|<licenses|<license|<id|=MIT|>id|>license|>licenses|<copyright|=c|>copyright|<cpe|=cpe:/a:b|>cpe|<purl|=pkg:a/b|>purl|<swid tagId=t name=n|>swid|<modified|=true|>modified|<pedigree|<ancestors|<component type=file|<name|=n|>name|<version|=1|>version|>component|>ancestors|<descendants|>descendants|<variants|>variants|<commits|<commit|<uid|=u|>uid|>commit|>commits|<patches|<patch type=backport|>patch|>patches|<notes|=n|>notes|>pedigree|<externalReferences|<reference type=vcs|<url|=u|>url|>reference|>externalReferences|<properties|<property name=n|=v|>property|>properties|<components|<component type=file|<name|=n|>name|<version|=1|>version|>component|>components|<evidence|<licenses|<expression|=MIT|>expression|>licenses|<copyright|<text|!c|>text|>copyright|>evidence|>component -> {"author":"a","bom-ref":"r","components":[{"name":"n","type":"file","version":"1"}],"copyright":"c","cpe":"cpe:/a:b","description":"d","evidence":{"copyright":[{"text":"c"}],"licenses":[{"expression":"MIT"}]},"externalReferences":[{"type":"vcs","url":"u"}],"group":"g","hashes":[{"alg":"MD5","content":"ab"}],"licenses":[{"license":{"id":"MIT"}}],"mime-type":"text/plain","modified":true,"name":"n","pedigree":{"ancestors":[{"name":"n","type":"file","version":"1"}],"commits":[{"uid":"u"}],"descendants":[],"notes":"n","patches":[{"type":"backport"}],"variants":[]},"properties":[{"name":"n","value":"v"}],"publisher":"p","purl":"pkg:a/b","scope":"required","supplier":{"name":"s"},"swid":{"name":"n","tagId":"t"},"type":"library","version":"1"}
    1.4,1.5 carries {"author":"a","bom-ref":"r","components":[{"name":"n","type":"file","version":"1"}],"copyright":"c","cpe":"cpe:/a:b","description":"d","evidence":{"copyright":[{"text":"c"}],"licenses":[{"expression":"MIT"}]},"externalReferences":[{"type":"vcs","url":"u"}],"group":"g","hashes":[{"alg":"MD5","content":"ab"}],"licenses":[{"license":{"id":"MIT"}}],"mime-type":"text/plain","modified":true,"name":"n","pedigree":{"ancestors":[{"name":"n","type":"file","version":"1"}],"commits":[{"uid":"u"}],"descendants":[],"notes":"n","patches":[{"type":"backport"}],"variants":[]},"properties":[{"name":"n","value":"v"}],"publisher":"p","purl":"pkg:a/b","scope":"required","signature":{"algorithm":"ES256","value":"v"},"supplier":{"name":"s"},"swid":{"name":"n","tagId":"t"},"type":"library","version":"1"} -> <component type=library mime-type=text/plain bom-ref=r|<supplier|<name|=s|>name|>supplier|<author|=a|>author|<publisher|=p|>publisher|<group|=g|>group|<name|=n|>name|<version|=1|>version|<description|=d|>description|<scope|=required|>scope|<hashes|<hash alg=MD5|=ab|>hash|>hashes|<licenses|<license|<id|=MIT|>id|>license|>licenses|<copyright|=c|>copyright|<cpe|=cpe:/a:b|>cpe|<purl|=pkg:a/b|>purl|<swid tagId=t name=n|>swid|<modified|=true|>modified|<pedigree|<ancestors|<component type=file|<name|=n|>name|<version|=1|>version|>component|>ancestors|<descendants|>descendants|<variants|>variants|<commits|<commit|<uid|=u|>uid|>commit|>commits|<patches|<patch type=backport|>patch|>patches|<notes|=n|>notes|>pedigree|<externalReferences|<reference type=vcs|<url|=u|>url|>reference|>externalReferences|<properties|<property name=n|=v|>property|>properties|<components|<component type=file|<name|=n|>name|<version|=1|>version|>component|>components|<evidence|<licenses|<expression|=MIT|>expression|>licenses|<copyright|<text|!c|>text|>copyright|>evidence|<signature|<algorithm|=ES256|>algorithm|<value|=v|>value|>signature|>component
    1.5 carries {"name":"n","pedigree":{},"type":"file"} -> <component type=file|<name|=n|>name|<pedigree|>pedigree|>component
    // a supplier without name, urls and contacts and evidence without fields aren't written; a pedigree is
    1.5 carries {"name":"n","pedigree":{},"supplier":{"bom-ref":"r"},"type":"file"} -> <component type=file|<name|=n|>name|<pedigree|>pedigree|>component -> {"name":"n","pedigree":{},"supplier":{"bom-ref":"r"},"type":"file"} -> {"name":"n","pedigree":{},"type":"file"}
    1.5 carries {"evidence":{},"name":"n","pedigree":{},"type":"file"} -> <component type=file|<name|=n|>name|<pedigree|>pedigree|>component -> {"evidence":{},"name":"n","pedigree":{},"type":"file"} -> {"name":"n","pedigree":{},"type":"file"}
    1.5 differs {"author":"a","bom-ref":"r","components":[{"name":"n","type":"file","version":"1"}],"copyright":"c","cpe":"cpe:/a:b","description":"d","evidence":{"copyright":[{"text":"c"}],"licenses":[{"expression":"MIT"}]},"externalReferences":[{"type":"vcs","url":"u"}],"group":"g","hashes":[{"alg":"MD5","content":"ab"}],"licenses":[{"license":{"id":"MIT"}}],"mime-type":"text/plain","modified":true,"name":"n","pedigree":{"ancestors":[{"name":"n","type":"file","version":"1"}],"commits":[{"uid":"u"}],"descendants":[],"notes":"n","patches":[{"type":"backport"}],"variants":[]},"properties":[{"name":"n","value":"v"}],"publisher":"p","purl":"pkg:a/b","scope":"required","signature":{"algorithm":"ES256","value":"v"},"supplier":{"name":"s"},"swid":{"name":"n","tagId":"t"},"type":"library","version":"1"}
"#;

const SERVICE: &str = r#"
    1.5 parses <service|<name|=n|>name|<trustZone|=z|>trustZone|>service -> {"name":"n","trustZone":"z"}
    1.5 parses <service|!x|>service -> unexpected 2 service CData
    1.4 parses <service|<name|=n|>name|<trustZone|=z|>trustZone|>service -> {"name":"n"}
    1.4 parses <service|>service -> missing 2 service name
    1.4 parses <service|<endpoints|<url|>url|>endpoints|>service -> unexpected 3 endpoints StartElement
    // a service is known to a version but for its signature and its trust zone
    1.3 carries {"authenticated":true,"bom-ref":"r","data":[{"classification":"PII","flow":"inbound"}],"description":"d","endpoints":["e"],"externalReferences":[{"type":"vcs","url":"u"}],"group":"g","licenses":[{"license":{"id":"MIT"}}],"name":"n","properties":[{"name":"n","value":"v"}],"provider":{"name":"p"},"services":[{"name":"n"}],"signature":{"algorithm":"ES256","value":"v"},"trustZone":"z","version":"1","x-trust-boundary":false} -> <service bom-ref=r|<provider|<name|=p|>name|>provider|<group|=g|>group|<name|=n|>name|<version|=1|>version|<description|=d|>description|<endpoints|<endpoint|=e|>endpoint|>endpoints|<authenticated|=true|>authenticated|<x-trust-boundary|=false|>x-trust-boundary|<data|<classification flow=inbound|=PII|>classification|>data|<licenses|<license|<id|=MIT|>id|>license|>licenses|<externalReferences|<reference type=vcs|<url|=u|>url|>reference|>externalReferences|<properties|<property name=n|=v|>property|>properties|<services|<service|<name|=n|>name|>service|>services|>service -> {"authenticated":true,"bom-ref":"r","data":[{"classification":"PII","flow":"inbound"}],"description":"d","endpoints":["e"],"externalReferences":[{"type":"vcs","url":"u"}],"group":"g","licenses":[{"license":{"id":"MIT"}}],"name":"n","properties":[{"name":"n","value":"v"}],"provider":{"name":"p"},"services":[{"name":"n"}],"version":"1","x-trust-boundary":false}
    1.4 carries {"authenticated":true,"bom-ref":"r","data":[{"classification":"PII","flow":"inbound"}],"description":"d","endpoints":["e"],"externalReferences":[{"type":"vcs","url":"u"}],"group":"g","licenses":[{"license":{"id":"MIT"}}],"name":"n","properties":[{"name":"n","value":"v"}],"provider":{"name":"p"},"services":[{"name":"n"}],"signature":{"algorithm":"ES256","value":"v"},"trustZone":"z","version":"1","x-trust-boundary":false} -> <service bom-ref=r|<provider|<name|=p|>name|>provider|<group|=g|>group|<name|=n|>name|<version|=1|>version|<description|=d|>description|<endpoints|<endpoint|=e|>endpoint|>endpoints|<authenticated|=true|>authenticated|<x-trust-boundary|=false|>x-trust-boundary|<data|<classification flow=inbound|=PII|>classification|>data|<licenses|<license|<id|=MIT|>id|>license|>licenses|<externalReferences|<reference type=vcs|<url|=u|>url|>reference|>externalReferences|<properties|<property name=n|=v|>property|>properties|<services|<service|<name|=n|>name|>service|>services|<signature|<algorithm|=ES256|>algorithm|<value|=v|>value|>signature|>service -> {"authenticated":true,"bom-ref":"r","data":[{"classification":"PII","flow":"inbound"}],"description":"d","endpoints":["e"],"externalReferences":[{"type":"vcs","url":"u"}],"group":"g","licenses":[{"license":{"id":"MIT"}}],"name":"n","properties":[{"name":"n","value":"v"}],"provider":{"name":"p"},"services":[{"name":"n"}],"signature":{"algorithm":"ES256","value":"v"},"version":"1","x-trust-boundary":false}
    1.5 carries {"authenticated":true,"bom-ref":"r","data":[{"classification":"PII","flow":"inbound"}],"description":"d","endpoints":["e"],"externalReferences":[{"type":"vcs","url":"u"}],"group":"g","licenses":[{"license":{"id":"MIT"}}],"name":"n","properties":[{"name":"n","value":"v"}],"provider":{"name":"p"},"services":[{"name":"n"}],"signature":{"algorithm":"ES256","value":"v"},"trustZone":"z","version":"1","x-trust-boundary":false} -> <service bom-ref=r|<provider|<name|=p|>name|>provider|<group|=g|>group|<name|=n|>name|<version|=1|>version|<description|=d|>description|<endpoints|<endpoint|=e|>endpoint|>endpoints|<authenticated|=true|>authenticated|<x-trust-boundary|=false|>x-trust-boundary|<data|<classification flow=inbound|=PII|>classification|>data|<licenses|<license|<id|=MIT|>id|>license|>licenses|<externalReferences|<reference type=vcs|<url|=u|>url|>reference|>externalReferences|<properties|<property name=n|=v|>property|>properties|<services|<service|<name|=n|>name|>service|>services|<signature|<algorithm|=ES256|>algorithm|<value|=v|>value|>signature|<trustZone|=z|>trustZone|>service
    1.5 differs {"authenticated":true,"bom-ref":"r","data":[{"classification":"PII","flow":"inbound"}],"description":"d","endpoints":["e"],"externalReferences":[{"type":"vcs","url":"u"}],"group":"g","licenses":[{"license":{"id":"MIT"}}],"name":"n","properties":[{"name":"n","value":"v"}],"provider":{"name":"p"},"services":[{"name":"n"}],"signature":{"algorithm":"ES256","value":"v"},"trustZone":"z","version":"1","x-trust-boundary":false}
"#;

const TOOLS: &str = r#"
    1.5 reads 7 -> WrongKind
    1.5 parses <tools|>tools -> {}
    1.3,1.4,1.5 parses <tools|<tool|>tool|>tools -> [{}]
    1.5 parses <tools|<tool|>tool|<components|>components|>tools -> missing 6 tools tool array or services & components
    1.5 parses <tools|<services|>services|<tool|>tool|>tools -> missing 6 tools tool array or services & components
    1.5 parses <tools|<services|<service|<name|=n|>name|>service|>services|<components|>components|<services|>services|>tools -> {"components":[],"services":[]}
    1.5 parses <tools|<tool|>tool|<components|>components|<note|>note|>tools -> unexpected 6 tools StartElement
    1.5 parses <tools|=x|>tools -> unexpected 2 tools Characters
    1.3,1.4 parses <tools|>tools -> []
    1.3,1.4 parses <tools|<tool|>tool|<components|>components|>tools -> unexpected 4 tools StartElement
    1.3,1.4 parses <tools|<services|>services|>tools -> unexpected 2 tools StartElement
"#;

const METADATA: &str = r#"
    // only 1.5 reads and keeps an object of tools; before, it is kept as the empty list
    1.3,1.4 reads {"tools":{"components":[{"name":"n","type":"file"}],"services":[{"name":"n"}]}} -> WrongKind /tools
    1.5 reads,keeps {"tools":{"components":[{"name":"n","type":"file"}],"services":[{"name":"n"}]}}
    1.3,1.4 keeps {"tools":{"components":[{"name":"n","type":"file"}],"services":[{"name":"n"}]}} -> {"tools":[]}
    1.5 parses <metadata|>metadata -> {}
    1.5 parses <metadata|<note|=x|>note|<timestamp|=s|>timestamp|<timestamp|=t|>timestamp|>metadata -> {"timestamp":"t"}
    1.5 parses <metadata|=x|>metadata -> unexpected 2 metadata Characters
    1.5 parses <metadata|<authors|<person|>person|>authors|>metadata -> unexpected 3 authors StartElement
    1.5 parses <metadata|<component type=file|<name|=n|>name|>component|>metadata -> {"component":{"name":"n","type":"file"}}
    1.3 parses <metadata|<component type=file|<name|=n|>name|>component|>metadata -> missing 6 component version
    1.3,1.4,1.5 carries {"authors":[{"name":"n"}],"component":{"name":"n","type":"file","version":"1"},"licenses":[{"license":{"id":"MIT"}}],"manufacture":{"name":"m"},"properties":[{"name":"n","value":"v"}],"supplier":{"name":"s"},"timestamp":"t","tools":[{"name":"n"}]} -> <metadata|<timestamp|=t|>timestamp|<tools|<tool|<name|=n|>name|>tool|>tools|<authors|<author|<name|=n|>name|>author|>authors|<component type=file|<name|=n|>name|<version|=1|>version|>component|<manufacture|<name|=m|>name|>manufacture|<supplier|<name|=s|>name|>supplier|<licenses|<license|<id|=MIT|>id|>license|>licenses|<properties|<property name=n|=v|>property|>properties|>metadata
    // an author without name, email and phone isn't written; a supplier and a manufacturer are, whatever they hold
    1.3,1.5 carries {"authors":[{"bom-ref":"r"},{"phone":"1"}],"manufacture":{},"supplier":{"bom-ref":"r"}} -> <metadata|<authors|<author|<phone|=1|>phone|>author|>authors|<manufacture|>manufacture|<supplier bom-ref=r|>supplier|>metadata -> {"authors":[{"bom-ref":"r"},{"phone":"1"}],"manufacture":{},"supplier":{"bom-ref":"r"}} -> {"authors":[{"phone":"1"}],"manufacture":{},"supplier":{"bom-ref":"r"}}
    1.3,1.4 carries {"tools":{"components":[{"name":"n","type":"file","version":"1"}],"services":[{"name":"n"}]}} -> <metadata|<tools|>tools|>metadata -> {"tools":[]}
    1.5 carries {"tools":{"components":[{"name":"n","type":"file","version":"1"}],"services":[{"name":"n"}]}} -> <metadata|<tools|<services|<service|<name|=n|>name|>service|>services|<components|<component type=file|<name|=n|>name|<version|=1|>version|>component|>components|>tools|>metadata
    // tools without a tool come back from 1.5 as an object without parts
    1.5 carries {"tools":[]} -> <metadata|<tools|>tools|>metadata -> {"tools":[]} -> {"tools":{}}
    1.5 fills {} -> passed over
    // one has something to write that has any field alone
    1.5 fills {"timestamp":""} -> written
    1.5 fills {"tools":[]} -> written
    1.5 fills {"authors":[]} -> written
    1.5 fills {"component":{"name":"n","type":"file"}} -> written
    1.5 fills {"manufacture":{}} -> written
    1.5 fills {"supplier":{}} -> written
    1.5 fills {"licenses":[]} -> written
    1.5 fills {"properties":[]} -> written
    1.5 differs {"tools":{"components":[{"name":"n","type":"file","version":"1"}],"services":[{"name":"n"}]}}
    1.5 differs {"tools":[]}
    1.5 differs {"authors":[{"name":"n"}],"component":{"name":"n","type":"file","version":"1"},"licenses":[{"license":{"id":"MIT"}}],"manufacture":{"name":"m"},"properties":[{"name":"n","value":"v"}],"supplier":{"name":"s"},"timestamp":"t","tools":[{"name":"n"}]}
"#;

#[test]
fn components_services_tools_and_metadata(rt: HostRuntime) -> Result<(), Fail> {
    let alloc = rt.alloc();
    records::<Component>(alloc, COMPONENT)?;
    records::<Service>(alloc, SERVICE)?;
    records::<Tools>(alloc, TOOLS)?;
    records::<Metadata>(alloc, METADATA)
}
