//! Elements of each kind: without a fault, with what they are in JSON of 1.5, and with a fault.
//!
//! A row is `versions kind element -> value`, and of the faults `versions kind element -> fault`.

/// Elements without a fault.
pub const GOOD: &str = r#"
    1.3,1.4 Tools <tools|>tools -> []
    1.5 Tools <tools|>tools -> {}
    1.3,1.4,1.5 Tools <tools|<tool|<vendor|=v|>vendor|<name|=n|>name|>tool|<tool|<version|=1|>version|>tool|>tools -> [{"name":"n","vendor":"v"},{"version":"1"}]
    1.5 Tools <tools|<services|<service|<name|=m|>name|>service|>services|<components|<component type=file|<name|=n|>name|>component|>components|>tools -> {"components":[{"name":"n","type":"file"}],"services":[{"name":"m"}]}
    // of two lists the last counts
    1.5 Tools <tools|<components|>components|<services|<service|<name|=m|>name|>service|>services|<services|>services|>tools -> {"components":[],"services":[]}
    1.4,1.5 Component <component type=file|<name|=n|>name|>component -> {"name":"n","type":"file"}
    1.3,1.4,1.5 Component <component type=file mime-type=m bom-ref=r|<version|=1|>version|<name|=m|>name|<name|!n|>name|<modified|=1|>modified|>component -> {"bom-ref":"r","mime-type":"m","modified":true,"name":"n","type":"file","version":"1"}
    1.3,1.4,1.5 Component <component type=file|<supplier|<name|=s|>name|>supplier|<author|=a|>author|<publisher|=p|>publisher|<group|=g|>group|<name|=n|>name|<version|=1|>version|<description|=d|>description|<scope|=required|>scope|<hashes|<hash alg=MD5|=ab|>hash|>hashes|<licenses|<expression|=MIT|>expression|>licenses|<copyright|=c|>copyright|<cpe|=cpe:/a:b|>cpe|<purl|=pkg:a/b|>purl|>component -> {"author":"a","copyright":"c","cpe":"cpe:/a:b","description":"d","group":"g","hashes":[{"alg":"MD5","content":"ab"}],"licenses":[{"expression":"MIT"}],"name":"n","publisher":"p","purl":"pkg:a/b","scope":"required","supplier":{"name":"s"},"type":"file","version":"1"}
    1.4,1.5 Component <component type=file|<name|=n|>name|<swid tagId=t name=m|>swid|<pedigree|<notes|=t|>notes|>pedigree|<externalReferences|<reference type=vcs|<url|=u|>url|>reference|>externalReferences|<properties|<property name=k|=v|>property|>properties|<components|<component type=file|<name|=m|>name|>component|>components|<evidence|<copyright|<text|=c|>text|>copyright|>evidence|<signature|<algorithm|=ES256|>algorithm|<value|=v|>value|>signature|>component -> {"components":[{"name":"m","type":"file"}],"evidence":{"copyright":[{"text":"c"}]},"externalReferences":[{"type":"vcs","url":"u"}],"name":"n","pedigree":{"notes":"t"},"properties":[{"name":"k","value":"v"}],"signature":{"algorithm":"ES256","value":"v"},"swid":{"name":"m","tagId":"t"},"type":"file"}
    1.3,1.4,1.5 Components <components|>components -> []
    1.4,1.5 Components <components|<component type=a|<name|=n|>name|<components|<component type=b|<name|=m|>name|>component|>components|>component|<component type=c|<name|>name|>component|>components -> [{"components":[{"name":"m","type":"b"}],"name":"n","type":"a"},{"name":"","type":"c"}]
    1.3,1.4,1.5 Pedigree <pedigree|>pedigree -> {}
    1.4,1.5 Pedigree <pedigree|<ancestors|<component type=file|<name|=a|>name|<pedigree|<ancestors|<component type=file|<name|=b|>name|>component|>ancestors|>pedigree|>component|>ancestors|<descendants|<component type=file|<name|=c|>name|>component|>descendants|<variants|>variants|<commits|<commit|<uid|=1|>uid|>commit|>commits|<patches|<patch type=backport|>patch|>patches|<notes|=t|>notes|>pedigree -> {"ancestors":[{"name":"a","pedigree":{"ancestors":[{"name":"b","type":"file"}]},"type":"file"}],"commits":[{"uid":"1"}],"descendants":[{"name":"c","type":"file"}],"notes":"t","patches":[{"type":"backport"}],"variants":[]}
    1.3,1.4,1.5 Service <service bom-ref=r|<provider|<name|=p|>name|>provider|<group|=g|>group|<name|=n|>name|<version|=1|>version|<description|=d|>description|<endpoints|<endpoint|=e|>endpoint|>endpoints|<authenticated|=true|>authenticated|<x-trust-boundary|=0|>x-trust-boundary|>service -> {"authenticated":true,"bom-ref":"r","description":"d","endpoints":["e"],"group":"g","name":"n","provider":{"name":"p"},"version":"1","x-trust-boundary":false}
    1.5 Service <service|<name|=n|>name|<data|<classification flow=inbound|=PII|>classification|>data|<licenses|<license|<id|=MIT|>id|>license|>licenses|<externalReferences|<reference type=vcs|<url|=u|>url|>reference|>externalReferences|<properties|<property name=k|=v|>property|>properties|<services|<service|<name|=m|>name|>service|>services|<signature|<algorithm|=ES256|>algorithm|<value|=v|>value|>signature|<trustZone|=z|>trustZone|>service -> {"data":[{"classification":"PII","flow":"inbound"}],"externalReferences":[{"type":"vcs","url":"u"}],"licenses":[{"license":{"id":"MIT"}}],"name":"n","properties":[{"name":"k","value":"v"}],"services":[{"name":"m"}],"signature":{"algorithm":"ES256","value":"v"},"trustZone":"z"}
    1.3,1.4,1.5 Services <services|>services -> []
    1.3,1.4,1.5 Services <services|<service|<name|=n|>name|<services|<service|<name|=m|>name|>service|>services|>service|<service|<name|>name|>service|>services -> [{"name":"n","services":[{"name":"m"}]},{"name":""}]
    1.3,1.4,1.5 Metadata <metadata|>metadata -> {}
    1.3,1.4,1.5 Metadata <metadata|<timestamp|=t|>timestamp|<tools|<tool|<name|=n|>name|>tool|>tools|<authors|<author|<name|=a|>name|>author|>authors|<component type=file|<name|=n|>name|<version|=1|>version|>component|<manufacture|<name|=m|>name|>manufacture|<supplier|<name|=s|>name|>supplier|<licenses|<expression|=MIT|>expression|>licenses|<properties|<property name=k|=v|>property|>properties|>metadata -> {"authors":[{"name":"a"}],"component":{"name":"n","type":"file","version":"1"},"licenses":[{"expression":"MIT"}],"manufacture":{"name":"m"},"properties":[{"name":"k","value":"v"}],"supplier":{"name":"s"},"timestamp":"t","tools":[{"name":"n"}]}
    1.5 Metadata <metadata|<tools|<components|<component type=file|<name|=n|>name|<pedigree|<variants|>variants|>pedigree|>component|>components|<services|<service|<name|=m|>name|<services|>services|>service|>services|>tools|>metadata -> {"tools":{"components":[{"name":"n","pedigree":{"variants":[]},"type":"file"}],"services":[{"name":"m","services":[]}]}}
    // of two components the last counts
    1.4,1.5 Metadata <metadata|<component type=a|<name|=n|>name|>component|<component type=b|<name|=m|>name|>component|>metadata -> {"component":{"name":"m","type":"b"}}
"#;

/// Elements in which an unknown element or a text is passed over: by a lax rule, by a passing one, and where the version
/// doesn't know the element.
pub const PASSED: &str = r#"
    1.4,1.5 Component <component type=file|<note|=t|<component|=t|>component|>note|<name|=n|>name|<note|>note|>component -> {"name":"n","type":"file"}
    1.3,1.4,1.5 Components <components|<note|<component|>component|>note|<service|=t|>service|>components -> []
    1.3,1.4,1.5 Pedigree <pedigree|<components|<component|>component|>components|<notes|=t|>notes|>pedigree -> {"notes":"t"}
    1.3,1.4,1.5 Service <service|<note|=t|>note|<name|=n|>name|>service -> {"name":"n"}
    1.3,1.4,1.5 Services <services|<component|>component|<service|<name|=n|>name|>service|>services -> [{"name":"n"}]
    1.3,1.4,1.5 Metadata <metadata|<services|<service|>service|>services|<timestamp|=t|>timestamp|>metadata -> {"timestamp":"t"}
    1.3 Component <component type=file|<name|=n|>name|<version|=1|>version|<signature|=t|>signature|>component -> {"name":"n","type":"file","version":"1"}
    1.3 Service <service|<name|=n|>name|<signature|=t|>signature|>service -> {"name":"n"}
    1.3,1.4 Service <service|<name|=n|>name|<trustZone|<note|>note|>trustZone|>service -> {"name":"n"}
    1.4,1.5 Component <component type=file|<name|=n|>name|<evidence|!t|<note|=t|>note|<copyright|<text|=c|>text|>copyright|>evidence|>component -> {"evidence":{"copyright":[{"text":"c"}]},"name":"n","type":"file"}
"#;

/// Elements with a text where none may stand, or with a second one.
pub const STRAY: &str = r#"
    1.3,1.4,1.5 Tools <tools|=t|>tools -> unexpected 2 tools Characters
    1.3,1.4,1.5 Tools <tools|<tool|=t|>tool|>tools -> unexpected 3 tool Characters
    1.5 Tools <tools|<services|!t|>services|>tools -> unexpected 3 services CData
    1.3,1.4,1.5 Component <component type=library|=x|>component -> unexpected 2 component Characters
    1.3,1.4,1.5 Component <component type=file|<note|=t|>note|=t|>component -> unexpected 5 component Characters
    1.3,1.4,1.5 Component <component type=file|<name|<b|>b|>name|>component -> unexpected 3 name StartElement
    1.3,1.4,1.5 Component <component type=file|<name|=n|!m|>name|>component -> unexpected 4 name CData
    1.3,1.4,1.5 Component <component type=file|<pedigree|<ancestors|=t|>ancestors|>pedigree|>component -> unexpected 4 ancestors Characters
    1.3,1.4,1.5 Components <components|=t|>components -> unexpected 2 components Characters
    1.3,1.4,1.5 Components <components|<component type=file|<components|<component type=file|!t|>component|>components|>component|>components -> unexpected 5 component CData
    1.3,1.4,1.5 Pedigree <pedigree|<notes|=t|>notes|=t|>pedigree -> unexpected 5 pedigree Characters
    1.3,1.4,1.5 Service <service|<services|<service|<name|=n|>name|>service|>services|=t|>service -> unexpected 9 service Characters
    1.3,1.4,1.5 Services <services|!t|>services -> unexpected 2 services CData
    1.3,1.4,1.5 Metadata <metadata|<timestamp|=a|=b|>timestamp|>metadata -> unexpected 4 timestamp Characters
    1.3,1.4,1.5 Metadata <metadata|<component type=file|<name|=n|>name|<version|=1|>version|>component|=t|>metadata -> unexpected 10 metadata Characters
"#;

/// Elements with a child where none of its name may stand.
pub const UNKNOWN: &str = r#"
    1.3,1.4,1.5 Tools <tools|<note|>note|>tools -> unexpected 2 tools StartElement
    1.3,1.4 Tools <tools|<tool|>tool|<components|>components|>tools -> unexpected 4 tools StartElement
    1.5 Tools <tools|<tool|>tool|<components|>components|<note|>note|>tools -> unexpected 6 tools StartElement
    1.3,1.4,1.5 Component <component type=file|<externalReferences|<reference type=t|<note|>note|>reference|>externalReferences|>component -> unexpected 4 reference StartElement
    1.4,1.5 Components <components|<component type=file|<signature|<note|>note|>signature|>component|>components -> unexpected 4 signature StartElement
    1.3,1.4,1.5 Pedigree <pedigree|<variants|<component type=file|<licenses|<license|<id|=a|>id|<name|=b|>name|>license|>licenses|>component|>variants|>pedigree -> unexpected 9 license StartElement
    1.3,1.4,1.5 Service <service|<endpoints|<url|>url|>endpoints|>service -> unexpected 3 endpoints StartElement
    1.3,1.4,1.5 Services <services|<service|<data|<classification flow=a|<b|>b|>classification|>data|>service|>services -> unexpected 5 classification StartElement
    1.3,1.4,1.5 Metadata <metadata|<authors|<person|>person|>authors|>metadata -> unexpected 3 authors StartElement
    1.3,1.4 Metadata <metadata|<tools|<services|>services|>tools|>metadata -> unexpected 3 tools StartElement
"#;

/// Elements that lack something: an attribute at its element's start, a child at its element's end.
pub const MISSING: &str = r#"
    1.3,1.4,1.5 Component <component|=x|>component -> missing 1 component type
    1.3,1.4,1.5 Component <component type=file|<swid name=n|>swid|>component -> missing 2 swid tagId
    1.3,1.4,1.5 Components <components|<component|>component|>components -> missing 2 component type
    1.3,1.4,1.5 Pedigree <pedigree|<ancestors|<component|>component|>ancestors|>pedigree -> missing 3 component type
    1.3,1.4,1.5 Service <service|<data|<classification|>classification|>data|>service -> missing 3 classification flow
    1.3,1.4,1.5 Metadata <metadata|<component|>component|>metadata -> missing 2 component type
    1.5 Tools <tools|<components|<component|>component|>components|>tools -> missing 3 component type
    1.3,1.4,1.5 Component <component type=file|<version|=1|>version|>component -> missing 5 component name
    1.3 Component <component type=file|>component -> missing 2 component name
    1.3 Component <component type=file|<name|=n|>name|>component -> missing 5 component version
    1.3,1.4,1.5 Component <component type=file|<externalReferences|<reference type=t|>reference|>externalReferences|>component -> missing 4 reference url
    1.3,1.4,1.5 Components <components|<component type=file|<name|=n|>name|<components|<component type=file|>component|>components|>component|>components -> missing 8 component name
    1.3,1.4,1.5 Pedigree <pedigree|<variants|<component type=file|>component|>variants|>pedigree -> missing 4 component name
    1.3,1.4,1.5 Service <service|>service -> missing 2 service name
    1.3,1.4,1.5 Services <services|<service|<services|<service|>service|>services|>service|>services -> missing 5 service name
    1.5 Tools <tools|<tool|>tool|<components|>components|>tools -> missing 6 tools tool array or services & components
    1.5 Tools <tools|<services|>services|<tool|>tool|>tools -> missing 6 tools tool array or services & components
    1.5 Metadata <metadata|<tools|<tool|>tool|<services|>services|>tools|>metadata -> missing 7 tools tool array or services & components
    1.3 Metadata <metadata|<component type=file|<name|=n|>name|>component|>metadata -> missing 6 component version
"#;

/// Elements with a text that is no value: of an element at its end, of an attribute at its element's start.
pub const UNPARSED: &str = r#"
    1.5 Tools <tools|<services|<service|<authenticated|=x|>authenticated|>service|>services|>tools -> parse 6 authenticated x xs:boolean
    1.3,1.4,1.5 Component <component type=file|<modified|=yes|>modified|>component -> parse 4 modified yes xs:boolean
    1.3,1.4,1.5 Component <component type=file|<swid tagId=t name=n patch=TRUE|>swid|>component -> parse 2 patch TRUE xs:boolean
    1.3,1.4,1.5 Components <components|<component type=file|<swid tagId=t name=n tagVersion=x|>swid|>component|>components -> parse 3 tagVersion x xs:integer
    1.3,1.4,1.5 Pedigree <pedigree|<descendants|<component type=file|<modified|=2|>modified|>component|>descendants|>pedigree -> parse 6 modified 2 xs:boolean
    1.3,1.4,1.5 Service <service|<authenticated|=no|>authenticated|>service -> parse 4 authenticated no xs:boolean
    1.3,1.4,1.5 Services <services|<service|<x-trust-boundary|=True|>x-trust-boundary|>service|>services -> parse 5 x-trust-boundary True xs:boolean
    1.3,1.4,1.5 Metadata <metadata|<component type=file|<modified|=t|>modified|>component|>metadata -> parse 5 modified t xs:boolean
"#;
