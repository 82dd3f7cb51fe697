//! Elements of each kind: without a fault, and with one.
//!
//! A row is `versions kind element`, and of the faults `versions kind element -> fault`.

/// Elements without a fault, at least one of each kind.
pub const GOOD: &str = r#"
    1.3,1.4,1.5 Text <name|=a|>name
    1.3,1.4,1.5 Text <name|>name
    1.3,1.4,1.5 Flag <modified|=true|>modified
    1.3,1.4,1.5 Flag <modified|=0|>modified
    1.5 AttachedText <text content-type=text/plain encoding=base64|=YQ==|>text
    1.5 Endpoints <endpoints|<endpoint|=a|>endpoint|<endpoint|=b|>endpoint|>endpoints
    1.5 Authors <authors|<author bom-ref=r|<name|=A|>name|<email|=e|>email|<phone|=1|>phone|>author|<author|>author|>authors
    1.5 Entity <supplier bom-ref=r|<name|=A|>name|<url|=u|>url|<url|=w|>url|<contact|<name|=B|>name|>contact|>supplier
    1.3,1.4,1.5 Hashes <hashes|<hash alg=a|=v|>hash|<hash alg=b|=w|>hash|>hashes
    1.5 Properties <properties|<property name=n|=v|>property|<property name=m|>property|>properties
    1.5 Commits <commits|<commit|<uid|=1|>uid|<url|=u|>url|<author|<timestamp|=t|>timestamp|<name|=A|>name|<email|=e|>email|>author|<committer|<name|=B|>name|>committer|<message|=m|>message|>commit|>commits
    1.5 Patches <patches|<patch type=backport|<diff|<text|=t|>text|<url|=u|>url|>diff|<resolves|<issue type=defect|<id|=1|>id|<name|=n|>name|<source|<name|=s|>name|>source|<references|<url|=u|>url|>references|>issue|>resolves|>patch|>patches
    1.5 ExternalReferences <externalReferences|<reference type=vcs|<url|=u|>url|<comment|=c|>comment|<hashes|<hash alg=a|=v|>hash|>hashes|>reference|>externalReferences
    1.5 Dependencies <dependencies|<dependency ref=a|<dependency ref=b|>dependency|>dependency|<dependency ref=b|>dependency|>dependencies
    1.3,1.4 Compositions <compositions|<composition bom-ref=r|<aggregate|=complete|>aggregate|<assemblies|<assembly ref=a|>assembly|<note|=t|>note|>assemblies|>composition|>compositions
    1.5 Compositions <compositions|<composition bom-ref=r|<aggregate|=complete|>aggregate|<assemblies|<assembly ref=a|>assembly|>assemblies|<dependencies|<dependency ref=b|>dependency|>dependencies|<vulnerabilities|<vulnerability ref=c|>vulnerability|>vulnerabilities|<signature|<algorithm|=ES256|>algorithm|<value|=v|>value|>signature|>composition|>compositions
    1.3,1.4,1.5 Licenses <licenses|<license bom-ref=r|<id|=MIT|>id|<text|=t|>text|<url|=u|>url|<properties|<property name=n|=v|>property|>properties|>license|<expression bom-ref=s|=MIT|>expression|>licenses
    1.5 Licenses <licenses|<license|<name|=M|>name|>license|>licenses
    1.5 Signature <signature|<algorithm|=ES256|>algorithm|<value|=v|>value|>signature
    1.5 Signature <signature|<signers|<signer|<algorithm|=HS512|>algorithm|<value|=v|>value|>signer|>signers|>signature
    1.5 Signature <signature|<chain|<chain|<algorithm|=own|>algorithm|<value|=v|>value|>chain|>chain|>signature
    1.4,1.5 Tool <tool|<vendor|=v|>vendor|<name|=n|>name|<version|=1|>version|<hashes|<hash alg=a|=v|>hash|>hashes|<externalReferences|<reference type=vcs|<url|=u|>url|>reference|>externalReferences|>tool
    1.5 Swid <swid tagId=t name=n version=1 tagVersion=2 patch=true|<text|=t|>text|<url|=u|>url|>swid
    1.5 Evidence <evidence|<licenses|<license|<name|=M|>name|>license|>licenses|<copyright|<text|!c|>text|<text|=d|>text|>copyright|>evidence
    1.3,1.4,1.5 Data <data|<classification flow=inbound|=PII|>classification|>data
    1.5 Data <data|<dataflow name=n description=d|<classification flow=inbound|=PII|>classification|>dataflow|>data
"#;

/// Elements in which an unknown element or a text is passed over: by a lax rule, by a passing one, and where the version
/// doesn't know the element.
pub const PASSED: &str = r#"
    1.5 Properties <properties|<note|=t|<b|>b|>note|<property name=n|=v|>property|>properties
    1.5 Entity <supplier|<note|<name|=A|>name|>note|>supplier
    1.5 Swid <swid tagId=t name=n|<note|>note|>swid
    1.5 Evidence <evidence|=t|<note|<licenses|>licenses|>note|!t|<copyright|>copyright|>evidence
    1.5 Data <data|=t|<note|=t|>note|>data
    1.3 Tool <tool|<externalReferences|=t|>externalReferences|>tool
    1.3,1.4 Data <data|<dataflow|=t|>dataflow|>data
    1.3,1.4 Licenses <licenses|<license|<id|=MIT|>id|<properties|=t|>properties|>license|>licenses
"#;

/// Elements with a text where none may stand, or with a second one.
pub const STRAY: &str = r#"
    1.5 Text <name|<b|>b|>name -> unexpected 2 name StartElement
    1.5 Text <name|=a|!b|>name -> unexpected 3 name CData
    1.5 AttachedText <text|>text -> unexpected 2 text EndElement
    1.5 AttachedText <text|=a|=b|>text -> unexpected 3 text Characters
    1.5 Endpoints <endpoints|=t|>endpoints -> unexpected 2 endpoints Characters
    1.5 Authors <authors|<author|!t|>author|>authors -> unexpected 3 author CData
    1.5 Entity <supplier|<name|=A|>name|=t|>supplier -> unexpected 5 supplier Characters
    1.5 Properties <properties|<note|=t|>note|=t|>properties -> unexpected 5 properties Characters
    1.5 Commits <commits|<commit|<author|=t|>author|>commit|>commits -> unexpected 4 author Characters
    1.5 Dependencies <dependencies|<dependency ref=a|<dependency ref=b|=t|>dependency|>dependency|>dependencies -> unexpected 4 dependency Characters
    1.5 Compositions <compositions|=t|>compositions -> unexpected 2 compositions Characters
    1.5 Licenses <licenses|<license|<id|=a|=b|>id|>license|>licenses -> unexpected 5 id Characters
    1.4,1.5 Tool <tool|<externalReferences|=t|>externalReferences|>tool -> unexpected 3 externalReferences Characters
    1.5 Evidence <evidence|<copyright|=t|>copyright|>evidence -> unexpected 3 copyright Characters
"#;

/// Elements with a child where none of its name may stand.
pub const UNKNOWN: &str = r#"
    1.5 Hashes <hashes|<note|>note|>hashes -> unexpected 2 hashes StartElement
    1.5 ExternalReferences <externalReferences|<reference type=t|<note|>note|>reference|>externalReferences -> unexpected 3 reference StartElement
    1.5 Patches <patches|<patch type=t|<resolves|<issue type=t|<source|<note|>note|>source|>issue|>resolves|>patch|>patches -> unexpected 6 source StartElement
    1.5 Licenses <licenses|<license|<id|=MIT|>id|<name|=M|>name|>license|>licenses -> unexpected 6 license StartElement
    1.5 Licenses <licenses|<license|<name|=M|>name|<name|=N|>name|>license|>licenses -> unexpected 6 license StartElement
    1.5 Signature <signature|<note|>note|>signature -> unexpected 2 signature StartElement
    1.5 Evidence <evidence|<copyright|<note|>note|>copyright|>evidence -> unexpected 3 copyright StartElement
    1.3 Compositions <compositions|<composition|<aggregate|=a|>aggregate|<signature|>signature|>composition|>compositions -> unexpected 6 composition StartElement
    1.3,1.4 Compositions <compositions|<composition|<aggregate|=a|>aggregate|<vulnerabilities|>vulnerabilities|>composition|>compositions -> unexpected 6 composition StartElement
"#;

/// Elements that lack something, at a start or at an end.
pub const MISSING: &str = r#"
    1.5 Hashes <hashes|<hash|=v|>hash|>hashes -> missing 2 hash alg
    1.5 Properties <properties|<property|=v|>property|>properties -> missing 2 property name
    1.5 Patches <patches|<patch|>patch|>patches -> missing 2 patch type
    1.5 Dependencies <dependencies|<dependency|>dependency|>dependencies -> missing 2 dependency ref
    1.5 Compositions <compositions|<composition|<aggregate|=a|>aggregate|<assemblies|<assembly|>assembly|>assemblies|>composition|>compositions -> missing 7 assembly ref
    1.5 Swid <swid name=n|>swid -> missing 1 swid tagId
    1.5 Swid <swid tagId=t|>swid -> missing 1 swid name
    1.5 Data <data|<classification|=c|>classification|>data -> missing 2 classification flow
    1.5 ExternalReferences <externalReferences|<reference type=t|>reference|>externalReferences -> missing 3 reference url
    1.5 Compositions <compositions|<composition|>composition|>compositions -> missing 3 composition aggregate
    1.5 Licenses <licenses|<license|>license|>licenses -> missing 3 license id or name
    1.5 Signature <signature|<value|=v|>value|>signature -> missing 5 signature algorithm
    1.5 Signature <signature|<algorithm|=a|>algorithm|>signature -> missing 5 signature value
    1.5 Signature <signature|<signers|<signer|<algorithm|=a|>algorithm|>signer|>signers|>signature -> missing 7 signer value
    1.5 Data <data|<dataflow|>dataflow|>data -> missing 3 dataflow classification
"#;

/// Elements with a text that is no value: of an element at its end, of an attribute at its element's start.
pub const UNPARSED: &str = r#"
    1.5 Flag <modified|=yes|>modified -> parse 3 modified yes xs:boolean
    1.5 Flag <modified|=TRUE|>modified -> parse 3 modified TRUE xs:boolean
    1.5 Swid <swid tagId=t name=n patch=yes|>swid -> parse 1 patch yes xs:boolean
    1.5 Swid <swid tagId=t name=n tagVersion=x patch=yes|>swid -> parse 1 tagVersion x xs:integer
"#;
