//! Commits, issues and patches, which no version changes.

use crate::checks::{named, records};
use cdx_code::{Commit, Commits, IdentifiableAction};
use cdx_patch::{Diff, Issue, Patch, Patches, Source};
use std::test::Fail;

const IDENTIFIABLE_ACTION: &str = r#"
    1.3,1.4,1.5 reads,keeps {"email":"e","name":"n","timestamp":"t"}
    1.5 names {"name":"a"} -> <n|<name|=a|>name|>n
    1.5 fills {"name":"a"} -> written
    1.5 differs {}
    1.5 differs {"name":"a"}
    1.5 differs {"email":"a"}
"#;

const COMMIT: &str = r#"
    1.3,1.4,1.5 reads,keeps {"author":{"name":"a"},"committer":{"name":"c"},"message":"m","uid":"1","url":"u"}
    1.3,1.4,1.5 reads,keeps {"uid":null,"other":1} -> {}
    1.3,1.4,1.5 reads [] -> WrongKind
    // the author comes before the message
    1.3,1.4,1.5 reads {"message":1,"author":"a"} -> WrongKind /author
    // what isn't known is skipped whole, and the last of several counts
    1.3,1.4,1.5 parses <commit|<note|<uid|=x|>uid|>note|<uid|=1|>uid|<uid|=2|>uid|>commit -> {"uid":"2"}
    1.3,1.4,1.5 parses <commit|=x|>commit -> unexpected 2 commit Characters
    1.3,1.4,1.5 rewrites,places <commit|<message|=m|>message|<uid|>uid|>commit -> <commit|<uid|=|>uid|<message|=m|>message|>commit
    1.5 differs {}
    1.5 differs {"author":{}}
    1.5 differs {"committer":{}}
"#;

const COMMITS: &str = r#"
    1.3,1.4,1.5 reads,keeps [{"author":{},"uid":"1"},{}]
    1.3,1.4,1.5 reads [{},{"committer":{"name":1}}] -> WrongKind /1/committer/name
    1.3,1.4,1.5 parses <commits|<commit|<uid|=1|>uid|<url|=u|>url|<author|<timestamp|=t|>timestamp|<name|=a|>name|<email|=e|>email|>author|<committer|<name|=c|>name|>committer|<message|=m|>message|>commit|<note|=x|>note|<commit|>commit|>commits -> [{"author":{"email":"e","name":"a","timestamp":"t"},"committer":{"name":"c"},"message":"m","uid":"1","url":"u"},{}]
    1.3,1.4,1.5 rewrites,places <commits|<commit|<uid|=1|>uid|<url|=u|>url|<author|<timestamp|=t|>timestamp|<name|=a|>name|<email|=e|>email|>author|<committer|>committer|<message|=m|>message|>commit|<commit|>commit|>commits
"#;

const SOURCE: &str = r#"
    1.3,1.4,1.5 reads,keeps {"name":"n","url":"u"}
    1.3,1.4,1.5 parses <source|<note|=x|>note|>source -> unexpected 2 source StartElement
    1.3,1.4,1.5 rewrites,places <source|>source
    1.5 fills {} -> passed over
    1.5 fills {"url":""} -> written
"#;

const ISSUE: &str = r#"
    1.3,1.4,1.5 reads,keeps {"description":"d","id":"i","name":"n","references":["r","s"],"source":{"url":"u"},"type":"defect"}
    1.3,1.4,1.5 reads,keeps {"references":[],"source":{},"type":"defect"}
    1.3,1.4,1.5 reads {"references":1} -> Missing /type
    1.3,1.4,1.5 reads {"type":null} -> WrongKind /type
    1.3,1.4,1.5 reads {"type":"t","references":["r",1]} -> WrongKind /references/1
    1.3,1.4,1.5 parses <issue type=defect|<id|=i|>id|<name|=n|>name|<description|=d|>description|<source|<name|=s|>name|<url|=u|>url|>source|<references|<url|=r|>url|<url|=s|>url|>references|>issue -> {"description":"d","id":"i","name":"n","references":["r","s"],"source":{"name":"s","url":"u"},"type":"defect"}
    1.3,1.4,1.5 parses <issue|>issue -> missing 1 issue type
    1.3,1.4,1.5 parses <issue type=defect|<references|<note|=x|>note|>references|>issue -> unexpected 3 references StartElement
    1.3,1.4,1.5 rewrites,places <issue type=defect|<id|=i|>id|<name|=n|>name|<description|=d|>description|<source|<url|=u|>url|>source|<references|<url|=r|>url|<url|=s|>url|>references|>issue
    // a source of nothing is passed over, but not by itself
    1.3,1.4,1.5 rewrites,places <issue type=t|<source|>source|<references|>references|>issue -> <issue type=t|<references|>references|>issue
    1.5 differs {"type":"defect"}
    1.5 differs {"type":"defect","source":{}}
    1.5 differs {"type":"defect","references":[]}
"#;

const DIFF: &str = r#"
    1.3,1.4,1.5 reads,keeps {"text":{"content":"c","contentType":"t","encoding":"base64"},"url":"u"}
    1.3,1.4,1.5 reads {"text":{}} -> Missing /text/content
    1.3,1.4,1.5 parses <diff|<text content-type=t encoding=base64|=c|>text|<url|=u|>url|>diff -> {"text":{"content":"c","contentType":"t","encoding":"base64"},"url":"u"}
    1.3,1.4,1.5 parses <diff|<text|>text|>diff -> unexpected 3 text EndElement
    1.3,1.4,1.5 rewrites,places <diff|>diff
    1.5 fills {} -> passed over
    1.5 fills {"url":""} -> written
"#;

const PATCH: &str = r#"
    // a diff of nothing stays
    1.3,1.4,1.5 reads,keeps {"diff":{},"resolves":[{"type":"defect"}],"type":"backport"}
    1.3,1.4,1.5 reads {"type":"t","resolves":{}} -> WrongKind /resolves
    1.3,1.4,1.5 parses <patch type=backport|<resolves|<note|=x|>note|>resolves|>patch -> unexpected 3 resolves StartElement
    // a diff of nothing is passed over, but not by itself
    1.3,1.4,1.5 rewrites,places <patch type=monkey|<diff|>diff|>patch -> <patch type=monkey|>patch
    1.5 differs {"type":"backport","diff":{"url":"u"}}
    1.5 differs {"type":"monkey","diff":{"url":"u"}}
    1.5 differs {"type":"backport","diff":{"url":"v"}}
"#;

const PATCHES: &str = r#"
    1.3,1.4,1.5 reads,keeps [{"type":"monkey"},{"diff":{"url":"u"},"resolves":[],"type":"t"}]
    1.3,1.4,1.5 reads [{"type":"t","resolves":[{"type":"t"},{"id":"i"}]}] -> Missing /0/resolves/1/type
    1.3,1.4,1.5 reads {} -> WrongKind
    1.3,1.4,1.5 parses <patches|<patch type=backport|<note|=x|>note|<diff|>diff|<resolves|<issue type=security|>issue|>resolves|>patch|>patches -> [{"diff":{},"resolves":[{"type":"security"}],"type":"backport"}]
    1.3,1.4,1.5 rewrites,places <patches|<patch type=backport|<diff|<text content-type=t encoding=base64|=c|>text|<url|=u|>url|>diff|<resolves|<issue type=security|>issue|>resolves|>patch|>patches
"#;

#[test]
fn commits_issues_and_patches(rt: HostRuntime) -> Result<(), Fail> {
    let alloc = rt.alloc();
    named::<IdentifiableAction>(alloc, IDENTIFIABLE_ACTION)?;
    records::<Commit>(alloc, COMMIT)?;
    records::<Commits>(alloc, COMMITS)?;
    records::<Source>(alloc, SOURCE)?;
    records::<Issue>(alloc, ISSUE)?;
    records::<Diff>(alloc, DIFF)?;
    records::<Patch>(alloc, PATCH)?;
    records::<Patches>(alloc, PATCHES)
}
