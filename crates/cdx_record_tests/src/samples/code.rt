//! Commits, issues and patches.

use crate::calls::{named, record};
use cdx_code::{Commit, Commits, IdentifiableAction};
use cdx_patch::{Diff, Issue, Patch, Patches, Source};
use std::test::Fail;

const ACTION: &str =
    r#"{"email":"e","name":"n","timestamp":"t"} -> <n|<timestamp|=t|>timestamp|<name|=n|>name|<email|=e|>email|>n"#;

const COMMIT: &str =
    r#"{"author":{"name":"a"},"committer":{"name":"c"},"message":"m","uid":"1","url":"u"} -> <commit|<uid|=1|>uid|<url|=u|>url|<author|<name|=a|>name|>author|<committer|<name|=c|>name|>committer|<message|=m|>message|>commit"#;

const COMMITS: &str = r#"[{"uid":"1"}] -> <commits|<commit|<uid|=1|>uid|>commit|>commits"#;

#[test]
fn commits(rt: HostRuntime) -> Result<(), Fail> {
    let alloc = rt.alloc();
    named::<IdentifiableAction>(alloc, ACTION)?;
    record::<Commit>(alloc, COMMIT)?;
    record::<Commits>(alloc, COMMITS)
}

const SOURCE: &str = r#"{"name":"n","url":"u"} -> <source|<name|=n|>name|<url|=u|>url|>source"#;

const ISSUE: &str =
    r#"{"description":"d","id":"i","name":"n","references":["r"],"source":{"url":"u"},"type":"defect"} -> <issue type=defect|<id|=i|>id|<name|=n|>name|<description|=d|>description|<source|<url|=u|>url|>source|<references|<url|=r|>url|>references|>issue"#;

const DIFF: &str =
    r#"{"text":{"content":"c"},"url":"u"} -> <diff|<text|=c|>text|<url|=u|>url|>diff"#;

const PATCH: &str =
    r#"{"diff":{"url":"u"},"resolves":[{"type":"security"}],"type":"backport"} -> <patch type=backport|<diff|<url|=u|>url|>diff|<resolves|<issue type=security|>issue|>resolves|>patch"#;

const PATCHES: &str = r#"[{"type":"monkey"}] -> <patches|<patch type=monkey|>patch|>patches"#;

#[test]
fn issues_and_patches(rt: HostRuntime) -> Result<(), Fail> {
    let alloc = rt.alloc();
    record::<Source>(alloc, SOURCE)?;
    record::<Issue>(alloc, ISSUE)?;
    record::<Diff>(alloc, DIFF)?;
    record::<Patch>(alloc, PATCH)?;
    record::<Patches>(alloc, PATCHES)
}
