//! Commits and patches, and the issues that these resolve.

use crate::telling::{TellsKind, tell_list, tell_list_row, tell_row};
use cdx_code::{Commit, Commits, IdentifiableAction};
use cdx_patch::{Diff, Issue, Patch, Patches, Source};

impl TellsKind for IdentifiableAction {
    fn tell(&self) {
        tell_row(&self.timestamp);
        tell_row(&self.name);
        tell_row(&self.email);
    }
}

impl TellsKind for Commit {
    fn tell(&self) {
        tell_row(&self.uid);
        tell_row(&self.url);
        tell_row(&self.author);
        tell_row(&self.committer);
        tell_row(&self.message);
    }
}

impl TellsKind for Commits {
    fn tell(&self) {
        tell_list(&self.0);
    }
}

impl TellsKind for Diff {
    fn tell(&self) {
        tell_row(&self.text);
        tell_row(&self.url);
    }
}

impl TellsKind for Source {
    fn tell(&self) {
        tell_row(&self.name);
        tell_row(&self.url);
    }
}

impl TellsKind for Issue {
    fn tell(&self) {
        self.issue_type.tell();
        tell_row(&self.id);
        tell_row(&self.name);
        tell_row(&self.description);
        tell_row(&self.source);
        tell_list_row(&self.references);
    }
}

impl TellsKind for Patch {
    fn tell(&self) {
        self.patch_type.tell();
        tell_row(&self.diff);
        tell_list_row(&self.resolves);
    }
}

impl TellsKind for Patches {
    fn tell(&self) {
        tell_list(&self.0);
    }
}
