//! A name that was printed.

ghost use Rattle.std.specs.Prelude.{◌≡◌, true, string_bytes};
ghost use Rattle.serde_json.specs.Data.{string};
ghost use Rattle.serde_json.specs.Written.{compact_text};
ghost use Rattle.cdx_print.specs.Prints.{key_text};

/// A name, what `serde_json` printed of it, and what starts a member of that name behind another.
#[derive(Drop)]
pub(crate) struct KnownText {
    pub(crate) text: String,
    pub(crate) printed: String,
    pub(crate) key: String,
    pub(crate) ghost is_printed: { string_bytes printed ≡ compact_text (string (string_bytes text)) },
    pub(crate) ghost is_key: { string_bytes key ≡ key_text true (string_bytes text) },
}
