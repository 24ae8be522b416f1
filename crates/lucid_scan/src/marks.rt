//! The marks.
ghost use Rattle.std.specs.Prelude.{◌≡◌};
ghost use Rattle.lucid_scan.specs.Texts.{is_mark};

/// Whether the text is a mark.
pub fn is_mark(text: &[u8]) -> bool
    ensures { result ≡ is_mark text.now }
{
    matches!(
        text,
        b"(" | b")"
            | b","
            | b";"
            | b"="
            | b"[]"
            | b"+"
            | b"-"
            | b"*"
            | b"**"
            | b"<"
            | b"<="
            | b">"
            | b">="
            | b"::"
            | b"<>"
            | b"^"
    )
}
