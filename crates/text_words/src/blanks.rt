//! Blanks.
ghost use Rattle.std.specs.Prelude.{◌≡◌};
ghost use Rattle.std.specs.List.{list_all};
ghost use Rattle.text_words.specs.Blanks as spec;

/// Whether a byte is a space, a tab, a newline, a carriage return or a form feed.
pub fn is_blank(byte: u8) -> bool
    ensures { result ≡ spec.is_blank byte }
{
    matches!(byte, b' ' | b'\t' | b'\n' | b'\r' | 12)
}

/// Whether a byte is a space or a tab, as they stand between the words of a line.
pub fn is_space(byte: u8) -> bool
    ensures { result ≡ spec.is_space byte }
{
    matches!(byte, b' ' | b'\t')
}

/// Whether a text is of blanks alone.
pub fn all_blank(text: &[u8]) -> bool
    ensures { result ≡ list_all spec.is_blank text.now }
{
    for byte in text {
        if !is_blank(*byte) {
            return false;
        }
    }
    true
}

/// What stands behind the blanks at the front of a text.
pub fn behind_blanks(text: &[u8]) -> &[u8]
    ensures { result.now ≡ spec.behind_blanks text.entry.now }
{
    for (at, byte) in text.iter().enumerate() {
        if !is_blank(*byte) {
            return &text[at..];
        }
    }
    &[]
}

/// What stands behind the spaces and tabs at the front of a text.
pub fn behind_spaces(text: &[u8]) -> &[u8]
    ensures { result.now ≡ spec.behind_spaces text.entry.now }
{
    for (at, byte) in text.iter().enumerate() {
        if !is_space(*byte) {
            return &text[at..];
        }
    }
    &[]
}
