//! The kinds of bytes that the text format tells apart.
ghost use Rattle.std.specs.Prelude.{◌≡◌, ◌⊎◌, true};
ghost use Rattle.lisp_read.specs.Class.{class_of, is_atom_class, is_blank};
ghost use Rattle.lisp_read.specs.declared.class.ByteClass.TheVariants as class;

/// A list in parentheses or a vector in brackets.
#[derive(Clone, Copy, PartialEq, Eq)]
pub enum Bracket {
    /// A list, in parentheses.
    Round,
    /// A vector, in square brackets.
    Square,
}

/// The kind of a byte. Bytes of one class may stand in the same places.
#[derive(Clone, Copy, PartialEq, Eq)]
pub enum ByteClass {
    Zero,
    /// A space, a tab, a carriage return or a form feed.
    Blank,
    Newline,
    Semicolon,
    Slash,
    Star,
    Quote,
    Backslash,
    OpenBrace,
    CloseBrace,
    Open(Bracket),
    Close(Bracket),
    /// Any other byte from 33 to 126.
    Plain,
    /// Any other byte: a control byte, or one from 127 on.
    Other,
}

/// The class of a byte.
pub fn classify(byte: u8) -> ByteClass
    ensures { result ≡ class_of byte }
{
    match byte {
        0 => ByteClass::Zero,
        b' ' | b'\t' | b'\r' | 12 => ByteClass::Blank,
        b'\n' => ByteClass::Newline,
        b';' => ByteClass::Semicolon,
        b'/' => ByteClass::Slash,
        b'*' => ByteClass::Star,
        b'"' => ByteClass::Quote,
        b'\\' => ByteClass::Backslash,
        b'{' => ByteClass::OpenBrace,
        b'}' => ByteClass::CloseBrace,
        b'(' => ByteClass::Open(Bracket::Round),
        b'[' => ByteClass::Open(Bracket::Square),
        b')' => ByteClass::Close(Bracket::Round),
        b']' => ByteClass::Close(Bracket::Square),
        33..=126 => ByteClass::Plain,
        _ => ByteClass::Other,
    }
}

impl ByteClass {
    /// Whether the byte is a blank, or ends a line.
    pub fn is_blank(self) -> bool
        ensures value { result ≡ is_blank self }
        ensures which { result ≡ true → (self ≡ class.Blank) ⊎ (self ≡ class.Newline) }
    {
        matches!(self, ByteClass::Blank | ByteClass::Newline)
    }

    /// Whether the byte may stand in an atom.
    pub fn is_atom(self) -> bool
        ensures { result ≡ is_atom_class self }
    {
        match self {
            ByteClass::Slash | ByteClass::Star | ByteClass::Backslash | ByteClass::Plain => true,
            _ => false,
        }
    }
}
