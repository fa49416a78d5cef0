//! The classes of bytes that the header tells apart.

ghost use Rattle.std.specs.Prelude.{◌≡◌};
ghost use Rattle.pgm.specs.Classes.{class_of};

#[derive(Clone, Copy)]
pub enum Class {
    /// A line end, 10 or 13: white, and it ends a comment.
    Line,
    /// A tab or a space: white.
    Blank,
    /// A decimal digit, by its value.
    Digit(u8),
    /// The `#` that begins a comment.
    Hash,
    /// The `P` that begins a file.
    Letter,
    /// Any other byte.
    Other,
}

impl From<u8> for Class {
    ghost from_gives = { λ byte class. class ≡ class_of byte };

    fn from(byte: u8) -> Self {
        match byte {
            b'\n' | b'\r' => Class::Line,
            b'\t' | b' ' => Class::Blank,
            b'0'..=b'9' => Class::Digit(byte - b'0'),
            b'#' => Class::Hash,
            b'P' => Class::Letter,
            _ => Class::Other,
        }
    }
}
