//! The classes of bytes.

ghost use Rattle.std.specs.Prelude.{◌≡◌, ◌≤◌, length};
ghost use Rattle.std.specs.List.{prefix_len};
ghost use Rattle.std.specs.Option.{option_copied};
ghost use Rattle.c_tokens.specs.language.Bytes.{after, begins, past};
ghost use Rattle.c_tokens.specs.workings.Classes.{test_of};

/// A class of bytes.
#[derive(Clone, Copy)]
pub(crate) enum Class {
    /// A space or a tab.
    Gap,
    /// What may stand inside a line: all but a newline.
    Inline,
    /// A letter or `_`.
    Letter,
    /// A digit.
    Digit,
    /// A letter, a digit or `_`.
    Word,
    /// What may not follow a number directly: a letter, `_` or `.`.
    Clinging,
    /// What may not stand in a text in quotes: a control code.
    Control,
}

impl Class {
    /// Whether a byte is of the class.
    pub fn has(self, byte: u8) -> bool
        ensures { result ≡ test_of self byte }
    {
        match self {
            Class::Gap => byte == b' ' || byte == b'\t',
            Class::Inline => byte != b'\n',
            Class::Letter => byte.is_ascii_alphabetic() || byte == b'_',
            Class::Digit => byte.is_ascii_digit(),
            Class::Word => byte.is_ascii_alphanumeric() || byte == b'_',
            Class::Clinging => byte.is_ascii_alphabetic() || byte == b'_' || byte == b'.',
            Class::Control => byte.is_ascii_control(),
        }
    }

    /// How many bytes at the front are of the class.
    pub fn run(self, bytes: &[u8]) -> usize
        ensures run { result ≡ prefix_len (test_of self) bytes.now }
        ensures within { result ≤ length bytes.now }
    {
        for (index, byte) in bytes.iter().enumerate() {
            if !self.has(*byte) {
                return index;
            }
        }
        bytes.len()
    }

    /// What follows the bytes at the front that are of the class.
    pub fn past(self, bytes: &[u8]) -> &[u8]
        ensures { result.now ≡ past (test_of self) bytes.now }
    {
        &bytes[self.run(bytes)..]
    }

    /// Whether the first byte is of the class.
    pub fn begins(self, bytes: &[u8]) -> bool
        ensures { result ≡ begins (test_of self) bytes.now }
    {
        match bytes {
            [byte, ..] => self.has(*byte),
            [] => false,
        }
    }
}
