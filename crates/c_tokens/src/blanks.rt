//! Blanks and comments.

ghost use Rattle.std.specs.Prelude.{◌≡◌, ◌≤◌, false, IfSome, length};
ghost use Rattle.c_tokens.specs.language.Blanks.{comment_rest, line_end_len, line_rest};

use crate::bytes::Class;

/// How many bytes the end of a line takes at the front.
pub(crate) fn line_end_len(bytes: &[u8]) -> Option<usize>
    ensures end { result ≡ line_end_len bytes.now }
    ensures within { IfSome result (λ count. count ≤ length bytes.now) }
{
    match bytes {
        [b'\n', ..] => Some(1),
        [b'\r', b'\n', ..] => Some(2),
        _ => None,
    }
}

/// How many bytes a comment to the end of its line has behind its opening.
pub(crate) fn line_rest(bytes: &[u8]) -> usize
    ensures rest { result ≡ line_rest bytes.now }
    ensures within { result ≤ length bytes.now }
{
    Class::Inline.run(bytes)
}

/// How many bytes a comment of its own has behind its opening, with its end.
pub(crate) fn comment_rest(bytes: &[u8]) -> Option<usize>
    ensures rest { result ≡ comment_rest false bytes.now }
    ensures within { IfSome result (λ count. count ≤ length bytes.now) }
{
    let mut starred = false;
    for (index, byte) in bytes.iter().enumerate() {
        if starred && *byte == b'/' {
            return Some(index + 1);
        }
        starred = *byte == b'*';
    }
    None
}
