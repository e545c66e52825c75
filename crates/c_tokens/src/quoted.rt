//! Texts in double quotes.

ghost use Rattle.std.specs.Prelude.{◌≡◌, ◌≤◌, ◌<◌, length, IfOk, IfErr};
ghost use Rattle.c_tokens.specs.language.Quoted.{is_escape, quoted_end};

use crate::bytes::Class;

/// How many bytes a text has whose opening quote is the first byte, with both quotes. Or the offset of the first byte that isn't
/// allowed in it, which is the length of all bytes where it is open at their end.
pub(crate) fn quoted_end(bytes: &[u8]) -> Result<usize, usize>
    requires some { 0 < length bytes.now }
    ensures end { result ≡ quoted_end bytes.now }
    ensures behind { IfOk result (λ count. (1 ≤ count) × (count ≤ length bytes.now)) }
    ensures within { IfErr result (λ offset. offset ≤ length bytes.now) }
{
    let mut escaped = false;
    for at in 1..bytes.len() {
        let byte = bytes[at];
        if escaped {
            if !is_escape(byte) {
                return Err(at - 1);
            }
            escaped = false;
        } else if byte == b'"' {
            return Ok(at + 1);
        } else if Class::Control.has(byte) {
            return Err(at);
        } else {
            escaped = byte == b'\\';
        }
    }
    if escaped {
        return Err(bytes.len() - 1);
    }
    Err(bytes.len())
}

/// Whether a byte may follow a backslash.
fn is_escape(byte: u8) -> bool
    ensures { result ≡ is_escape byte }
{
    byte == b'n' || byte == b't' || byte == b'\\' || byte == b'"'
}
