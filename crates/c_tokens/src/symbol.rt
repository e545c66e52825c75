//! Symbols.

ghost use Rattle.std.specs.Prelude.{◌≡◌, ◌≤◌, length};
ghost use Rattle.c_tokens.specs.language.Symbols.{double_symbols, has_pair, single_len, symbol_len};

/// How many bytes the longest symbol at the front has; 0 where none stands there.
pub(crate) fn symbol_len(bytes: &[u8]) -> usize
    ensures len { result ≡ symbol_len bytes.now }
    ensures within { result ≤ length bytes.now }
{
    match bytes {
        [first, second, ..] if is_double(*first, *second) => 2,
        [first, ..] => single_len(*first),
        [] => 0,
    }
}

/// Whether two bytes are a symbol.
fn is_double(first: u8, second: u8) -> bool
    ensures { result ≡ has_pair first second double_symbols }
{
    match first {
        b'+' | b'-' => second == first || second == b'=',
        b'*' | b'/' | b'%' | b'<' | b'>' | b'=' | b'!' => second == b'=',
        b'&' | b'|' => second == first,
        _ => false,
    }
}

/// 1 where the byte is a symbol, and else 0.
fn single_len(byte: u8) -> usize
    ensures len { result ≡ single_len byte }
    ensures within { result ≤ 1 }
{
    usize::from(b"{}()[];,=+-*/%<>!&|^~?:.".contains(&byte))
}
