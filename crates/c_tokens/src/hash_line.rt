//! Lines that begin with `#`.

ghost use Rattle.std.specs.Prelude.{◌≡◌, ◌≤◌, length, IfSome};
ghost use Rattle.std.specs.Option.{option_copied};
ghost use Rattle.c_tokens.specs.language.Bytes.{after};
ghost use Rattle.c_tokens.specs.workings.Lines.{include_len, include_rest, next_word, pragma_len, pragma_rest};
ghost use Rattle.c_tokens.specs.workings.Tails.{AreTails, IsEndOf};

use crate::bytes::Class;
use crate::tail::tail_len;

/// How many bytes a line has that includes a file of the library, up to its end. The first byte is the `#`.
pub(crate) fn include_len(bytes: &[u8], tails: &[Option<u32>]) -> Option<usize>
    requires short { length bytes.now ≤ 65536 }
    requires tails { AreTails bytes.now tails.now }
    ensures len { result ≡ include_len bytes.now }
    ensures within { IfSome result (λ count. (1 ≤ count) × (count ≤ length bytes.now)) }
{
    let [_, behind @ ..] = bytes else {
        return None;
    };
    let rest = include_rest(behind)?;
    let tail = tail_len(rest, tails)?;
    Some(bytes.len() - rest.len() + tail as usize)
}

/// How many bytes the head of a directive has. The first byte is the `#`.
pub(crate) fn pragma_len(bytes: &[u8]) -> Option<usize>
    ensures len { result ≡ pragma_len bytes.now }
    ensures within { IfSome result (λ count. (1 ≤ count) × (count ≤ length bytes.now)) }
{
    let [_, behind @ ..] = bytes else {
        return None;
    };
    let rest = pragma_rest(behind)?;
    Some(bytes.len() - rest.len())
}

/// What follows `include` and the name of a file.
fn include_rest(bytes: &[u8]) -> Option<&[u8]>
    ensures rest { option_copied result ≡ include_rest bytes.now }
    ensures end { IfSome result (λ rest. IsEndOf bytes.now rest.now) }
{
    let file = next_word(bytes, b"include")?;
    match next_word(file, b"<omp.h>") {
        Some(rest) => Some(rest),
        None => next_word(file, b"<stdio.h>"),
    }
}

/// What follows `pragma omp`.
fn pragma_rest(bytes: &[u8]) -> Option<&[u8]>
    ensures rest { option_copied result ≡ pragma_rest bytes.now }
    ensures end { IfSome result (λ rest. IsEndOf bytes.now rest.now) }
{
    let omp = next_word(bytes, b"pragma")?;
    if !Class::Gap.begins(omp) {
        return None;
    }
    let rest = next_word(omp, b"omp")?;
    if Class::Word.begins(rest) {
        return None;
    }
    Some(rest)
}

/// What follows a word behind any blanks on its line.
fn next_word<'a>(bytes: &'a [u8], word: &[u8]) -> Option<&'a [u8]>
    ensures rest { option_copied result ≡ next_word word.now bytes.now }
    ensures end { IfSome result (λ rest. IsEndOf bytes.now rest.now) }
{
    after(Class::Gap.past(bytes), word)
}

/// What follows a word at the front.
fn after<'a>(bytes: &'a [u8], word: &[u8]) -> Option<&'a [u8]>
    ensures rest { option_copied result ≡ after word.now bytes.now }
    ensures end { IfSome result (λ rest. IsEndOf bytes.now rest.now) }
{
    bytes.strip_prefix(word)
}
