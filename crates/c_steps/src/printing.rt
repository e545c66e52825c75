//! What a `printf` prints (C11 7.21.6.1).

ghost use Rattle.std.specs.Prelude.{◌≡◌, ◌+◌, ◌<◌, ◌≤◌, ℕ, ℤ, List, [], ◌∷◌, ◌++◌, length, take, not, nat_lt, if◌then◌else◌, vec_capacity, IfNone, IfSome, MatchOption};
ghost use Rattle.c_model.specs.Text.{escaped_byte, first_decimal, numbers_behind_first};
ghost use Rattle.c_steps.specs.Arguments.{HaveValues, numbers_behind};
ghost use Rattle.c_steps.specs.Printing.{numbers_left, piece_text, text_left, text_printed};

use crate::scope::Scope;
use c_model::TEXT_LIMIT;
use itoa::Buffer;

/// What stands before a byte of a pattern.
#[derive(Clone, Copy)]
enum Before {
    /// Nothing that counts.
    Plain,
    /// A percent sign.
    Percent,
    /// A backslash.
    Backslash,
}

/// What a byte of a pattern prints.
#[derive(Clone, Copy)]
enum Piece {
    Nothing,
    Byte(u8),
    /// The next number.
    Number,
}

/// How far a pattern is printed.
#[derive(Clone, Copy)]
struct Progress {
    before: Before,
    /// The place of the next number among the children.
    place: u32,
}

/// Prints what a `printf` prints, behind what is printed. Answers whether that is no more than may be; else nothing is printed. Its
/// expressions have no trap.
pub(crate) fn print(scope: &Scope<'_>, node: u32, text: &mut Vec<u8>) -> bool
    requires node { node < length scope.now.tree.now.trees }
    requires values { HaveValues scope.now node 0 }
    requires room { TEXT_LIMIT ≤ vec_capacity text.old }
    ensures text { text.new.items ≡ (if result then text.old.items ++ text_printed scope.now node else text.old.items) }
    ensures limit { nat_lt TEXT_LIMIT (length (text.old.items ++ text_printed scope.now node)) ≡ not result }
    ensures capacity { vec_capacity text.old ≤ vec_capacity text.new }
{
    let printed = text.len();
    if TEXT_LIMIT < printed {
        return false;
    }
    if append_text(scope, node, text) {
        return true;
    }
    text.truncate(printed);
    false
}

/// Appends what is printed. Answers whether it is no more than may be; else some of it may be appended.
#[tactic(auto, using(crate::proofs::PrintingText::limit_kept, crate::proofs::PrintingText::front_kept))]
fn append_text(scope: &Scope<'_>, node: u32, text: &mut Vec<u8>) -> bool
    requires node { node < length scope.now.tree.now.trees }
    requires values { HaveValues scope.now node 0 }
    requires room { TEXT_LIMIT ≤ vec_capacity text.old }
    requires few { length text.old.items ≤ TEXT_LIMIT }
    ensures text { (if result then text.new.items else take (length text.old.items) text.new.items)
        ≡ (if result then text.old.items ++ text_printed scope.now node else text.old.items) }
    ensures limit { nat_lt TEXT_LIMIT (length (text.old.items ++ text_printed scope.now node)) ≡ not result }
    ensures capacity { vec_capacity text.old ≤ vec_capacity text.new }
{
    let mut progress = Progress {
        before: Before::Plain,
        place: 0,
    };
    for byte in scope.tree.text(node) {
        match append_byte(scope, node, progress, *byte, text) {
            None => return false,
            Some(next) => progress = next,
        }
    }
    true
}

/// Appends what a byte of a pattern prints, unless that is more than may be.
fn append_byte(
    scope: &Scope<'_>,
    node: u32,
    progress: Progress,
    byte: u8,
    text: &mut Vec<u8>,
) -> Option<Progress>
    requires node { node < length scope.now.tree.now.trees }
    requires values { HaveValues scope.now node progress.place }
    requires room { TEXT_LIMIT ≤ vec_capacity text.old }
    requires few { length text.old.items ≤ TEXT_LIMIT }
    ensures text { (bytes : List ℕ) →
        let whole = text.old.items ++ text_left progress.before (byte ∷ bytes)
        (numbers_behind scope.now node progress.place) in
        MatchOption result (TEXT_LIMIT < length whole) (λ next.
        text.new.items ++ text_left next.before bytes (numbers_behind scope.now node next.place) ≡ whole) }
    ensures values { IfSome result (λ next. HaveValues scope.now node next.place) }
    ensures same { IfNone result (text.new.items ≡ text.old.items) }
    ensures few { length text.new.items ≤ TEXT_LIMIT }
    ensures longer { length text.old.items ≤ length text.new.items }
    ensures capacity { vec_capacity text.old ≤ vec_capacity text.new }
{
    let (piece, before) = read_byte(progress.before, byte);
    match piece {
        Piece::Nothing => Some(Progress {
            before,
            place: progress.place,
        }),
        Piece::Byte(byte) => {
            if append(text, &[byte]) {
                Some(Progress {
                    before,
                    place: progress.place,
                })
            } else {
                None
            }
        }
        Piece::Number => match append_number(scope, node, progress.place, text) {
            Some(place) => Some(Progress { before, place }),
            None => None,
        },
    }
}

/// Appends the decimal of the number at a place, unless that is more than may be. Answers the place of the next number.
fn append_number(scope: &Scope<'_>, node: u32, place: u32, text: &mut Vec<u8>) -> Option<u32>
    requires node { node < length scope.now.tree.now.trees }
    requires values { HaveValues scope.now node place }
    requires room { TEXT_LIMIT ≤ vec_capacity text.old }
    requires few { length text.old.items ≤ TEXT_LIMIT }
    ensures text { let whole = text.old.items ++ first_decimal (numbers_behind scope.now node place) in
        MatchOption result (TEXT_LIMIT < length whole) (λ next. text.new.items ≡ whole) }
    ensures numbers { IfSome result (λ next.
        numbers_behind scope.now node next ≡ numbers_behind_first (numbers_behind scope.now node place)) }
    ensures values { IfSome result (λ next. HaveValues scope.now node next) }
    ensures same { IfNone result (text.new.items ≡ text.old.items) }
    ensures few { length text.new.items ≤ TEXT_LIMIT }
    ensures longer { length text.old.items ≤ length text.new.items }
    ensures capacity { vec_capacity text.old ≤ vec_capacity text.new }
{
    match number_at(scope, node, place) {
        None => Some(place),
        Some(number) => {
            if append(text, Buffer::new().format(number).as_bytes()) {
                Some(place + 1)
            } else {
                None
            }
        }
    }
}

/// The number at a place, if there is one.
#[tactic(auto, using(crate::proofs::PrintingNumbers::numbers_cases))]
fn number_at(scope: &Scope<'_>, node: u32, place: u32) -> Option<i32>
    requires node { node < length scope.now.tree.now.trees }
    requires values { HaveValues scope.now node place }
    ensures numbers { MatchOption result (numbers_behind scope.now node place ≡ []) (λ number.
        numbers_behind scope.now node place ≡ number ∷ numbers_behind scope.now node (place + 1)) }
    ensures values { IfSome result (λ number. HaveValues scope.now node (place + 1)) }
    ensures fits { IfSome result (λ number. place + 1 < 4294967295) }
{
    match scope.tree.child(node, place) {
        None => None,
        Some(child) => scope.value(Some(child)).ok(),
    }
}

/// What a byte prints behind what stands before it, and what stands before the next byte.
#[tactic(auto, using(crate::proofs::PrintingText::plain_is, crate::proofs::PrintingText::format_is, crate::proofs::PrintingText::slash_is))]
fn read_byte(before: Before, byte: u8) -> (Piece, Before)
    ensures { (bytes : List ℕ) (numbers : List ℤ) → text_left before (byte ∷ bytes) numbers
        ≡ piece_text result.0 numbers ++ text_left result.1 bytes (numbers_left result.0 numbers) }
{
    match before {
        Before::Plain => {
            if byte == b'%' {
                (Piece::Nothing, Before::Percent)
            } else if byte == b'\\' {
                (Piece::Nothing, Before::Backslash)
            } else {
                (Piece::Byte(byte), Before::Plain)
            }
        }
        Before::Percent => {
            if byte == b'd' {
                (Piece::Number, Before::Plain)
            } else if byte == b'%' {
                (Piece::Byte(b'%'), Before::Plain)
            } else {
                (Piece::Nothing, Before::Plain)
            }
        }
        Before::Backslash => (Piece::Byte(escaped_byte(byte)), Before::Plain),
    }
}

/// What a byte behind a backslash stands for (C11 5.2.2).
fn escaped_byte(byte: u8) -> u8
    ensures { result ≡ escaped_byte byte }
{
    match byte {
        b'n' => b'\n',
        b't' => b'\t',
        _ => byte,
    }
}

/// Appends bytes, and answers so, unless that makes more than may be.
fn append(text: &mut Vec<u8>, bytes: &[u8]) -> bool
    requires room { TEXT_LIMIT ≤ vec_capacity text.old }
    requires few { length text.old.items ≤ TEXT_LIMIT }
    ensures text { text.new.items ≡ (if result then text.old.items ++ bytes.now else text.old.items) }
    ensures limit { nat_lt TEXT_LIMIT (length (text.old.items ++ bytes.now)) ≡ not result }
    ensures few { length text.new.items ≤ TEXT_LIMIT }
    ensures capacity { vec_capacity text.old ≤ vec_capacity text.new }
{
    if TEXT_LIMIT - text.len() < bytes.len() {
        return false;
    }
    text.extend_from_slice(bytes).is_ok()
}
