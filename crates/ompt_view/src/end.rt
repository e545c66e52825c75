//! How the command ended: its status and its line on standard error.

ghost use Rattle.std.specs.Prelude.{◌≡◌, ◌≤◌, ◌∷◌, ◌++◌, [], codes, length};
ghost use Rattle.std.specs.Fmt.{decimal};
ghost use Rattle.trace_format.specs.Refusing.{number_of_reason};
ghost use Rattle.ompt_view.specs.Ends.{line_of, line_of_view, status_of, status_of_view};

use arrayvec::ArrayString;
use itoa::Buffer;
use trace_check::Breach;
use trace_copy::push_number;
use trace_format::Refusal;
use trace_view::Viewed;

/// How the command ended.
#[derive(Clone, Copy, PartialEq, Eq)]
pub(crate) enum End {
    /// The words ask for help or for the version, which was shown.
    Shown,
    /// The words are refused.
    Usage,
    /// A trace was to be viewed, and that ended so. Want of memory for the words is told so too, and a write fault at the shown text.
    Ended(Viewed),
}

impl End {
    /// The exit status.
    pub fn status(self) -> u8
        ensures { result ≡ status_of self }
    {
        match self {
            End::Shown => 0,
            End::Usage => 2,
            End::Ended(viewed) => status_of_view(viewed),
        }
    }

    /// The line on standard error with its newline, which is empty where the status is 0.
    pub fn line(self) -> ArrayString<160>
        ensures { result.bytes ≡ line_of self }
    {
        match self {
            End::Shown => line_with(""),
            End::Usage => line_with("usage: ompt_view names, chrome, svg, waits or dot\n"),
            End::Ended(viewed) => line_of_view(viewed),
        }
    }
}

/// The exit status where the viewing of a trace ended so.
fn status_of_view(viewed: Viewed) -> u8
    ensures { result ≡ status_of_view viewed }
{
    match viewed {
        Viewed::Whole => 0,
        Viewed::Refused(_) | Viewed::Broken(_) => 7,
        Viewed::ReadFault => 8,
        Viewed::WriteFault => 9,
        Viewed::Memory => 10,
    }
}

/// The line where the viewing of a trace ended so.
fn line_of_view(viewed: Viewed) -> ArrayString<160>
    ensures { result.bytes ≡ line_of_view viewed }
{
    match viewed {
        Viewed::Whole => line_with(""),
        Viewed::Refused(refusal) => line_of_refusal(refusal),
        Viewed::Broken(breach) => line_of_breach(breach),
        Viewed::ReadFault => line_with("read fault\n"),
        Viewed::WriteFault => line_with("write fault\n"),
        Viewed::Memory => line_with("memory\n"),
    }
}

/// The line that tells a refused trace, with its newline.
fn line_of_refusal(refusal: Refusal) -> ArrayString<160>
    ensures { result.bytes ≡ codes "trace refused " ++ decimal (number_of_reason refusal.reason) ++ codes " at " ++
        decimal refusal.offset ++ 10 ∷ [] }
{
    let mut digits = Buffer::new();
    let mut line = line_with("trace refused ");
    push_number(&mut line, u32::from(refusal.reason.number()));
    line.push_str(" at ");
    line.push_str(digits.format(refusal.offset));
    line.push_str("\n");
    line
}

/// The line that tells the first breach of a trace, with its newline.
fn line_of_breach(breach: Breach) -> ArrayString<160>
    ensures { result.bytes ≡ codes "breach " ++ decimal breach.rule ++ codes " at " ++ decimal breach.seq ++ 10 ∷ [] }
{
    let mut line = line_with("breach ");
    push_number(&mut line, u32::from(breach.rule));
    line.push_str(" at ");
    push_number(&mut line, breach.seq);
    line.push_str("\n");
    line
}

/// A line with this text.
fn line_with(text: &str) -> ArrayString<160>
    requires { length text.now ≤ 160 }
    ensures { result.bytes ≡ text.now }
{
    let mut line = ArrayString::new();
    line.push_str(text);
    line
}
