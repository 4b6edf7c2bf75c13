// Lines and fields of the text, found in one pass over its bytes: no scan looks beyond its line, since each stops at a line feed. A text and a place
// in it are handed on as two, as the definitions are of both.
#![tactic(auto)]

ghost use Rattle.std.specs.Prelude.{ℕ, Bool, ◌+◌, ◌≤◌, ◌≡◌, ◌&&◌, ◌||◌, [], ◌∷◌, length, eqb, leb};
ghost use Rattle.text.specs.Bytes.{past, part, next};
ghost use Rattle.text.specs.Lines.{blank, line_end, field, opening, names_from, fit, all_fit, line_by, line_at};
ghost use Rattle.scanner.specs.Stops.{stops};

use model::MOST_NAME;
use text::{DeviceType, Line, Names, Opening, Span};

// Where a scan stops: at a line feed, at a blank or a line feed, at a byte that is no blank.
#[derive(Clone, Copy)]
pub enum Stop {
    Feed,
    Gap,
    Word,
}

fn is_blank(b: u8) -> bool
    ensures { result ≡ blank b }
{
    matches!(b, b' ' | b'\t')
}

// The first place from there on whose byte passes the test, and the text's end where there is none.
pub fn next_where<F: Fn(u8) -> bool>(text: &[u8], from: usize, passes: F) -> usize
    ghost test: { ℕ → Bool }
    requires here { from ≤ length text.now }
    requires callable { F.IsAlwaysCallable passes }
    requires tests { (b : ℕ) (r : Bool) → F.post passes b r → r ≡ test b }
    ensures found { result ≡ next test text.now from (length text.now) }
    ensures within { (from ≤ result) × (result ≤ length text.now) }
{
    // By hand: with `position`, or a `for` over the places, a text of devices takes a twentieth longer to read.
    let mut i = from;
    while i < text.len() {
        if passes(text[i]) {
            return i;
        }
        i += 1;
    }
    i
}

// The first place from there on at which the scan stops, and the text's end where there is none.
pub fn next_stop(text: &[u8], stop: Stop, from: usize) -> usize
    requires { from ≤ length text.now }
    ensures found { result ≡ next (stops stop) text.now from (length text.now) }
    ensures within { (from ≤ result) × (result ≤ length text.now) }
{
    match stop {
        Stop::Feed => next_where(text, from, |b| b == b'\n'),
        Stop::Gap => next_where(text, from, |b| is_blank(b) || b == b'\n'),
        Stop::Word => next_where(text, from, |b| !is_blank(b)),
    }
}

// The first line feed from there on, and the text's end where there is none.
fn next_feed(text: &[u8], from: usize) -> usize
    requires { from ≤ length text.now }
    ensures found { result ≡ line_end text.now from }
    ensures within { (from ≤ result) × (result ≤ length text.now) }
{
    next_stop(text, Stop::Feed, from)
}

// The first field of the rest of a line, from there on; one of size 0 where there is none.
#[tactic(auto, using(crate::proofs::Ends::field_found))]
fn field_at(text: &[u8], from: usize) -> Span
    requires { from ≤ length text.now }
    ensures found { result ≡ field text.now from (line_end text.now from) }
    ensures within { (from ≤ past result) × (past result ≤ length text.now) }
{
    let start = next_stop(text, Stop::Word, from);
    let end = next_stop(text, Stop::Gap, start);
    Span {
        start,
        size: end - start,
    }
}

// What a first field says.
#[tactic(auto, using(crate::proofs::Opening::opening_is))]
fn opening_of(word: &[u8]) -> Opening
    ensures { result ≡ opening word.now }
{
    match word {
        [b'e' | b'n'] => Opening::Of(DeviceType::N),
        [b'p'] => Opening::Of(DeviceType::P),
        [b'd'] => Opening::Of(DeviceType::D),
        [] | [b'|', ..] | [b'N' | b'C' | b'R' | b'A'] => Opening::Skipped,
        _ => Opening::Other,
    }
}

// Whether a name is there, and not too long.
fn fits(name: Span) -> bool
    ensures { result ≡ fit name }
{
    (1..=MOST_NAME).contains(&name.size)
}

fn all_fit(names: Names) -> bool
    ensures { result ≡ all_fit names }
{
    fits(names.gate) && fits(names.source) && fits(names.drain)
}

// The three fields from there on.
#[tactic(auto, using(crate::proofs::Ends::names_found))]
fn names_from(text: &[u8], from: usize) -> Names
    requires { from ≤ length text.now }
    ensures { result ≡ names_from text.now from (line_end text.now from) }
{
    let gate = field_at(text, from);
    let source = field_at(text, gate.end());
    let drain = field_at(text, source.end());
    Names {
        gate,
        source,
        drain,
    }
}

// A device line, by its type and its names.
#[tactic(auto, unfolding(text::specs::Lines::line_by))]
fn device_line(t: DeviceType, names: Names) -> Line
    ensures { result ≡ line_by (Opening.Of t) names }
{
    if all_fit(names) {
        Line::Device(t, names)
    } else {
        Line::Bad
    }
}

// The line that starts there.
#[tactic(auto, using(crate::proofs::Ends::line_device, crate::proofs::Ends::line_skipped, crate::proofs::Ends::line_other))]
pub fn line_at(text: &[u8], from: usize) -> Line
    requires { from ≤ length text.now }
    ensures { result ≡ line_at text.now from }
{
    let first = field_at(text, from);
    match opening_of(first.of(text)) {
        Opening::Of(t) => device_line(t, names_from(text, first.end())),
        Opening::Skipped => Line::Skip,
        Opening::Other => Line::Bad,
    }
}

// Where the line that starts there ends; a device is already read up to its drain.
pub fn line_end(text: &[u8], from: usize, line: Line) -> usize
    requires { (from ≤ length text.now) × (line ≡ line_at text.now from) }
    ensures found { result ≡ line_end text.now from }
    ensures within { (from ≤ result) × (result ≤ length text.now) }
{
    match line {
        Line::Device(_, names) => next_feed(text, names.drain.end()),
        Line::Skip | Line::Bad => next_feed(text, from),
    }
}
