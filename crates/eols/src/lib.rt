// Line ends of XML 1.0 and 1.1: every one becomes LF. One code path for both versions; `newer` says that it is 1.1.
#![tactic(auto)]

ghost use Rattle.std.specs.Prelude.{◌≡◌, ◌+◌, ◌<◌, ◌≤◌, false, [], ◌∷◌, length, get_or, drop};
ghost use Rattle.text.specs.Call.{answered, call_of, finish, laid};
ghost use Rattle.text.specs.Version.{rule_of, xml11};
ghost use Rattle.eols.specs.LineEnds.{line_end, eols};
ghost use Rattle.eols.specs.Stops.{rule_for, Stepped};

use text::refusals::Refusal;
use text::{Answer, Success, pattern};

// A byte to write, and how many bytes of the text it stands for.
#[derive(Drop)]
pub struct Step {
    pub byte: u8,
    pub width: usize,
}

// The width of the line end that the CR at i starts.
fn cr_width(text: &[u8], i: usize, newer: bool) -> usize
    requires i_in_bounds { i < length text.now }
    requires i_value { get_or text.now i 0 ≡ 13 }
    ensures { result ≡ line_end (rule_for newer) (drop i text.now) }
{
    if pattern::byte_at(text, i + 1, 10) {
        return 2;
    }
    if newer {
        if pattern::two_at(text, i + 1, 0xc2, 0x85) {
            return 3;
        }
    }
    1
}

// The width of the line end at i that starts with neither CR nor LF: those of XML 1.1.
fn newer_width(text: &[u8], i: usize) -> usize
    requires i_in_bounds { i < length text.now }
    requires fact { (get_or text.now i 0 ≡ 13 → ⊥) × (get_or text.now i 0 ≡ 10 → ⊥) }
    ensures { result ≡ line_end xml11 (drop i text.now) }
{
    if text[i] == 0xc2 {
        if pattern::byte_at(text, i + 1, 0x85) {
            return 2;
        }
        return 0;
    }
    if text[i] == 0xe2 {
        if pattern::two_at(text, i + 1, 0x80, 0xa8) {
            return 3;
        }
    }
    0
}

// The width of the line end at i, 0 where none is.
pub fn eol_width(text: &[u8], i: usize, newer: bool) -> usize
    requires { i < length text.now }
    ensures { result ≡ line_end (rule_for newer) (drop i text.now) }
{
    if text[i] == 13 {
        return cr_width(text, i, newer);
    }
    if text[i] == 10 {
        return 1;
    }
    if newer {
        return newer_width(text, i);
    }
    0
}

// What is written for the byte or the line end at i.
fn normalize_eol_step(text: &[u8], i: usize, newer: bool) -> Step
    requires { i < length text.now }
    ensures { Stepped newer text.now i result }
{
    let width = eol_width(text, i, newer);
    if width == 0 {
        return Step {
            byte: text[i],
            width: 1,
        };
    }
    Step { byte: 10, width }
}

// The length of the text with its line ends normalized.
pub fn eols_length(text: &[u8], newer: bool) -> usize
    ensures { result ≡ length (eols (rule_for newer) text.now) }
{
    let mut n: usize = 0;
    let mut i: usize = 0;
    while i < text.len() {
        let e = runs::lines::plain_end(text, i, newer);
        n += e - i;
        if e == text.len() {
            return n;
        }
        let step = normalize_eol_step(text, e, newer);
        n += 1;
        i = e + step.width;
    }
    n
}

// Writes the text with its line ends normalized, run by run. The length written.
fn write_eols(text: &[u8], newer: bool, out: &mut [u8]) -> usize
    requires { length (eols (rule_for newer) text.now) ≤ length out.old }
    ensures { (result ≡ length (eols (rule_for newer) text.now)) × (out.new ≡ laid (eols (rule_for newer) text.now) out.old) }
{
    let start = runs::lines::put_wide(text, newer, out);
    let mut at = start;
    let mut i = start;
    while i < text.len() {
        let count = runs::lines::put_plain(&text[i..], newer, &mut out[at..]);
        let e = i + count;
        at += count;
        if e == text.len() {
            return at;
        }
        let step = normalize_eol_step(text, e, newer);
        out[at] = step.byte;
        at += 1;
        i = e + step.width;
    }
    at
}

// Where the output is as long as the text there is room for the result, which is no longer: no count is needed.
// Else it counts first; 19 with the length needed leaves the output.
pub fn normalize_eols(text: &[u8], version: u8, out: &mut [u8]) -> Answer
    ensures { call_of (answered result) (out.new ∷ []) ≡ finish (eols (rule_of version) text.now) 0 out.old }
{
    let newer = 1 < version;
    if out.len() < text.len() {
        let n = eols_length(text, newer);
        if out.len() < n {
            return Err(Refusal::NoRoom(n as u64));
        }
    }
    let written = write_eols(text, newer, out);
    Ok(Success {
        first: written as u64,
        second: 0,
    })
}
