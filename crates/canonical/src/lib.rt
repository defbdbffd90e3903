// The canonical form of a normalized value: level 3, and under XML 1.1 also U+0085 and U+2028 as references. Runs between
// those two go to the writer of level 3.
#![tactic(auto)]

ghost use Rattle.std.specs.Prelude.{◌≡◌, true, false, List, [], ◌∷◌, ◌++◌, ℕ, ◌+◌, ◌≤◌, ◌<◌, length, drop};
ghost use Rattle.text.specs.Version.{Rule, xml11};
ghost use Rattle.text.specs.Utf8.{WellFormed};
ghost use Rattle.text.specs.Call.{laid};
ghost use Rattle.text.specs.Bytes.{pick, begins};
ghost use Rattle.eols.specs.Stops.{rule_for};
ghost use Rattle.halts.specs.Halts.{blanks_spaced};
ghost use Rattle.charref.specs.CharRef.{encode};
ghost use Rattle.escape.specs.Escape.{full, attribute};
ghost use Rattle.escape.specs.Scan.{level_chars, shown};
ghost use Rattle.canonical.specs.Canonical.{canonical};
ghost use Rattle.runs.specs.Specials.{special, Common};
ghost use Rattle.output.specs.Runs.{Plain};
ghost use Rattle.canonical.specs.Runs.{special_reference, changed_by, Unchanged};
ghost use Rattle.canonical.specs.LastCharacter.{filled_up, in_hand};
ghost use Rattle.canonical.specs.FormEnds.{FormOf, Single, LastRaw, ends_with, last_numbered, last_named};

use escape::EscapeChars;
use text::pattern;

// The width of the U+0085 or U+2028 at i, 0 where none is.
fn special_width(value: &[u8], i: usize) -> usize
    requires { i < length value.now }
    ensures { result ≡ special xml11 (drop i value.now) }
{
    if pattern::two_at(value, i, 0xc2, 0x85) {
        return 2;
    }
    if pattern::byte_at(value, i, 0xe2) {
        if pattern::two_at(value, i + 1, 0x80, 0xa8) {
            return 3;
        }
    }
    0
}

// The next U+0085 or U+2028 that the version writes as a reference, or the end.
fn next_special(value: &[u8], from: usize, newer: bool) -> usize
    requires { from ≤ length value.now }
    ensures common { Common (rule_for newer) value.now from result }
    ensures nonzero { result < length value.now → 0 < special (rule_for newer) (drop result value.now) }
{
    if !newer {
        return value.len();
    }
    for i in runs::special::skip_common(value, from)..value.len() {
        if special_width(value, i) != 0 {
            return i;
        }
    }
    value.len()
}

fn special_length(width: usize) -> usize
    ensures { (result ≡ length (special_reference width)) × (result ≤ 7) }
{
    if width == 2 {
        return 6;
    }
    7
}

// Writes the reference at the start of `out`, and keeps the rest.
fn put_special(width: usize, out: &mut [u8])
    requires { length (special_reference width) ≤ length out.old }
    ensures { out.new ≡ laid (special_reference width) out.old }
{
    if width == 2 {
        output::put_run(b"&#133;", out);
        return;
    }
    output::put_run(b"&#8232;", out);
}

// What is escaped in a run: where its TAB and LF are spaces, these are none.
fn run_chars(spaces: bool) -> EscapeChars
    ensures { result ≡ level_chars (pick spaces full attribute) }
{
    if spaces {
        return escape::escape_chars(0);
    }
    escape::escape_chars(3)
}

// The length of the canonical form of a text, its TAB and LF as spaces where these are wanted.
fn form_length(text: &[u8], newer: bool, spaces: bool) -> usize
    requires { length text.now ≤ 0x1000000000000 }
    ensures { result ≡ length (canonical (rule_for newer) (shown spaces text.now)) }
{
    let chars = run_chars(spaces);
    let mut n: usize = 0;
    let mut i: usize = 0;
    loop {
        let end = next_special(text, i, newer);
        n += escape::escaped_length(&text[i..end], chars);
        if end == text.len() {
            return n;
        }
        let width = special_width(text, end);
        n += special_length(width);
        i = end + width;
    }
}

// Writes it at the start of `out`, and keeps the rest. The length written.
fn write_form(text: &[u8], newer: bool, spaces: bool, out: &mut [u8]) -> usize
    requires { length (canonical (rule_for newer) (shown spaces text.now)) ≤ length out.old }
    ensures value { result ≡ length (canonical (rule_for newer) (shown spaces text.now)) }
    ensures out_after { out.new ≡ laid (canonical (rule_for newer) (shown spaces text.now)) out.old }
{
    let chars = run_chars(spaces);
    let mut at: usize = 0;
    let mut i: usize = 0;
    loop {
        let end = next_special(text, i, newer);
        at += escape::write_escaped(&text[i..end], chars, spaces, &mut out[at..]);
        if end == text.len() {
            return at;
        }
        let width = special_width(text, end);
        put_special(width, &mut out[at..]);
        at += special_length(width);
        i = end + width;
    }
}

// The length of the canonical form of a value.
pub fn canonical_length(value: &[u8], newer: bool) -> usize
    requires { length value.now ≤ 0x1000000000000 }
    ensures { result ≡ length (canonical (rule_for newer) value.now) }
{
    form_length(value, newer, false)
}

// Writes it at the start of `out`, and keeps the rest. The length written.
pub fn write_canonical(value: &[u8], newer: bool, out: &mut [u8]) -> usize
    requires { length (canonical (rule_for newer) value.now) ≤ length out.old }
    ensures { (result ≡ length (canonical (rule_for newer) value.now)) × (out.new ≡ laid (canonical (rule_for newer) value.now) out.old) }
{
    write_form(value, newer, false, out)
}

// The length of the canonical form of a run, in which TAB and LF stand for spaces.
pub fn spaced_length(run: &[u8], newer: bool) -> usize
    requires { length run.now ≤ 0x1000000000000 }
    ensures { result ≡ length (canonical (rule_for newer) (blanks_spaced run.now)) }
{
    form_length(run, newer, true)
}

// Writes it at the start of `out`, and keeps the rest. The length written.
pub fn write_spaced(run: &[u8], newer: bool, out: &mut [u8]) -> usize
    requires { length (canonical (rule_for newer) (blanks_spaced run.now)) ≤ length out.old }
    ensures value { result ≡ length (canonical (rule_for newer) (blanks_spaced run.now)) }
    ensures out_after { out.new ≡ laid (canonical (rule_for newer) (blanks_spaced run.now)) out.old }
{
    write_form(run, newer, true, out)
}

// ---- a run that is its own form

// Is the byte written otherwise, or may it begin what is? No branch: blocks of them run on vectors. `<` and `>`, `&` and `'` differ in one bit,
// and are one comparison where they stand side by side.
fn is_changed(b: u8, newer: bool) -> bool
    ensures { result ≡ changed_by newer b }
{
    (b == b'<')
        | (b == b'>')
        | (b == b'&')
        | (b == b'\'')
        | (b == b'"')
        | (b == b'\r')
        | (newer & ((b == 0xc2) | (b == 0xe2)))
}

// Is a byte of the block changed?
fn any_changed(block: &[u8], newer: bool) -> bool
    ensures { result ≡ false → Unchanged newer block.now }
{
    let mut any = false;
    for &b in block {
        any |= is_changed(b, newer);
    }
    any
}

// Is no byte of the run changed? By blocks of N bytes, the last of which may overlap with the one before it: one call of the block's
// test, so that it is compiled into the loop.
fn is_own_blocks<const N: usize>(run: &[u8], newer: bool) -> bool
    requires { (0 < N) × (N ≤ length run.now) }
    ensures { result ≡ true → Unchanged newer run.now }
{
    let last = run.len() - N;
    let mut i: usize = 0;
    loop {
        let at = i.min(last);
        if any_changed(&run[at..at + N], newer) {
            return false;
        }
        if last <= i {
            return true;
        }
        i += N;
    }
}

// And byte by byte.
fn is_own_few(run: &[u8], newer: bool) -> bool
    ensures { result ≡ true → Unchanged newer run.now }
{
    !run.iter().any(|&b| is_changed(b, newer))
}

// Is the run, its TAB and LF as spaces, its own canonical form? Under 1.1 no for any C2 and E2, whatever follows.
pub fn is_own_form(run: &[u8], newer: bool) -> bool
    ensures { result ≡ true → canonical (rule_for newer) (blanks_spaced run.now) ≡ blanks_spaced run.now }
{
    let n = run.len();
    if n < 8 {
        return is_own_few(run, newer);
    }
    if n < 16 {
        return is_own_blocks::<8>(run, newer);
    }
    is_own_blocks::<16>(run, newer)
}

// ---- a character

// The length of the canonical form of a character.
pub fn char_length(c: u32, newer: bool) -> usize
    ensures { result ≡ length (canonical (rule_for newer) (encode c)) }
{
    if c < 0x80 {
        return usize::from(escape::added_one(escape::escape_chars(3), c as u8)) + 1;
    }
    if newer & (c == 0x85) {
        return special_length(2);
    }
    if newer & (c == 0x2028) {
        return special_length(3);
    }
    charref::utf8_length(c)
}

// Writes it at the start of `out`, and keeps the rest. The length written.
pub fn write_char(c: u32, newer: bool, out: &mut [u8]) -> usize
    requires c_bound { c ≤ 1114111 }
    requires c_in_bounds { length (canonical (rule_for newer) (encode c)) ≤ length out.old }
    ensures value { result ≡ length (canonical (rule_for newer) (encode c)) }
    ensures out_after { out.new ≡ laid (canonical (rule_for newer) (encode c)) out.old }
{
    if c < 0x80 {
        return escape::escape_char(c as u8, false, out);
    }
    if newer & (c == 0x85) {
        put_special(2, out);
        return special_length(2);
    }
    if newer & (c == 0x2028) {
        put_special(3, out);
        return special_length(3);
    }
    charref::encode_utf8(c, out)
}

// ---- the last character of a value, read off the end of its form

fn ends_with(form: &[u8], bytes: &[u8]) -> bool
    ensures { result ≡ ends_with bytes.now form.now }
{
    bytes.len() <= form.len() && &form[form.len() - bytes.len()..] == bytes
}

// The character of the reference with which the form ends, filled up with zero bytes; `;` where it ends with none.
fn named_hand(form: &[u8]) -> [u8; 4]
    ensures { result ≡ filled_up 4 (last_named form.now) }
{
    if ends_with(form, b"&lt;") {
        return [b'<', 0, 0, 0];
    }
    if ends_with(form, b"&gt;") {
        return [b'>', 0, 0, 0];
    }
    if ends_with(form, b"&amp;") {
        return [b'&', 0, 0, 0];
    }
    if ends_with(form, b"&apos;") {
        return [b'\'', 0, 0, 0];
    }
    if ends_with(form, b"&quot;") {
        return [b'"', 0, 0, 0];
    }
    numbered_hand(form)
}

// The same for those of a number.
fn numbered_hand(form: &[u8]) -> [u8; 4]
    ensures { result ≡ filled_up 4 (last_numbered form.now) }
{
    if ends_with(form, b"&#13;") {
        return [b'\r', 0, 0, 0];
    }
    if ends_with(form, b"&#10;") {
        return [b'\n', 0, 0, 0];
    }
    if ends_with(form, b"&#9;") {
        return [b'\t', 0, 0, 0];
    }
    if ends_with(form, b"&#133;") {
        return [0xc2, 0x85, 0, 0];
    }
    if ends_with(form, b"&#8232;") {
        return [0xe2, 0x80, 0xa8, 0];
    }
    [b';', 0, 0, 0]
}

// A character that stands at the form's end as it is.
fn raw_hand(form: &[u8]) -> [u8; 4]
    requires { LastRaw form.now }
    ensures { (front char : List ℕ) → Single char → form.now ≡ front ++ char → result ≡ filled_up 4 char }
{
    let n = form.len();
    let d = form[n - 1];
    if d < 0x80 {
        return [d, 0, 0, 0];
    }
    let c = form[n - 2];
    if 0xc0 <= c {
        return [c, d, 0, 0];
    }
    let b = form[n - 3];
    if 0xc0 <= b {
        return [b, c, d, 0];
    }
    [form[n - 4], b, c, d]
}

// The last character of the value that the form is of.
pub fn last_of(form: &[u8]) -> [u8; 4]
    requires { FormOf form.now }
    ensures { (rule : Rule) (value : List ℕ) → WellFormed value → 1 ≤ length value → form.now ≡ canonical rule value → result ≡ in_hand value }
{
    if form[form.len() - 1] == b';' {
        return named_hand(form);
    }
    raw_hand(form)
}

// Writes it to the first 4 bytes of the scratch, and keeps the rest.
pub fn put_hand(form: &[u8], scratch: &mut [u8])
    requires form_of { FormOf form.now }
    requires in_bounds { 4 ≤ length scratch.old }
    ensures { (rule : Rule) (value : List ℕ) → WellFormed value → 1 ≤ length value → form.now ≡ canonical rule value → scratch.new ≡ laid (in_hand value) scratch.old }
{
    // Tried as `copy_from_slice`, and slower: the bytes are then joined to a number, in ten instructions more.
    for (k, &b) in last_of(form).iter().enumerate() {
        scratch[k] = b;
    }
}
