// Where a character begins that may not stand raw (document 02, K8). Every search is proved to find what `FirstFault` over `faults_by` says
// (specs/FirstFault.antt). All goes by blocks of 16 bytes that run on vectors; which rule is asked (0, 1 or 2, see `may_by`) matters only where a
// block may have a fault.
#![tactic(auto)]

ghost use Rattle.std.specs.Prelude.{◌≡◌, true, false, not, ℕ, ◌+◌, ◌≤◌, ◌<◌, length, drop, get_or};
ghost use Rattle.legal.specs.FirstFault.{may_by, faults_by, Part, CleanByAny, FirstFault};

// ---- a fault at a place

// An ASCII character. In a text of the table under 1.1 only NUL may not stand.
fn ascii_fault(b: u8, rule: u8) -> bool
    requires { b < 0x80 }
    ensures { result ≡ not (may_by rule b) }
{
    if b == 0x7f {
        return rule == 1;
    }
    if 2 <= rule {
        return b == 0;
    }
    (b < 32) & (b != b'\t') & (b != b'\n') & (b != b'\r')
}

// U+0080 to U+009F other than U+0085, which XML 1.1 restricts.
fn restricted_at(text: &[u8], i: usize) -> bool
    requires i_in_bounds { i < length text.now }
    requires i_value { get_or text.now i 0 ≡ 0xC2 }
    ensures { result ≡ faults_by 1 (drop i text.now) }
{
    if text.len() - i < 2 {
        return false;
    }
    let c = text[i + 1];
    (0x80 <= c) & (c <= 0x9f) & (c != 0x85)
}

// U+FFFE and U+FFFF, which are no characters of either version.
fn noncharacter_at(text: &[u8], i: usize) -> bool
    requires i_in_bounds { i < length text.now }
    requires i_value { get_or text.now i 0 ≡ 0xEF }
    ensures { (rule : ℕ) → result ≡ faults_by rule (drop i text.now) }
{
    if text.len() - i < 3 {
        return false;
    }
    (text[i + 1] == 0xbf) & ((text[i + 2] == 0xbe) | (text[i + 2] == 0xbf))
}

// Most bytes are printable ASCII: one comparison tells.
fn fault_at(text: &[u8], i: usize, rule: u8) -> bool
    requires { i < length text.now }
    ensures { result ≡ faults_by rule (drop i text.now) }
{
    let b = text[i];
    if (32 <= b) & (b <= 126) {
        return false;
    }
    if b < 0x80 {
        return ascii_fault(b, rule);
    }
    if b == 0xef {
        return noncharacter_at(text, i);
    }
    if (b == 0xc2) & (rule == 1) {
        return restricted_at(text, i);
    }
    false
}

// ---- blocks of 16 bytes

// Is one of the 16 bytes from i on such that a fault may begin with it, under any rule? An accumulator for each test, as in halts.
fn any_suspect(text: &[u8], i: usize) -> bool
    requires { i + 16 ≤ length text.now }
    ensures { result ≡ false → CleanByAny text.now i (i + 16) }
{
    let mut low = false;
    let mut delete = false;
    let mut two = false;
    let mut three = false;
    for &b in &text[i..i + 16] {
        low |= b < 32;
        delete |= b == 0x7f;
        two |= b == 0xc2;
        three |= b == 0xef;
    }
    low | delete | two | three
}

// The same, told more closely by the byte and the one after it: TAB, LF and CR pass, and all after C2 and EF that is common.
fn any_likely(text: &[u8], i: usize) -> bool
    requires { i + 17 ≤ length text.now }
    ensures { result ≡ false → CleanByAny text.now i (i + 16) }
{
    let mut low = false;
    let mut delete = false;
    let mut two = false;
    let mut three = false;
    // By index: each byte is asked with the one after it.
    for k in 0..16usize {
        let b = text[i + k];
        let c = text[i + k + 1];
        low |= (b < 32) & (b != b'\t') & (b != b'\n') & (b != b'\r');
        delete |= b == 0x7f;
        two |= (b == 0xc2) & (c < 0xa0);
        three |= (b == 0xef) & (c == 0xbf);
    }
    low | delete | two | three
}

// Is one of the 16 bytes from i on no printable ASCII? A smaller test than `any_suspect`, which is compiled into the loop over blocks and
// would be called if it had a second user.
fn any_unprintable(text: &[u8], i: usize) -> bool
    requires { i + 16 ≤ length text.now }
    ensures { result ≡ false → CleanByAny text.now i (i + 16) }
{
    let mut hit = false;
    for &b in &text[i..i + 16] {
        hit |= (b < 32) | (126 < b);
    }
    hit
}

// ---- the first fault

fn fault_bytes(text: &[u8], from: usize, to: usize, rule: u8) -> usize
    requires { Part text.now from to }
    ensures { FirstFault (faults_by rule) text.now from to result }
{
    for i in from..to {
        if fault_at(text, i, rule) {
            return i;
        }
    }
    to
}

// In a block that has a suspect.
fn fault_in_block(text: &[u8], i: usize, rule: u8) -> usize
    requires { i + 16 ≤ length text.now }
    ensures { FirstFault (faults_by rule) text.now i (i + 16) result }
{
    if 17 <= text.len() - i {
        if !any_likely(text, i) {
            return i + 16;
        }
    }
    fault_bytes(text, i, i + 16, rule)
}

// The rest is shorter than a block: unless it is very short, the last block is looked at again.
fn fault_in_rest(text: &[u8], i: usize, to: usize, rule: u8) -> usize
    requires part { Part text.now i to }
    requires to_bound { to < i + 16 }
    ensures { FirstFault (faults_by rule) text.now i to result }
{
    if (4 <= to - i) & (16 <= to) {
        if !any_unprintable(text, to - 16) {
            return to;
        }
    }
    fault_bytes(text, i, to, rule)
}

// The first place from `from` up to `to` at which a character begins that may not stand there, or `to`.
pub fn first_fault(text: &[u8], from: usize, to: usize, rule: u8) -> usize
    requires { Part text.now from to }
    ensures { FirstFault (faults_by rule) text.now from to result }
{
    // By hand: the answer is a place, which chunks_exact does not count.
    let mut i = from;
    while 16 <= to - i {
        if any_suspect(text, i) {
            let near = fault_in_block(text, i, rule);
            if near < i + 16 {
                return near;
            }
        }
        i += 16;
    }
    fault_in_rest(text, i, to, rule)
}
