// The calls of demands 2 and 3, one after the other: what the second leaves is what the demand says (demands/specs/Again.antt).
#![tactic(auto)]

ghost use Rattle.std.specs.Prelude.{◌≡◌, [], ◌∷◌};
ghost use Rattle.text.specs.Call.{called};
ghost use Rattle.demands.specs.Again.{escaped_back, canonical_twice};

// Escapes the text into `out`, and unescapes that form, with an empty table, into `back`: the text again.
pub fn escape_unescape(
    text: &[u8],
    level: u8,
    out: &mut [u8],
    back: &mut [u8],
    answer: &mut [u64; 2],
) -> u32
    ensures { called result answer.new (out.new ∷ back.new ∷ []) ≡ escaped_back text.now level out.old back.old }
{
    let number = govlezna::govlezna_escape(text, level, out, answer);
    if number != 0 {
        return number;
    }
    let length = answer[0] as usize;
    let table = [0u8; 1];
    govlezna::govlezna_unescape(&out[..length], &table, &text[..0], back, answer)
}

// Writes the canonical form to `out`, and the canonical form of that, with an empty table, to `again`: the same form.
pub fn canonical_twice(
    text: &[u8],
    version: u8,
    depth: u64,
    limit: u64,
    list: &[u8],
    pool: &[u8],
    scratch: &mut [u8],
    out: &mut [u8],
    again: &mut [u8],
    answer: &mut [u64; 2],
) -> u32
    ensures { called result answer.new (scratch.new ∷ out.new ∷ again.new ∷ []) ≡ canonical_twice text.now version depth limit list.now pool.now scratch.old out.old again.old }
{
    let number = govlezna::govlezna_canonical_form(
        text, version, depth, limit, list, pool, scratch, out, answer,
    );
    if number != 0 {
        return number;
    }
    let length = answer[0] as usize;
    let table = [0u8; 1];
    govlezna::govlezna_canonical_form(
        &out[..length],
        version,
        1,
        0,
        &table,
        &text[..0],
        scratch,
        again,
        answer,
    )
}
