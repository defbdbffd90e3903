// The writers of Canonical XML: the escaping of W3C Canonical XML 1.0, 2.3, for attribute values and for text, by the writer of the levels.
#![tactic(auto)]

ghost use Rattle.std.specs.Prelude.{◌≡◌, [], ◌∷◌};
ghost use Rattle.text.specs.Call.{answered, call_of, guarded, text_check, finish};
ghost use Rattle.escape.specs.Escape.{write};
ghost use Rattle.c14n.specs.C14n.{c14n_set};
ghost use Rattle.c14n.specs.Flags.{c14n_chars};

use escape::EscapeChars;
use text::Answer;

// The set as flags.
fn c14n_chars(attribute: bool) -> EscapeChars
    ensures { result ≡ c14n_chars attribute }
{
    let hex = true;
    if attribute {
        return EscapeChars {
            blanks: true,
            apos: false,
            quot: true,
            gt: false,
            hex,
        };
    }
    EscapeChars {
        blanks: false,
        apos: false,
        quot: false,
        gt: true,
        hex,
    }
}

// The text written by one of the two sets: 1 and 5, then 19. Success: the length written.
pub fn c14n(text: &[u8], attribute: bool, out: &mut [u8]) -> Answer
    ensures { call_of (answered result) (out.new ∷ []) ≡ guarded (text_check text.now) (out.old ∷ []) (finish (write (c14n_set attribute) text.now) 0 out.old) }
{
    text::check_text(text)?;
    escape::escape_by(text, c14n_chars(attribute), out)
}
