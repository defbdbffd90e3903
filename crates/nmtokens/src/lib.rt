// Attributes of type NMTOKENS (document 02, K5): a value is normalized into a scratch, and the second stage of XML 1.0, 3.3.3, goes from
// there to the output. One code path for both versions, marked and unmarked lists.
#![tactic(auto)]

ghost use Rattle.std.specs.Prelude.{◌≡◌, [], ◌∷◌, ◌≤◌, length};
ghost use Rattle.text.specs.Call.{answered, call_of};
ghost use Rattle.text.specs.Utf8.{WellFormed};
ghost use Rattle.entity.specs.Table.{ValidTable};
ghost use Rattle.normalize.specs.Calls.{outcome_for};
ghost use Rattle.nmtokens.specs.Nmtokens.{collapsed};

use normalize::Wanted;
use text::Answer;
use tokens::Buffer;

// Success: the length written, the openings.
pub fn normalize_nmtokens(
    text: &[u8],
    wanted: Wanted,
    list: &[u8],
    pool: &[u8],
    scratch: &mut [u8],
    out: &mut [u8],
) -> Answer
    requires valid_table { ValidTable list.now pool.now }
    requires text_len_bound { length text.now ≤ 16777216 }
    requires limit_bound { wanted.limit ≤ 1000000 }
    requires well_formed { WellFormed text.now }
    ensures { call_of (answered result) (scratch.new ∷ out.new ∷ []) ≡ collapsed (outcome_for wanted list.now pool.now text.now) scratch.old out.old }
{
    let filled = normalize::normalized(
        text,
        wanted,
        0,
        false,
        list,
        pool,
        Buffer::Scratch,
        scratch,
    )?;
    collapse::collapse_into(&scratch[..filled.first as usize], filled.second, out)
}
