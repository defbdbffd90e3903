// What a walk over attribute values is set to. The walk's definitions are in specs/, its laws in proofs/; the code is in the crates halts,
// memory, flat and normalize, which stand on these.
#![tactic(auto)]

ghost use Rattle.std.specs.Prelude.{◌≡◌};
ghost use Rattle.text.specs.Call.{answered};
ghost use Rattle.attribute.specs.Checks.{settings_check};

use text::Answer;
use text::refusals::Refusal;

// Refusals 2, 3 and 4.
pub fn check_settings(version: u8, depth: u64, limit: u64) -> Answer
    ensures { answered result ≡ settings_check version depth limit }
{
    if 128 < depth {
        return Err(Refusal::DepthTooLarge);
    }
    if 1000000 < limit {
        return Err(Refusal::LimitTooLarge);
    }
    text::check_version(version)
}
