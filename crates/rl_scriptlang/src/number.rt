// Numbers in decimal.
ghost use Rattle.std.specs.Prelude.{◌≡◌};
ghost use Rattle.rl_model.specs.Script.{number_within};

use rl_base::read_decimal;

// The number of a token that is one within these bounds.
#[tactic(auto, using(crate::proofs::Numbers::within_none, crate::proofs::Numbers::within_yes, crate::proofs::Numbers::within_below, crate::proofs::Numbers::within_above))]
pub fn number_within(low: u64, high: u64, token: &str) -> Option<u64>
    ensures { result ≡ number_within low high token.now }
{
    let Some(value) = read_decimal(token.as_bytes()) else {
        return None;
    };
    if value < low {
        return None;
    }
    if value > high {
        return None;
    }
    Some(value)
}
