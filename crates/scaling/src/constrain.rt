// CONSTRAIN of x, a, b.
ghost use Rattle.std.specs.Prelude.{◌≡◌};
ghost use Rattle.scaling.specs.Constrain.{constrained};

use number::Number;
use number::promotion::promote;
use operator::binary::choose;
use operator::operators::Extremum;

// Document 02, Q-3: "CONSTRAIN of x, a, b is our MIN of (our MAX of x, a) and b."
#[tactic(auto, unfolding(crate::specs::Constrain::constrained))]
pub fn constrain(x: Number, a: Number, b: Number) -> Number
    ensures { result ≡ constrained x a b }
{
    let raised = choose(Extremum::Max, promote(x, a));
    choose(Extremum::Min, promote(raised, b))
}
