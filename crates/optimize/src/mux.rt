// Ordered identities of a one-bit mux: more specific rules precede general ones. (mux.rs of the Rust.)
ghost use Rattle.std.specs.Prelude.{◌≡◌};
ghost use Rattle.optimize.specs.Rewrite.{simplify_mux};

use crate::optimizer::Rewrite;
use recorder::ExprId;

// The first rule that fits.
pub fn simplify(select: ExprId, when_true: ExprId, when_false: ExprId) -> Rewrite
    ensures { result ≡ simplify_mux select when_true when_false }
{
    if select == ExprId::ZERO {
        Rewrite::Value(when_false)
    } else if select == ExprId::ONE || when_true == when_false {
        Rewrite::Value(when_true)
    } else if when_false == ExprId::ZERO && when_true == ExprId::ONE {
        Rewrite::Value(select)
    } else if when_false == ExprId::ONE && when_true == ExprId::ZERO {
        Rewrite::Not(select)
    } else if when_false == ExprId::ZERO {
        Rewrite::And(select, when_true)
    } else if when_true == ExprId::ONE {
        Rewrite::Or(select, when_false)
    } else if when_true == ExprId::ZERO {
        Rewrite::AndNot(select, when_false)
    } else if when_false == ExprId::ONE {
        Rewrite::OrNot(select, when_true)
    } else {
        Rewrite::Mux(select, when_true, when_false)
    }
}
