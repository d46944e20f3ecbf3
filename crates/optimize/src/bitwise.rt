// Two-state bitwise identities. (bitwise.rs of the Rust.)
ghost use Rattle.std.specs.Prelude.{◌≡◌};
ghost use Rattle.optimize.specs.Rewrite.{simplify_xor};

use crate::optimizer::Rewrite;
use recorder::ExprId;

// The first rule that fits.
pub fn simplify_xor(lhs: ExprId, rhs: ExprId) -> Rewrite
    ensures { result ≡ simplify_xor lhs rhs }
{
    if lhs == rhs {
        Rewrite::Value(ExprId::ZERO)
    } else if lhs == ExprId::ZERO {
        Rewrite::Value(rhs)
    } else if rhs == ExprId::ZERO {
        Rewrite::Value(lhs)
    } else if lhs == ExprId::ONE {
        Rewrite::Not(rhs)
    } else if rhs == ExprId::ONE {
        Rewrite::Not(lhs)
    } else {
        Rewrite::Xor(lhs, rhs)
    }
}
