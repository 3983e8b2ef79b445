//! An expression as bytes.
ghost use Rattle.std.specs.Prelude.{◌≡◌, ◌++◌, ℕ, List, OnOk, OnErr};
ghost use Rattle.target_expr.specs.Bytes.{IsEncodable, expr_bytes, pred_bytes};
ghost use Rattle.target_expr.specs.Loose.{IsLoosePred};

use crate::decode::Conjunctions;
use crate::expr::Expr;
use crate::pred::Pred;
use byte_fields::{put_byte, put_flag, put_list, put_texts};
use rtb_num::Txt;
use std::alloc::AllocError;

impl Expr {
    /// Appends its bytes. Where memory is refused the text stays as it was.
    pub fn encode(&self, out: &mut Txt) -> Result<(), AllocError>
        ensures ok { OnOk result (out.new ≡ out.old ++ expr_bytes self.now) }
        ensures err { OnErr result (out.new ≡ out.old) }
        ensures encodable { IsEncodable self.now }
    {
        put_list::<Conjunctions>(self.as_slice(), out)
    }
}

// Appends the bytes of a predicate, or a front of them.
pub(crate) fn put_pred(pred: &Pred, out: &mut Txt) -> Result<(), AllocError>
    requires { IsLoosePred pred.now }
    ensures ok { OnOk result (out.new ≡ out.old ++ pred_bytes pred.now) }
    ensures front { (more : List ℕ) × (out.new ≡ out.old ++ more) }
{
    put_byte(pred.attr.number(), out)?;
    put_flag(pred.negated, out)?;
    put_texts(pred.values.as_slice(), out)?;
    Ok(())
}
