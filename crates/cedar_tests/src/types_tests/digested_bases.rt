// Questions about the base of an access, and about the access.
ghost use Rattle.std.specs.Prelude.{◌≡◌};
ghost use Rattle.cedar_types.specs.Accesses.{got};
ghost use Rattle.cedar_types.specs.Capability.{expr_in};
ghost use Rattle.cedar_types.specs.Expressions.View.{shape};
ghost use Rattle.cedar_types.specs.Names.{text_of};

use cedar_types::base::{Expr, Var};
use cedar_types::types::capability::{Capability, DigestedBase};
use std::alloc::AllocError;
use std::rc::RcStr;
use std::test::Fail;

/// Whether the expression has the attribute. The answer must be as if it were asked anew.
fn has_as_new(asked: &mut DigestedBase<'_>, attr: &RcStr) -> Result<bool, AllocError>
    ensures { expr_in asked.new ≡ expr_in asked.old }
{
    let found = asked.attribute(attr)?;
    Ok(found == Capability::new_attribute(asked.expr(), attr.clone()?))
}

/// Whether `whole`, which is the access to `attr` of `base`, has the attribute as if it were asked by itself, with its base
/// asked before or not.
fn is_asked_alike(base: &Expr, whole: &Expr, attr: &RcStr) -> Result<bool, AllocError>
    requires { shape whole.now ≡ got (shape base.now) (text_of attr.now) }
{
    let mut asked = DigestedBase::new(base);
    let mut before = asked.access(whole, attr);
    let is_same = has_as_new(&mut asked, attr)?;
    let mut after = asked.access(whole, attr);
    Ok(is_same && has_as_new(&mut before, attr)? && has_as_new(&mut after, attr)?)
}

#[test]
fn an_access_is_asked_by_what_was_asked_of_its_base(rt: HostRuntime) -> Result<(), Fail> {
    let alloc = rt.alloc();
    let base = Expr::var(Var::Resource);
    let attr = RcStr::from_str(alloc, "x")?;
    let whole = Expr::get_attr(alloc, Expr::var(Var::Resource), "x")?;
    assert!(rt; is_asked_alike(&base, &whole, &attr)?);
    Ok(())
}
