// The rule of records: the values of the fields are typed one after another, and their types make
// the record's type.
ghost use Rattle.std.specs.Prelude.{◌≡◌, ◌≤◌, ◌+◌, false, IfOk, option_map};
ghost use Rattle.cedar_types.specs.Expressions.Tree.{record_of};
ghost use Rattle.cedar_types.specs.Types.{ty_of};
ghost use Rattle.cedar_types.specs.Expressions.View.{fields_written};
ghost use Rattle.cedar_typing.specs.Eager.{types_found};
ghost use Rattle.cedar_typing.specs.Infer.{infer_fields};
ghost use Rattle.cedar_typing.specs.Infer.Eager.{infer_decided, infer_eager, infer_form};
ghost use Rattle.cedar_typing.specs.Judgments.{max_nesting};
ghost use Rattle.cedar_typing.specs.Rules.Records.{field_keys, fields_from, record_form, record_of_types};
ghost use Rattle.cedar_typing.specs.Rules.Sets.{all_types};
ghost use Rattle.cedar_typing.specs.TypedExpr.{typed_as, typed_tree};
ghost use Rattle.cedar_typing.specs.Views.Settings.{setting_at};
ghost use Rattle.cedar_typing.specs.Views.{answer_of, at, decision_without_errors, env_at, field_operands, findings, keys_in, trees_in};
ghost use Rattle.cedar_typing.specs.Capabilities.Priors.{known_in};

use crate::typecheck::answer::TypecheckAnswer;
use crate::typecheck::prior::Prior;
use crate::typecheck::single_env::SingleEnvTypechecker;
use crate::typecheck::type_env::TypeEnv;
use crate::typecheck::typed_nodes::{node, without_capabilities};
use cedar_types::base::{
    ArgumentCheck, AttributeType, Attributes, CedarType, Expr, ExprKind, Loc, OpenTag,
    ValidationError,
};
use std::alloc::{AllocError, Global};
use std::collections::BTreeMap;
use std::rc::RcStr;

/// The result of typing the values of fields one after another.
#[derive(Drop)]
pub(crate) struct FieldValues {
    /// The fields with their typed values, up to the first value that is too deep.
    typed: BTreeMap<RcStr, Expr<Option<CedarType>>>,
    /// Whether all values with a typed copy succeeded.
    succeeded: bool,
    /// Whether a value is too deep.
    is_cut: bool,
}

impl<C: ArgumentCheck> SingleEnvTypechecker<'_, '_, '_, '_, C> {
    /// Types a record, at `loc`.
    #[cycle(typing)]
    #[inline(never)]
    pub(crate) fn type_record<'a>(
        &self,
        prior: &Prior<'_, 'a>,
        depth: usize,
        loc: Option<Loc>,
        fields: &'a BTreeMap<RcStr, Expr>,
        errors: &mut Vec<ValidationError>,
    ) -> Result<TypecheckAnswer<'a>, AllocError>
        requires { depth ≤ max_nesting }
        ensures { IfOk result (λ r.
            infer_eager (record_form (setting_at C.refusal self.now).env (at loc)
            (field_keys (fields_written fields.now.entries)))
            (infer_fields (setting_at C.refusal self.now) (fields_written fields.now.entries)
            (known_in prior.now) (depth + 1)) (findings errors.old.items)
            ≡ (answer_of r, findings errors.new.items)) }
    {
        let values = self.type_fields(prior, depth, fields, errors)?;
        let answer = self.env.record_answer(loc, values)?;
        Ok(answer)
    }

    /// Types the values of a record's fields, each one deeper than the whole, in the order of their
    /// keys. No value after one that is too deep is typed.
    #[cycle(typing)]
    fn type_fields<'a>(
        &self,
        prior: &Prior<'_, 'a>,
        depth: usize,
        fields: &'a BTreeMap<RcStr, Expr>,
        errors: &mut Vec<ValidationError>,
    ) -> Result<FieldValues, AllocError>
        requires { depth ≤ max_nesting }
        ensures typed { IfOk result (λ r.
            infer_fields (setting_at C.refusal self.now) (fields_written fields.now.entries)
            (known_in prior.now)
            (depth + 1) (findings errors.old.items)
            ≡ (field_operands r, findings errors.new.items)) }
        ensures keys { IfOk result (λ r. r.is_cut ≡ false
            → keys_in r.typed.entries ≡ field_keys (fields_written fields.now.entries)) }
    {
        let mut typed = BTreeMap::new(self.env.alloc);
        let mut succeeded = true;
        for (key, value) in fields.iter() {
            let answer = self.typecheck(prior, depth + 1, value, errors)?;
            let Some(part) = answer.into_part(self.env.alloc) else {
                return Ok(FieldValues {
                    typed,
                    succeeded,
                    is_cut: true,
                });
            };
            succeeded = part.succeeded & succeeded;
            drop(typed.insert(key.clone()?, Box::into_inner(part.typed))?);
        }
        Ok(FieldValues {
            typed,
            succeeded,
            is_cut: false,
        })
    }
}

impl TypeEnv<'_, '_, '_, '_> {
    /// The answer for a record at `loc` whose values are typed. It adds no error.
    #[inline(never)]
    fn record_answer<'a>(
        &self,
        loc: Option<Loc>,
        values: FieldValues,
    ) -> Result<TypecheckAnswer<'a>, AllocError>
        ensures { (es : _) → IfOk result (λ r.
            infer_form (record_form (env_at self.now) (at loc) (keys_in values.typed.entries))
            (field_operands values) es
            ≡ (answer_of r, es)) }
    {
        if values.is_cut {
            return Ok(TypecheckAnswer::RecursionLimit);
        }
        let answer = typed_record(self.alloc, loc, values.succeeded, values.typed)?;
        Ok(answer)
    }
}

/// The answer for a record of which no value is too deep.
fn typed_record<'a>(
    alloc: Global,
    loc: Option<Loc>,
    succeeded: bool,
    fields: BTreeMap<RcStr, Expr<Option<CedarType>>>,
) -> Result<TypecheckAnswer<'a>, AllocError>
    ensures { (env : _) (es : _) → IfOk result (λ r.
        infer_decided (record_form env (at loc) (keys_in fields.entries)) succeeded
        (trees_in fields.entries) es
        (record_of_types env loc (keys_in fields.entries)
        (all_types (types_found (trees_in fields.entries))))
        ≡ (answer_of r, es)) }
{
    match record_type(alloc, &fields)? {
        Some(ty) => {
            let typed = record_node(alloc, loc, Some(ty), fields)?;
            Ok(without_capabilities(alloc, succeeded, typed))
        }
        None => {
            let typed = record_node(alloc, loc, None, fields)?;
            Ok(TypecheckAnswer::fail(typed))
        }
    }
}

/// The type of a record with these fields: closed, and each attribute required. There is none if a
/// value has no type.
fn record_type(
    alloc: Global,
    fields: &BTreeMap<RcStr, Expr<Option<CedarType>>>,
) -> Result<Option<CedarType>, AllocError>
    ensures { (env : _) (l : _) → IfOk result (λ t.
        record_of_types env l (keys_in fields.now.entries)
        (all_types (types_found (trees_in fields.now.entries)))
        ≡ decision_without_errors (option_map ty_of t)) }
{
    let mut attrs = BTreeMap::new(alloc);
    for (key, value) in fields.iter() {
        // a value without a type has failed already, so the record adds no error
        let Some(ty) = &value.annotation else {
            return Ok(None);
        };
        let attribute = AttributeType {
            attr_type: ty.clone()?,
            // a record that is written out has each of its attributes
            is_required: true,
        };
        drop(attrs.insert(key.clone()?, attribute)?);
    }
    let attributes = Attributes::with_attributes(alloc, attrs)?;
    // a record that is written out has no other attributes, so its type is closed
    let ty = CedarType::record_with_attributes(attributes, OpenTag::ClosedAttributes);
    Ok(Some(ty))
}

fn record_node(
    alloc: Global,
    loc: Option<Loc>,
    ty: Option<CedarType>,
    fields: BTreeMap<RcStr, Expr<Option<CedarType>>>,
) -> Result<Box<Expr<Option<CedarType>>>, AllocError>
    ensures { IfOk result (λ e. typed_tree e.value
        ≡ record_of (typed_as (option_map ty_of ty) (at loc))
        (fields_from (keys_in fields.entries) (trees_in fields.entries))) }
{
    let typed = node(alloc, loc, ty, ExprKind::Record(fields))?;
    Ok(typed)
}
