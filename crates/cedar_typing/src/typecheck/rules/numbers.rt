// The rule of `<` and `<=`.
ghost use Rattle.std.specs.Prelude.{◌≡◌, IfOk, map, option_map};
ghost use Rattle.cedar_types.specs.Types.Bounds.{ty_eq};
ghost use Rattle.cedar_types.specs.Types.{ty_of, TLong};
ghost use Rattle.std.specs.List.{list_any};
ghost use Rattle.cedar_types.specs.Names.{path_eq, path_of};
ghost use Rattle.cedar_types.specs.Errors.{finding_of};
ghost use Rattle.cedar_typing.specs.Rules.Numbers.{comparable_types, is_comparable, expected_at, beside_never, incomparable, compares, compare_decides};
ghost use Rattle.cedar_typing.specs.Views.{env_at, decision_of, extension_named, findings};

use crate::typecheck::operands::Expected;
use crate::typecheck::rules::eager::{Decision, gives, gives_unless};
use crate::typecheck::type_env::TypeEnv;
use crate::typecheck::type_tests::{any_bool, is_never_type, is_same_type};
use cedar_types::base::{CedarType, Loc, Name, ValidationError, types_in_order};
use std::alloc::AllocError;
use std::rc::Rc;

impl TypeEnv<'_, '_, '_, '_> {
    /// The decision on a comparison of operands at these places, by their types. No type is
    /// expected beforehand, because the type of one side decides that of the other.
    pub(crate) fn decide_comparison<'a>(
        &self,
        left_loc: Option<Loc>,
        right_loc: Option<Loc>,
        left: &Option<CedarType>,
        right: &Option<CedarType>,
    ) -> Result<Decision<'a>, AllocError>
        ensures { IfOk result (λ d. decision_of d
            ≡ compare_decides (env_at self.now) left_loc right_loc (option_map ty_of left.now)
            (option_map ty_of right.now)) }
    {
        // a side without a type has failed already, so it adds no error
        let Some(left) = left else {
            return Ok(Decision::Refuses(Some(any_bool()), Vec::new(self.alloc)));
        };
        let Some(right) = right else {
            return Ok(Decision::Refuses(Some(any_bool()), Vec::new(self.alloc)));
        };
        self.compare(left_loc, right_loc, left, right)
    }

    fn compare<'a>(
        &self,
        left_loc: Option<Loc>,
        right_loc: Option<Loc>,
        left: &CedarType,
        right: &CedarType,
    ) -> Result<Decision<'a>, AllocError>
        ensures { IfOk result (λ d. decision_of d
            ≡ compares (env_at self.now) left_loc right_loc (ty_of left.now) (ty_of right.now)) }
    {
        // beside each other, two Nevers do not tell which comparable type is meant
        if is_never_type(left) & is_never_type(right) {
            return Ok(Decision::Refuses(Some(any_bool()), Vec::new(self.alloc)));
        }
        // Never is a subtype of every type, so it passes beside a comparable one
        if is_never_type(left) {
            let errors = self.beside_never(right_loc, right)?;
            return Ok(gives_unless(self.alloc, errors, any_bool()));
        }
        if is_never_type(right) {
            let errors = self.beside_never(left_loc, left)?;
            return Ok(gives_unless(self.alloc, errors, any_bool()));
        }
        // a comparable type is compared only with itself, so a Long is not compared with an
        // extension type
        if self.is_comparable(left) && is_same_type(left, right) {
            return Ok(gives(self.alloc, any_bool()));
        }
        let errors = self.incomparable(left_loc, right_loc, left, right)?;
        Ok(Decision::Refuses(Some(any_bool()), errors))
    }

    /// The error at `loc` of a type beside Never; none if the type is comparable.
    fn beside_never(
        &self,
        loc: Option<Loc>,
        ty: &CedarType,
    ) -> Result<Vec<ValidationError>, AllocError>
        ensures { IfOk result (λ v.
            findings v.items ≡ beside_never (env_at self.now) loc (ty_of ty.now)) }
    {
        let mut errors = Vec::new(self.alloc);
        if self.is_comparable(ty) {
            return Ok(errors);
        }
        errors.push(self.expected_comparable(loc, ty)?)?;
        Ok(errors)
    }

    /// The errors of two sides that are not of one comparable type.
    fn incomparable(
        &self,
        left_loc: Option<Loc>,
        right_loc: Option<Loc>,
        left: &CedarType,
        right: &CedarType,
    ) -> Result<Vec<ValidationError>, AllocError>
        ensures { IfOk result (λ v.
            findings v.items
            ≡ incomparable (env_at self.now) left_loc right_loc (ty_of left.now) (ty_of right.now)) }
    {
        let mut errors = Vec::new(self.alloc);
        // a Long on one side tells the type that the other side should have had
        if is_long(left) {
            errors.push(self.unexpected(Expected::Long, right_loc, right)?)?;
        } else if is_long(right) {
            errors.push(self.unexpected(Expected::Long, left_loc, left)?)?;
        } else if self.is_comparable(left) {
            errors.push(self.unexpected(Expected::Exactly(left), right_loc, right)?)?;
        } else if self.is_comparable(right) {
            errors.push(self.unexpected(Expected::Exactly(right), left_loc, left)?)?;
        } else {
            // neither side tells the type that the other should have had
            errors.push(self.expected_comparable(left_loc, left)?)?;
            errors.push(self.expected_comparable(right_loc, right)?)?;
        }
        Ok(errors)
    }

    /// The error at `loc` that one of the comparable types is expected.
    fn expected_comparable(
        &self,
        loc: Option<Loc>,
        ty: &CedarType,
    ) -> Result<ValidationError, AllocError>
        ensures { IfOk result (λ e.
            finding_of e
            ≡ expected_at (env_at self.now) loc (comparable_types (env_at self.now)) (ty_of ty.now)) }
    {
        let policy_id = self.policy_id.clone()?;
        let types = types_in_order(self.alloc, self.comparable_types()?)?;
        let actual = ty.clone()?;
        Ok(ValidationError::expected_one_of_types(loc, policy_id, types, actual))
    }

    /// The comparable types: Long, and the overloaded extension types.
    fn comparable_types(&self) -> Result<Vec<CedarType>, AllocError>
        ensures { IfOk result (λ v. map ty_of v.items ≡ comparable_types (env_at self.now)) }
    {
        let mut types = Vec::new(self.alloc);
        types.push(CedarType::Long)?;
        for name in self.overloaded_types.iter() {
            let name = Rc::new(self.alloc, name.clone()?)?;
            types.push(CedarType::Extension(name))?;
        }
        Ok(types)
    }

    /// Whether `<` and `<=` compare values of this type.
    fn is_comparable(&self, ty: &CedarType) -> bool
        ensures { result ≡ is_comparable (env_at self.now) (ty_of ty.now) }
    {
        match extension_name(ty) {
            Some(name) => self.is_overloaded(name),
            None => is_long(ty),
        }
    }

    /// Whether `<` and `<=` compare values of this extension type.
    fn is_overloaded(&self, name: &Name) -> bool
        ensures { result
            ≡ list_any (path_eq (path_of name.now)) (env_at self.now).overloaded_types }
    {
        self.overloaded_types.contains(name)
    }
}

fn is_long(ty: &CedarType) -> bool
    ensures { result ≡ ty_eq (ty_of ty.now) TLong }
{
    matches!(ty, CedarType::Long)
}

/// The name of an extension type; `None` for any other type.
fn extension_name(ty: &CedarType) -> Option<&Name>
    ensures { option_map (λ n. path_of n.now) result ≡ extension_named (ty_of ty.now) }
{
    match ty {
        CedarType::Extension(name) => Some(name),
        CedarType::Never | CedarType::Bool(_) | CedarType::Long | CedarType::String => None,
        CedarType::Set(_) | CedarType::AnySet => None,
        CedarType::Record { .. } | CedarType::Entity(_) => None,
    }
}
