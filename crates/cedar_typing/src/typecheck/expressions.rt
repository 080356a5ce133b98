// The recursion of typing: expressions, with one arm for each form.
ghost use Rattle.std.specs.Prelude.{◌≡◌, IfOk, option_map};
ghost use Rattle.cedar_types.specs.Expressions.View.{written};
ghost use Rattle.cedar_typing.specs.Infer.{infer};
ghost use Rattle.cedar_typing.specs.Infer.Parts.{expect};
ghost use Rattle.cedar_typing.specs.TypedExpr.{place_of};
ghost use Rattle.cedar_typing.specs.Views.Settings.{setting_at};
ghost use Rattle.cedar_typing.specs.Views.{expected_types, answer_of, part_of, findings};
ghost use Rattle.cedar_typing.specs.Capabilities.Priors.{known_in};

use crate::typecheck::answer::{Part, TypecheckAnswer};
use crate::typecheck::operands::Expected;
use crate::typecheck::prior::Prior;
use crate::typecheck::rules::decisions::{Branches, Operands};
use crate::typecheck::rules::one_operand::OneOperand;
use crate::typecheck::rules::short_circuit::Connective;
use crate::typecheck::rules::two_operands::TwoOperands;
use crate::typecheck::single_env::SingleEnvTypechecker;
use cedar_types::base::{ArgumentCheck, Expr, ExprKind, ValidationError};
use std::alloc::AllocError;

/// The greatest depth at which an expression is visited. A condition has depth 1, and each part one more than the whole. A
/// deeper part gives the answer `RecursionLimit`.
pub const MAX_TYPED_DEPTH: usize = 400;

impl<C: ArgumentCheck> SingleEnvTypechecker<'_, '_, '_, '_, C> {
    /// Types an expression at this depth, with these prior capabilities, and adds its errors.
    ///
    /// Each level of nesting takes a frame of this function and of one or two others of the recursion. The work of each form
    /// behind its parts is marked `inline(never)`, so that its locals are no part of those frames. Rattle's own compiler heeds
    /// no mark, but it inlines no long function that is called at two places. `scripts/stack.py` measures both builds.
    #[cycle(typing)]
    pub(crate) fn typecheck<'a>(
        &self,
        prior: &Prior<'_, 'a>,
        depth: usize,
        e: &'a Expr,
        errors: &mut Vec<ValidationError>,
    ) -> Result<TypecheckAnswer<'a>, AllocError>
        ensures { IfOk result (λ r.
            infer (setting_at C.refusal self.now) (written e.now) (known_in prior.now) depth
            (findings errors.old.items)
            ≡ (answer_of r, findings errors.new.items)) }
    {
        // one limit for all builds, because a stack would overflow at a depth that depends on the build
        if depth > MAX_TYPED_DEPTH {
            return Ok(TypecheckAnswer::RecursionLimit);
        }
        match &e.kind {
            ExprKind::Lit(literal) => self.env.check_literal(e.loc, literal),
            ExprKind::Var(variable) => self.env.type_variable(e.loc, *variable),
            ExprKind::Slot(slot) => self.env.type_slot(e.loc, *slot),
            ExprKind::Unknown(name) => self.env.type_unknown(name),
            ExprKind::And(left, right) => {
                let operands = Operands { left, right };
                self.type_short_circuit(prior, depth, e.loc, Connective::And, operands, errors)
            }
            ExprKind::Or(left, right) => {
                let operands = Operands { left, right };
                self.type_short_circuit(prior, depth, e.loc, Connective::Or, operands, errors)
            }
            ExprKind::If {
                test_expr,
                then_expr,
                else_expr,
            } => {
                let branches = Branches {
                    then_expr,
                    else_expr,
                };
                self.type_if(prior, depth, e.loc, test_expr, branches, errors)
            }
            ExprKind::UnaryApp(op, operand) => {
                self.type_one_operand(prior, depth, e.loc, OneOperand::Unary(*op), operand, errors)
            }
            ExprKind::BinaryApp(op, left, right) => {
                let form = TwoOperands::of(*op);
                let operands = Operands { left, right };
                self.type_two_operands(prior, depth, e.loc, form, operands, errors)
            }
            ExprKind::HasAttr(base, attr) => {
                self.type_one_operand(prior, depth, e.loc, OneOperand::Has(attr), base, errors)
            }
            ExprKind::GetAttr(base, attr) => {
                self.type_one_operand(prior, depth, e.loc, OneOperand::Get(attr), base, errors)
            }
            ExprKind::Like(operand, pattern) => {
                self.type_one_operand(
                    prior,
                    depth,
                    e.loc,
                    OneOperand::Like(pattern),
                    operand,
                    errors,
                )
            }
            ExprKind::Is(operand, named) => {
                self.type_one_operand(prior, depth, e.loc, OneOperand::Is(named), operand, errors)
            }
            ExprKind::ExtensionFunctionApp(name, arguments) => {
                self.type_call(prior, depth, e.loc, name, arguments, errors)
            }
            ExprKind::ExtHasAttr(base, chain) => {
                self.type_one_operand(prior, depth, e.loc, OneOperand::Chain(chain), base, errors)
            }
            ExprKind::Set(elements) => self.type_set(prior, depth, e.loc, elements, errors),
            ExprKind::Record(fields) => self.type_record(prior, depth, e.loc, fields, errors),
        }
    }

    /// Types a part that has an expected type.
    #[cycle(typing)]
    pub(crate) fn type_part<'a>(
        &self,
        prior: &Prior<'_, 'a>,
        depth: usize,
        expected: Expected<'_>,
        e: &'a Expr,
        errors: &mut Vec<ValidationError>,
    ) -> Result<Option<Part<'a>>, AllocError>
        ensures { IfOk result (λ p.
            expect (setting_at C.refusal self.now).env (expected_types expected.entry)
            (place_of (written e.now))
            (infer (setting_at C.refusal self.now) (written e.now) (known_in prior.now) depth
            (findings errors.old.items))
            ≡ (option_map part_of p, findings errors.new.items)) }
    {
        let answer = self.typecheck(prior, depth, e, errors)?;
        let part = self.env.expect(expected, e.loc, answer, errors)?;
        Ok(part)
    }
}
