// Typed conditions in Cedar's own form of JSON.
use crate::forms::{
    attribute_behind, begin_form, name_of_binary, name_of_slot, name_of_unary, name_of_var,
    write_literal, write_pattern, write_truth, write_unknown, write_word,
};
use crate::writer::Answer;
use cedar_typechecker::level_validate::only_branch;
use cedar_types::base::{AttrChain, CedarType, Expr, ExprKind, PatternElem};
use std::alloc::{AllocError, Global};
use std::collections::BTreeMap;
use std::rc::RcStr;

/// A typed expression.
type Typed = Expr<Option<CedarType>>;

/// A step that the writer has still to write.
#[derive(Clone, Copy)]
enum Step<'a> {
    /// An expression.
    Node(&'a Typed),
    /// `a has x.y` with the first attribute of the chain and so many behind it.
    Has(&'a Typed, &'a AttrChain, usize),
    /// `a.x.y` with the first attribute of the chain and so many behind it.
    Path(&'a Typed, &'a AttrChain, usize),
    /// The beginning of an expression of this form.
    Begin(&'a str),
    Key(&'a str),
    Text(&'a str),
    Pattern(&'a [PatternElem]),
    Truth(bool),
    EndObject,
    EndList,
}

/// Writes expressions. Their depth takes no stack, because the steps to write lie on the heap.
#[derive(Drop)]
pub struct ExpressionWriter<'a> {
    alloc: Global,
    /// The writer takes the last step first.
    steps: Vec<Step<'a>>,
}

impl<'a> ExpressionWriter<'a> {
    /// A writer that has nothing to write.
    pub fn new(alloc: Global) -> ExpressionWriter<'a> {
        ExpressionWriter {
            alloc,
            steps: Vec::new(alloc),
        }
    }

    /// Adds an expression to an answer, an object of one key, which is the name of its form.
    pub fn write(&mut self, answer: &mut Answer, expr: &'a Typed) -> Result<(), AllocError> {
        self.steps.push(Step::Node(expr))?;
        for _ in 0..u64::MAX {
            let Some(step) = self.steps.pop() else {
                break;
            };
            self.write_step(answer, step)?;
        }
        Ok(())
    }

    fn write_step(&mut self, answer: &mut Answer, step: Step<'a>) -> Result<(), AllocError> {
        match step {
            Step::Node(expr) => self.write_node(answer, expr),
            Step::Has(base, chain, count) => self.write_has(answer, base, chain, count),
            Step::Path(base, chain, count) => self.write_path(answer, base, chain, count),
            Step::Begin(form) => begin_form(answer, form),
            Step::Key(key) => answer.key(key),
            Step::Text(text) => answer.text(text),
            Step::Pattern(pattern) => write_pattern(answer, pattern),
            Step::Truth(truth) => write_truth(answer, truth),
            Step::EndObject => answer.end_object(),
            Step::EndList => answer.end_list(),
        }
    }

    /// Writes the beginning of an expression, and puts the rest on the steps.
    fn write_node(&mut self, answer: &mut Answer, expr: &'a Typed) -> Result<(), AllocError> {
        match &expr.kind {
            ExprKind::Lit(literal) => write_literal(self.alloc, answer, literal),
            ExprKind::Var(var) => write_word(answer, "Var", name_of_var(*var)),
            ExprKind::Slot(slot) => write_word(answer, "Slot", name_of_slot(*slot)),
            ExprKind::Unknown(name) => {
                let name = name.to_string(self.alloc)?;
                write_unknown(answer, name.as_str())
            }
            ExprKind::If {
                test_expr,
                then_expr,
                else_expr,
            } => match only_branch(expr) {
                Some(branch) => self.write_decided(answer, test_expr, branch),
                None => self.write_if(answer, test_expr, then_expr, else_expr),
            },
            ExprKind::And(a, b) => self.write_two(answer, "&&", a, b),
            ExprKind::Or(a, b) => self.write_two(answer, "||", a, b),
            ExprKind::UnaryApp(op, a) => self.write_one(answer, name_of_unary(*op), a),
            ExprKind::BinaryApp(op, a, b) => self.write_two(answer, name_of_binary(*op), a, b),
            ExprKind::ExtensionFunctionApp(name, args) => {
                let name = name.to_string(self.alloc)?;
                self.write_list(answer, name.as_str(), args)
            }
            ExprKind::GetAttr(a, attribute) => {
                self.write_word_of(answer, ".", a, "attr", attribute)
            }
            ExprKind::HasAttr(a, attribute) => {
                self.write_word_of(answer, "has", a, "attr", attribute)
            }
            ExprKind::ExtHasAttr(a, chain) => { self.write_has(answer, a, chain, chain.rest.len()) }
            ExprKind::Like(a, pattern) => self.write_like(answer, a, pattern),
            ExprKind::Is(a, entity_type) => {
                let name = entity_type.to_string(self.alloc)?;
                self.write_is(answer, a, name.as_str())
            }
            ExprKind::Set(elements) => self.write_list(answer, "Set", elements),
            ExprKind::Record(fields) => self.write_record(answer, fields),
        }
    }

    /// Begins an expression of this form, which ends behind the members put on the steps next.
    fn begin(&mut self, answer: &mut Answer, form: &str) -> Result<(), AllocError> {
        begin_form(answer, form)?;
        self.steps.push(Step::EndObject)?;
        self.steps.push(Step::EndObject)?;
        Ok(())
    }

    /// Puts a member on the steps. It is written before those that are there.
    fn put(&mut self, key: &'a str, value: Step<'a>) -> Result<(), AllocError> {
        self.steps.push(value)?;
        self.steps.push(Step::Key(key))?;
        Ok(())
    }

    fn write_if(
        &mut self,
        answer: &mut Answer,
        test: &'a Typed,
        then_branch: &'a Typed,
        else_branch: &'a Typed,
    ) -> Result<(), AllocError> {
        self.begin(answer, "if-then-else")?;
        self.put("else", Step::Node(else_branch))?;
        self.put("then", Step::Node(then_branch))?;
        self.put("if", Step::Node(test))
    }

    /// Writes an `if` that its test decides, as `if test || true then branch else false`. Typing
    /// leaves one branch of it, in the place of both, and 64 nested ones would be 2^64 copies.
    fn write_decided(
        &mut self,
        answer: &mut Answer,
        test: &'a Typed,
        branch: &'a Typed,
    ) -> Result<(), AllocError> {
        self.begin(answer, "if-then-else")?;
        self.put("else", Step::Truth(false))?;
        self.put("then", Step::Node(branch))?;
        self.steps.push(Step::EndObject)?;
        self.steps.push(Step::EndObject)?;
        self.put("right", Step::Truth(true))?;
        self.put("left", Step::Node(test))?;
        self.put("if", Step::Begin("||"))
    }

    fn write_one(
        &mut self,
        answer: &mut Answer,
        form: &str,
        a: &'a Typed,
    ) -> Result<(), AllocError> {
        self.begin(answer, form)?;
        self.put("arg", Step::Node(a))
    }

    fn write_two(
        &mut self,
        answer: &mut Answer,
        form: &str,
        a: &'a Typed,
        b: &'a Typed,
    ) -> Result<(), AllocError> {
        self.begin(answer, form)?;
        self.put("right", Step::Node(b))?;
        self.put("left", Step::Node(a))
    }

    /// Writes an operator on an expression and a name.
    fn write_word_of(
        &mut self,
        answer: &mut Answer,
        form: &str,
        a: &'a Typed,
        key: &'a str,
        word: &'a RcStr,
    ) -> Result<(), AllocError> {
        self.begin(answer, form)?;
        self.put(key, Step::Text(word.as_str()))?;
        self.put("left", Step::Node(a))
    }

    fn write_is(
        &mut self,
        answer: &mut Answer,
        a: &'a Typed,
        entity_type: &str,
    ) -> Result<(), AllocError> {
        self.begin(answer, "is")?;
        answer.text_at("entity_type", entity_type)?;
        self.put("left", Step::Node(a))
    }

    fn write_like(
        &mut self,
        answer: &mut Answer,
        a: &'a Typed,
        pattern: &'a Vec<PatternElem>,
    ) -> Result<(), AllocError> {
        self.begin(answer, "like")?;
        self.put("pattern", Step::Pattern(pattern.as_slice()))?;
        self.put("left", Step::Node(a))
    }

    /// Writes an expression of a list.
    fn write_list(
        &mut self,
        answer: &mut Answer,
        form: &str,
        exprs: &'a Vec<Typed>,
    ) -> Result<(), AllocError> {
        answer.begin_object()?;
        answer.begin_list_at(form)?;
        self.steps.push(Step::EndObject)?;
        self.steps.push(Step::EndList)?;
        for expr in exprs.iter().rev() {
            self.steps.push(Step::Node(expr))?;
        }
        Ok(())
    }

    fn write_record(
        &mut self,
        answer: &mut Answer,
        fields: &'a BTreeMap<RcStr, Typed>,
    ) -> Result<(), AllocError> {
        self.begin(answer, "Record")?;
        for (key, value) in fields.iter().rev() {
            self.put(key.as_str(), Step::Node(value))?;
        }
        Ok(())
    }

    /// Writes `a has x && a.x has y`, because Cedar's form of JSON has no chains of attributes.
    fn write_has(
        &mut self,
        answer: &mut Answer,
        base: &'a Typed,
        chain: &'a AttrChain,
        count: usize,
    ) -> Result<(), AllocError> {
        let Some(before) = count.checked_sub(1) else {
            return self.write_word_of(answer, "has", base, "attr", &chain.first);
        };
        self.begin(answer, "&&")?;
        self.put_last_has(base, chain, before)?;
        self.put("left", Step::Has(base, chain, before))
    }

    /// Puts the chain's last test on the steps: of the value behind the first and `before` others.
    fn put_last_has(
        &mut self,
        base: &'a Typed,
        chain: &'a AttrChain,
        before: usize,
    ) -> Result<(), AllocError> {
        self.steps.push(Step::EndObject)?;
        self.steps.push(Step::EndObject)?;
        self.put("attr", Step::Text(attribute_behind(chain, before)))?;
        self.put("left", Step::Path(base, chain, before))?;
        self.put("right", Step::Begin("has"))
    }

    /// Writes `a.x.y`: the first attribute of a chain, and `count` attributes behind it.
    fn write_path(
        &mut self,
        answer: &mut Answer,
        base: &'a Typed,
        chain: &'a AttrChain,
        count: usize,
    ) -> Result<(), AllocError> {
        let Some(before) = count.checked_sub(1) else {
            return self.write_word_of(answer, ".", base, "attr", &chain.first);
        };
        self.begin(answer, ".")?;
        self.put("attr", Step::Text(attribute_behind(chain, before)))?;
        self.put("left", Step::Path(base, chain, before))
    }
}
