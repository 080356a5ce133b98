// A row as a text: its questions, in order, and the answers that it expects.
use crate::rows::answers::{Answer, Asked};
use crate::rows::chains::chain_cost;
use crate::rows::names::{refusal, schema_refusal};
use crate::rows::{Report, Row};
use cedar_fixtures::questions::{Question, Subject, Table};
use cedar_reading::{Expected, Fault, ReadError, SchemaReadError, schema, uid_alone, whole_policy};
use cedar_typechecker::rbac::Validator;
use cedar_types::base::{ExtensionSchemas, Policy, PolicyID, SlotEnv, SlotId, ValidatorSchema};
use std::alloc::{AllocError, Global};
use std::rc::Rc;

/// The mark before each step.
const BEFORE_STEP: &str = "\n? ";

/// A row: steps, each of which begins behind `? ` with its question. On the next line is the text
/// that the program prints, and behind `! ` each finding, as often as it is found, in any order.
/// Beside the text are the words in it that stand for longer texts.
#[derive(Clone, Copy)]
pub struct Steps<'a>(pub &'a str, pub &'a [Nested]);

/// A word, and the text for which it stands: a text within others.
#[derive(Clone, Copy)]
pub struct Nested {
    pub word: &'static str,
    /// The texts before the inner text and behind it, each repeated `count` times.
    pub around: [&'static str; 2],
    pub times: usize,
    pub inner: &'static str,
}

impl Nested {
    fn text(&self, alloc: Global) -> Result<String, AllocError> {
        let [before, after] = self.around;
        let before = before.repeat(alloc, self.times)?;
        let after = after.repeat(alloc, self.times)?;
        let inner = self.inner;
        format!(in alloc; "{before}{inner}{after}")
    }
}

impl Steps<'_> {
    /// The text with its words replaced by the texts for which they stand.
    fn expand(&self, alloc: Global) -> Result<String, AllocError> {
        let mut text = String::from_str(alloc, self.0)?;
        for nested in self.1 {
            text = text.replace(alloc, nested.word, nested.text(alloc)?.as_str())?;
        }
        Ok(text)
    }
}

impl Row for Steps<'_> {
    fn report(
        &self,
        alloc: Global,
        x1: &ExtensionSchemas,
        x2: &ExtensionSchemas,
    ) -> Result<Report, AllocError> {
        let text = self.expand(alloc)?;
        let mut report = Report::new(alloc);
        let steps = text.as_str();
        let steps = steps.strip_prefix(BEFORE_STEP).unwrap_or(steps);
        for step in steps.split(BEFORE_STEP) {
            match judge(alloc, step.trim_end(), x1, x2) {
                Ok((outcome, is_expected)) => report.add(outcome, is_expected)?,
                Err(ReadError::Memory(error)) => return Err(error),
                Err(ReadError::At(_, fault)) => report.add(fault.to_string(alloc)?, false)?,
            }
        }
        Ok(report)
    }
}

/// The answer of a step, and whether the step expects it.
fn judge(
    alloc: Global,
    step: &str,
    x1: &ExtensionSchemas,
    x2: &ExtensionSchemas,
) -> Result<(String, bool), ReadError> {
    let (line, expected) = step.split_once('\n').unwrap_or((step, ""));
    let Some(question) = Question::read(line) else {
        return Err(ReadError::At(0, Fault::Expected(Expected::Other("a question"))));
    };
    let table = match question.table {
        Table::X1 => x1,
        Table::X2 => x2,
    };
    let answer = answer_to(alloc, question, table)?;
    let is_expected = answer.is(alloc, expected)?;
    Ok((answer.outcome, is_expected))
}

fn answer_to(
    alloc: Global,
    question: Question<'_>,
    table: &ExtensionSchemas,
) -> Result<Answer, ReadError> {
    match question.subject {
        Subject::Refusal => Ok(refusal(alloc, question.text)?),
        Subject::SchemaRefusal => schema_refusal(alloc, question.text),
        Subject::ChainCost => {
            let schema = read_schema(alloc, question.schema)?;
            Ok(chain_cost(alloc, &schema, question.text)?)
        }
        _ => about_policy(alloc, question, table),
    }
}

fn about_policy(
    alloc: Global,
    question: Question<'_>,
    table: &ExtensionSchemas,
) -> Result<Answer, ReadError> {
    let text = policy_text(alloc, question.text)?;
    let policy = bound_policy(alloc, text.as_str(), question)?;
    let validator = Validator::new(read_schema(alloc, question.schema)?, table);
    let asked = Asked {
        alloc,
        validator: &validator,
        policy: &policy,
        text: text.as_str(),
    };
    Ok(asked.about(question.subject)?)
}

/// The text of a policy. A text that is a condition alone gets a scope.
fn policy_text(alloc: Global, text: &str) -> Result<String, AllocError> {
    if text.starts_with("permit(") {
        format!(in alloc; "{text};")
    } else {
        format!(in alloc; "permit(principal, action, resource) when {{ {text} }};")
    }
}

/// The policy of this text, with its slot bound.
fn bound_policy(alloc: Global, text: &str, question: Question<'_>) -> Result<Policy, ReadError> {
    let values = values_of(alloc, question.bound)?;
    let id = match question.subject {
        Subject::SlotTypes => PolicyID::from_string(alloc, "0")?,
        _ => PolicyID::from_string(alloc, "policy0")?,
    };
    let mut template = whole_policy(alloc, text)?;
    template.id = id;
    Ok(Policy {
        template: Rc::new(alloc, template)?,
        values,
    })
}

/// The binding of `?principal` to this, if there is one.
fn values_of(alloc: Global, bound: Option<&str>) -> Result<SlotEnv, ReadError> {
    let mut values = SlotEnv::new(alloc);
    if let Some(bound) = bound {
        drop(values.insert(SlotId::Principal, uid_alone(alloc, bound)?)?);
    }
    Ok(values)
}

fn read_schema(alloc: Global, text: &str) -> Result<ValidatorSchema, ReadError> {
    match schema(alloc, text) {
        Ok(schema) => Ok(schema),
        Err(SchemaReadError::Read(error)) => Err(error),
        Err(_) => Err(ReadError::At(
            0,
            Fault::Expected(Expected::Other("a schema without faults")),
        )),
    }
}
