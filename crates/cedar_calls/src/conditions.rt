//! The call that asks for the typed conditions of a policy, one for each environment: a compiler of
//! policies begins with them.
ghost use Rattle.std.specs.Prelude.{◌≡◌, true, false, None, option_map, IfOk};
ghost use Rattle.cedar_types.specs.Templates.{template_of};
ghost use Rattle.cedar_typing.specs.Views.Checks.{basis_of as basis_in};
ghost use Rattle.cedar_host.specs.Conditions.{AreConditionsOf, MeanItIfThere};
ghost use Rattle.cedar_verdicts.specs.Verdicts.{basis_of};
ghost use Rattle.cedar_calls.specs.Answers.{IsRightAnswer, IsWholeAnswer};

use crate::answered::{Answered, judge_one};
use crate::answers::failure;
use crate::expressions::ExpressionWriter;
use crate::faults::{CallFault, only_fault, schema_faults};
use crate::given::Given;
use crate::opened::Opened;
use crate::policies::PolicyReader;
use crate::schemas::schema_of;
use crate::settings::Asked;
use crate::writer::Answer;
use cedar_extensions::checks::Constructor;
use cedar_extensions::functions::{Checks, functions, overloaded_types};
use cedar_findings::findings::Severity;
use cedar_host::conditions::{TypedCondition, typed_conditions};
use cedar_json::{FormError, Object, Value, expected, value_alone};
use cedar_typechecker::rbac::Validator;
use cedar_types::base::{
    ArgumentCheck, EntityType, EntityUID, ExtensionSchemas, ValidationMode, ValidatorSchema,
};
use cedar_types::types::request_env::RequestEnv;
use cedar_typing::typecheck::Typechecker;
use cedar_verdicts::settings::Settings;
use std::alloc::{AllocError, Global};

/// A call that asks for typed conditions.
#[derive(Drop)]
struct ConditionsCall {
    mode: ValidationMode,
    schema: ValidatorSchema,
    given: Given,
}

/// A policy with the verdict on it, and its typed conditions if it is accepted.
#[derive(Drop)]
pub struct PolicyConditions<'a> {
    pub answered: Answered<'a>,
    /// One for each environment of the policy; `None` if the policy is refused.
    pub conditions: Option<Vec<TypedCondition<'a>>>,
}

/// The verdict on a policy, and its typed conditions. The verdict is the one that `judge_all` gives
/// (clauses `right` and `whole`). If it accepts the policy, the conditions are those of its
/// environments (clause `exact`), and in Strict and in Permissive each evaluates as the policy's
/// condition does there (clause `meaning`); otherwise there are none (clause `refused`). If memory
/// is refused, the answer is an `AllocError`.
pub fn conditions_of<'a, C: ArgumentCheck>(
    alloc: Global,
    settings: &Settings<'_, C>,
    typechecker: &'a Typechecker<'a, C>,
    given: &'a Given,
) -> Result<PolicyConditions<'a>, AllocError>
    ensures given { IfOk result (λ a. a.answered.given ≡ given.entry) }
    ensures right { IfOk result (λ a. IsRightAnswer
        (basis_of C.refusal settings.now) settings.now.level a.answered) }
    ensures whole { IfOk result (λ a. IsWholeAnswer
        (basis_of C.refusal settings.now) settings.now.level a.answered) }
    ensures exact { IfOk result (λ a. a.answered.verdict.is_accepted ≡ true → AreConditionsOf
        (basis_in C.refusal typechecker.now) (template_of given.now.policy)
        (option_map (λ cs. cs.items) a.conditions)) }
    ensures meaning { IfOk result (λ a. a.answered.verdict.is_accepted ≡ true → MeanItIfThere
        (basis_in C.refusal typechecker.now) (template_of given.now.policy)
        (option_map (λ cs. cs.items) a.conditions)) }
    ensures refused { IfOk result (λ a. a.answered.verdict.is_accepted ≡ false
        → a.conditions ≡ None) }
{
    let answered = judge_one(alloc, settings, given)?;
    if !answered.verdict.is_accepted {
        return Ok(PolicyConditions {
            answered,
            conditions: None,
        });
    }
    let found = typed_conditions(alloc, typechecker, &given.policy)?;
    Ok(PolicyConditions {
        answered,
        conditions: found,
    })
}

/// Answers a call that asks for typed conditions, an object of `schema`, `policy` and perhaps
/// `validationSettings`, by a text of JSON: whether the policy is accepted, its errors, and then
/// each environment with its condition in Cedar's own form of JSON. The answer is `failure` if the
/// text is no call, or if its schema or its policy cannot be read. It fails if memory is refused.
pub fn conditions_call(alloc: Global, call: &str) -> Result<String, AllocError> {
    conditions_answer(alloc, None, call)
}

/// Answers a call that asks for typed conditions by a schema which was opened, as
/// [`conditions_call`] does, but that the call has no `schema`.
pub fn conditions_call_by(
    alloc: Global,
    opened: &Opened,
    call: &str,
) -> Result<String, AllocError> {
    conditions_answer(alloc, Some(opened), call)
}

fn conditions_answer(
    alloc: Global,
    opened: Option<&Opened>,
    call: &str,
) -> Result<String, AllocError> {
    // (the boxes are made here, because a function that returned them would hide their checks)
    let checks = Checks {
        ip: Box::new(alloc, Constructor::Ip.check(alloc))?,
        decimal: Box::new(alloc, Constructor::Decimal.check(alloc))?,
        datetime: Box::new(alloc, Constructor::Datetime.check(alloc))?,
        duration: Box::new(alloc, Constructor::Duration.check(alloc))?,
    };
    let functions = functions(alloc, checks)?;
    let overloaded = overloaded_types(alloc)?;
    let Ok(functions) = ExtensionSchemas::new(functions, overloaded) else {
        return failure(alloc, &Vec::new(alloc));
    };
    let read = match read_call(alloc, &functions, opened, call) {
        Ok(read) => read,
        Err(error) => Err(only_fault(alloc, call, error)?),
    };
    match read {
        Ok(read) => read.answer(alloc, &functions),
        Err(faults) => failure(alloc, &faults),
    }
}

fn read_call(
    alloc: Global,
    functions: &ExtensionSchemas,
    opened: Option<&Opened>,
    text: &str,
) -> Result<Result<ConditionsCall, Vec<CallFault>>, FormError> {
    let root = value_alone(alloc, text)?;
    let object = Object::of(&root)?;
    match opened {
        Some(_opened) => object.allow(&["validationSettings", "policy"])?,
        None => object.allow(&["validationSettings", "schema", "policy"])?,
    }
    let settings = object.given("validationSettings");
    let asked = Asked::read(settings)?;
    let mode = sound_mode(asked.mode, settings)?;
    let reader = PolicyReader {
        alloc,
        call: text,
        functions,
        depth: asked.depth,
    };
    let policy = object.need("policy")?;
    let given = match reader.read_one("policy0", policy)? {
        Ok(given) => given,
        Err(faults) => return Ok(Err(faults)),
    };
    let schema = match opened {
        Some(opened) => Ok(opened.copy(alloc)?),
        None => schema_of(alloc, text, object.need("schema")?)?,
    };
    match schema {
        Err(faults) => Ok(Err(schema_faults(alloc, faults)?)),
        Ok(schema) => Ok(Ok(ConditionsCall {
            mode,
            schema,
            given,
        })),
    }
}

/// The mode of these settings, which must be one that promises something of evaluation.
fn sound_mode(mode: ValidationMode, settings: Option<&Value>) -> Result<ValidationMode, FormError> {
    match (mode, settings) {
        (ValidationMode::Partial, Some(settings)) => {
            Err(expected(settings, "`strict` or `permissive` as the mode"))
        }
        _ => Ok(mode),
    }
}

impl ConditionsCall {
    /// The answer, as a text of JSON.
    fn answer(self, alloc: Global, functions: &ExtensionSchemas) -> Result<String, AllocError> {
        let ConditionsCall {
            mode,
            schema,
            given,
        } = self;
        let validator = Validator::new(schema, functions);
        let settings = Settings {
            validator: &validator,
            mode,
            level: None,
            syntax: None,
        };
        let typechecker = Typechecker::new(validator.schema(), functions, mode);
        let found = conditions_of(alloc, &settings, &typechecker, &given)?;
        written(alloc, &found)
    }
}

fn written(alloc: Global, found: &PolicyConditions<'_>) -> Result<String, AllocError> {
    let mut answer = Answer::begin(alloc, "success")?;
    answer.boolean_at("accepted", found.answered.verdict.is_accepted)?;
    answer.begin_list_at("validationErrors")?;
    answer.add_findings(&found.answered, Severity::Error, false)?;
    answer.end_list()?;
    answer.begin_list_at("conditions")?;
    if let Some(conditions) = &found.conditions {
        for condition in conditions {
            add_condition(alloc, &mut answer, condition)?;
        }
    }
    answer.end_list()?;
    answer.finish()
}

fn add_condition(
    alloc: Global,
    answer: &mut Answer,
    condition: &TypedCondition<'_>,
) -> Result<(), AllocError> {
    answer.begin_object()?;
    add_environment(alloc, answer, &condition.env)?;
    answer.key("condition")?;
    let mut writer = ExpressionWriter::new(alloc);
    writer.write(answer, &condition.condition)?;
    answer.end_object()
}

/// Adds the members of an environment. The slots have types if the policy is a template.
fn add_environment(
    alloc: Global,
    answer: &mut Answer,
    env: &RequestEnv<'_>,
) -> Result<(), AllocError> {
    add_type(alloc, answer, "principalType", env.principal_entity_type())?;
    add_action(alloc, answer, env.action_entity_uid())?;
    add_type(alloc, answer, "resourceType", env.resource_entity_type())?;
    add_type(alloc, answer, "principalSlotType", env.principal_slot())?;
    add_type(alloc, answer, "resourceSlotType", env.resource_slot())
}

/// Adds a member of this key, the name of a type, if there is one.
fn add_type(
    alloc: Global,
    answer: &mut Answer,
    key: &str,
    entity_type: Option<&EntityType>,
) -> Result<(), AllocError> {
    let Some(entity_type) = entity_type else {
        return Ok(());
    };
    let name = entity_type.to_string(alloc)?;
    answer.text_at(key, name.as_str())
}

fn add_action(
    alloc: Global,
    answer: &mut Answer,
    action: Option<&EntityUID>,
) -> Result<(), AllocError> {
    let Some(action) = action else {
        return Ok(());
    };
    let name = action.entity_type.to_string(alloc)?;
    answer.begin_object_at("action")?;
    answer.text_at("type", name.as_str())?;
    answer.text_at("id", action.eid.as_str())?;
    answer.end_object()
}
