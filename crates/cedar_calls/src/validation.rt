//! The call that validates policies by a schema: Cedar's `ValidationCall`, which a
//! `ValidationAnswer` answers.
use crate::answered::judge_all;
use crate::answers::{failure, success};
use crate::faults::{CallFault, add_all, only_fault, schema_faults};
use crate::given::Given;
use crate::opened::Opened;
use crate::policies::PolicyReader;
use crate::schemas::schema_of;
use crate::settings::Asked;
use cedar_extensions::checks::Constructor;
use cedar_extensions::functions::{Checks, functions, overloaded_types};
use cedar_json::{FormError, Object, value_alone};
use cedar_typechecker::rbac::Validator;
use cedar_types::base::{ExtensionSchemas, ValidatorSchema};
use cedar_verdicts::settings::Settings;
use std::alloc::{AllocError, Global};

/// A call that validates policies by a schema.
#[derive(Drop)]
pub struct ValidationCall {
    pub asked: Asked,
    pub schema: ValidatorSchema,
    /// The static policies, the templates and then the links.
    pub given: Vec<Given>,
    /// A fault for each policy that is refused alone, because it is too deep to be judged.
    pub refused: Vec<CallFault>,
}

impl ValidationCall {
    /// Reads a call, an object of `schema`, `policies` and perhaps `validationSettings`, or gives
    /// all faults of its schema and its policies, or the first fault of its form. A call by a
    /// schema that was opened has no `schema`. Calls in policies are of these functions. It fails
    /// if memory is refused.
    pub fn read(
        alloc: Global,
        functions: &ExtensionSchemas,
        opened: Option<&Opened>,
        text: &str,
    ) -> Result<Result<ValidationCall, Vec<CallFault>>, AllocError> {
        match read_call(alloc, functions, opened, text) {
            Ok(read) => Ok(read),
            Err(error) => Ok(Err(only_fault(alloc, text, error)?)),
        }
    }

    /// The answer of the call, as a text of JSON. It fails if memory is refused.
    pub fn answer(self, alloc: Global, functions: &ExtensionSchemas) -> Result<String, AllocError> {
        let ValidationCall {
            asked,
            schema,
            given,
            refused,
        } = self;
        let validator = Validator::new(schema, functions);
        let settings = Settings {
            validator: &validator,
            mode: asked.mode,
            level: asked.level,
            syntax: None,
        };
        let all = judge_all(alloc, &settings, given.as_slice())?;
        success(alloc, all.as_slice(), &refused, asked.has_details)
    }
}

fn read_call(
    alloc: Global,
    functions: &ExtensionSchemas,
    opened: Option<&Opened>,
    text: &str,
) -> Result<Result<ValidationCall, Vec<CallFault>>, FormError> {
    let root = value_alone(alloc, text)?;
    let object = Object::of(&root)?;
    match opened {
        Some(_opened) => object.allow(&["validationSettings", "policies"])?,
        None => object.allow(&["validationSettings", "schema", "policies"])?,
    }
    let settings = object.given("validationSettings");
    let asked = Asked::read(settings)?;
    let reader = PolicyReader {
        alloc,
        call: text,
        functions,
        depth: asked.depth,
    };
    let policies = object.need("policies")?;
    let given = reader.read_all(policies)?;
    let schema = match opened {
        Some(opened) => Ok(opened.copy(alloc)?),
        None => schema_of(alloc, text, object.need("schema")?)?,
    };
    let schema = match schema {
        Ok(schema) => schema,
        Err(faults) => {
            let mut faults = schema_faults(alloc, faults)?;
            add_all(&mut faults, given.faults)?;
            return Ok(Err(faults));
        }
    };
    if !given.faults.is_empty() {
        return Ok(Err(given.faults));
    }
    Ok(Ok(ValidationCall {
        asked,
        schema,
        given: given.policies,
        refused: given.refused,
    }))
}

/// Answers a call that validates policies, a text of JSON, by a text of JSON. There is an answer
/// for each text: `failure` if it is no call, or if its schema or one of its policies cannot be
/// read. It fails if memory is refused.
pub fn validate_call(alloc: Global, call: &str) -> Result<String, AllocError> {
    validated(alloc, None, call)
}

/// Answers a call that validates policies by a schema which was opened, as [`validate_call`] does,
/// but that the call has no `schema`.
pub fn validate_call_by(alloc: Global, opened: &Opened, call: &str) -> Result<String, AllocError> {
    validated(alloc, Some(opened), call)
}

fn validated(alloc: Global, opened: Option<&Opened>, call: &str) -> Result<String, AllocError> {
    // (the boxes are made here, because a function that returned them would hide their checks)
    let checks = Checks {
        ip: Box::new(alloc, Constructor::Ip.check(alloc))?,
        decimal: Box::new(alloc, Constructor::Decimal.check(alloc))?,
        datetime: Box::new(alloc, Constructor::Datetime.check(alloc))?,
        duration: Box::new(alloc, Constructor::Duration.check(alloc))?,
    };
    let functions = functions(alloc, checks)?;
    let overloaded = overloaded_types(alloc)?;
    let Ok(functions) = ExtensionSchemas::new(functions, overloaded) else {
        return failure(alloc, &Vec::new(alloc));
    };
    match ValidationCall::read(alloc, &functions, opened, call)? {
        Ok(read) => read.answer(alloc, &functions),
        Err(faults) => failure(alloc, &faults),
    }
}
