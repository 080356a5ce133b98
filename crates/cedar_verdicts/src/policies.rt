//! Policies of a text, in either syntax.
ghost use Rattle.std.specs.Prelude.{◌≡◌, IfOk, OnErr, OnOk};
ghost use Rattle.cedar_verdicts.specs.Reading.{comes_next, IsBegun, IsReadOn};

use cedar_findings::faults::{TextFault, Written, read_fault};
use cedar_findings::forbidden_parts::marks_unless_forbidden;
use cedar_findings::json_faults::form_fault;
use cedar_findings::marks::Marked;
use cedar_types::base::{ExtensionSchemas, Template};
use std::alloc::{AllocError, Global};

/// A policy of a text, read or not.
#[derive(Drop)]
pub enum Read {
    /// A policy, and its texts that have marks of direction.
    Policy(Template, Vec<Marked>),
    /// A fault of a policy that cannot be read, or that has a part which Cedar's own parser refuses.
    Fault(TextFault),
}

/// Gives the policies of a text, one after another. The next one is read ahead.
#[derive(Drop)]
pub struct Policies<'a> {
    text: &'a str,
    reader: Reader<'a>,
    /// The next policy; none if all were given.
    next: Option<Read>,
    /// An upper bound on the policies behind the next one, because each takes at least one byte; zero once the text has ended.
    left: usize,
}

/// The reader of the policies.
#[derive(Drop)]
enum Reader<'a> {
    Cedar(cedar_reading::Policies<'a>),
    Json(cedar_json::Policies<'a>),
}

impl<'a> Policies<'a> {
    /// The policies of a text in Cedar's own syntax, or the fault of the whole text.
    pub fn of_text<C>(
        alloc: Global,
        functions: &ExtensionSchemas<C>,
        text: &'a str,
    ) -> Result<Result<Policies<'a>, TextFault>, AllocError>
        ensures { IfOk result (λ read. IfOk read IsBegun) }
    {
        match cedar_reading::Policies::new(alloc, text) {
            Ok(policies) => {
                let policies = Policies::begin(alloc, functions, text, Reader::Cedar(policies))?;
                Ok(Ok(policies))
            }
            Err(error) => Ok(Err(read_fault(alloc, Written::Policies, text, error)?)),
        }
    }

    /// The policies of a text of JSON, or the fault of the whole text.
    pub fn of_json<C>(
        alloc: Global,
        functions: &ExtensionSchemas<C>,
        text: &'a str,
    ) -> Result<Result<Policies<'a>, TextFault>, AllocError>
        ensures { IfOk result (λ read. IfOk read IsBegun) }
    {
        match cedar_json::Policies::new(alloc, text) {
            Ok(policies) => {
                let policies = Policies::begin(alloc, functions, text, Reader::Json(policies))?;
                Ok(Ok(policies))
            }
            Err(error) => Ok(Err(form_fault(alloc, Written::Policies, text, error)?)),
        }
    }

    /// An upper bound on the number of policies, because each takes at least one byte.
    pub fn most(&self) -> usize {
        self.left.saturating_add(1)
    }

    /// The text that hints take their examples from: empty for JSON, because examples are in Cedar's own syntax.
    pub fn examples(&self) -> &'a str {
        match &self.reader {
            Reader::Cedar(_) => self.text,
            Reader::Json(_) => "",
        }
    }

    /// The policies of a text, of which none was given yet.
    fn begin<C>(
        alloc: Global,
        functions: &ExtensionSchemas<C>,
        text: &'a str,
        reader: Reader<'a>,
    ) -> Result<Policies<'a>, AllocError>
        ensures { IfOk result IsBegun }
    {
        let mut policies = Policies {
            text,
            reader,
            next: None,
            left: text.len(),
        };
        policies.next = policies.read_next(alloc, functions)?;
        Ok(policies)
    }

    /// Gives the next policy, and reads the one behind it; `None` if all were given. Calls in the policy behind are of Cedar's
    /// functions, or of this table. If memory is refused, the answer is an `AllocError`, and the next policy stays.
    pub fn give<C>(
        &mut self,
        alloc: Global,
        functions: &ExtensionSchemas<C>,
    ) -> Result<Option<Read>, AllocError>
        ensures next { IfOk result (λ read. read ≡ self.old.next) }
        ensures read_on { OnOk result (IsReadOn self.old self.new) }
        ensures kept { OnErr result (self.new.next ≡ self.old.next) }
    {
        let Some(read) = self.next.take() else {
            self.left = 0;
            return Ok(None);
        };
        match self.read_next(alloc, functions) {
            Ok(following) => {
                self.next = following;
                Ok(Some(read))
            }
            Err(error) => {
                self.next = Some(read);
                Err(error)
            }
        }
    }

    /// Reads the policy behind the next one; `None` if the text has ended.
    fn read_next<C>(
        &mut self,
        alloc: Global,
        functions: &ExtensionSchemas<C>,
    ) -> Result<Option<Read>, AllocError>
        ensures next { IfOk result (comes_next self.old.left self.new.left) }
        ensures text { self.new.text ≡ self.old.text }
    {
        if self.left == 0 {
            return Ok(None);
        }
        match self.reader.read(alloc, functions, self.text)? {
            None => {
                self.left = 0;
                Ok(None)
            }
            Some(read) => {
                self.left -= 1;
                Ok(Some(read))
            }
        }
    }
}

impl Reader<'_> {
    /// Reads the next policy; `None` if the text has ended.
    fn read<C>(
        &mut self,
        alloc: Global,
        functions: &ExtensionSchemas<C>,
        text: &str,
    ) -> Result<Option<Read>, AllocError> {
        match self {
            Reader::Cedar(policies) => match policies.next_policy() {
                None => Ok(None),
                Some(Ok(read)) => Ok(Some(allow(alloc, functions, Some(text), read.template)?)),
                Some(Err(error)) => {
                    let fault = read_fault(alloc, Written::Policies, text, error)?;
                    Ok(Some(Read::Fault(fault)))
                }
            },
            Reader::Json(policies) => match policies.next_policy() {
                None => Ok(None),
                Some(Ok(read)) => Ok(Some(allow(alloc, functions, None, read.template)?)),
                Some(Err(error)) => {
                    let fault = form_fault(alloc, Written::Policies, text, error)?;
                    Ok(Some(Read::Fault(fault)))
                }
            },
        }
    }
}

/// A policy that was read, with its text if it is in Cedar's own syntax, or a fault if it has a forbidden part.
fn allow<C>(
    alloc: Global,
    functions: &ExtensionSchemas<C>,
    text: Option<&str>,
    policy: Template,
) -> Result<Read, AllocError> {
    match marks_unless_forbidden(alloc, functions, text, &policy)? {
        Ok(marks) => Ok(Read::Policy(policy, marks)),
        Err(fault) => Ok(Read::Fault(fault)),
    }
}
