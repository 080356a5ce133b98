//! Constructors, which make extension values of texts, and the checks of their arguments.
ghost use Rattle.std.specs.Prelude.{◌≡◌, IfOk, option_map, map};
ghost use Rattle.cedar_types.specs.Expressions.View.{written};
ghost use Rattle.cedar_types.specs.Names.{text_of, path_of, path_eq};
ghost use Rattle.cedar_extensions.specs.Functions.{constructor_named, constructor_of, made_by, plain_name, type_name};
ghost use Rattle.cedar_extensions.specs.Texts.{cannot_read, literal_text, name_of, only_text, reads, why_unread};

use crate::texts::{is_address_or_range, is_decimal, is_duration, is_point_in_time};
use crate::types::ValueType;
use cedar_types::base::{ArgumentCheck, ArgumentError, Expr, ExprKind, Literal, Name};
use std::alloc::{AllocError, Global};
use std::rc::RcStr;

/// A function that makes an extension value of a text.
#[derive(Clone, Copy, PartialEq, Eq, Debug)]
pub enum Constructor {
    Ip,
    Decimal,
    Datetime,
    Duration,
}

/// All constructors of extension values.
pub const CONSTRUCTORS: [Constructor; 4] = [
    Constructor::Ip,
    Constructor::Decimal,
    Constructor::Datetime,
    Constructor::Duration,
];

impl Constructor {
    /// The constructor of this name, if there is one.
    pub fn from_name(name: &str) -> Option<Constructor>
        ensures { result ≡ constructor_named name.now }
    {
        CONSTRUCTORS.iter().copied().find(|it| it.name() == name)
    }

    /// The constructor of the values of this extension type, if it has one.
    pub fn of_type(wanted: &Name) -> Option<Constructor>
        ensures { result ≡ constructor_of (path_of wanted.now) }
    {
        CONSTRUCTORS
            .iter()
            .copied()
            .find(|it| it.makes_type(wanted))
    }

    /// The type of the values that the constructor makes.
    pub fn makes(self) -> ValueType
        ensures { result ≡ made_by self }
    {
        match self {
            Constructor::Ip => ValueType::Ipaddr,
            Constructor::Decimal => ValueType::Decimal,
            Constructor::Datetime => ValueType::Datetime,
            Constructor::Duration => ValueType::Duration,
        }
    }

    /// Whether the values that the constructor makes have the extension type of this name.
    fn makes_type(self, wanted: &Name) -> bool
        ensures { result ≡ path_eq (plain_name (type_name (made_by self))) (path_of wanted.now) }
    {
        wanted.path.is_empty() && self.makes().name() == wanted.basename.as_str()
    }

    /// The name by which a policy calls the constructor.
    pub fn name(self) -> &'static str
        ensures { result.now ≡ name_of self }
    {
        match self {
            Constructor::Ip => "ip",
            Constructor::Decimal => "decimal",
            Constructor::Datetime => "datetime",
            Constructor::Duration => "duration",
        }
    }

    /// Whether the constructor makes a value of this text.
    pub fn reads(self, text: &str) -> bool
        ensures { result ≡ reads self text.now }
    {
        let text = text.as_bytes();
        match self {
            Constructor::Ip => is_address_or_range(text),
            Constructor::Decimal => is_decimal(text),
            Constructor::Datetime => is_point_in_time(text),
            Constructor::Duration => is_duration(text),
        }
    }

    /// The reason why the constructor makes no value of a text that it does not read. If memory is refused, the answer is an
    /// `AllocError`.
    pub fn why_unread(self, alloc: Global, text: &str) -> Result<RcStr, AllocError>
        ensures { IfOk result (λ why. text_of why ≡ why_unread self text.now) }
    {
        if text.is_empty() {
            return RcStr::from_str(alloc, "the text is empty");
        }
        cannot_read(alloc, self.name(), text)
    }

    /// The check of the constructor's argument.
    pub fn check(self, alloc: Global) -> RefusesUnreadText
        ensures { result.constructor ≡ self }
    {
        RefusesUnreadText {
            alloc,
            constructor: self,
        }
    }
}

/// Refuses a call on a single string literal of which the constructor makes no value. It accepts all other arguments, because
/// typing checks their number and types.
#[derive(Drop)]
pub struct RefusesUnreadText {
    pub alloc: Global,
    pub constructor: Constructor,
}

impl ArgumentCheck for RefusesUnreadText {
    ghost use Rattle.cedar_extensions.specs.Texts.{refusal_of_unread};

    ghost refusal = { λ check args. refusal_of_unread check.constructor args };

    fn check(&self, args: &[Expr]) -> Result<Result<(), ArgumentError>, AllocError> {
        let Some(text) = only_text(args) else {
            return Ok(Ok(()));
        };
        if self.constructor.reads(text) {
            return Ok(Ok(()));
        }
        let msg = self.constructor.why_unread(self.alloc, text)?;
        Ok(Err(ArgumentError { msg }))
    }
}

/// The message that the function of this name cannot read a text.
fn cannot_read(alloc: Global, name: &str, text: &str) -> Result<RcStr, AllocError>
    ensures { IfOk result (λ why. text_of why ≡ cannot_read name.now text.now) }
{
    let mut why = String::from_str(alloc, "`")?;
    why.push_str(name)?;
    why.push_str("` cannot read `")?;
    why.push_str(text)?;
    why.push_str("`")?;
    RcStr::from_string(why)
}

/// The text of the only argument, if it is a string literal.
pub(crate) fn only_text(args: &[Expr]) -> Option<&str>
    ensures { option_map (λ t. t.now) result ≡ only_text (map written args.now) }
{
    match args {
        [argument] => literal_text(argument),
        _ => None,
    }
}

fn literal_text(expr: &Expr) -> Option<&str>
    ensures { option_map (λ t. t.now) result ≡ literal_text (written expr.now) }
{
    match &expr.kind {
        ExprKind::Lit(Literal::String(text)) => Some(text.as_str()),
        _ => None,
    }
}
