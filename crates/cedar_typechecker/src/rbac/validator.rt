// The validator of policies, with its schema and its extension functions.
ghost use Rattle.std.specs.Prelude.{◌≡◌};
ghost use Rattle.cedar_typechecker.specs.ValidatorViews.{schema_in, extensions_in};

use cedar_types::base::{ArgumentCheck, ExtensionSchemas, ValidatorSchema};

/// A validator of policies by a schema, which it owns, and some extension functions.
#[derive(Drop)]
pub struct Validator<'a, C = Box<dyn ArgumentCheck>> {
    pub(crate) schema: ValidatorSchema,
    pub(crate) extensions: &'a ExtensionSchemas<C>,
}

#[tactic(auto, unfolding(crate::specs::ValidatorViews::schema_in, crate::specs::ValidatorViews::extensions_in))]
impl<'a, C: ArgumentCheck> Validator<'a, C> {
    /// The validator by this schema and these extension functions. It takes no memory.
    pub fn new(schema: ValidatorSchema, extensions: &'a ExtensionSchemas<C>) -> Validator<'a, C>
        ensures schema { schema_in result ≡ schema }
        ensures extensions { extensions_in result ≡ extensions.entry }
    {
        Validator { schema, extensions }
    }

    /// The schema by which the validator checks. It takes no memory.
    pub fn schema(&self) -> &ValidatorSchema
        ensures { result.now ≡ schema_in self.now }
    {
        &self.schema
    }

    /// The extension functions by which the validator checks. It takes no memory.
    pub fn extensions(&self) -> &'a ExtensionSchemas<C>
        ensures { result ≡ extensions_in self.now }
    {
        self.extensions
    }
}
