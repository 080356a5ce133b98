// Tables of extension functions by which cases are typed.
use cedar_types::base::ExtensionSchemas;

/// Two tables of the functions `ip`, `isInRange` and `sum`.
#[derive(Clone, Copy)]
pub struct Tables<'a> {
    /// The table in which `<` and `<=` compare only Longs.
    pub plain: &'a ExtensionSchemas,
    /// The table in which they compare addresses too.
    pub ordered: &'a ExtensionSchemas,
}

impl<'a> Tables<'a> {
    /// The table in which addresses are ordered, or the one in which they are not.
    pub fn where_ordered(self, is_ordered: bool) -> &'a ExtensionSchemas {
        if is_ordered { self.ordered } else { self.plain }
    }
}
