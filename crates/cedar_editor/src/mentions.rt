// Names in policies, and their declarations.
use crate::outlines::{Declared, DeclaredKind, find_declared};
use cedar_types::base::{Loc, Mention, Template};
use std::alloc::{AllocError, Global};

/// The name of an entity type or an action at a byte, and its declaration.
#[derive(Clone, Copy)]
pub struct Mentioned<'a> {
    pub place: Loc,
    pub declared: &'a Declared,
}

/// The declared name at a byte of a policy, if one stands there.
pub fn mention_at<'a>(
    alloc: Global,
    declared: &'a [Declared],
    template: &Template,
    at: usize,
) -> Result<Option<Mentioned<'a>>, AllocError> {
    for item in template.mentions(alloc) {
        let mention = item?;
        let place = match mention {
            Mention::Uid(uid) => uid.loc,
            Mention::Type(entity_type) => entity_type.loc,
        };
        let Some(place) = place.filter(|place| place.start <= at && at < place.end) else {
            continue;
        };
        if let Some(declared) = declaration_of(alloc, declared, mention)? {
            return Ok(Some(Mentioned { place, declared }));
        }
    }
    Ok(None)
}

/// The declaration of an action or of an entity type that a policy names, if there is one.
fn declaration_of<'a>(
    alloc: Global,
    declared: &'a [Declared],
    mention: Mention<'_>,
) -> Result<Option<&'a Declared>, AllocError> {
    match mention {
        Mention::Uid(uid) if uid.entity_type.is_action() => {
            let name = uid.to_string(alloc)?;
            Ok(find_declared(declared, DeclaredKind::Action, name.as_str()))
        }
        _ => {
            let name = mention.entity_type().to_string(alloc)?;
            Ok(find_declared(declared, DeclaredKind::EntityType, name.as_str()))
        }
    }
}
