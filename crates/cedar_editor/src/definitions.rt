//! Definitions: the places in a schema that declare the names in a policy.
use crate::attributes::{Attribute, attribute_in};
use crate::checks::CheckedPolicy;
use crate::members::member_of;
use crate::mentions::mention_at;
use crate::outlines::{Declared, DeclaredKind, find_declared};
use crate::schemas::SchemaText;
use crate::spots::{Guard, spot_at};
use crate::typed_parts::types_of;
use cedar_types::base::{ArgumentCheck, CedarType, EntityKind, Expr, ExprKind, Loc, Template, Var};
use cedar_verdicts::settings::Settings;
use std::alloc::{AllocError, Global};

/// The most accesses of a chain that are followed.
const MAX_STEPS: usize = 50;

/// The particulars of a search: the settings, the schema, the policy, and the guards around the part.
#[derive(Drop)]
struct Search<'a, C> {
    settings: &'a Settings<'a, C>,
    schema: &'a SchemaText,
    template: &'a Template,
    guards: &'a [Guard<'a>],
}

/// The places in the schema's text that declare the name, the attribute or the types of the part at a byte of a policy; none if
/// nothing is known of it. If memory is refused, the answer is an `AllocError`.
pub fn definitions_at<C: ArgumentCheck>(
    alloc: Global,
    settings: Option<&Settings<'_, C>>,
    schema: &SchemaText,
    policy: &CheckedPolicy,
    byte: usize,
) -> Result<Vec<Loc>, AllocError> {
    let template = &policy.template;
    let mut places = Vec::new(alloc);
    if let Some(name) = mention_at(alloc, schema.declared.as_slice(), template, byte)? {
        places.push(name.declared.place)?;
        return Ok(places);
    }
    let (Some(settings), Some(condition)) = (settings, &template.non_scope_constraints) else {
        return Ok(places);
    };
    let Some(spot) = spot_at(alloc, condition, byte)? else {
        return Ok(places);
    };
    let search = Search {
        settings,
        schema,
        template,
        guards: spot.guards.as_slice(),
    };
    search.add_places(alloc, spot.part, &mut places)?;
    Ok(places)
}

impl<'a, C: ArgumentCheck> Search<'a, C> {
    /// Adds the places that declare the attribute that a part names, or the entity types that a part without an attribute may
    /// have.
    fn add_places(
        &self,
        alloc: Global,
        part: &'a Expr,
        places: &mut Vec<Loc>,
    ) -> Result<(), AllocError> {
        let Some(member) = member_of(part) else {
            for declared in self.entity_types(alloc, part)? {
                places.push(declared.place)?;
            }
            return Ok(());
        };
        for body in self.bodies(alloc, member.base)? {
            if let Some(found) = self.attribute(body, member.attr.as_str()) {
                places.push(found.place)?;
            }
        }
        Ok(())
    }

    /// The attribute of this name in the type that begins at a byte of the schema.
    fn attribute(&self, body: usize, name: &str) -> Option<Attribute> {
        let text = self.schema.text.as_str();
        attribute_in(text, self.schema.declared.as_slice(), body, name)
    }

    /// The declarations of the entity types that a part may have.
    fn entity_types(&self, alloc: Global, part: &'a Expr) -> Result<Vec<&'a Declared>, AllocError> {
        let mut found = Vec::new(alloc);
        let declared = self.schema.declared.as_slice();
        for typed in types_of(alloc, self.settings, self.template, self.guards, part)? {
            let CedarType::Entity(EntityKind::Entity(types)) = &typed.ty else {
                continue;
            };
            for entity_type in types.iter() {
                let name = entity_type.to_string(alloc)?;
                if let Some(it) = find_declared(declared, DeclaredKind::EntityType, name.as_str()) {
                    found.push(it)?;
                }
            }
        }
        Ok(found)
    }

    /// The bytes of the schema at which the types begin that declare the attributes of a part. The type of a record stands
    /// beside the attribute that has it, so the chain of accesses is followed up to an entity or a context.
    fn bodies(&self, alloc: Global, part: &'a Expr) -> Result<Vec<usize>, AllocError> {
        let mut names = Vec::new(alloc);
        let mut root = part;
        let mut bodies = Vec::new(alloc);
        for _ in 0..MAX_STEPS {
            bodies = self.own_bodies(alloc, root)?;
            let ExprKind::GetAttr(base, attr) = &root.kind else {
                break;
            };
            if !bodies.is_empty() {
                break;
            }
            names.push(attr)?;
            root = base;
        }
        for name in names.iter().rev() {
            let mut inner = Vec::new(alloc);
            for body in &bodies {
                if let Some(found) = self.attribute(*body, name.as_str()) {
                    inner.push(found.body)?;
                }
            }
            bodies = inner;
        }
        Ok(bodies)
    }

    /// The bytes at which the types of a part begin, if it is an entity or a context.
    fn own_bodies(&self, alloc: Global, part: &'a Expr) -> Result<Vec<usize>, AllocError> {
        let mut found = Vec::new(alloc);
        if let ExprKind::Var(Var::Context) = &part.kind {
            self.add_contexts(alloc, part, &mut found)?;
            return Ok(found);
        }
        for declared in self.entity_types(alloc, part)? {
            if let Some(body) = declared.body {
                found.push(body)?;
            }
        }
        Ok(found)
    }

    /// Adds the bytes at which the types of contexts begin.
    fn add_contexts(
        &self,
        alloc: Global,
        context: &'a Expr,
        found: &mut Vec<usize>,
    ) -> Result<(), AllocError> {
        let declared = self.schema.declared.as_slice();
        for typed in types_of(alloc, self.settings, self.template, self.guards, context)? {
            let Some(request) = &typed.request else {
                continue;
            };
            let name = request.action.to_string(alloc)?;
            let action = find_declared(declared, DeclaredKind::Action, name.as_str());
            if let Some(body) = action.and_then(|it| it.body) {
                found.push(body)?;
            }
        }
        Ok(())
    }
}
