//! Policies, as the trees that a host's own parser would make of their texts.
use cedar_types::base::{
    ActionConstraint, EntityType, EntityUID, Expr, Literal, Loc, Name, PolicyID,
    PrincipalConstraint, ResourceConstraint, Template, Var,
};
use std::alloc::{AllocError, Global};

/// A policy about sharing alone, because the context of a view has no `approved`.
pub const APPROVED_SHARING: &str =
    "permit(principal, action, resource) when { context has approved && context.approved };";

/// A policy that reads a mark which users may lack.
pub const UNGUARDED: &str = "permit(principal, action, resource) when { principal.vip };";

/// A policy that tests for an attribute which no user has.
pub const MISSPELT: &str = "permit(principal, action, resource) when { principal has vlp };";

/// A policy for users whose address is in a range.
pub const FROM_RANGE: &str =
    "permit(principal, action, resource) when { principal.address.isInRange(ip(\"10.0.0.0/8\")) };";

/// A policy whose range is no address.
pub const FROM_NOWHERE: &str =
    "permit(principal, action, resource) when { principal.address.isInRange(ip(\"\")) };";

/// A policy with an undeclared type `Ghost`. Typing does not look at that part for sharing, and for
/// viewing it finds only that the part is False.
pub const HAUNTED: &str =
    "permit(principal, action, resource) when { action == Action::\"share\" || \
     ((Ghost::\"casper\" < 1) && false) };";

/// A policy that reads the contact of a user or of a document. In Strict these two types do not
/// agree.
pub const OF_EITHER: &str = "permit(principal, action, resource) when { \
     (if principal has vip then principal else resource).contact == principal };";

/// A policy about the user to ask for the document: it reads only the document's entry.
pub const BY_ITS_CONTACT: &str =
    "permit(principal, action, resource) when { resource.contact == principal };";

/// A policy about the user to ask for that user: it reads the entries of both.
pub const BY_THEIR_CONTACT: &str =
    "permit(principal, action, resource) when { resource.contact.contact == principal };";

/// A policy about the user that the slot is bound to.
pub const OF_ONE_USER: &str = "permit(principal == ?principal, action, resource);";

/// A policy that fits no action, because none takes documents as principals.
pub const BY_A_DOCUMENT: &str = "permit(principal == Document::\"plan\", action, resource);";

/// The place at which the text first has this part.
fn place_in(text: &str, part: &str) -> Option<Loc> {
    let start = text.find(part)?;
    let end = start + part.len();
    Some(Loc { start, end })
}

/// The policy of this text, with this condition.
pub fn permit_when(alloc: Global, text: &str, condition: Expr) -> Result<Template, AllocError> {
    Ok(Template::new(
        PolicyID::from_string(alloc, "policy0")?,
        place_in(text, text),
        PrincipalConstraint::any(),
        ActionConstraint::any(),
        ResourceConstraint::any(),
        Some(condition),
    ))
}

/// `context has approved && context.approved`
pub fn approved_sharing(alloc: Global) -> Result<Template, AllocError> {
    let test = Expr::has_attr(alloc, Expr::var(Var::Context), "approved")?;
    let access = Expr::get_attr(alloc, Expr::var(Var::Context), "approved")?;
    permit_when(alloc, APPROVED_SHARING, Expr::and(alloc, test, access)?)
}

/// `principal.vip`, at its place
pub fn unguarded(alloc: Global) -> Result<Template, AllocError> {
    let access = Expr::get_attr(alloc, Expr::var(Var::Principal), "vip")?;
    let place = place_in(UNGUARDED, "principal.vip");
    permit_when(alloc, UNGUARDED, access.with_maybe_source_loc(place))
}

/// `principal has vlp`
pub fn misspelt(alloc: Global) -> Result<Template, AllocError> {
    let test = Expr::has_attr(alloc, Expr::var(Var::Principal), "vlp")?;
    permit_when(alloc, MISSPELT, test)
}

/// `action == Action::"share" || ((Ghost::"casper" < 1) && false)`, with the type of `casper` at
/// its place
pub fn haunted(alloc: Global) -> Result<Template, AllocError> {
    let right = Expr::and(alloc, below_one(alloc)?, Expr::val(Literal::from(false)))?;
    permit_when(alloc, HAUNTED, Expr::or(alloc, is_sharing(alloc)?, right)?)
}

/// `action == Action::"share"`
fn is_sharing(alloc: Global) -> Result<Expr, AllocError> {
    let actions = EntityType::from(Name::unqualified_name(alloc, "Action")?);
    let share = EntityUID::from_components(alloc, actions, "share", None)?;
    Expr::is_eq(
        alloc,
        Expr::var(Var::Action),
        Expr::val(Literal::from(share)),
    )
}

/// `Ghost::"casper" < 1`
fn below_one(alloc: Global) -> Result<Expr, AllocError> {
    let name = Name::unqualified_name(alloc, "Ghost")?;
    let ghosts = EntityType::new(name, place_in(HAUNTED, "Ghost"));
    let casper = EntityUID::from_components(alloc, ghosts, "casper", None)?;
    let one = Expr::val(Literal::from(1));
    Expr::less(alloc, Expr::val(Literal::from(casper)), one)
}

/// `(if principal has vip then principal else resource).contact == principal`, with the `if` at its
/// place
pub fn of_either(alloc: Global) -> Result<Template, AllocError> {
    let place = place_in(
        OF_EITHER,
        "if principal has vip then principal else resource",
    );
    let either = user_or_document(alloc)?.with_maybe_source_loc(place);
    by_contact(alloc, OF_EITHER, either, None)
}

/// `if principal has vip then principal else resource`
fn user_or_document(alloc: Global) -> Result<Expr, AllocError> {
    let is_marked = Expr::has_attr(alloc, Expr::var(Var::Principal), "vip")?;
    let user = Expr::var(Var::Principal);
    let document = Expr::var(Var::Resource);
    Expr::ite(alloc, is_marked, user, document)
}

/// `resource.contact == principal`, with the access at its place
pub fn by_its_contact(alloc: Global) -> Result<Template, AllocError> {
    let place = place_in(BY_ITS_CONTACT, "resource.contact");
    by_contact(alloc, BY_ITS_CONTACT, Expr::var(Var::Resource), place)
}

/// `resource.contact.contact == principal`, with the second access at its place
pub fn by_their_contact(alloc: Global) -> Result<Template, AllocError> {
    let user = Expr::get_attr(alloc, Expr::var(Var::Resource), "contact")?;
    let place = place_in(BY_THEIR_CONTACT, "resource.contact.contact");
    by_contact(alloc, BY_THEIR_CONTACT, user, place)
}

/// The policy of this text, in which the contact of `owner` is the principal; the access to it is
/// at this place.
fn by_contact(
    alloc: Global,
    text: &str,
    owner: Expr,
    place: Option<Loc>,
) -> Result<Template, AllocError> {
    let contact = Expr::get_attr(alloc, owner, "contact")?.with_maybe_source_loc(place);
    let condition = Expr::is_eq(alloc, contact, Expr::var(Var::Principal))?;
    permit_when(alloc, text, condition)
}

/// `principal == ?principal`, in the scope
pub fn of_one_user(alloc: Global) -> Result<Template, AllocError> {
    permit_to(alloc, OF_ONE_USER, PrincipalConstraint::is_eq_slot())
}

/// `principal == Document::"plan"`, in the scope
pub fn by_a_document(alloc: Global) -> Result<Template, AllocError> {
    let documents = EntityType::from(Name::unqualified_name(alloc, "Document")?);
    let plan = EntityUID::from_components(alloc, documents, "plan", None)?;
    permit_to(alloc, BY_A_DOCUMENT, PrincipalConstraint::is_eq(plan))
}

/// The policy of this text, with only this constraint on the principal.
fn permit_to(
    alloc: Global,
    text: &str,
    principal: PrincipalConstraint,
) -> Result<Template, AllocError> {
    Ok(Template::new(
        PolicyID::from_string(alloc, "policy0")?,
        place_in(text, text),
        principal,
        ActionConstraint::any(),
        ResourceConstraint::any(),
        None,
    ))
}

/// `principal.address.isInRange(ip("10.0.0.0/8"))`
pub fn from_range(alloc: Global) -> Result<Template, AllocError> {
    permit_when(
        alloc,
        FROM_RANGE,
        is_in_range(alloc, ip(alloc, "10.0.0.0/8")?)?,
    )
}

/// `principal.address.isInRange(ip(""))`, with the call of `ip` at its place
pub fn from_nowhere(alloc: Global) -> Result<Template, AllocError> {
    let place = place_in(FROM_NOWHERE, "ip(\"\")");
    let range = ip(alloc, "")?.with_maybe_source_loc(place);
    permit_when(alloc, FROM_NOWHERE, is_in_range(alloc, range)?)
}

/// The call of `ip` with this text.
fn ip(alloc: Global, text: &str) -> Result<Expr, AllocError> {
    let address = Expr::val(Literal::from_string(alloc, text)?);
    let name = Name::unqualified_name(alloc, "ip")?;
    Ok(Expr::call_extension_fn(name, vec![in alloc; address]?))
}

/// `principal.address.isInRange`, with this range
fn is_in_range(alloc: Global, range: Expr) -> Result<Expr, AllocError> {
    let address = Expr::get_attr(alloc, Expr::var(Var::Principal), "address")?;
    let name = Name::unqualified_name(alloc, "isInRange")?;
    Ok(Expr::call_extension_fn(name, vec![in alloc; address, range]?))
}
