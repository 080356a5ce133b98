// Variables and operators.

/// A variable of a policy.
#[derive(Clone, Copy, PartialEq, Eq, PartialOrd, Ord, Debug)]
pub enum Var {
    /// The entity that wants to act.
    Principal,
    /// The action that the principal asks for.
    Action,
    /// The entity that the action is on.
    Resource,
    /// The other values of the request, a record.
    Context,
}

/// An operator on one operand: `!`, `-` and `isEmpty`.
#[derive(Clone, Copy, PartialEq, Eq, PartialOrd, Ord, Hash, Debug)]
pub enum UnaryOp {
    /// `!`.
    Not,
    /// `-` before its operand.
    Neg,
    /// Whether a set has no members.
    IsEmpty,
}

/// An operator on two operands: `==`, `<`, `<=`, `+`, `-`, `*`, `in`, the three of sets and the two
/// of tags.
#[derive(Clone, Copy, PartialEq, Eq, PartialOrd, Ord, Hash, Debug)]
pub enum BinaryOp {
    /// `==`.
    Eq,
    /// `<`.
    Less,
    /// `<=`.
    LessEq,
    /// `+`.
    Add,
    /// `-` between its operands.
    Sub,
    /// `*`.
    Mul,
    /// `in`: whether an entity is another one, or below it.
    In,
    /// Whether a set has this member.
    Contains,
    /// Whether a set has all members of another.
    ContainsAll,
    /// Whether a set has some member of another.
    ContainsAny,
    /// The tag of this name, which the entity must have.
    GetTag,
    /// Whether an entity has the tag of this name.
    HasTag,
}
