// Chains of AND and of OR in a text. SQLite's parser holds about 90 open parentheses, and an expression may be 1,000 high there.
// So a chain is written without parentheses, a long one in groups, and a part that is nested deep before the others, because
// what stands behind it opens its parentheses only then.
use crate::sql::SqlExpr;
use std::fmt;

/// The number of parts in a group of a long chain.
const GROUP: usize = 64;
/// A part that is nested deeper than this stands before the others of its chain.
const DEEP: u32 = 6;

/// The surroundings of an expression in a text.
#[derive(Clone, Copy, PartialEq, Eq)]
pub(crate) enum Place {
    /// Nothing stands beside it.
    Alone,
    /// A part of a chain of OR.
    Or,
    /// A part of a chain of AND.
    And,
    /// Behind NOT.
    Not,
    /// Beside any other operator.
    Operand,
}

/// The fact about an expression that its text has to keep.
#[derive(Clone, Copy, PartialEq, Eq)]
pub(crate) enum Kept {
    /// The value.
    Value,
    /// Whether the value is TRUE: FALSE and NULL may stand for each other, as behind WHERE.
    Truth,
}

/// The parts of a chain that are written now.
#[derive(Clone, Copy, PartialEq, Eq)]
pub(crate) enum Turn {
    All,
    Deep,
    Others,
}

/// A chain while its parts are written. Operands of other operators are parts of none, and have only its place.
#[derive(Clone, Copy)]
pub(crate) struct Chain {
    place: Place,
    kept: Kept,
    pub(crate) turn: Turn,
    is_begun: bool,
    has_group: bool,
    /// The number of parts before the next group.
    room: usize,
}

impl Chain {
    /// A chain without a part so far.
    pub(crate) fn new(place: Place, kept: Kept) -> Chain {
        Chain {
            place,
            kept,
            turn: Turn::All,
            is_begun: false,
            has_group: false,
            room: GROUP,
        }
    }

    /// The chain of the operands of a part: of all parts within it, if it is AND or OR.
    pub(crate) fn within(&self, e: &SqlExpr) -> Chain {
        if self.is_and(e) {
            return Chain::new(Place::And, self.kept);
        }
        match e {
            SqlExpr::Or(_, _) => Chain::new(Place::Or, self.kept),
            SqlExpr::Not(_) => Chain::new(Place::Not, Kept::Value),
            SqlExpr::IsTrue(_) => Chain::new(Place::Operand, Kept::Truth),
            SqlExpr::Case { .. } => Chain::new(Place::Alone, Kept::Value),
            _ => Chain::new(Place::Operand, Kept::Value),
        }
    }

    /// Whether the operands of an expression are parts of this chain.
    pub(crate) fn goes_on(&self, e: &SqlExpr) -> bool {
        match e {
            SqlExpr::And(_, _) => self.place == Place::And,
            SqlExpr::Or(_, _) => self.place == Place::Or,
            SqlExpr::IsTrue(_) => self.kept == Kept::Truth,
            SqlExpr::Case { .. } => self.place == Place::And && self.is_and(e),
            _ => false,
        }
    }

    /// Whether a part is written with AND: also a case that is FALSE where its test is, if FALSE and NULL may stand for each
    /// other.
    pub(crate) fn is_and(&self, e: &SqlExpr) -> bool {
        match e {
            SqlExpr::And(_, _) => true,
            SqlExpr::Case { otherwise, .. } => self.kept == Kept::Truth && is_false(otherwise),
            _ => false,
        }
    }

    /// The chain of a branch of a case in this place.
    pub(crate) fn branch(&self) -> Chain {
        Chain::new(Place::Alone, self.kept)
    }

    /// Whether a part is written in this turn.
    pub(crate) fn takes(&self, e: &SqlExpr) -> bool {
        match self.turn {
            Turn::All => true,
            Turn::Deep => nesting(e, self.place) > DEEP,
            Turn::Others => nesting(e, self.place) <= DEEP,
        }
    }

    /// Writes what stands between the part before and this part.
    pub(crate) fn begin_part<W: fmt::Write>(
        &mut self,
        f: &mut fmt::Formatter<W>,
        e: &SqlExpr,
    ) -> fmt::Result {
        let word = self.word();
        if !self.is_begun {
            self.is_begun = self.is_chain();
        } else if self.room > 0 {
            write!(f, "{word}")?;
        } else {
            let end = if self.has_group { ")" } else { "" };
            write!(f, "{end}{word}(")?;
            self.has_group = true;
            self.room = GROUP;
        }
        self.room = self.room.saturating_sub(1);
        let mark = if self.encloses(e) { "(" } else { "" };
        write!(f, "{mark}")
    }

    /// Writes what stands behind this part.
    pub(crate) fn end_part<W: fmt::Write>(
        &self,
        f: &mut fmt::Formatter<W>,
        e: &SqlExpr,
    ) -> fmt::Result {
        let mark = if self.encloses(e) { ")" } else { "" };
        write!(f, "{mark}")
    }

    /// Writes what stands behind the last part.
    pub(crate) fn end<W: fmt::Write>(&self, f: &mut fmt::Formatter<W>) -> fmt::Result {
        let mark = if self.has_group { ")" } else { "" };
        write!(f, "{mark}")
    }

    /// Whether its parts stand between AND or OR.
    pub(crate) fn is_chain(&self) -> bool {
        self.place == Place::And || self.place == Place::Or
    }

    fn word(&self) -> &'static str {
        match self.place {
            Place::Or => " OR ",
            _ => " AND ",
        }
    }

    /// Whether a part stands in parentheses, because its operator binds less than those around it.
    fn encloses(&self, e: &SqlExpr) -> bool {
        let around = match self.place {
            Place::Alone => 0,
            Place::Or => 1,
            Place::And | Place::Not => 2,
            Place::Operand => 4,
        };
        let own = if self.is_and(e) { 1 } else { strength(e) };
        own < around
    }
}

fn is_false(e: &SqlExpr) -> bool {
    match e {
        SqlExpr::Truth(truth) => !*truth,
        _ => false,
    }
}

/// How strong the operator of an expression binds: OR, AND, NOT, a comparison, no operator.
fn strength(e: &SqlExpr) -> u32 {
    match e {
        SqlExpr::Or(_, _) => 0,
        SqlExpr::And(_, _) => 1,
        SqlExpr::Not(_) => 2,
        SqlExpr::Equal(_, _) | SqlExpr::Less(_, _) | SqlExpr::LessOrEqual(_, _) => 3,
        SqlExpr::IsNotNull(_) | SqlExpr::IsTrue(_) | SqlExpr::Matches(_, _) => 3,
        SqlExpr::IsAmong(_, _) => 3,
        _ => 4,
    }
}

/// The number of operators other than comparisons that stand in each other, where a chain counts once.
fn nesting(e: &SqlExpr, place: Place) -> u32 {
    match e {
        SqlExpr::And(a, b) => {
            let own = if place == Place::And { 0u32 } else { 1u32 };
            nesting(a, Place::And)
                .max(nesting(b, Place::And))
                .saturating_add(own)
        }
        SqlExpr::Or(a, b) => {
            let own = if place == Place::Or { 0u32 } else { 1u32 };
            nesting(a, Place::Or)
                .max(nesting(b, Place::Or))
                .saturating_add(own)
        }
        SqlExpr::Not(a) => nesting(a, Place::Not).saturating_add(1),
        SqlExpr::IsTrue(a) | SqlExpr::IsNotNull(a) => nesting(a, Place::Operand),
        SqlExpr::Equal(a, b) | SqlExpr::Less(a, b) | SqlExpr::LessOrEqual(a, b) => {
            nesting(a, Place::Operand).max(nesting(b, Place::Operand))
        }
        SqlExpr::Case {
            test,
            then,
            otherwise,
        } => {
            let branches = nesting(then, Place::Alone).max(nesting(otherwise, Place::Alone));
            nesting(test, Place::Alone).max(branches).saturating_add(1)
        }
        _ => 0,
    }
}
