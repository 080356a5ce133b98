// Walks upwards over the entities of a list.
use std::alloc::{AllocError, Global};

/// The number of steps that the walks of a text may take together. It bounds the time if many edges
/// lead to the same ancestors.
const MAX_STEPS: usize = 256_000_000;

/// The node of an entity: parents and ancestors by their numbers.
#[derive(Drop)]
pub(crate) struct Node {
    /// The listed parents. After the entity is closed, each parent that no other parent reaches,
    /// once.
    pub(crate) parents: Vec<usize>,
    /// The other parents, and the ids that they are declared to be in.
    pub(crate) others: Vec<usize>,
    /// The listed entities that the parents reach, after the entity is closed.
    pub(crate) above: Vec<usize>,
    /// The other ids that the entity is in, after it is closed.
    pub(crate) beyond: Vec<usize>,
}

impl Node {
    /// Makes a node without parents.
    pub(crate) fn new(alloc: Global) -> Node {
        Node {
            parents: Vec::new(alloc),
            others: Vec::new(alloc),
            above: Vec::new(alloc),
            beyond: Vec::new(alloc),
        }
    }

    /// Returns the number of ids to take over from the entity.
    pub(crate) fn size(&self) -> usize {
        self.above.len().saturating_add(self.beyond.len())
    }
}

/// The entity for which each id was reached last, so that no set has to be emptied between two
/// entities.
#[derive(Drop)]
pub(crate) struct Marks {
    alloc: Global,
    /// The entity for which an id was reached as a listed one.
    reached: Vec<usize>,
    /// The entity for which an id was met among others.
    met: Vec<usize>,
    /// The number of further steps; `None` if there were too many.
    steps: Option<usize>,
}

impl Marks {
    /// Makes marks for `count` ids. No id is marked, because `count` is the number of no entity.
    pub(crate) fn new(alloc: Global, count: usize) -> Result<Marks, AllocError> {
        let mut marks = Marks {
            alloc,
            reached: Vec::with_capacity(alloc, count)?,
            met: Vec::with_capacity(alloc, count)?,
            steps: Some(MAX_STEPS),
        };
        for _ in 0..count {
            marks.reached.push(count)?;
            marks.met.push(count)?;
        }
        Ok(marks)
    }

    /// Marks a listed id for an entity. Returns whether the mark is new.
    pub(crate) fn reaches(&mut self, entity: usize, id: usize) -> bool {
        marks_first(&mut self.reached, entity, id)
    }

    /// Marks another id for an entity. Returns whether the mark is new.
    pub(crate) fn meets(&mut self, entity: usize, id: usize) -> bool {
        marks_first(&mut self.met, entity, id)
    }

    /// Returns whether the steps did not exceed the limit.
    pub(crate) fn has_steps(&self) -> bool {
        self.steps.is_some()
    }

    fn take_steps(&mut self, count: usize) {
        self.steps = match self.steps {
            Some(left) => left.checked_sub(count),
            None => None,
        };
    }

    /// Adds all ids that a closed parent is in.
    pub(crate) fn take_over(
        &mut self,
        entity: usize,
        parent: &Node,
        closed: &mut Node,
    ) -> Result<(), AllocError> {
        closed.above.reserve(parent.above.len().saturating_add(1))?;
        for id in &parent.above {
            if self.reaches(entity, *id) {
                closed.above.push(*id)?;
            }
        }
        closed.beyond.reserve(parent.beyond.len())?;
        for id in &parent.beyond {
            if self.meets(entity, *id) {
                closed.beyond.push(*id)?;
            }
        }
        self.take_steps(parent.size());
        Ok(())
    }

    /// Adds all ids that a closed entity is in. The walk ends at marked ids, because all above them
    /// is reached.
    pub(crate) fn walk(
        &mut self,
        entity: usize,
        nodes: &[Node],
        from: usize,
        closed: &mut Node,
    ) -> Result<(), AllocError> {
        let mut stack = Vec::new(self.alloc);
        stack.push(from)?;
        for _ in 0..nodes.len() {
            let Some(at) = stack.pop() else {
                break;
            };
            if let Some(node) = nodes.get(at) {
                self.step(entity, node, closed, &mut stack)?;
            }
        }
        Ok(())
    }

    /// Adds an entity's parents, and puts the listed ones that were not marked on the stack.
    fn step(
        &mut self,
        entity: usize,
        node: &Node,
        closed: &mut Node,
        stack: &mut Vec<usize>,
    ) -> Result<(), AllocError> {
        for parent in &node.parents {
            if self.reaches(entity, *parent) {
                closed.above.push(*parent)?;
                stack.push(*parent)?;
            }
        }
        for other in &node.others {
            if self.meets(entity, *other) {
                closed.beyond.push(*other)?;
            }
        }
        self.take_steps(node.parents.len().saturating_add(node.others.len()));
        Ok(())
    }
}

/// Marks an id for an entity. Returns whether the mark is new.
fn marks_first(marks: &mut Vec<usize>, entity: usize, id: usize) -> bool {
    match marks.get_mut(id) {
        Some(mark) if *mark != entity => {
            *mark = entity;
            true
        }
        _ => false,
    }
}
