/// What a task is inside: a protected object or the control structure of a task, each by its place among those, from 0.
#[derive(Clone, Copy, Debug, PartialEq, Eq, Drop)]
pub enum Section {
    Object(usize),
    Control(usize),
}

/// A section that a task is inside, and the task's active priority before it entered.
#[derive(Clone, Copy, Debug, PartialEq, Eq, Drop)]
pub struct Held {
    pub section: Section,
    pub before: u32,
}
