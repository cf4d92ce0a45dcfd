use seq_tree::Name;

/// A variable and its value.
#[derive(Clone, Copy, Drop)]
pub struct Var<'a> {
    pub name: &'a Name,
    pub value: u32,
}
