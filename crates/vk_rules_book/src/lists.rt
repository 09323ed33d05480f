// Names that the clauses of a directive list.

use vk_ast::NameId;

/// Which clause lists a name.
#[derive(Clone, Copy, PartialEq, Eq, Debug)]
pub enum Listed {
    Uniform,
    Linear,
    Aligned,
}

/// A name that a clause lists, and the number of its token.
#[derive(Clone, Copy, PartialEq, Eq, Debug)]
pub struct Entry {
    pub token: u32,
    pub name: NameId,
    pub listed: Listed,
}
