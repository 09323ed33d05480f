// Where a node begins.

/// The line and the number of a node's first token, or of the name that it declares.
#[derive(Clone, Copy, PartialEq, Eq, Debug)]
pub struct Start {
    pub line: u32,
    pub token: u32,
}
