/// A literal: a variable, or its negation.
#[derive(Clone, Copy, PartialEq, Eq, Debug)]
pub struct Lit {
    /// The number of the variable.
    pub var: u32,
    /// Whether the literal is true where the variable is false.
    pub negated: bool,
}
