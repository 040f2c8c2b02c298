//! The tests that functions and catch clauses are put to, for which the uses inside are found.

/// What is asked of a function or a catch clause.
#[derive(Clone, Copy, PartialEq, Eq)]
pub enum ScopeTest {
    /// A function expression whose own name is assigned to.
    AssignsOwnName,
    /// It has a captured variable that a script in form may not have.
    IsOutOfForm,
}
