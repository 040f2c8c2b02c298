//! The tests that the nodes of a tree are put to.

/// What is asked of a node.
#[derive(Clone, Copy, PartialEq, Eq)]
pub enum NodeTest {
    /// A function, two of whose formals have one name.
    RepeatsFormal,
    /// An object literal, two of whose properties have one name.
    RepeatsField,
    /// A `delete` of a name.
    DeletesName,
    /// It has the identifier `eval` or `arguments`.
    HasRestrictedName,
    /// A function with a `break` or `continue` that no statement of it takes.
    HasStrayJump,
    /// An assignment to what is neither a name nor a property.
    HasBadTarget,
    /// A function declaration.
    IsDeclaration,
    /// It has an identifier that begins with `$$`.
    HasReservedName,
    /// A function that is higher than a form page may have it, and no factory.
    IsHighFunction,
}
