//! What names mean where they are resolved.

use js_values::EnvId;

/// What a name meant when it was resolved (ECMA-262 5.1 section 10.2.2.1). A reference stays what it was.
#[derive(Clone, Copy)]
pub enum Reference {
    /// The environment has the name.
    Environment(EnvId),
    /// No environment has it, and the global object had it.
    Global,
    /// Nothing had it.
    Nowhere,
}
