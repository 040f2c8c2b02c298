//! Why tokens are not read.

use js_core::Failure;

/// The grammar has no such phrase here, or its tree is too high.
#[derive(Clone, Copy, PartialEq, Eq)]
pub struct NotScript;

/// Why tokens are not read: they are refused, or memory ran out.
pub type ParseFault = Failure<NotScript>;
