//! Why a text has no tokens.

use js_core::Failure;

/// The text has no reading as tokens.
#[derive(Clone, Copy, PartialEq, Eq)]
pub struct NotTokens;

/// Why a text has no tokens: it has no reading, or memory ran out.
pub type TokenFault = Failure<NotTokens>;
