//! Why a part of a script gave no value.

use js_core::Failure;
use js_values::Value;

/// Why a part of a script gave no value: the cause is the value that it threw (ECMA-262 5.1 section 8.9).
pub type Fault = Failure<Value>;
