//! The variables that a function needs from the scopes round it.

ghost use Rattle.std.specs.Prelude.{◌≡◌, IfOk};
ghost use Rattle.js_core.specs.Tree.{code};
ghost use Rattle.scope_analysis.specs.Needs.{needed_variables};
ghost use Rattle.scope_analysis.specs.Names.{code_body, code_formals};

use crate::scope_test::ScopeTest;
use crate::uses::note_statements;
use js_core::{Code, OutOfMemory, Units};
use scope_analysis::{UseTable, note_leaving_function};
use std::alloc::Global;

/// The variables that a function of a script in form needs from the scopes round it, in the order of their uses, where it
/// has this own name or none (ECMA-262 5.1 sections 10.2 and 13). The work is in proportion to the function's code.
#[tactic(auto, using(scope_analysis::proofs::Callers::needed_names))]
pub fn needed_variables(
    alloc: Global,
    own: &Option<Units>,
    function: &Code,
) -> Result<Vec<Units>, OutOfMemory>
    ensures { IfOk result (λ names. names.items ≡ needed_variables
        (code own.now (code_formals function.now) (code_body function.now))) }
{
    let mut uses = UseTable::new(alloc);
    note_statements(ScopeTest::IsOutOfForm, function.body.as_slice(), &mut uses)?;
    let mut left = UseTable::new(alloc);
    note_leaving_function(own, function, &uses, &mut left)?;
    left.reserved_names(alloc)
}
