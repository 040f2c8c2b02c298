//! The limit of heights.

ghost use Rattle.std.specs.Prelude.{◌≤◌, OnOk};
ghost use Rattle.expression_parser.specs.Inside.{Keeps};

use crate::fault::{NotScript, ParseFault};
use js_core::HEIGHT_LIMIT;

/// Refuses a height above the limit.
#[tactic(auto, unfolding(crate::specs::Inside::limit))]
pub fn check_height(height: u64) -> Result<(), ParseFault>
    ensures kept { Keeps height tt result }
    ensures low { OnOk result (height ≤ 440) }
{
    if height > HEIGHT_LIMIT {
        return Err(ParseFault::Cause(NotScript));
    }
    Ok(())
}
