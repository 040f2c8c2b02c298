//! The early rules.

ghost use Rattle.std.specs.Prelude.{◌≡◌};
ghost use Rattle.early_rules.specs.EarlyRules.{rule_number};

/// A rule that a script is refused by before it runs, in the order of their numbers. The sections are those of ECMA-262
/// 5.1; a rule without one is this program's own.
#[derive(Clone, Copy, PartialEq, Eq)]
pub enum EarlyRule {
    /// Two formals of a function have one name (section 13.1).
    RepeatedFormal,
    /// Two properties of an object literal have one name (section 11.1.5).
    RepeatedField,
    /// `delete` of a name (section 11.4.1).
    DeletedName,
    /// `eval` or `arguments` as an identifier.
    RestrictedName,
    /// `return` outside a function (section 12.9).
    StrayReturn,
    /// `break` outside a loop or `switch`, or `continue` outside a loop (sections 12.7 and 12.8).
    StrayJump,
    /// An assignment, `++`, `--` or `for` with `in` to what is neither a name nor a property (section 8.7.2).
    BadTarget,
    /// An assignment to the own name of a function expression.
    AssignedOwnName,
    /// A function declaration with a built-in global name, at the top.
    RedeclaredGlobal,
}

impl EarlyRule {
    /// The number of the rule, from 1 to 9.
    pub fn number(self) -> u8
        ensures { result ≡ rule_number self }
    {
        match self {
            EarlyRule::RepeatedFormal => 1,
            EarlyRule::RepeatedField => 2,
            EarlyRule::DeletedName => 3,
            EarlyRule::RestrictedName => 4,
            EarlyRule::StrayReturn => 5,
            EarlyRule::StrayJump => 6,
            EarlyRule::BadTarget => 7,
            EarlyRule::AssignedOwnName => 8,
            EarlyRule::RedeclaredGlobal => 9,
        }
    }
}
