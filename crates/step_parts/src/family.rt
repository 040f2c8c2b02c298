//! Families of kinds: by them the machine chooses which steps a node takes.

ghost use Rattle.std.specs.Prelude.{◌≡◌};
ghost use Rattle.step_parts.specs.Families.{family_of};

use code_table::Kind;

/// The steps that nodes of a kind take.
#[derive(Clone, Copy)]
pub enum Family {
    /// A value that is there at once, and what is no node (ECMA-262 5.1 sections 11.1.1 to 11.1.3, 11.3, 11.4 and 13).
    Plain,
    /// The parts of a literal, or of a comma expression, in turn (sections 11.1.4, 11.1.5 and 11.14).
    Sequence,
    /// An operator on values, or a choice (sections 11.4 to 11.12).
    Operator,
    /// A property that is read or deleted (sections 11.2.1 and 11.4.1).
    Property,
    /// A property that is updated or assigned (sections 11.3, 11.4 and 11.13).
    Change,
    /// A call or a construction (sections 11.2.2 and 11.2.3).
    Call,
    /// A name that is assigned or declared (sections 11.13 and 12.2).
    Named,
    /// A statement (section 12).
    Statement,
}

impl Family {
    /// The family of a kind.
    pub fn of(kind: &Kind) -> Family
        ensures { result ≡ family_of kind.now }
    {
        match kind {
            Kind::Nothing | Kind::Name(_) | Kind::Num(_) | Kind::Text(_) | Kind::Bool(_) =>
                Family::Plain,
            Kind::Null | Kind::This | Kind::Func(_) => Family::Plain,
            Kind::TypeofName(_) | Kind::UpdateName(_, _, _) => Family::Plain,
            Kind::List | Kind::Literal(_) | Kind::Comma => Family::Sequence,
            Kind::Unary(_) | Kind::Binary(_) | Kind::And | Kind::Or | Kind::Cond =>
                Family::Operator,
            Kind::Member(_) | Kind::Index | Kind::DeleteMember(_) | Kind::DeleteIndex =>
                Family::Property,
            Kind::UpdateMember(_, _, _) | Kind::UpdateIndex(_, _) => Family::Change,
            Kind::AssignMember(_, _) | Kind::AssignIndex(_) => Family::Change,
            Kind::CallMember(_) | Kind::CallIndex | Kind::Call | Kind::New => Family::Call,
            Kind::AssignName(_, _) | Kind::Declarator(_) => Family::Named,
            Kind::Var | Kind::Empty | Kind::Discard | Kind::Block | Kind::If => Family::Statement,
            Kind::Do | Kind::While | Kind::For | Kind::ForIn | Kind::Switch => Family::Statement,
            Kind::Continue | Kind::Break | Kind::Return | Kind::Throw | Kind::Try(_) =>
                Family::Statement,
        }
    }
}
