//! What holds of plans.

ghost use Rattle.rebuild_plan.specs.Count.{PlansAreFew};
ghost use Rattle.rebuild_plan.specs.Stands.{PlansStand};

/// The plan of a page at rest makes the things in the order of their numbers, and each of its statements names only what already
/// stands.
pub fn law_plans_stand()
    ensures { PlansStand }
{}

/// A plan has at most four statements for each thing, as `Weight` counts them, and one more.
pub fn law_plans_are_few()
    ensures { PlansAreFew }
{}
