//! What holds of saved pages that are loaded.

ghost use Rattle.rebuilding.specs.Again.{SavedAgain};
ghost use Rattle.rebuilding.specs.Laws.{RebuiltPagesGoOn, ScriptsRebuild, ScriptsTakeFewSteps};
ghost use Rattle.rebuilding.specs.Rebuilt.{PlansRebuild};
ghost use Rattle.rebuilding.specs.Running.{StatementsRun};

use agreement::law_events_agree;
use built_in_paths::law_paths_lead;
use page_meaning::law_heaps_stay_sound;

/// Each statement of a saved page that can run ends by itself after at most one step, puts out nothing and does what it says.
pub fn law_statements_run()
    ensures { StatementsRun }
{
    law_paths_lead();
}

/// The statements of the plan of a page at rest can run one after another, and leave that page.
pub fn law_plans_rebuild()
    ensures { PlansRebuild }
{}

/// The saved script of such a page loads without a line, and the page that it leaves agrees with the one that was saved.
pub fn law_scripts_rebuild()
    ensures { ScriptsRebuild }
{
    law_paths_lead();
    law_heaps_stay_sound();
}

/// Its script takes at most a step for each statement of the plan, from a page before its scripts.
pub fn law_scripts_take_few_steps()
    ensures { ScriptsTakeFewSteps }
{
    law_paths_lead();
    law_heaps_stay_sound();
}

/// Under every list of later events it puts out the same lines as the page that was saved.
pub fn law_rebuilt_pages_go_on()
    ensures { RebuiltPagesGoOn }
{
    law_paths_lead();
    law_heaps_stay_sound();
    law_events_agree();
}

/// A page that was rebuilt and is saved again, without events between, has the plan that it was rebuilt from.
pub fn law_saved_again()
    ensures { SavedAgain }
{
    law_paths_lead();
    law_heaps_stay_sound();
}
