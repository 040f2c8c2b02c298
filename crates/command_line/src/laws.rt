//! What holds of how commands end.

ghost use Rattle.command_line.specs.Laws.{CausesExclude, LittlePagesAreParked, LittlePagesAreSaved, SomeCause};

use migrate::law_moving_is_lawful;
use parking::law_parking_is_lawful;
use read_files::law_reading_is_lawful;
use stress::law_stress_is_lawful;

/// The causes exclude each other: where it is told what the files hold that the command asks for, and the rows if it asks
/// for them, and nothing of that failed, one status at most has its cause; and where each file of the command is told to
/// hold bytes or a read of it failed, some status has one. Want of memory aside, which is free.
pub fn law_one_ending()
    ensures excludes { CausesExclude }
    ensures some { SomeCause }
{
    law_reading_is_lawful();
    law_moving_is_lawful();
    law_parking_is_lawful();
    law_stress_is_lawful();
}

/// A page that is accepted, with events that are read, both within their limits, is saved and parked where it is little
/// enough and nothing outside failed, or memory runs out.
pub fn law_little_pages_are_moved()
    ensures saved { LittlePagesAreSaved }
    ensures parked { LittlePagesAreParked }
{
    law_moving_is_lawful();
    law_parking_is_lawful();
}
