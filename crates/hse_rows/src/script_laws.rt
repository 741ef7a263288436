//! Laws of the script machine. Each function does nothing; its contract is the law.
ghost use Rattle.hse_rows.specs.laws.ScriptLaws as law;

/// The phases of a sync, a creation and a drop in a row do and answer what one step would, and do
/// likewise where a device call fails.
pub fn turns_are_one_step()
    ensures syncs { law.SyncsAreOneStep }
    ensures creations { law.CreationsAreOneStep }
    ensures drops { law.DropsAreOneStep }
{}

/// A line is a run of calls of the core, each answered as it may be, and no line but a reopening
/// reopens. The calls of a line that nothing refuses are its phases in a row. The answer of a line
/// that has calls is the answer of the first that was not done, or else of the last, with names.
pub fn lines_are_calls()
    ensures calls { law.LinesAreCalls }
    ensures phases { law.LinesAreTheirPhases }
{}

/// An answer of the script machine leads one way, but that want of memory may come before or after
/// a job was picked. A refusal and want of memory change nothing, but that an end gives a turn back
/// whose device calls failed, and that a job may have been picked and is gone again.
pub fn lines_lead_one_way()
    ensures one_way { law.LinesLeadOneWay }
    ensures refused { law.RefusalsChangeNothing }
    ensures no_memory { law.WantOfMemoryChangesNothing }
{}

/// Each line has an answer, and but for want of memory and a device fault no other.
pub fn lines_have_one_answer()
    ensures answered { law.LinesAreAnswered }
    ensures one { law.LinesHaveOneAnswer }
{}

/// The phases of a sync, a freeze and an install, picks and builds change no state, no transaction,
/// no cursor with its list and position, and no name of a transaction or a cursor.
pub fn other_lines_keep_timelines()
    ensures timelines { law.LinesKeepTimelines }
    ensures names { law.LinesKeepNames }
{}

/// In every script the core keeps within the limits, with what is safe between the base and the
/// last number, log and manifest have what happened in the life, and the timeline stands.
pub fn scripts_are_sound()
    ensures lines { law.LinesKeepSound }
    ensures scripts { law.ScriptsAreSound }
{}

/// Snapshot isolation. In every script no two transactions that each began before the other's
/// commit both committed overlapping writes.
pub fn scripts_are_isolated()
    ensures lines { law.LinesKeepIsolated }
    ensures isolated { law.ScriptsAreIsolated }
{}
