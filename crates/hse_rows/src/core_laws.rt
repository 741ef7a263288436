//! Laws of the machine's core. Each function does nothing; its contract is the law.
ghost use Rattle.hse_rows.specs.laws.CoreLaws as law;

/// Snapshot isolation. In every run no two transactions that each began before the other's commit
/// both committed overlapping writes, and a commit is never canceled.
pub fn runs_are_isolated()
    ensures moves { law.StepsMoveTimelines }
    ensures isolated { law.RunsAreIsolated }
    ensures canceled { law.CommitsAreNotCanceled }
{}

/// The phases of a sync, a freeze and an install, picks and builds change no state, no transaction
/// and not the count of cursors.
pub fn others_keep_timelines()
    ensures timelines { law.OthersKeepTimelines }
    ensures cursors { law.OthersKeepCursors }
{}

/// In every timeline two stores have two names and two ids, ids are numbers of events, transactions
/// are apart, and each commit is a transaction's or one write of a `plain` store and writes to
/// stores that were created before it.
pub fn timelines_stand()
    ensures lives { law.LivesStand }
    ensures steps { law.StepsKeepStanding }
{}

/// An answer of the core leads one way. A refusal changes nothing, but that an end gives a turn
/// back whose device calls failed.
pub fn answers_lead_one_way()
    ensures one_way { law.AnswersLeadOneWay }
    ensures refused { law.RefusalsChangeNothing }
{}

/// Each call of the core has an answer, and but for want of memory and a device fault no other.
pub fn calls_have_one_answer()
    ensures answered { law.CallsAreAnswered }
    ensures one { law.CallsHaveOneAnswer }
{}

/// Each call, and so each run, keeps within the limits, where what is loaded is: the log's commits
/// have room in their segment, at most three layers are frozen, each with a commit and within its
/// segment, the manifest's batches have room in their half, no more slots are used than there are,
/// numbers, sequences and counts of stores, live transactions, begins, jobs and cursors are within
/// their limits, the jobs' ids differ and are less than the count of picks, no two live jobs are
/// ingests or on one node, what is safe is between the base and the last number, and so is a turn's
/// number, which is what is safe for an install. A turn's kind is that of its plan.
pub fn calls_keep_limits()
    ensures steps { law.StepsKeepLimits }
    ensures runs { law.RunsKeepLimits }
{}

/// Where the layout's blocks and those that an install writes are used slots, the blocks after the
/// install and those that it frees are no more than these, if the job's run is within the sets of
/// its node and takes over at most its blocks; and likewise after a drop. So what is freed was
/// used.
pub fn slots_are_counted()
    ensures installs { law.InstallsCountSlots }
    ensures drops { law.DropsCountSlots }
{}

/// In every run each commit since the life began stands in the log, with those that the device
/// stored then, or its number is up to the horizon. What stands there is above the horizon and
/// rises, each layer above the older ones. While no device call failed, the manifest has the
/// numbers of the creations and drops above the horizon, but for one whose turn is out. A life
/// begins so.
pub fn calls_are_recorded()
    ensures lives { law.LivesBeginRecorded }
    ensures steps { law.StepsKeepRecords }
    ensures runs { law.RunsAreRecorded }
{}
