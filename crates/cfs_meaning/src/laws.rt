//! What holds of every run, as contracts of functions that do nothing.

ghost use Rattle.cfs_meaning.specs.Admits.{MarksKeepShown};
ghost use Rattle.cfs_meaning.specs.Answered.{LinesHaveAnswers};
ghost use Rattle.cfs_meaning.specs.Devices.{CrashedRunsRecover, CrashesLeaveLess, CrashesRecover};
ghost use Rattle.cfs_meaning.specs.Devices.{LinesKeepShown, ShownFilesRecover};
ghost use Rattle.cfs_meaning.specs.Granted.{OpenFilesAreGranted};
ghost use Rattle.cfs_meaning.specs.Home.{HomesAreShown, MountsShow, NewStoresAreHome};
ghost use Rattle.cfs_meaning.specs.Laws.{AnswersAreOnly, CalmRunsAnswer, ChangesMakeSteps};
ghost use Rattle.cfs_meaning.specs.Laws.{CoresStayReached, FilesAreGood, LogsFollowLines};
ghost use Rattle.cfs_meaning.specs.Laws.{NamesStayLegal, ReadsAreRight, RunsKeepCores};
ghost use Rattle.cfs_meaning.specs.Stock.{ClosesKeepShown, MountsMapOnce, RunsKeepMapped};
ghost use Rattle.cfs_meaning.specs.Trees.{LinesChangeWell, LinesKeepStored, NamesKeepShown};
ghost use Rattle.cfs_meaning.specs.Trees.{NewStoresAreClear, NewStoresAreStored};

/// While a store is mounted, each line makes of the core of each file one that the laws of cores
/// hold of: so each file's log is legal, and a read is answered by the file before it.
pub fn cores_stay_reached()
    ensures { CoresStayReached }
{}

/// So it is at the end of every run until the next mount, whatever fails, and crashes among its
/// lines.
pub fn runs_keep_cores()
    ensures { RunsKeepCores }
{}

/// Such a core's log is legal, a read that may be served gets its answer, and each image of the
/// core recovers the file after the log.
pub fn files_are_good()
    ensures { FilesAreGood }
{}

/// The requests on names since a mount stay a legal order, whatever a line does.
pub fn names_stay_legal()
    ensures { NamesStayLegal }
{}

/// The changes that are stored for a request on names make the tree that its step leaves.
pub fn changes_make_steps()
    ensures { ChangesMakeSteps }
{}

/// Each open descriptor's grant stands in the table, at its queue and for its caller, and no second
/// descriptor has the queue.
pub fn open_files_are_granted()
    ensures { OpenFilesAreGranted }
{}

/// Each log has its entries in the order of the lines that they come from.
pub fn logs_follow_lines()
    ensures { LogsFollowLines }
{}

/// A script without stops and failures answers no line with `EIO` or `stopped`.
pub fn calm_runs_answer()
    ensures { CalmRunsAnswer }
{}

/// A line that reads prints the bytes of the file after the entries before its place.
pub fn reads_are_right()
    ensures { ReadsAreRight }
{}

/// A script has one list of answers, and leaves one world.
pub fn answers_are_only()
    ensures { AnswersAreOnly }
{}

/// At the end of every run of a store that was mounted, while the selector's word has room for one
/// more change, each line that helps no entry and makes no step of a job has an answer.
pub fn lines_have_answers()
    ensures { LinesHaveAnswers }
{}

/// Where the devices show a world, whatever a crash leaves of each file recovers the file after its
/// log, and then the request in doubt where its gate was left open.
pub fn shown_files_recover()
    ensures { ShownFilesRecover }
{}

/// The lines of `keeps_shown`, where they suit (`Suits`), keep a mounted world shown.
pub fn lines_keep_shown()
    ensures { LinesKeepShown }
{}

/// What a crash may leave of a file behind a crash, it may leave before it, so a file that is
/// recovered stays so.
pub fn crashes_leave_less()
    ensures { CrashesLeaveLess }
{}

/// Behind a crash of a world that its devices show, each file and the tree recover what they would
/// have before.
pub fn crashes_recover()
    ensures { CrashesRecover }
{}

/// And so they do until the next mount, whatever lines are tried, and crashes among them.
pub fn crashed_runs_recover()
    ensures { CrashedRunsRecover }
{}

/// A mount of devices that have everything home makes a world that they show, and that all laws on
/// shown worlds hold of.
pub fn homes_are_shown()
    ensures { HomesAreShown }
{}

/// So does a line that mounts, where its steps have left such devices.
pub fn mounts_show()
    ensures { MountsShow }
{}

/// The devices of a new store have everything home.
pub fn new_stores_are_home()
    ensures { NewStoresAreHome }
{}

/// Each file block of a file has one block: so it stays until the next mount, whatever fails.
pub fn runs_keep_mapped()
    ensures { RunsKeepMapped }
{}

/// So it is where devices are mounted on which no two blocks have one tag, as on those of a new
/// store.
pub fn mounts_map_once()
    ensures { MountsMapOnce }
{}

/// A `close` keeps a mounted world shown, whatever it helps, and with the purge of removed files,
/// each step of it done or refused.
pub fn closes_keep_shown()
    ensures { ClosesKeepShown }
{}

/// A line on names keeps a mounted world shown, and its tree stored, where what it changes of the
/// tree is one thing at most and makes a tree again, and a file that begins may: whether it is
/// answered or refused, and each step of it done or refused.
pub fn names_keep_shown()
    ensures { NamesKeepShown }
{}

/// So it is with each line on names whose words have their bounds, and a file is made on a clear
/// record.
pub fn lines_change_well()
    ensures { LinesChangeWell }
{}

/// The tree of a new store, of any number of blocks and queues, is stored when it is mounted.
pub fn new_stores_are_stored()
    ensures { NewStoresAreStored }
{}

/// Lines that change nothing of the tree keep it stored, whatever fails.
pub fn lines_keep_stored()
    ensures { LinesKeepStored }
{}

/// A mark that an admission sets keeps a world shown, done or refused, where the slots have a word
/// for it.
pub fn marks_keep_shown()
    ensures { MarksKeepShown }
{}

/// The records of a new store that are not used are clear.
pub fn new_stores_are_clear()
    ensures { NewStoresAreClear }
{}
