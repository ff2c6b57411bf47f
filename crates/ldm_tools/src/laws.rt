//! What is told of a run, by the definitions alone.
ghost use Rattle.std.specs.Prelude.{Bool, Result, true};
ghost use Rattle.ldm_tools.specs.declared.fault.InsertFault.{InsertFault};
ghost use Rattle.ldm_tools.specs.Inserting.{Inserting};
ghost use Rattle.ldm_tools.specs.Inserts.{InsertEnds};
ghost use Rattle.ldm_tools.specs.Moments.{InsertMoment, Outside};
ghost use Rattle.ldm_tools.specs.Runs.{StopsAt, TakesAll};
ghost use Rattle.ldm_tools.specs.InsertTold.{AreTold, Cause, RefusedCause};

/// What is told of the files of a run, and of its end.
pub fn what_is_told_of_files()
    // Where all files were taken: what was sent, answered and written over all of them.
    ensures whole { (refused : Bool) (all : Inserting) (old new : InsertMoment) (takes : TakesAll refused all old new)
        → AreTold all all.files takes.steps old new }
    // Where the run ended at a file: the same of those before it.
    ensures before { (why : InsertFault) (all : Inserting) (old new : InsertMoment) (stops : StopsAt why all old new)
        → AreTold all stops.before stops.steps old stops.mid }
    // Some file was refused where the queue did not admit one that was sent, or a file is too long.
    ensures refused { (all : Inserting) (old new : InsertMoment) (takes : TakesAll true all old new)
        → RefusedCause takes.steps old new }
    // Which count rose.
    ensures causes { (ending : Result Bool InsertFault) (all : Inserting) (old new : Outside)
        → InsertEnds ending all old new → Cause ending old new }
{}
