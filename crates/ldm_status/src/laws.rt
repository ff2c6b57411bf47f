//! What a report with a reason amounts to where there is none.
ghost use Rattle.std.specs.Prelude.{◌≡◌, ℕ, [], false};
ghost use Rattle.ldm_outside.specs.Io.{SinkRecord};
ghost use Rattle.ldm_status.specs.declared.status.Status.{Status as Ending};
ghost use Rattle.ldm_status.specs.Status.{says_why, Reports, ReportsFor, ReportsBecause};

/// With no reason, and at a status that never says why, the log has the line of the status alone.
pub fn reasons_come_first()
    ensures none { (ending : Ending) (code : ℕ) (old new : SinkRecord) → ReportsFor [] ending code old new →
        Reports ending code old new }
    ensures silent { (ending : Ending) (code : ℕ) (old new : SinkRecord) → says_why ending ≡ false →
        ReportsBecause ending code old new → Reports ending code old new }
    ensures alone { (ending : Ending) (code : ℕ) (old new : SinkRecord) → Reports ending code old new →
        ReportsBecause ending code old new }
{}
