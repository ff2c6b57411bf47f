//! Worked examples.
ghost use Rattle.ldm_watch.specs.Examples.{Dates, Feeds, Line, LineOfNames, LastNotice, OneFewer, NoNotice, Requests};
ghost use Rattle.ldm_watch.specs.Examples.{Narrower};

/// What the definitions of lines and of watching say of single records. It does nothing.
pub fn worked_examples()
    ensures line { Line }
    ensures line_of_names { LineOfNames }
    ensures dates { Dates }
    ensures feeds { Feeds }
    ensures last_notice { LastNotice }
    ensures one_fewer { OneFewer }
    ensures no_notice { NoNotice }
    ensures requests { Requests }
    ensures narrower { Narrower }
{}
