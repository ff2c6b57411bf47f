//! What the faults of an ldmd.conf have to do with what it means, and warnings with faults.
ghost use Rattle.ldm_check.specs.Law.{EachAlone, FirstWhereFaulty, FirstWhereUnread, IsNoFault, NoneWhereRead};
ghost use Rattle.ldm_check.specs.Warnings.{Warning};

/// What the definition of faults says by the one of reading: a text that is read has none; where reading stops at a
/// faulty line, or at an INCLUDE line whose file does not come, the first is of that line, in that file, and of that
/// kind; and where a line that means nothing is emptied, its fault is gone, and all others stay. So the faults are
/// those that reading the text stops at, each found with the lines of the earlier ones emptied.
pub fn faults_are_those_of_reading()
    ensures none { NoneWhereRead }
    ensures first { FirstWhereFaulty }
    ensures unread { FirstWhereUnread }
    ensures alone { EachAlone }
{}

/// No warning is written as a fault is: not one of a line as a fault of that line, nor one of a file as a fault of that
/// file.
pub fn warnings_are_no_faults()
    ensures { (warning : Warning) → IsNoFault warning }
{}
