//! How the program ends: statuses with their log lines.
ghost use Rattle.std.specs.Prelude.{◌≡◌, ◌≤◌, ◌+◌, []};
ghost use Rattle.arrayvec.specs.ArrayVec.{array_vec_len};
ghost use Rattle.ldm_outside.specs.Reason.{IsReason};
ghost use Rattle.ldm_status.specs.Status.{log_line, reason_line};
ghost use Rattle.ldm_status.specs.declared.status.Status.TheVariants as status;

use arrayvec::ArrayVec;
use ldm_answers::{put, put_number};
use ldm_outside::{LONGEST_REASON, Sink, SinkFailed, write_all};

// Room for a log line with its newline, where each number may take 20 digits.
const LONGEST_LOG_LINE: usize = 96;

// A log line, with room for the longest.
type LogLine = ArrayVec<u8, LONGEST_LOG_LINE>;

// Room for a log line behind that of a reason: `ldm: `, the reason and a newline.
const LONGEST_LOG_LINES: usize = 302;

const _: () = prove!(5 + LONGEST_REASON + 1 + LONGEST_LOG_LINE == LONGEST_LOG_LINES);

/// How the program ends, its log apart.
#[derive(Debug, Drop)]
pub enum Status {
    /// All input was read, and all owed text is written.
    Done,
    /// The words are no form of a command.
    Usage,
    /// A line of a script is outside the grammar: its number, from 1, and the column of its first fault.
    BadLine { line: u64, column: u32 },
    /// A peer's stream ended before an owed reply, after `at` bytes; or the record that begins at byte `at` of it is
    /// not lawful there.
    BadFrame { at: u64 },
    /// A line of an ldmd.conf is faulty, or the file is too long: the number of the file, from 0, that of the line in
    /// it, and the number of the kind of fault.
    BadConf { file: u32, line: u32, kind: u32 },
    /// An entry of a pqact.conf is faulty, or the file is too long: its first line, and the number of the kind of
    /// fault.
    BadPqact { line: u32, kind: u32 },
    /// A file is no image of a queue: the first field that is not lawful begins at that byte.
    BadImage { at: u64 },
    /// As many bytes of a script or of a stream were taken as are too many.
    StreamLimit,
    /// No queue has an arena of so many bytes.
    RefusedArena(u64),
    /// No queue has so many slots.
    RefusedSlots(u32),
    /// No queue of many threads has so many passes.
    RefusedPasses(u32),
    /// No connection was made, or one failed.
    NetFault,
    /// There is no memory.
    NoMemory,
    /// A file could not be read or written.
    StoreFault,
    /// A program could not be started, written to or waited for.
    ChildFault,
    /// The source failed.
    SourceFault,
    /// The sink failed.
    SinkFault,
    /// The queue has had all the calls that it can have.
    Worn,
    /// A peer declined the request.
    Denied,
    /// A queue did not admit each product, and there was no other fault.
    Refused,
    /// A file has an image of a queue that was not written whole, or no image, by its gate.
    Unclean,
}

/// The status where the log line of another status could not be written.
pub const LOG_FAULT: u8 = 76;

impl Status {
    ghost use Rattle.ldm_status.specs.Status.{code_of, log_line, log_lines, reason_among, says_why};
    ghost use Rattle.ldm_status.specs.Status.{Reports, ReportsBecause, ReportsFor};

    /// The number that the program ends with.
    pub fn code(&self) -> u8
        ensures { result ≡ code_of self.now }
    {
        match self {
            Status::Done => 0,
            Status::Usage => 64,
            Status::BadLine { .. }
            | Status::BadFrame { .. }
            | Status::BadConf { .. }
            | Status::BadPqact { .. }
            | Status::BadImage { .. } => 65,
            Status::StreamLimit => 66,
            Status::RefusedArena(_) | Status::RefusedSlots(_) | Status::RefusedPasses(_) => 67,
            Status::NetFault => 69,
            Status::NoMemory => 71,
            Status::StoreFault => 72,
            Status::ChildFault => 73,
            Status::SourceFault => 74,
            Status::SinkFault => 75,
            Status::Worn => 77,
            Status::Denied => 78,
            Status::Refused => 79,
            Status::Unclean => 80,
        }
    }

    /// Whether [`Status::report_because`] says why: at faults of the words, of a configuration and of the outside.
    pub fn says_why(&self) -> bool
        ensures { result ≡ says_why self.now }
    {
        match self {
            Status::Usage
            | Status::BadConf { .. }
            | Status::BadPqact { .. }
            | Status::NetFault
            | Status::StoreFault
            | Status::ChildFault => true,
            Status::Done
            | Status::BadLine { .. }
            | Status::BadFrame { .. }
            | Status::BadImage { .. }
            | Status::StreamLimit
            | Status::RefusedArena(_)
            | Status::RefusedSlots(_)
            | Status::RefusedPasses(_)
            | Status::NoMemory
            | Status::SourceFault
            | Status::SinkFault
            | Status::Worn
            | Status::Denied
            | Status::Refused
            | Status::Unclean => false,
        }
    }

    // Writes the log line, with its newline, over what the buffer had: nothing where all went well.
    fn write_line(&self, out: &mut LogLine)
        ensures { out.new.items ≡ log_line self.now }
    {
        out.clear();
        match self {
            Status::Done => {}
            Status::Usage => put(out, b"ldm: usage\n"),
            Status::BadLine { line, column } => {
                put(out, b"ldm: bad line ");
                put_number(out, *line);
                put(out, b" column ");
                put_number(out, u64::from(*column));
                put(out, b"\n");
            }
            Status::BadFrame { at } => {
                put(out, b"ldm: bad frame at ");
                put_number(out, *at);
                put(out, b"\n");
            }
            Status::BadConf { file, line, kind } => put_bad_conf(out, *file, *line, *kind),
            Status::BadPqact { line, kind } => put_bad_pqact(out, *line, *kind),
            Status::BadImage { at } => {
                put(out, b"ldm: bad image at ");
                put_number(out, *at);
                put(out, b"\n");
            }
            Status::StreamLimit => put(out, b"ldm: stream limit\n"),
            Status::RefusedArena(arena) => {
                put(out, b"ldm: refused arena ");
                put_number(out, *arena);
                put(out, b"\n");
            }
            Status::RefusedSlots(slots) => {
                put(out, b"ldm: refused slots ");
                put_number(out, u64::from(*slots));
                put(out, b"\n");
            }
            Status::RefusedPasses(passes) => {
                put(out, b"ldm: refused passes ");
                put_number(out, u64::from(*passes));
                put(out, b"\n");
            }
            Status::NetFault => put(out, b"ldm: net fault\n"),
            Status::NoMemory => put(out, b"ldm: no memory\n"),
            Status::StoreFault => put(out, b"ldm: store fault\n"),
            Status::ChildFault => put(out, b"ldm: child fault\n"),
            Status::SourceFault => put(out, b"ldm: source fault\n"),
            Status::SinkFault => put(out, b"ldm: sink fault\n"),
            Status::Worn => put(out, b"ldm: worn\n"),
            Status::Denied => put(out, b"ldm: denied\n"),
            Status::Refused => put(out, b"ldm: refused\n"),
            Status::Unclean => put(out, b"ldm: unclean image\n"),
        }
    }

    /// Writes the log line to the log, and answers the number that the program ends with: that of the status, or
    /// [`LOG_FAULT`] where the log failed.
    pub fn report<E: Sink>(&self, log: &mut E) -> u8
        ensures reports { Reports self.now result (E.tells log.old) (E.tells log.new) }
        ensures faults_kept { (E.tells log.old).faults ≤ (E.tells log.new).faults }
    {
        let mut line = LogLine::new();
        self.write_line(&mut line);
        match write_all(log, line.as_slice()) {
            Ok(()) => self.code(),
            Err(SinkFailed) => LOG_FAULT,
        }
    }

    /// Of what is said of a configuration, a store, a net and a launcher, what is of this status.
    pub fn reason_among<'a>(
        &self,
        conf: &'a [u8],
        store: &'a [u8],
        net: &'a [u8],
        launcher: &'a [u8],
    ) -> &'a [u8]
        requires conf { IsReason conf.now }
        requires store { IsReason store.now }
        requires net { IsReason net.now }
        requires launcher { IsReason launcher.now }
        ensures among { result.now ≡ reason_among self.now conf.entry.now store.entry.now net.entry.now
            launcher.entry.now }
        ensures is_reason { IsReason result.now }
    {
        match self {
            Status::BadConf { .. } | Status::BadPqact { .. } => conf,
            Status::StoreFault => store,
            Status::NetFault => net,
            Status::ChildFault => launcher,
            _ => b"".as_slice(),
        }
    }

    /// Reports as [`Status::report`] does, and where the status [says why](Status::says_why), and the reason is not
    /// empty, writes a line `ldm: REASON` before the log line. Both go to the log in one piece.
    pub fn report_because<E: Sink>(&self, reason: &[u8], log: &mut E) -> u8
        requires { IsReason reason.now }
        ensures reports { ReportsFor reason.now self.now result (E.tells log.old) (E.tells log.new) }
        ensures because { ReportsBecause self.now result (E.tells log.old) (E.tells log.new) }
        ensures faults_kept { (E.tells log.old).faults ≤ (E.tells log.new).faults }
    {
        let mut lines = ArrayVec::new();
        self.put_lines(reason, &mut lines);
        match write_all(log, lines.as_slice()) {
            Ok(()) => self.code(),
            Err(SinkFailed) => LOG_FAULT,
        }
    }

    // Puts the line of the reason, if the status says why, and the log line into the empty buffer.
    fn put_lines(&self, reason: &[u8], out: &mut ArrayVec<u8, LONGEST_LOG_LINES>)
        requires reason { IsReason reason.now }
        requires empty { out.old.items ≡ [] }
        ensures { out.new.items ≡ log_lines reason.now self.now }
    {
        let mut line = LogLine::new();
        self.write_line(&mut line);
        if self.says_why() {
            put_reason(out, reason);
        }
        put(out, line.as_slice());
    }
}

// Writes the line of a reason, if there is one.
fn put_reason(out: &mut ArrayVec<u8, LONGEST_LOG_LINES>, reason: &[u8])
    requires reason { IsReason reason.now }
    requires empty { out.old.items ≡ [] }
    ensures text { out.new.items ≡ reason_line reason.now }
    ensures len { array_vec_len out.new ≤ LONGEST_REASON + 6 }
{
    if let [_, ..] = reason {
        put(out, b"ldm: ");
        put(out, reason);
        put(out, b"\n");
    }
}

// Writes the line of a fault of an ldmd.conf.
fn put_bad_conf(out: &mut LogLine, file: u32, line: u32, kind: u32)
    requires { out.old.items ≡ [] }
    ensures { out.new.items ≡ log_line (status.BadConf file line kind) }
{
    put(out, b"ldm: bad conf file ");
    put_number(out, u64::from(file));
    put(out, b" line ");
    put_number(out, u64::from(line));
    put(out, b" kind ");
    put_number(out, u64::from(kind));
    put(out, b"\n");
}

// Writes the line of a fault of a pqact.conf.
fn put_bad_pqact(out: &mut LogLine, line: u32, kind: u32)
    requires { out.old.items ≡ [] }
    ensures { out.new.items ≡ log_line (status.BadPqact line kind) }
{
    put(out, b"ldm: bad pqact line ");
    put_number(out, u64::from(line));
    put(out, b" kind ");
    put_number(out, u64::from(kind));
    put(out, b"\n");
}
