//! Warnings: of what is no fault, and yet may not do what was meant.

ghost use Rattle.std.specs.Prelude.{◌≡◌, ◌∷◌, ◌++◌, ◌≤◌, [], drop, length, OnOk};
ghost use Rattle.std.specs.Str.{str_eq_ignore_ascii_case};
ghost use Rattle.ldm_conf.specs.Lines.{without_return};
ghost use Rattle.ldm_text.specs.Words.{words_of};
ghost use Rattle.ldm_text.specs.declared.limits.TheConstants.{LONGEST_CONFIGURATION};
ghost use Rattle.ldm_text.specs.declared.words.Comments.TheVariants.{Hash};
ghost use Rattle.ldm_check.specs.Concerns.{asking_warnings, behind_blanks, end_warnings, entry_warnings, field_of, is_group};
ghost use Rattle.ldm_check.specs.Concerns.{by_keyword, feedtype_warnings, host_warnings, is_none, names_group};
ghost use Rattle.ldm_check.specs.Concerns.{request_warnings, rule_view, rule_warnings, rule_words, second_field};
ghost use Rattle.ldm_check.specs.Concerns.{word_warnings};
ghost use Rattle.ldm_check.specs.Programs.{LooksFor};
ghost use Rattle.ldm_check.specs.Warnings.{OfLine, warning_views};

use crate::patterns::{has_name, may_hold_slash};
use crate::programs::Programs;
use crate::said::take_word;
use crate::source::{Line, without_return};
use crate::warning::{Concern, Warning};
use arrayvec::ArrayVec;
use ldm_class::Reduced;
use ldm_conf::Conf;
use ldm_feedtype::read_feed;
use ldm_outside::{Reasons, Store};
use ldm_pqact_conf::{ActionKind, Entries, Entry, PqactKind, read_pqact};
use ldm_text::{count_blanks, first_line, place_of};
use ldm_types::{ClassSpec, Feed, Micros, OutOfMemory, Spec};
use std::alloc::{AllocError, Global};

// How many REQUEST lines a node can have, its workers that serve peers apart.
const MOST_REQUESTS: u32 = 63;

// How many REQUEST lines leave room for the four workers that a node has where no `-w` says another number.
const USUAL_REQUESTS: u32 = 59;

// Where tools of this machine come from.
const THIS_MACHINE: &[u8] = b"127.0.0.1";

/// The warnings of files, and what is seen so far of an ldmd.conf.
#[derive(Drop)]
pub(crate) struct Warnings {
    pub list: Vec<Warning>,
    pub programs: Programs,
    // How many REQUEST lines it has.
    requests: u32,
    // Whether some ALLOW line lets a tool of this machine in.
    lets_in: bool,
}

impl Warnings {
    /// No warnings.
    pub(crate) fn new(alloc: Global) -> Warnings {
        Warnings {
            list: Vec::new(alloc),
            programs: Programs::new(alloc),
            requests: 0,
            lets_in: false,
        }
    }

    /// Begins with the next ldmd.conf.
    pub(crate) fn begin(&mut self) {
        self.requests = 0;
        self.lets_in = false;
    }

    /// Ends with an ldmd.conf.
    pub(crate) fn end(&mut self, alloc: Global, path: &str) -> Result<(), AllocError>
        ensures { OnOk result (warning_views self.new.list.items
            ≡ warning_views self.old.list.items ++ end_warnings path.now self.old.lets_in) }
    {
        if self.lets_in {
            return Ok(());
        }
        self.list
            .push(Warning::NoTool(String::from_str(alloc, path)?))?;
        Ok(())
    }

    /// Looks at a line of the file under the path, and at what it alone means.
    pub(crate) fn look_at(
        &mut self,
        alloc: Global,
        path: &str,
        line: &Line<'_>,
        conf: &Conf,
    ) -> Result<(), OutOfMemory>
        ensures { OnOk result (warning_views self.new.list.items
            ≡ warning_views self.old.list.items ++ (rule_warnings path.now line.now.number
            (rule_words (words_of Hash (without_return line.now.text.now)).words)
            ++ asking_warnings path.now line.now.number self.old.requests conf.now.requests.items)) }
    {
        self.look_at_rule(alloc, path, line)?;
        self.look_at_requests(alloc, path, line, conf)?;
        self.note_commands(alloc, path, line, conf)?;
        if !self.lets_in {
            self.lets_in = lets_in(alloc, conf)?;
        }
        Ok(())
    }

    // Warns of an ALLOW or an ACCEPT line that meets nobody.
    fn look_at_rule(&mut self, alloc: Global, path: &str, line: &Line<'_>) -> Result<(), AllocError>
        ensures warned { OnOk result (warning_views self.new.list.items
            ≡ warning_views self.old.list.items ++ rule_warnings path.now line.now.number
            (rule_words (words_of Hash (without_return line.now.text.now)).words)) }
        ensures requests { self.new.requests ≡ self.old.requests }
    {
        let Some(rule) = rule_of(without_return(line.text)) else {
            return Ok(());
        };
        let number = u64::from(line.number);
        self.look_at_feedtype(alloc, path, number, rule.feedtype)?;
        self.look_at_host(alloc, path, number, rule.host)
    }

    // Warns of a feedtype without members.
    fn look_at_feedtype(
        &mut self,
        alloc: Global,
        path: &str,
        number: u64,
        feedtype: &[u8],
    ) -> Result<(), AllocError>
        ensures warned { OnOk result (warning_views self.new.list.items
            ≡ warning_views self.old.list.items ++ feedtype_warnings path.now number feedtype.now) }
        ensures requests { self.new.requests ≡ self.old.requests }
    {
        if is_none(feedtype) {
            return self.warn(alloc, path, number, Concern::NoMember);
        }
        Ok(())
    }

    // Warns of a pattern of hosts that has letters of a name.
    fn look_at_host(
        &mut self,
        alloc: Global,
        path: &str,
        number: u64,
        host: &[u8],
    ) -> Result<(), AllocError>
        ensures warned { OnOk result (warning_views self.new.list.items
            ≡ warning_views self.old.list.items ++ host_warnings path.now number host.now) }
        ensures requests { self.new.requests ≡ self.old.requests }
    {
        if has_name(host) {
            return self.warn(alloc, path, number, Concern::HasName);
        }
        Ok(())
    }

    // Counts the REQUEST lines.
    fn look_at_requests(
        &mut self,
        alloc: Global,
        path: &str,
        line: &Line<'_>,
        conf: &Conf,
    ) -> Result<(), AllocError>
        ensures { OnOk result (warning_views self.new.list.items
            ≡ warning_views self.old.list.items ++ asking_warnings path.now line.now.number self.old.requests
            conf.now.requests.items) }
    {
        let [_, ..] = conf.requests.as_slice() else {
            return Ok(());
        };
        let before = self.requests;
        self.requests = before.saturating_add(1);
        self.look_at_request(alloc, path, u64::from(line.number), before)
    }

    // Warns of the first REQUEST line that leaves too few workers, and of the first that is one too many.
    fn look_at_request(
        &mut self,
        alloc: Global,
        path: &str,
        number: u64,
        before: u32,
    ) -> Result<(), AllocError>
        ensures { OnOk result (warning_views self.new.list.items
            ≡ warning_views self.old.list.items ++ request_warnings path.now number before) }
    {
        if before == USUAL_REQUESTS {
            return self.warn(alloc, path, number, Concern::FewWorkers);
        }
        if before == MOST_REQUESTS {
            return self.warn(alloc, path, number, Concern::NoWorker);
        }
        Ok(())
    }

    // Notes the program of an EXEC line.
    fn note_commands(
        &mut self,
        alloc: Global,
        path: &str,
        line: &Line<'_>,
        conf: &Conf,
    ) -> Result<(), AllocError>
        ensures { self.new.list ≡ self.old.list }
    {
        for command in &conf.commands {
            if let [program, ..] = command.words.as_slice() {
                self.programs
                    .note(alloc, path, u64::from(line.number), program.as_bytes())?;
            }
        }
        Ok(())
    }

    /// Looks at entries of the file under the path, which this text means, behind so many lines of the file.
    pub(crate) fn look_at_entries(
        &mut self,
        alloc: Global,
        path: &str,
        before: u64,
        text: &[u8],
        entries: &Entries,
    ) -> Result<(), AllocError> {
        let mut left = Left {
            line: b"".as_slice(),
            number: 0,
            rest: Some(text),
        };
        for entry in entries.as_slice() {
            left.go_to(entry.line());
            self.look_at_entry(
                alloc,
                path,
                before.saturating_add(u64::from(entry.line())),
                left.line,
                entry,
            )?;
        }
        Ok(())
    }

    // Looks at an entry that begins in a line of that number.
    fn look_at_entry(
        &mut self,
        alloc: Global,
        path: &str,
        number: u64,
        line: &[u8],
        entry: &Entry,
    ) -> Result<(), AllocError>
        ensures { OnOk result (warning_views self.new.list.items
            ≡ warning_views self.old.list.items ++ entry_warnings path.now number line.now entry.now.words) }
    {
        let [first, ..] = entry.words() else {
            return Ok(());
        };
        let word = first.bytes();
        self.look_at_word(alloc, path, number, line, word)?;
        match entry.action() {
            ActionKind::Pipe | ActionKind::Exec => self.programs.note(alloc, path, number, word),
            ActionKind::File | ActionKind::StdioFile | ActionKind::Noop => Ok(()),
        }
    }

    // Warns of a path or a program that has a group of the pattern in that line, where the group may hold a slash.
    fn look_at_word(
        &mut self,
        alloc: Global,
        path: &str,
        number: u64,
        line: &[u8],
        word: &[u8],
    ) -> Result<(), AllocError>
        ensures { OnOk result (warning_views self.new.list.items
            ≡ warning_views self.old.list.items ++ word_warnings path.now number line.now word.now) }
    {
        if names_group(word) && may_hold_slash(second_field(line)) {
            return self.warn(alloc, path, number, Concern::GroupInPath);
        }
        Ok(())
    }

    /// The same of a text whose entries stand before a faulty one.
    pub(crate) fn look_at_front(
        &mut self,
        alloc: Global,
        path: &str,
        before: u64,
        text: &[u8],
    ) -> Result<(), OutOfMemory>
        requires { length text.now ≤ LONGEST_CONFIGURATION }
    {
        match read_pqact(alloc, text) {
            Ok(entries) => {
                self.look_at_entries(alloc, path, before, text, &entries)?;
                Ok(())
            }
            Err(fault) if fault.kind == PqactKind::OutOfMemory => Err(OutOfMemory),
            Err(_) => Ok(()),
        }
    }

    /// Warns of each program that is not there.
    pub(crate) fn look_for_programs<F: Store + Reasons>(
        &mut self,
        alloc: Global,
        store: &mut F,
    ) -> Result<(), OutOfMemory>
        ensures asked { OnOk result (LooksFor (F.tells store.old) (F.tells store.new)) }
        ensures faults_kept { (F.tells store.old).faults ≤ (F.tells store.new).faults }
    {
        self.programs.look_for(alloc, store, &mut self.list)
    }

    // Adds a warning of a line.
    fn warn(
        &mut self,
        alloc: Global,
        path: &str,
        number: u64,
        concern: Concern,
    ) -> Result<(), AllocError>
        ensures warned { OnOk result (warning_views self.new.list.items
            ≡ warning_views self.old.list.items ++ OfLine path.now number concern ∷ []) }
        ensures requests { self.new.requests ≡ self.old.requests }
    {
        let path = String::from_str(alloc, path)?;
        self.list.push(Warning::OfLine(path, number, concern))?;
        Ok(())
    }
}

// A line of a text, and the lines behind it.
#[derive(Drop)]
struct Left<'a> {
    line: &'a [u8],
    number: u32,
    rest: Option<&'a [u8]>,
}

impl Left<'_> {
    // Goes on to the line of that number.
    fn go_to(&mut self, number: u32) {
        for _ in self.number..number {
            let Some(rest) = self.rest else {
                return;
            };
            let (line, behind) = first_line(rest);
            self.line = line;
            self.rest = behind;
        }
        self.number = number;
    }
}

// The words of an ALLOW or an ACCEPT line that say whom it meets.
#[derive(Drop)]
pub(crate) struct RuleWords<'a> {
    pub feedtype: &'a [u8],
    pub host: &'a [u8],
}

// The words of a line, if it is an ALLOW or an ACCEPT line.
fn rule_of(line: &[u8]) -> Option<RuleWords<'_>>
    ensures { rule_view result ≡ rule_words (words_of Hash line.entry.now).words }
{
    let (keyword, rest) = take_word(line)?;
    let (feedtype, rest) = take_word(rest)?;
    let (word, rest) = take_word(rest)?;
    by_keyword(keyword, feedtype, word, rest)
}

// By the keyword, the two words behind it, and what stands behind them.
fn by_keyword<'a>(
    keyword: &[u8],
    feedtype: &'a [u8],
    word: &'a [u8],
    rest: &'a [u8],
) -> Option<RuleWords<'a>>
    ensures { rule_view result
        ≡ by_keyword keyword.now feedtype.entry.now word.entry.now (words_of Hash rest.entry.now).words }
{
    if is_named(b"ALLOW", keyword) {
        return Some(RuleWords {
            feedtype,
            host: word,
        });
    }
    if is_named(b"ACCEPT", keyword) {
        let (host, _) = take_word(rest)?;
        return Some(RuleWords { feedtype, host });
    }
    None
}

// Whether a word is that name, in letters of either case.
fn is_named(name: &[u8], word: &[u8]) -> bool
    ensures { result ≡ str_eq_ignore_ascii_case name.now word.now }
{
    name.eq_ignore_ascii_case(word)
}

// Whether a feedtype has no member, as NONE.
fn is_none(feedtype: &[u8]) -> bool
    ensures { result ≡ is_none feedtype.now }
{
    match read_feed(feedtype) {
        Ok(feed) => feed.0 == 0,
        Err(_) => false,
    }
}

// Whether a path or the name of a program has a form `\1` to `\9`.
fn names_group(word: &[u8]) -> bool
    ensures { result ≡ names_group word.entry.now }
{
    let mut escaped = false;
    let mut left = word;
    while let [byte, others @ ..] = left {
        if escaped && is_group(*byte) {
            return true;
        }
        escaped = *byte == b'\\';
        left = others;
    }
    false
}

fn is_group(byte: u8) -> bool
    ensures { result ≡ is_group byte }
{
    matches!(byte, b'1'..=b'9')
}

// The second field of a line, between its first tabs and the next one: the pattern of an entry.
fn second_field(line: &[u8]) -> &[u8]
    ensures { result.now ≡ second_field line.now }
{
    field_of(behind_blanks(behind(line, place_of(b'\t', line))))
}

// What stands before the first tab.
fn field_of(text: &[u8]) -> &[u8]
    ensures { result.now ≡ field_of text.now }
{
    &text[..place_of(b'\t', text)]
}

// What stands behind the spaces and tabs that a text begins with.
fn behind_blanks(text: &[u8]) -> &[u8]
    ensures { result.now ≡ behind_blanks text.now }
{
    behind(text, count_blanks(text))
}

// What stands behind so many bytes.
fn behind(text: &[u8], count: usize) -> &[u8]
    requires { count ≤ length text.now }
    ensures { result.now ≡ drop count text.now }
{
    &text[count..]
}

// Whether an ALLOW line lets a tool of this machine in.
fn lets_in(alloc: Global, conf: &Conf) -> Result<bool, OutOfMemory> {
    let (Some(from), Some(to)) = (Micros::new(0), Micros::new(Micros::MAX)) else {
        return Ok(false);
    };
    let mut specs = ArrayVec::new();
    specs.push(Spec {
        feed: Feed(u32::MAX),
        pattern: ArrayVec::new(),
    });
    let all = ClassSpec { from, to, specs };
    match conf.policy.reduce(alloc, THIS_MACHINE, &all, false)? {
        Reduced::Nothing { .. } => Ok(false),
        Reduced::Same | Reduced::Fewer(_) => Ok(true),
    }
}
