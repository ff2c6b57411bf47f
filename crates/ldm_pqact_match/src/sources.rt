//! What the forms in a word stand for.
ghost use Rattle.std.specs.Prelude.{◌≡◌, ◌∷◌, ◌++◌, ◌≤◌, IfOk, IfSome, MatchResult};
ghost use Rattle.ldm_pqact_match.specs.Substitution.{group_text, mark_text, part_text, piece_text};
ghost use Rattle.ldm_pqact_match.specs.Substitution.{month_name, date_said, day_said, possible_day};
ghost use Rattle.ldm_pqact_match.specs.Views.{meanings_of};
ghost use Rattle.ldm_pqact_match.specs.Reading.{IsStopOf, Appends};

use crate::day::Day;
use crate::forms::{DatePart, Mark, Piece};
use crate::moment::Moment;
use crate::substitute::WordFault;
use crate::text::Text;
use ldm_pattern::{GroupNo, Groups};
use ldm_types::OutOfMemory;

/// What the forms in the words of an entry stand for.
#[derive(Clone, Copy)]
pub struct Sources<'a> {
    /// The groups of its match.
    pub groups: Groups<'a>,
    /// When the product was inserted.
    pub inserted: &'a Moment,
    pub seqno: u32,
}

impl Sources<'_> {
    /// Appends what a piece of a word becomes.
    pub fn append(&self, text: &mut Text, piece: Piece) -> Result<(), WordFault>
        ensures { let meaning = piece_text (meanings_of self.now) piece in
            MatchResult result (λ _. Appends meaning text.old text.new) (IsStopOf meaning) }
    {
        match piece {
            Piece::Byte(byte) => Ok(text.push(byte)?),
            Piece::Group(group) => Ok(text.push_bytes(self.group(group))?),
            Piece::Mark(mark) => Ok(self.append_mark(text, mark)?),
            Piece::Date { group, part } => {
                let number = group.get();
                let day = self
                    .date_of(group)
                    .ok_or(WordFault::NoDay { group: number })?;
                Ok(append_part(text, &day, self.inserted.hour(), part)?)
            }
        }
    }

    // The part of the ident that a group has, or nothing.
    fn group(&self, group: GroupNo) -> &[u8]
        ensures { result.now ≡ group_text (meanings_of self.now).groups group }
    {
        match self.groups.part(group) {
            Some(part) => part,
            None => b"",
        }
    }

    // The date of the day that a group says, if it says one.
    fn date_of(&self, group: GroupNo) -> Option<Day>
        ensures { let meanings = meanings_of self.now in
            result ≡ date_said meanings.inserted.date (group_text meanings.groups group) }
    {
        self.inserted.nearest(day_said(self.group(group))?)
    }

    fn append_mark(&self, text: &mut Text, mark: Mark) -> Result<(), OutOfMemory>
        ensures { IfOk result (λ _. text.new ≡ text.old ++ mark_text (meanings_of self.now) mark) }
    {
        let day = self.inserted.day();
        match mark {
            Mark::Sequence => text.push_number(self.seqno),
            Mark::Percent => text.push(b'%'),
            Mark::Year => text.push_digits(4, day.year()),
            Mark::ShortYear => text.push_digits(2, day.year()),
            Mark::Month => text.push_digits(2, day.month() as u32),
            Mark::Day => text.push_digits(2, day.day() as u32),
            Mark::Hour => text.push_digits(2, self.inserted.hour() as u32),
            Mark::Minute => text.push_digits(2, self.inserted.minute() as u32),
            Mark::Second => text.push_digits(2, self.inserted.second() as u32),
            Mark::DayOfYear => text.push_digits(3, day.place_in_year() as u32),
        }
    }
}

// The day of the month that one or two digits say.
fn day_said(text: &[u8]) -> Option<u8>
    ensures day { result ≡ day_said text.now }
    ensures bound { IfSome result (λ day. day ≤ 31) }
{
    match text {
        [digit] if digit.is_ascii_digit() => possible_day(digit - b'0'),
        [tens, digit] if tens.is_ascii_digit() && digit.is_ascii_digit() => {
            possible_day(10 * (tens - b'0') + (digit - b'0'))
        }
        _ => None,
    }
}

fn possible_day(day: u8) -> Option<u8>
    ensures day { result ≡ possible_day day }
    ensures bound { IfSome result (λ day. day ≤ 31) }
{
    if matches!(day, 1..=31) {
        Some(day)
    } else {
        None
    }
}

const MONTHS: [&[u8]; 12] = [
    b"jan", b"feb", b"mar", b"apr", b"may", b"jun", b"jul", b"aug", b"sep", b"oct", b"nov", b"dec",
];

// The name of a day's month.
fn month_name(day: &Day) -> &'static [u8]
    ensures { result.now ≡ month_name day.now.month }
{
    MONTHS[day.month() as usize - 1]
}

fn append_part(text: &mut Text, day: &Day, hour: u8, part: DatePart) -> Result<(), OutOfMemory>
    ensures { IfOk result (λ _. text.new ≡ text.old ++ part_text day.now hour part) }
{
    match part {
        DatePart::Year => text.push_digits(4, day.year()),
        DatePart::ShortYear => text.push_digits(2, day.year()),
        DatePart::Month => text.push_digits(2, day.month() as u32),
        DatePart::MonthName => text.push_bytes(month_name(day)),
        DatePart::Day => text.push_digits(2, day.day() as u32),
        DatePart::Hour => text.push_digits(2, hour as u32),
    }
}
