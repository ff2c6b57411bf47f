//! The forms that stand for something in a word of an entry.
ghost use Rattle.std.specs.Prelude.{◌≡◌, ◌≤◌, nat_eq, length, IfSome, MatchOption, []};
ghost use Rattle.std.specs.List.{starts_with};
ghost use Rattle.std.specs.Option.{option_map};
ghost use Rattle.ldm_pqact_match.specs.Forms.{mark_spelling, mark_at, part_spelling};
ghost use Rattle.ldm_pqact_match.specs.Forms.{part_at, group_at, date_form_at, form_at};
ghost use Rattle.ldm_pqact_match.specs.Reading.{HasFront};

use ldm_pattern::GroupNo;

/// A form without a group. All but two are of the moment at which the product was inserted, in UTC.
#[derive(Clone, Copy)]
pub enum Mark {
    /// The sequence number of the product.
    Sequence,
    /// A percent sign.
    Percent,
    Year,
    ShortYear,
    Month,
    Day,
    Hour,
    Minute,
    Second,
    DayOfYear,
}

impl Mark {
    const ALL: [Mark; 10] = [
        Mark::Sequence,
        Mark::Percent,
        Mark::Year,
        Mark::ShortYear,
        Mark::Month,
        Mark::Day,
        Mark::Hour,
        Mark::Minute,
        Mark::Second,
        Mark::DayOfYear,
    ];

    fn spelling(self) -> &'static [u8]
        ensures { result.now ≡ mark_spelling self }
    {
        match self {
            Mark::Sequence => b"(seq)",
            Mark::Percent => b"%%",
            Mark::Year => b"%Y",
            Mark::ShortYear => b"%y",
            Mark::Month => b"%m",
            Mark::Day => b"%d",
            Mark::Hour => b"%H",
            Mark::Minute => b"%M",
            Mark::Second => b"%S",
            Mark::DayOfYear => b"%j",
        }
    }

    // The mark that a text begins with.
    #[tactic(auto, unfolding(crate::specs::Forms::mark_at))]
    fn at(text: &[u8]) -> Option<Mark>
        ensures { result ≡ mark_at text.now }
    {
        Mark::ALL
            .iter()
            .copied()
            .find(|mark| begins_with(text, mark.spelling()))
    }
}

/// What a form with a date tells of it.
#[derive(Clone, Copy)]
pub enum DatePart {
    Year,
    ShortYear,
    Month,
    MonthName,
    Day,
    /// The hour at which the product was inserted.
    Hour,
}

impl DatePart {
    const ALL: [DatePart; 6] = [
        DatePart::Year,
        DatePart::ShortYear,
        DatePart::Month,
        DatePart::MonthName,
        DatePart::Day,
        DatePart::Hour,
    ];

    // What stands behind the group of the form.
    fn spelling(self) -> &'static [u8]
        ensures { result.now ≡ part_spelling self }
    {
        match self {
            DatePart::Year => b":yyyy)",
            DatePart::ShortYear => b":yy)",
            DatePart::Month => b":mm)",
            DatePart::MonthName => b":mmm)",
            DatePart::Day => b":dd)",
            DatePart::Hour => b":hh)",
        }
    }

    // The part that a text begins with.
    #[tactic(auto, unfolding(crate::specs::Forms::part_at))]
    fn at(text: &[u8]) -> Option<DatePart>
        ensures { result ≡ part_at text.now }
    {
        DatePart::ALL
            .iter()
            .copied()
            .find(|part| begins_with(text, part.spelling()))
    }
}

/// A piece of a word.
#[derive(Clone, Copy)]
pub enum Piece {
    /// It stands for itself.
    Byte(u8),
    /// The part of the ident that a group has.
    Group(GroupNo),
    /// The date of a day that a group says.
    Date { group: GroupNo, part: DatePart },
    Mark(Mark),
}

/// A piece of a word, and how many bytes of the word it takes.
#[derive(Clone, Copy)]
pub struct Form {
    pub piece: Piece,
    pub length: usize,
}

/// What stands at the front of what is left of a word.
pub fn front(text: &[u8]) -> Option<Form>
    ensures { MatchOption result (text.now ≡ []) (HasFront text.now) }
{
    let [byte, ..] = text else {
        return None;
    };
    match form_at(text) {
        Some(form) => Some(form),
        None => Some(Form {
            piece: Piece::Byte(*byte),
            length: 1,
        }),
    }
}

// The form that a text begins with.
fn form_at(text: &[u8]) -> Option<Form>
    ensures form { result ≡ form_at text.now }
    ensures takes { IfSome result (λ form. 1 ≤ form.length) }
    ensures inside { IfSome result (λ form. form.length ≤ length text.now) }
{
    if let Some(mark) = Mark::at(text) {
        return Some(Form {
            piece: Piece::Mark(mark),
            length: mark.spelling().len(),
        });
    }
    if let Some(group) = group_at(text) {
        return Some(Form {
            piece: Piece::Group(group),
            length: 2,
        });
    }
    date_form_at(text)
}

// The group that a text begins with: a backslash and one digit.
fn group_at(text: &[u8]) -> Option<GroupNo>
    ensures group { result ≡ group_at text.now }
    ensures inside { IfSome result (λ _. 2 ≤ length text.now) }
{
    let [b'\\', digit, ..] = text else {
        return None;
    };
    if *digit < b'0' {
        return None;
    }
    GroupNo::new(*digit - b'0')
}

// The form with a date that a text begins with.
fn date_form_at(text: &[u8]) -> Option<Form>
    ensures form { result ≡ date_form_at text.now }
    ensures takes { IfSome result (λ form. 1 ≤ form.length) }
    ensures inside { IfSome result (λ form. form.length ≤ length text.now) }
{
    let [b'(', rest @ ..] = text else {
        return None;
    };
    let group = group_at(rest)?;
    let part = DatePart::at(&rest[2..])?;
    Some(Form {
        piece: Piece::Date { group, part },
        length: 3 + part.spelling().len(),
    })
}

fn begins_with(text: &[u8], spelling: &[u8]) -> bool
    ensures { result ≡ starts_with nat_eq text.now spelling.now }
{
    text.starts_with(spelling)
}
