//! What is seen of a pattern without reading it.
ghost use Rattle.std.specs.Prelude.{◌≡◌};
ghost use Rattle.ldm_check.specs.Concerns.{has_name, is_letter, is_literal, may_be_slash, may_hold_slash, place_behind};

// Where a byte of a pattern stands.
#[derive(Clone, Copy, Debug, PartialEq, Eq)]
pub(crate) enum Place {
    Plain,
    // behind a backslash
    Escaped,
    // in brackets
    Class,
    // behind a backslash in brackets
    EscapedInClass,
    // behind an opening parenthesis
    Opened,
    // behind a question mark there: flags, or the name of a group
    Flags,
}

impl Place {
    // The place of the byte behind this one.
    fn behind(self, byte: u8) -> Place
        ensures { result ≡ place_behind self byte }
    {
        match self {
            Place::Escaped => Place::Plain,
            Place::EscapedInClass => Place::Class,
            Place::Class => match byte {
                b'\\' => Place::EscapedInClass,
                b']' => Place::Plain,
                _ => Place::Class,
            },
            Place::Flags => match byte {
                b':' | b')' | b'>' => Place::Plain,
                _ => Place::Flags,
            },
            Place::Opened if byte == b'?' => Place::Flags,
            Place::Plain | Place::Opened => match byte {
                b'\\' => Place::Escaped,
                b'[' => Place::Class,
                b'(' => Place::Opened,
                _ => Place::Plain,
            },
        }
    }

    // Whether the byte that stands here is found as it is.
    fn is_literal(self) -> bool
        ensures { result ≡ is_literal self }
    {
        match self {
            Place::Plain | Place::Opened => true,
            _ => false,
        }
    }
}

/// Whether a pattern has a letter from g to z, of either case, that stands for itself: no address has one.
pub(crate) fn has_name(pattern: &[u8]) -> bool
    ensures { result ≡ has_name pattern.entry.now }
{
    let mut place = Place::Plain;
    let mut left = pattern;
    while let [byte, others @ ..] = left {
        if place.is_literal() && is_letter(*byte) {
            return true;
        }
        place = place.behind(*byte);
        left = others;
    }
    false
}

fn is_letter(byte: u8) -> bool
    ensures { result ≡ is_letter byte }
{
    matches!(byte, b'g'..=b'z' | b'G'..=b'Z')
}

/// Whether a group of a pattern may hold a slash or a dot: a dot, a slash, a negated class or an escape of upper case
/// stands behind the first parenthesis.
pub(crate) fn may_hold_slash(pattern: &[u8]) -> bool
    ensures { result ≡ may_hold_slash pattern.entry.now }
{
    let mut place = Place::Plain;
    let mut in_group = false;
    let mut left = pattern;
    while let [byte, others @ ..] = left {
        if in_group && may_be_slash(place, *byte) {
            return true;
        }
        if place.is_literal() && *byte == b'(' {
            in_group = true;
        }
        place = place.behind(*byte);
        left = others;
    }
    false
}

fn may_be_slash(place: Place, byte: u8) -> bool
    ensures { result ≡ may_be_slash place byte }
{
    match place {
        Place::Plain | Place::Opened => matches!(byte, b'.' | b'/'),
        Place::Class => matches!(byte, b'^' | b'/'),
        Place::Escaped => byte.is_ascii_uppercase(),
        Place::EscapedInClass | Place::Flags => false,
    }
}
