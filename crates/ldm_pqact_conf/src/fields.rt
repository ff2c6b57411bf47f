//! The fields of an entry.
ghost use Rattle.std.specs.Prelude.{◌≡◌, ◌≤◌, length};
ghost use Rattle.std.specs.List.{prefix_len};
ghost use Rattle.std.specs.Option.{option_map};
ghost use Rattle.ldm_pqact_conf.specs.Fields.{fields_of, first_field, behind_field, is_tab};
ghost use Rattle.ldm_pqact_conf.specs.Kept.{fields_view};

use ldm_text::place_of;

/// The fields of an entry, as they stand in its text.
#[derive(Clone, Copy)]
pub struct Fields<'a> {
    pub feedtype: &'a [u8],
    pub pattern: &'a [u8],
    pub action: &'a [u8],
    pub arguments: &'a [u8],
}

/// The fields of an entry, if none is missing.
pub fn split_fields(text: &[u8]) -> Option<Fields<'_>>
    ensures { option_map fields_view result ≡ fields_of text.now }
{
    let (feedtype, rest) = first_field(text);
    if rest.is_empty() {
        return None;
    }
    let (pattern, rest) = first_field(rest);
    if rest.is_empty() {
        return None;
    }
    let (action, arguments) = first_field(rest);
    Some(Fields {
        feedtype,
        pattern,
        action,
        arguments,
    })
}

// The first field of a text, and what is left behind the tabs that end it.
fn first_field(text: &[u8]) -> (&[u8], &[u8])
    ensures field { result.0.now ≡ first_field text.now }
    ensures behind { result.1.now ≡ behind_field text.now }
{
    let (field, behind) = text.split_at(place_of(b'\t', text));
    (field, &behind[count_tabs(behind)..])
}

// How many tabs the text begins with.
fn count_tabs(text: &[u8]) -> usize
    ensures count { result ≡ prefix_len is_tab text.now }
    ensures inside { result ≤ length text.now }
{
    text.iter().take_while(|byte| **byte == b'\t').count()
}
