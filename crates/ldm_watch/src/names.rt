//! The names of a set of feedtypes.
ghost use Rattle.std.specs.Prelude.{◌≡◌, ◌+◌, ◌*◌, ◌<◌, ◌≤◌, ◌++◌, [], length, map, IfSome};
ghost use Rattle.std.specs.Option.{option_copied};
ghost use Rattle.arrayvec.specs.ArrayVec.{array_vec_len};
ghost use Rattle.ldm_feedtype.specs.Names.{feed_names as names_of_feeds};
ghost use Rattle.ldm_watch.specs.FeedNames.{feeds_text, first_named, listed, member_name, members_text};

use arrayvec::ArrayVec;
use ldm_answers::put;
use ldm_feedtype::NAMES;
use ldm_types::Feed;

// A name has at most eight bytes, and one stands in front of it.
pub(crate) const LENGTH: usize = 288;

/// The names of a set of feedtypes: the one that means just these, or else those of its members, with `|` between two.
pub(crate) fn feed_names(feed: Feed) -> ArrayVec<u8, LENGTH>
    ensures { result.items ≡ feeds_text feed.0 }
{
    let mut text = ArrayVec::new();
    match name_of(feed.0) {
        Some(name) => put(&mut text, name),
        None => put_members(&mut text, feed.0),
    }
    text
}

// The names of the members, the lowest first.
fn put_members(text: &mut ArrayVec<u8, LENGTH>, set: u32)
    requires { text.old.items ≡ [] }
    ensures { text.new.items ≡ members_text 32 set }
{
    for bit in 0..32 {
        if set >> bit & 1 == 1 {
            put_member(text, bit);
        }
    }
}

// A name behind those before it.
fn put_member(text: &mut ArrayVec<u8, LENGTH>, bit: u32)
    requires bit { bit < 32 }
    requires room { array_vec_len text.old ≤ 9 * bit }
    ensures text { text.new.items ≡ listed text.old.items (member_name bit) }
    ensures room { array_vec_len text.new ≤ 9 * bit + 9 }
{
    let Some(name) = name_of(1 << bit) else {
        unreachable!();
    };
    if text.is_empty() {
        return put(text, name);
    }
    text.push(b'|');
    put(text, name);
}

// The first name that means just these feedtypes, where one does.
fn name_of(set: u32) -> Option<&'static [u8]>
    ensures name { option_copied result ≡ first_named names_of_feeds set }
    ensures short { IfSome result (λ name. length name.now ≤ 8) }
{
    first_named(&NAMES, set)
}

fn first_named(mut rows: &[(&'static [u8], u32)], set: u32) -> Option<&'static [u8]>
    ensures { option_copied result ≡ first_named (map (λ row. (row.0.now, row.1)) rows.entry.now) set }
{
    while let [row, rest @ ..] = rows {
        if row.1 == set {
            return Some(row.0);
        }
        rows = rest;
    }
    None
}
