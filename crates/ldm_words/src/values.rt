//! The values of options and words.
ghost use Rattle.std.specs.Prelude.{◌≡◌, ◌<◌, ◌≤◌, ◌^◌, [], IfSome, MatchResult, Some, codes, is_none, length};
ghost use Rattle.std.specs.Option.{ForSome, option_map};
ghost use Rattle.clap.specs.Words.{all_of, first_of};
ghost use Rattle.ldm_conf.specs.AddressViews.{address_view};
ghost use Rattle.ldm_conf.specs.Addresses.{port_of};
ghost use Rattle.ldm_conf.specs.Confs as confs;
ghost use Rattle.ldm_feedtype.specs.Reading.{feed_number};
ghost use Rattle.ldm_types.specs.declared.limits.TheConstants.{GREATEST_INSTANT};
ghost use Rattle.ldm_types.specs.Info.{texts_fault};
ghost use Rattle.ldm_words.specs.declared.limits.TheConstants.{MOST_HOURS};
ghost use Rattle.ldm_words.specs.Faults.{IsFaultOf};
ghost use Rattle.ldm_words.specs.Values.{IsName, class_in, class_of, count_of, files_of, hours_of, is_used};
ghost use Rattle.ldm_words.specs.Values.{long_number, optional, origin_of, pattern_of, peer_of, said, seconds_of};
ghost use Rattle.ldm_words.specs.Values.{short_number, texts_of};
ghost use Rattle.ldm_words.specs.Views.{rows_in};

use crate::fault::WordsFault;
use crate::limits::MOST_HOURS;
use arrayvec::ArrayVec;
use clap::ArgMatches;
use ldm_answers::read_number;
use ldm_class::Class;
use ldm_conf::{Address, read_address, read_port};
use ldm_feedtype::read_feed;
use ldm_types::{ClassSpec, Feed, Info, LONGEST_PATTERN, Micros, Signature, Spec};
use std::alloc::Global;

/// The value of an option or a word.
pub(crate) fn value<'a>(matches: &ArgMatches<'a>, name: &str) -> Option<&'a str>
    ensures { option_map (λ text. text.now) result ≡ first_of name.now (rows_in matches.now) }
{
    matches.get_str(name)
}

/// The values of words.
pub(crate) fn values<'m, 'a>(matches: &'m ArgMatches<'a>, name: &str) -> Option<&'m [&'a str]>
    ensures { option_map (λ texts. texts_of texts.now) result ≡ all_of name.now (rows_in matches.entry.now) }
{
    matches.get_raw(name)
}

/// A number of 64 bits.
pub(crate) fn long_number(matches: &ArgMatches<'_>, name: &str) -> Option<u64>
    ensures { result ≡ said long_number name.now (rows_in matches.now) }
{
    let text = value(matches, name)?;
    read_number(text.as_bytes(), u64::MAX)
}

/// A number of 32 bits.
pub(crate) fn short_number(matches: &ArgMatches<'_>, name: &str) -> Option<u32>
    ensures { result ≡ said short_number name.now (rows_in matches.now) }
{
    let text = value(matches, name)?;
    read_short(text)
}

/// Such a number in a text.
pub(crate) fn read_short(text: &str) -> Option<u32>
    ensures { result ≡ short_number text.now }
{
    let number = read_number(text.as_bytes(), u64::from(u32::MAX))?;
    Some(number as u32)
}

/// A number of 32 bits that may be left out.
pub(crate) fn optional_number(matches: &ArgMatches<'_>, name: &str) -> Option<Option<u32>>
    ensures { result ≡ optional short_number (first_of name.now (rows_in matches.now)) }
{
    match value(matches, name) {
        Some(text) => Some(Some(read_short(text)?)),
        None => Some(None),
    }
}

/// A count of products that may be left out.
pub(crate) fn optional_count(matches: &ArgMatches<'_>) -> Option<Option<u64>>
    ensures value { result ≡ optional count_of (first_of (codes "count") (rows_in matches.now)) }
    ensures counted { IfSome result (λ count. ForSome count (λ n. 0 < n)) }
{
    match value(matches, "count") {
        Some(text) => Some(Some(read_count(text)?)),
        None => Some(None),
    }
}

fn read_count(text: &str) -> Option<u64>
    ensures value { result ≡ count_of text.now }
    ensures some { IfSome result (λ n. 0 < n) }
{
    let count = read_number(text.as_bytes(), u64::MAX)?;
    if count == 0 { None } else { Some(count) }
}

/// Seconds between two askings, which may be left out.
pub(crate) fn optional_seconds(matches: &ArgMatches<'_>) -> Option<Option<u32>>
    ensures value { result ≡ optional seconds_of (first_of (codes "every") (rows_in matches.now)) }
    ensures some { IfSome result (λ every. ForSome every (λ n. 0 < n)) }
{
    match value(matches, "every") {
        Some(text) => Some(Some(read_seconds(text)?)),
        None => Some(None),
    }
}

fn read_seconds(text: &str) -> Option<u32>
    ensures value { result ≡ seconds_of text.now }
    ensures some { IfSome result (λ n. 0 < n) }
{
    let seconds = read_short(text)?;
    if seconds == 0 { None } else { Some(seconds) }
}

/// Hours of statistics.
pub(crate) fn hours(matches: &ArgMatches<'_>) -> Option<u32>
    ensures value { result ≡ said hours_of (codes "hours") (rows_in matches.now) }
    ensures some { IfSome result (λ hours. (0 < hours) × (hours ≤ MOST_HOURS)) }
{
    let text = value(matches, "hours")?;
    read_hours(text)
}

fn read_hours(text: &str) -> Option<u32>
    ensures value { result ≡ hours_of text.now }
    ensures some { IfSome result (λ hours. (0 < hours) × (hours ≤ MOST_HOURS)) }
{
    let hours = read_number(text.as_bytes(), u64::from(MOST_HOURS))?;
    if hours == 0 { None } else { Some(hours as u32) }
}

/// An origin that products may have.
pub(crate) fn origin<'a>(matches: &ArgMatches<'a>) -> Option<&'a [u8]>
    ensures value { option_map (λ origin. origin.now) result ≡ said origin_of (codes "origin") (rows_in matches.now) }
    ensures named { IfSome result (λ origin. IsName origin.now []) }
{
    let text = value(matches, "origin")?;
    if is_name(text.as_bytes(), b"") {
        Some(text.as_bytes())
    } else {
        None
    }
}

/// Whether a product may have this origin and this ident.
pub(crate) fn is_name(origin: &[u8], ident: &[u8]) -> bool
    ensures { result ≡ is_none (texts_fault origin.now ident.now) }
{
    let signature = Signature([0; 16]);
    Info::new(instant(0), signature, origin, Feed::default(), 0, ident, 0).is_ok()
}

/// A port.
pub(crate) fn port(matches: &ArgMatches<'_>) -> Option<u16>
    ensures value { result ≡ said port_of (codes "port") (rows_in matches.now) }
    ensures some { IfSome result (λ port. 0 < port) }
{
    let text = value(matches, "port")?;
    read_port(text.as_bytes())
}

/// The node to ask.
pub(crate) fn peer(matches: &ArgMatches<'_>) -> Option<Address>
    ensures { option_map address_view result ≡ said peer_of (codes "peer") (rows_in matches.now) }
{
    let text = value(matches, "peer")?;
    read_peer(text.as_bytes())
}

/// The node in a text.
pub(crate) fn read_peer(text: &[u8]) -> Option<Address>
    ensures { option_map address_view result ≡ peer_of text.now }
{
    if text.contains(&b':') {
        read_address(text)
    } else {
        None
    }
}

/// The feedtypes.
pub(crate) fn feed(matches: &ArgMatches<'_>) -> Option<Feed>
    ensures { option_map (λ feed. feed.0) result ≡ said feed_number (codes "feed") (rows_in matches.now) }
{
    let text = value(matches, "feed")?;
    read_feed(text.as_bytes()).ok()
}

/// The class of the products of all times that the options for feedtypes and pattern ask for.
pub(crate) fn class(alloc: Global, matches: &ArgMatches<'_>) -> Result<Class, WordsFault>
    ensures { let meaning = class_of (rows_in matches.now) in MatchResult result (λ class. meaning ≡ Some class)
        (IsFaultOf meaning) }
{
    let Some(feed) = value(matches, "feed") else {
        return Err(WordsFault::Usage);
    };
    let Some(pattern) = value(matches, "pattern") else {
        return Err(WordsFault::Usage);
    };
    read_class(alloc, feed.as_bytes(), pattern.as_bytes())
}

/// The class of the products of all times that have one of the feedtypes and in whose ident the pattern is found.
pub(crate) fn read_class(alloc: Global, feed: &[u8], pattern: &[u8]) -> Result<Class, WordsFault>
    ensures { let meaning = class_in feed.now pattern.now in MatchResult result (λ class. meaning ≡ Some class)
        (IsFaultOf meaning) }
{
    let Ok(feed) = read_feed(feed) else {
        return Err(WordsFault::Usage);
    };
    let Some(pattern) = read_pattern(pattern) else {
        return Err(WordsFault::Usage);
    };
    let class = Class::build(alloc, &all_times(feed, pattern))?;
    Ok(class)
}

fn read_pattern(text: &[u8]) -> Option<ArrayVec<u8, LONGEST_PATTERN>>
    ensures { option_map (λ pattern. pattern.items) result ≡ pattern_of text.now }
{
    ArrayVec::try_from(text).ok()
}

// The class of the products of all times that one specification wants.
fn all_times(feed: Feed, pattern: ArrayVec<u8, LONGEST_PATTERN>) -> ClassSpec
    ensures { result ≡ confs.all_times feed.0 pattern.items }
{
    let mut specs = ArrayVec::new();
    specs.push(Spec { feed, pattern });
    ClassSpec {
        from: instant(0),
        to: instant(Micros::MAX),
        specs,
    }
}

/// The instant of that many microseconds.
pub(crate) fn instant(n: u64) -> Micros
    requires { n ≤ GREATEST_INSTANT }
    ensures { result ≡ n }
{
    match Micros::new(n) {
        Some(instant) => instant,
        None => unreachable!(),
    }
}

/// Whether a flag is used.
pub(crate) fn is_used(matches: &ArgMatches<'_>, name: &str) -> bool
    ensures { result ≡ is_used (first_of name.now (rows_in matches.now)) }
{
    match value(matches, name) {
        Some(text) => text == "true",
        None => false,
    }
}

/// The files, fewer than 2^32.
pub(crate) fn files<'a>(alloc: Global, matches: &ArgMatches<'a>) -> Result<Vec<&'a str>, WordsFault>
    ensures { let meaning = files_of (rows_in matches.now) in
        MatchResult result (λ files. (meaning ≡ Some (texts_of files.items)) × (length files.items < 2 ^ 32))
        (IsFaultOf meaning) }
{
    let Some(files) = values(matches, "files") else {
        return Err(WordsFault::Usage);
    };
    if files.len() > u32::MAX as usize {
        return Err(WordsFault::Usage);
    }
    Ok(files.to_vec(alloc)?)
}
