//! Reading hosts and ports.
ghost use Rattle.std.specs.Prelude.{◌≡◌, ◌<◌, IfSome};
ghost use Rattle.std.specs.Option.{option_map};
ghost use Rattle.std.specs.Char.{is_ascii_digit};
ghost use Rattle.std.specs.List.{list_all};
ghost use Rattle.ldm_conf.specs.Addresses.{address_of, at_last_colon, at_port, begins_with_zero, port_of, with_port};
ghost use Rattle.ldm_conf.specs.AddressViews.{address_view, halves_of};

use crate::address::Address;
use crate::limits::DEFAULT_PORT;
use arrayvec::ArrayVec;
use memchr::memrchr;

/// The address that a word means: `HOST`, or `HOST:PORT`, cut at its last colon. A word without a colon is a host, at
/// [`DEFAULT_PORT`].
///
/// `None` comes exactly where the host has no byte or more than 255, or what stands behind the colon is no port.
pub fn read_address(word: &[u8]) -> Option<Address>
    ensures { option_map address_view result ≡ address_of word.now }
{
    match at_last_colon(word) {
        Some((host, port)) => with_port(host, read_port(port)),
        None => at_port(word, DEFAULT_PORT),
    }
}

fn at_last_colon(word: &[u8]) -> Option<(&[u8], &[u8])>
    ensures { option_map halves_of result ≡ at_last_colon word.now }
{
    match memrchr(b':', word) {
        Some(at) => Some((&word[..at], &word[at + 1..])),
        None => None,
    }
}

fn with_port(host: &[u8], port: Option<u16>) -> Option<Address>
    requires { IfSome port (λ port. 0 < port) }
    ensures { option_map address_view result ≡ with_port host.now port }
{
    match port {
        Some(port) => at_port(host, port),
        None => None,
    }
}

// A host with a port, if it is a host.
fn at_port(host: &[u8], port: u16) -> Option<Address>
    requires { 0 < port }
    ensures { option_map address_view result ≡ at_port host.now port }
{
    if host.is_empty() {
        return None;
    }
    let host = ArrayVec::try_from(host).ok()?;
    Some(Address { host, port })
}

/// The port that a text spells: decimal digits without a sign or a leading zero, a number from 1 to 65,535.
pub fn read_port(text: &[u8]) -> Option<u16>
    ensures value { result ≡ port_of text.now }
    ensures some { IfSome result (λ port. 0 < port) }
{
    if begins_with_zero(text) || !are_digits(text) {
        return None;
    }
    match str::from_utf8(text) {
        Ok(digits) => digits.parse().ok(),
        Err(_) => None,
    }
}

fn begins_with_zero(text: &[u8]) -> bool
    ensures { result ≡ begins_with_zero text.now }
{
    match text {
        [first, ..] => *first == b'0',
        [] => false,
    }
}

fn are_digits(text: &[u8]) -> bool
    ensures { result ≡ list_all is_ascii_digit text.now }
{
    text.iter().all(|byte| byte.is_ascii_digit())
}
