//! Links.
ghost use Rattle.std.specs.Prelude.{◌≡◌, false};
ghost use Rattle.ldm_outside.specs.Link.{IsNotClosed};

use ldm_drive::{Trial, bytes_in, copied, numbers, push, tell_bytes, tell_count, tell_word};
use ldm_outside::{Awaited, Got, Link, Way, send_all};
use ldm_outside_memory::{LinkScript, MemLink};

// A link that gives five bytes in pieces of 2, of 1 and of what is left, and takes two bytes a call.
fn link_of(trial: &mut Trial, has_end: bool, failing: Vec<u64>) -> MemLink
    ensures { result.closed ≡ false }
{
    let script = LinkScript {
        bytes: copied(trial, b"abcde"),
        pieces: copied(trial, &[2, 1]),
        has_end,
        most_sent: 2,
        failing,
    };
    MemLink::new(trial.alloc(), script)
}

// So many calls of `recv`.
fn hear<K: Link>(trial: &mut Trial, link: &mut K, count: u64)
    requires { IsNotClosed (K.tells link.old) }
{
    for _ in 0..count {
        let mut buffer = [0; 4];
        match link.recv(&mut buffer, Awaited::Feed) {
            Got::Bytes(n) => tell_bytes(trial, &buffer[..n]),
            Got::End => tell_word(trial, "end"),
            Got::Failed => tell_word(trial, "failed"),
        }
    }
}

// All bytes that the link was sent, or all that it gave.
fn tell_passed(trial: &mut Trial, sent: bool, link: &MemLink) {
    let mut bytes = Vec::new(trial.alloc());
    for item in link.passed() {
        if (item.way == Way::Sent) == sent {
            push(trial, &mut bytes, item.byte);
        }
    }
    tell_bytes(trial, &bytes);
}

fn end_of_link(trial: &mut Trial, link: &MemLink) {
    tell_count(trial, "ends", link.ends());
    tell_count(trial, "faults", link.faults());
    tell_word(trial, if link.is_closed() { "closed" } else { "open" });
}

/// `recv END FAILING COUNT`: so many calls, with an end behind the bytes where END is `end`.
pub fn recv(trial: &mut Trial) {
    let has_end = trial.word() == "end";
    let failing = numbers(trial);
    let mut link = link_of(trial, has_end, failing);
    let count = trial.number();
    hear(trial, &mut link, count);
    tell_word(trial, "given");
    tell_passed(trial, false, &link);
    end_of_link(trial, &link);
}

/// `send FAILING PIECE`: the piece is sent whole.
pub fn send(trial: &mut Trial) {
    let failing = numbers(trial);
    let mut link = link_of(trial, true, failing);
    let sent = send_all(&mut link, bytes_in(trial.word()));
    tell_word(trial, if sent.is_ok() { "ok" } else { "failed" });
    tell_word(trial, "sent");
    tell_passed(trial, true, &link);
    end_of_link(trial, &link);
}

fn hang_up<K: Link>(link: &mut K) {
    link.close();
}

/// `close`.
pub fn close(trial: &mut Trial) {
    let never = Vec::new(trial.alloc());
    let mut link = link_of(trial, true, never);
    hang_up(&mut link);
    end_of_link(trial, &link);
}
