//! The REQUEST lines of a node, of which its journal tells.
ghost use Rattle.std.specs.Prelude.{◌≡◌, ◌+◌, ◌<◌, length, IfOk};
ghost use Rattle.ldm_types.specs.declared.numbers.TheConstants.Actor.{COUNT};
ghost use Rattle.ldm_conf.specs.Confs.{conf_view, request_view};
ghost use Rattle.ldm_node_command.specs.Lines.{key_of, line_of, lines_from};

use ldm_conf::{Conf, Request};
use ldm_recorder::Line;
use ldm_types::{Actor, OutOfMemory, Signature};
use md5::{Digest, Md5};
use std::alloc::Global;

/// The REQUEST lines of a node, and a place for the last product of each.
#[derive(Drop)]
pub(crate) struct Lines {
    pub(crate) lines: Vec<Line>,
    pub(crate) lasts: Vec<Option<Signature>>,
}

/// The lines of a configuration, of none of which a product is known. The workers behind those that let peers in ask
/// for them, in order.
pub(crate) fn lines_of(alloc: Global, conf: &Conf, workers: u32) -> Result<Lines, OutOfMemory>
    requires { workers + length conf.now.requests.items < COUNT }
    ensures lines { IfOk result
        (λ known. known.lines.items ≡ lines_from workers (conf_view conf.now).requests) }
    ensures one_each { IfOk result (λ known. length known.lasts.items ≡ length known.lines.items) }
{
    let requests = conf.requests.as_slice();
    let mut lines = Vec::with_capacity(alloc, requests.len())?;
    let mut lasts = Vec::with_capacity(alloc, requests.len())?;
    for (place, request) in requests.iter().enumerate() {
        lines.push_reserved(line_of(workers + place as u32, request));
        lasts.push_reserved(None);
    }
    Ok(Lines { lines, lasts })
}

// The line of a request, of which no product is known.
fn line_of(actor: u32, request: &Request) -> Line
    requires { actor < COUNT }
    ensures { result ≡ line_of actor (request_view request.now) }
{
    let Some(actor) = Actor::new(actor) else {
        unreachable!()
    };
    Line {
        key: key_of(request),
        actor,
        last: 0,
    }
}

// What names the line of a request in each run.
fn key_of(request: &Request) -> [u8; 16]
    ensures { result ≡ key_of (request_view request.now) }
{
    let mut hasher = Md5::new();
    hasher.update(request.host.as_slice());
    hasher.update(&[0]);
    hasher.update(&request.port.to_be_bytes());
    let specs = request.class.spec().specs.as_slice();
    for spec in specs {
        hasher.update(&spec.feed.0.to_be_bytes());
        hasher.update(spec.pattern.as_slice());
        hasher.update(&[0]);
    }
    hasher.finalize()
}
