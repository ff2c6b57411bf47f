//! How many passes a node takes.
ghost use Rattle.std.specs.Prelude.{◌≡◌, ◌+◌, min};

/// The most passes that a queue is asked for.
pub(crate) const MOST_PASSES: u32 = 4_294_967_295;

/// One pass for each worker that lets peers in, one for each request, and one for the last look at the queue. It stays
/// at [`MOST_PASSES`] where it would pass that.
pub(crate) fn count_passes(workers: u32, requests: usize) -> u32
    ensures { result ≡ min (workers + requests + 1) MOST_PASSES }
{
    let requests = match u32::try_from(requests) {
        Ok(requests) => requests,
        Err(_) => MOST_PASSES,
    };
    workers.saturating_add(requests).saturating_add(1)
}
