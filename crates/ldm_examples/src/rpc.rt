//! The example of ldm_rpc.

ghost use Rattle.std.specs.Prelude.{◌≡◌, false, OnOk};
ghost use Rattle.ldm_rpc.specs.Reading.{is_whole};

use ldm_rpc::{Records, RpcFault};

/// How many records of a stream end in a piece of it.
pub fn count_records(records: &mut Records, piece: &[u8]) -> Result<usize, RpcFault>
    requires { is_whole records.old ≡ false }
    ensures { OnOk result (is_whole records.new ≡ false) }
{
    let mut count = 0usize;
    let mut rest = piece;
    while !rest.is_empty() {
        let taken = records.push(rest)?;
        if records.whole().is_some() {
            count = count.saturating_add(1);
        }
        records.next();
        rest = &rest[taken..];
    }
    Ok(count)
}
