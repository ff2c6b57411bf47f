//! The example of ldm_script.

use ldm_script::{Act, BadLine, read_line};
use ldm_types::Actor;

/// The bytes of the body that a line inserts, if it inserts one.
pub fn inserted_size(line: &[u8]) -> Result<Option<u32>, BadLine> {
    let Some(order) = read_line(line, Actor::COUNT)? else {
        return Ok(None);
    };
    match &order.act {
        Act::Insert { info, .. } => Ok(Some(info.size())),
        _ => Ok(None),
    }
}
