//! The example of ldm_xdr.

ghost use Rattle.std.specs.Prelude.{◌≡◌, ◌≤◌, Ok, length};
ghost use Rattle.ldm_types.specs.Info.{metadata_len};

use ldm_types::Info;
use ldm_xdr::{XdrFault, read_info, write_info};

/// Metadata, written into room that is long enough, and read again.
pub fn there_and_back(info: &Info, room: &mut [u8]) -> Result<Info, XdrFault>
    requires { metadata_len info.now ≤ length room.old }
    ensures { result ≡ Ok info.now }
{
    write_info(info, room);
    let (read, _) = read_info(room)?;
    Ok(read)
}
