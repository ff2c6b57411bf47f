//! The front of a record, and what its metadata tell.
ghost use Rattle.std.specs.Prelude.{◌≡◌, take};
ghost use Rattle.ldm_relay.specs.declared.front.TheConstants.{LONGEST_CALL};
ghost use Rattle.ldm_model.specs.Product.{extent_of};

use ldm_relay::LONGEST_CALL;
use ldm_types::Info;
use ldm_xdr::info_len;

/// The bytes that a product takes in an arena.
pub(crate) fn extent(info: &Info) -> u64
    ensures { result ≡ extent_of info.now }
{
    (info_len(info) as u64 + u64::from(info.size())).div_ceil(8) * 8
}

/// The first bytes of a record, no more than the longest call has.
pub(crate) fn front_in(bytes: &[u8]) -> &[u8]
    ensures { result.now ≡ take LONGEST_CALL bytes.now }
{
    if bytes.len() <= LONGEST_CALL as usize {
        return bytes;
    }
    &bytes[..LONGEST_CALL as usize]
}
