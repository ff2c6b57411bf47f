//! The example of ldm_outside.

ghost use Rattle.std.specs.Prelude.{◌≡◌, false};

use ldm_outside::{Came, Door, send_all};

/// Greets the next peer that comes, and gives its link back.
pub fn greet_next<D: Door>(door: &mut D) -> bool
    requires { (D.tells door.old).links.out ≡ false }
    ensures { (D.tells door.new).links.out ≡ false }
{
    match door.accept() {
        Came::Peer { mut link, .. } => {
            let greeted = send_all(&mut link, b"hello\n").is_ok();
            door.give_back(link);
            greeted
        }
        Came::Closed | Came::Failed => false,
    }
}
