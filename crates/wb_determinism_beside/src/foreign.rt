//! Has each new kernel an item that isn't the host's?

ghost use Rattle.std.specs.Prelude.{◌≡◌, ◌<◌, IsTrue};
ghost use Rattle.wb_determinism_beside.specs.Inner.Found.{AreForeign, HasForeign, IsFound, new_in};

use crate::found::Found;
use wb_determinism_kernels::host_item;

// Whether each has.
pub(crate) fn are_foreign(found: &Found) -> bool
    requires { IsFound found.now }
    ensures { IsTrue result → AreForeign found.now }
{
    'kernels: for place in 0..found.new.len() {
        if !has_foreign(found, place) {
            return false;
        }
    }
    true
}

// Whether a new kernel has.
fn has_foreign(found: &Found, place: usize) -> bool
    requires found { IsFound found.now }
    requires place { place < new_in found.now }
    ensures { IsTrue result → HasForeign found.now place }
{
    'items: for &item in found.new.kernel(place) {
        match host_item(found.beside.numbers, item) {
            Some(_) => {}
            None => return true,
        }
    }
    false
}
