ghost use Rattle.std.specs.Prelude.{◌≡◌, []};

use alw_num::Sequence;

/// Takes all members out of a list. Its room stays for those that come next.
pub fn clear<T: Drop>(list: &mut Sequence<T>)
    ensures { list.new ≡ [] }
{
    while let Some(_member) = list.pop() {}
}
