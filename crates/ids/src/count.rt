// How many ids are left.
ghost use Rattle.ids.specs.Contract.{Leaves};

use crate::head;

// How many ids of the interval are not granted now, up to 2^32; 0 where there is no allocator. A step for each 64 ids.
// A number and no Option: C asks it.
pub fn free_count(mem: &[u64]) -> u64
    ensures { Leaves mem.now result }
{
    let Some(h) = head(mem) else {
        return 0;
    };
    bits::zeros(&mem[4..], h.last)
}
