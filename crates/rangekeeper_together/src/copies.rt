// The names of the copies.
ghost use Rattle.std.specs.Prelude.{◌≡◌};
ghost use Rattle.rangekeeper_together.specs.Copy.{copied_number, Copies, CopiesIds};

use ranges::Error;

// The number of what a copy answers.
fn number(done: Result<(), Error>) -> u32
    ensures { result ≡ copied_number done }
{
    match done {
        Ok(()) => 0,
        Err(e) => e.number(),
    }
}

// Makes the block `copy` hold the pool that `mem` holds, with this limit, which is the pool's or a larger one.
#[unsafe(no_mangle)]
pub extern "C" fn rk_address_copy(mem: &[u64], copy: &mut [u64], limit: usize) -> u32
    ensures { Copies mem.now limit copy.old result copy.new }
{
    number(copied::copy(mem, copy, limit))
}

// Makes the block `copy` hold the ids that `mem` holds.
#[unsafe(no_mangle)]
pub extern "C" fn rk_id_copy(mem: &[u64], copy: &mut [u64]) -> u32
    ensures { CopiesIds mem.now copy.old result copy.new }
{
    number(copied_ids::copy(mem, copy))
}
