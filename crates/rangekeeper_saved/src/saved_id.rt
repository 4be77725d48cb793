// The names for saving and loading an id allocator.
ghost use Rattle.saved_ids.specs.Contract.{Sizes};
ghost use Rattle.rangekeeper_saved.specs.SavedId.{Saves, Loads};

use crate::answers;

// How many bytes the allocator takes when it is saved; 0 where the block's header is no allocator's.
#[unsafe(no_mangle)]
pub extern "C" fn rk_id_saved_bytes(mem: &[u64]) -> usize
    ensures { Sizes mem.now result }
{
    saved_ids::bytes(mem)
}

// Writes the allocator into the first bytes, and says how many those are.
#[unsafe(no_mangle)]
pub extern "C" fn rk_id_save(mem: &[u64], bytes: &mut [u8], written: &mut usize) -> u32
    ensures { Saves mem.now bytes.old written.old result bytes.new written.new }
{
    answers::of_save(saved_ids::save(mem, bytes), written)
}

// Makes the block hold the allocator with which the bytes begin, and says how many those are, or where a flaw stands.
#[unsafe(no_mangle)]
pub extern "C" fn rk_id_load(bytes: &[u8], mem: &mut [u64], at: &mut usize) -> u32
    ensures { Loads bytes.now mem.old at.old result mem.new at.new }
{
    answers::of_load(loaded_ids::load(bytes, mem), at)
}
