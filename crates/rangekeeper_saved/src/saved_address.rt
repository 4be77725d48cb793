// The names for saving and loading an address allocator.
ghost use Rattle.addresses.specs.Contract.{Says};
ghost use Rattle.saved.specs.Format.{size};
ghost use Rattle.rangekeeper_saved.specs.SavedAddress.{Saves, Loads};

use crate::answers;

// How many bytes the allocator takes when it is saved; 0 where the block's header is no allocator's.
#[unsafe(no_mangle)]
pub extern "C" fn rk_address_saved_bytes(mem: &[u64]) -> usize
    ensures { Says mem.now size result }
{
    saved::bytes(mem)
}

// Writes the allocator into the first bytes, and says how many those are.
#[unsafe(no_mangle)]
pub extern "C" fn rk_address_save(mem: &[u64], bytes: &mut [u8], written: &mut usize) -> u32
    ensures { Saves mem.now bytes.old written.old result bytes.new written.new }
{
    answers::of_save(saved::save(mem, bytes), written)
}

// Makes the block hold the allocator with which the bytes begin, and says how many those are, or where a flaw stands.
#[unsafe(no_mangle)]
pub extern "C" fn rk_address_load(bytes: &[u8], mem: &mut [u64], at: &mut usize) -> u32
    ensures { Loads bytes.now mem.old at.old result mem.new at.new }
{
    answers::of_load(loaded::load(bytes, mem), at)
}
