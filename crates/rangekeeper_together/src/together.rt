// The names for several things or none. After a refusal each block holds the state from before, and *refused says whose refusal it was:
// 1 or 2 for a pool, 3 for the ids. The other out-parameters are written only where all is granted.
ghost use Rattle.rangekeeper_together.specs.Together.{Requests, Offers, OffersThree, asked, outs, outs_three};

use both::{PairError, TripleError};
use ranges::{AllocPolicy, Constraint, Error};

// A request in numbers, if its policy is one.
fn read(size: u64, align: u64, policy: u32, address: u64) -> Option<Constraint>
    ensures { Requests (asked size align policy address) result }
{
    match AllocPolicy::from_number(policy, address) {
        Ok(policy) => Some(Constraint {
            size,
            align,
            policy,
        }),
        Err(_) => None,
    }
}

// Grants a range of each of two pools, or of neither.
#[unsafe(no_mangle)]
pub extern "C" fn rk_both(
    first: &mut [u64],
    size1: u64,
    align1: u64,
    policy1: u32,
    address1: u64,
    second: &mut [u64],
    size2: u64,
    align2: u64,
    policy2: u32,
    address2: u64,
    start1: &mut u64,
    start2: &mut u64,
    refused: &mut u32,
) -> u32
    ensures { Offers first.old (asked size1 align1 policy1 address1) second.old (asked size2 align2 policy2 address2) (outs start1.old start2.old refused.old) result first.new second.new (outs start1.new start2.new refused.new) }
{
    let Some(q) = read(size1, align1, policy1, address1) else {
        *refused = 1;
        return Error::InvalidPolicy.number();
    };
    let Some(w) = read(size2, align2, policy2, address2) else {
        *refused = 2;
        return Error::InvalidPolicy.number();
    };
    match both::two(first, q, second, w) {
        Ok((r, s)) => {
            *start1 = r.start;
            *start2 = s.start;
            0
        }
        Err(PairError::First(e)) => {
            *refused = 1;
            e.number()
        }
        Err(PairError::Second(e)) => {
            *refused = 2;
            e.number()
        }
    }
}

// Grants a range of each of two pools and the lowest id that is not granted, or nothing.
#[unsafe(no_mangle)]
pub extern "C" fn rk_all_three(
    first: &mut [u64],
    size1: u64,
    align1: u64,
    policy1: u32,
    address1: u64,
    second: &mut [u64],
    size2: u64,
    align2: u64,
    policy2: u32,
    address2: u64,
    ids: &mut [u64],
    start1: &mut u64,
    start2: &mut u64,
    id: &mut u32,
    refused: &mut u32,
) -> u32
    ensures { OffersThree first.old (asked size1 align1 policy1 address1) second.old (asked size2 align2 policy2 address2) ids.old (outs_three start1.old start2.old id.old refused.old) result first.new second.new ids.new (outs_three start1.new start2.new id.new refused.new) }
{
    let Some(q) = read(size1, align1, policy1, address1) else {
        *refused = 1;
        return Error::InvalidPolicy.number();
    };
    let Some(w) = read(size2, align2, policy2, address2) else {
        *refused = 2;
        return Error::InvalidPolicy.number();
    };
    match both::three(first, q, second, w, ids) {
        Ok((x, y, i)) => {
            *start1 = x.start;
            *start2 = y.start;
            *id = i;
            0
        }
        Err(TripleError::First(e)) => {
            *refused = 1;
            e.number()
        }
        Err(TripleError::Second(e)) => {
            *refused = 2;
            e.number()
        }
        Err(TripleError::Third(e)) => {
            *refused = 3;
            e.number()
        }
    }
}
