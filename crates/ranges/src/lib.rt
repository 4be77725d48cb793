// Closed ranges of addresses, rounding to an alignment, requests for ranges, and the reasons of refusals.
// Every function is total: it demands nothing of its caller, and what it refuses could not be had.
#![tactic(auto)]

ghost use Rattle.std.specs.Prelude.{◌≡◌};
ghost use Rattle.ranges.specs.Align.{Decides, PowerOfTwo, RoundedDown, RoundedUp};
ghost use Rattle.ranges.specs.Range.{Overlap, Contains, Counts, MakesRange};
ghost use Rattle.ranges.specs.Reasons.{number_of};
ghost use Rattle.ranges.specs.Request.{MakesPolicy, MakesConstraint};

use std::fmt;

// Why an operation is refused. The order is that of the numbers, which never change.
#[derive(Clone, Copy, Debug, PartialEq, Eq)]
pub enum Error {
    Overflow,
    OutOfRange,
    AlreadyReleased,
    NeverAllocated,
    ResourceNotAvailable,
    InvalidRange,
    InvalidAlignment,
    UnalignedAddress,
    Underflow,
    InvalidSize,
    // The lent memory, or the limit that its lender named, is too small.
    NoRoom,
    // A number that stands for no policy.
    InvalidPolicy,
    // The lent memory holds no allocator of the kind that is asked.
    NoState,
}

impl fmt::Display for Error {
    fn fmt<W: fmt::Write>(&self, f: &mut fmt::Formatter<W>) -> fmt::Result {
        f.write_str(match self {
            Error::Overflow => "overflow",
            Error::OutOfRange => "out of range",
            Error::AlreadyReleased => "already released",
            Error::NeverAllocated => "never allocated",
            Error::ResourceNotAvailable => "not available",
            Error::InvalidRange => "invalid range",
            Error::InvalidAlignment => "invalid alignment",
            Error::UnalignedAddress => "unaligned",
            Error::Underflow => "underflow",
            Error::InvalidSize => "invalid size",
            Error::NoRoom => "no room",
            Error::InvalidPolicy => "invalid policy",
            Error::NoState => "no state",
        })
    }
}

impl std::error::Error for Error {}

// Both ends belong to the range.
#[derive(Clone, Copy, Debug, PartialEq, Eq)]
pub struct RangeInclusive {
    pub start: u64,
    pub end: u64,
}

// Where a range is wanted: as low as it fits, as high as it fits, or at one address.
#[derive(Clone, Copy, Debug, PartialEq, Eq)]
pub enum AllocPolicy {
    FirstMatch,
    LastMatch,
    ExactMatch(u64),
}

// A request for `size` addresses from a multiple of `align` on.
#[derive(Clone, Copy, Debug, PartialEq, Eq)]
pub struct Constraint {
    pub size: u64,
    pub align: u64,
    pub policy: AllocPolicy,
}

impl Error {
    // The number by which C and stored answers know the reason. 0 is no reason: it stands for done.
    pub fn number(self) -> u32
        ensures { result ≡ number_of self }
    {
        match self {
            Error::Overflow => 1,
            Error::OutOfRange => 2,
            Error::AlreadyReleased => 3,
            Error::NeverAllocated => 4,
            Error::ResourceNotAvailable => 5,
            Error::InvalidRange => 6,
            Error::InvalidAlignment => 7,
            Error::UnalignedAddress => 8,
            Error::Underflow => 9,
            Error::InvalidSize => 10,
            Error::NoRoom => 11,
            Error::InvalidPolicy => 12,
            Error::NoState => 13,
        }
    }
}

impl RangeInclusive {
    // Refused: a start above the end, and the whole of the 64-bit addresses, whose length does not fit.
    pub fn new(start: u64, end: u64) -> Result<RangeInclusive, Error>
        ensures { MakesRange start end result }
    {
        if end < start || end - start == u64::MAX {
            return Err(Error::InvalidRange);
        }
        Ok(RangeInclusive { start, end })
    }

    pub fn start(self) -> u64
        ensures { result ≡ self.start }
    {
        self.start
    }

    pub fn end(self) -> u64
        ensures { result ≡ self.end }
    {
        self.end
    }

    // The number of addresses; 0 for a pair that `new` refuses.
    pub fn len(self) -> u64
        ensures { Counts self result }
    {
        if self.end < self.start {
            return 0;
        }
        (self.end - self.start).wrapping_add(1)
    }

    // Whether the two have an address in common.
    pub fn overlaps(self, other: RangeInclusive) -> bool
        ensures { Decides result (Overlap self other) }
    {
        self.start.max(other.start) <= self.end.min(other.end)
    }

    // Whether every address of the other is one of this range.
    pub fn contains(self, other: RangeInclusive) -> bool
        ensures { Decides result (Contains self other) }
    {
        other.end < other.start || self.start <= other.start && other.end <= self.end
    }
}

impl fmt::Display for RangeInclusive {
    fn fmt<W: fmt::Write>(&self, f: &mut fmt::Formatter<W>) -> fmt::Result {
        write!(f, "0x{:x}..0x{:x}", self.start, self.end)
    }
}

impl AllocPolicy {
    // The policy that a number from outside stands for: 0 first, 1 last, 2 exact at the address, which
    // the other two do not look at.
    pub fn from_number(kind: u32, address: u64) -> Result<AllocPolicy, Error>
        ensures { MakesPolicy kind address result }
    {
        match kind {
            0 => Ok(AllocPolicy::FirstMatch),
            1 => Ok(AllocPolicy::LastMatch),
            2 => Ok(AllocPolicy::ExactMatch(address)),
            _ => Err(Error::InvalidPolicy),
        }
    }
}

impl Constraint {
    // Refused, in this order: size 0; an alignment that is no power of two; an exact address that is
    // no multiple of the alignment.
    pub fn new(size: u64, align: u64, policy: AllocPolicy) -> Result<Constraint, Error>
        ensures { MakesConstraint size align policy result }
    {
        if size == 0 {
            return Err(Error::InvalidSize);
        }
        if !is_power_of_two(align) {
            return Err(Error::InvalidAlignment);
        }
        if let AllocPolicy::ExactMatch(at) = policy {
            if at & (align - 1) != 0 {
                return Err(Error::UnalignedAddress);
            }
        }
        Ok(Constraint {
            size,
            align,
            policy,
        })
    }
}

// Whether x is a power of two.
pub fn is_power_of_two(x: u64) -> bool
    ensures { Decides result (PowerOfTwo x) }
{
    x.is_power_of_two()
}

// The greatest multiple of k that is not above a, where k is a power of two.
pub fn align_down(a: u64, k: u64) -> Result<u64, Error>
    ensures { RoundedDown a k result }
{
    if !is_power_of_two(k) {
        return Err(Error::InvalidAlignment);
    }
    Ok(a - (a & (k - 1)))
}

// The least multiple of k that is not below a, where k is a power of two; "overflow" where that
// does not fit 64 bits.
pub fn align_up(a: u64, k: u64) -> Result<u64, Error>
    ensures { RoundedUp a k result }
{
    if !is_power_of_two(k) {
        return Err(Error::InvalidAlignment);
    }
    let m = k - 1;
    let t = a.checked_add(m).ok_or(Error::Overflow)?;
    Ok(t - (t & m))
}
