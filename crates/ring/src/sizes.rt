// How many slots a ring has.
ghost use Rattle.ring.specs.Sizes.{SizeFor};

// The most slots that a ring has, however long its slice is.
pub const MAX_SIZE: usize = 256;

// The largest power of two that so many entries hold, at most 256; fewer than two give 0.
pub fn size_for(entries: usize) -> u32
    ensures { SizeFor entries result }
{
    let most = entries.min(MAX_SIZE) as u32;
    if most < 2 {
        return 0;
    }
    1 << most.ilog2()
}
