// The entries of receive and send rings.
ghost use Rattle.std.specs.Prelude.{◌≡◌};

pub mod parts;

// A part of the frame memory: `length` bytes from `address` on. No option is in use, so `options` is 0.
#[derive(Clone, Copy, PartialEq, Eq, Debug)]
pub struct Descriptor {
    address: u64,
    length: u32,
    options: u32,
    ghost plain: { options ≡ 0 },
}
