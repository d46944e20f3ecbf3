// A block RAM's shape.
ghost use Rattle.std.specs.Prelude.{◌≡◌, ◌+◌};
ghost use Rattle.netlist.specs.Reader.{address_width, shift_of, shift_fits};

// The address shift of a physical width; any other width is not allowed.
pub fn address_shift(physical: u32) -> Option<u32>
    ensures { result ≡ shift_of physical }
{
    match physical {
        1 => Some(0),
        2 => Some(1),
        4 => Some(2),
        9 => Some(3),
        18 => Some(4),
        _ => None,
    }
}

// How many bits number the words, one at least.
pub fn address_width(depth: u32) -> u32
    ensures { result ≡ address_width depth }
{
    if depth <= 2 {
        return 1;
    }
    (depth - 1).ilog2() + 1
}

pub fn shift_fits(depth: u32, physical: u32) -> bool
    ensures { result ≡ shift_fits depth (shift_of physical) }
{
    address_shift(physical).is_some_and(|shift| shift + address_width(depth) <= 14)
}
