// One axis of a constellation: levels 2 apart, each in the middle of a stretch of 128 sixty-fourths. All signed arithmetic is here.
ghost use Rattle.std.specs.Prelude.{◌≡◌, ◌%◌, not, ◌&&◌, ◌≤◌, ◌<◌};
ghost use Rattle.nearest.specs.Axes.{raised, width_of, edge_of, stretch_of, beyond_of, level_in, off_of, unit_of, is_negative};

// The axis of a constellation with so many bits per point, and how many levels it has. Its stretches are numbered from 0, below the width, as each method asks:
// a type of stretches would name its axis, and whoever has two would have to know that it is the same.
#[derive(Clone, Copy)]
pub(crate) struct Axis {
    pub(crate) bits: u8,
    width: u16,
    ghost known: { (2 ≤ bits) × (bits ≤ 10) },
    ghost wide: { width ≡ width_of bits },
    ghost narrow: { (2 ≤ width) × (width ≤ 32) },
}

impl Axis {
    // The axis of a full square of levels.
    pub(crate) fn of_even(bits: u8) -> Axis
        requires { (2 ≤ bits) × (bits ≤ 10) × (bits % 2 ≡ 0) }
        ensures { result.bits ≡ bits }
    {
        Axis {
            bits,
            width: 1u16 << (bits / 2),
        }
    }

    // The axis of a square with holes.
    pub(crate) fn of_odd(bits: u8) -> Axis
        requires { (3 ≤ bits) × (bits ≤ 10) × (bits % 2 ≡ 1) }
        ensures { result.bits ≡ bits }
    {
        Axis {
            bits,
            width: 3u16 << ((bits - 3) / 2),
        }
    }

    // Where stretch j begins.
    fn edge(self, j: u16) -> u16
        requires { j < self.width }
        ensures { result ≡ edge_of self.width j }
    {
        32768 - 64 * self.width + 128 * j
    }

    // The stretch in which x lies.
    pub(crate) fn stretch(self, x: u16) -> u16
        ensures { (result ≡ stretch_of self.width x) × (result < self.width) }
    {
        let first = self.edge(0);
        if x < first {
            return 0;
        }
        ((x - first) / 128).min(self.width - 1)
    }

    // The stretch beyond the line on which x lies; j, its own, where it lies on none.
    pub(crate) fn beyond(self, x: u16, j: u16) -> u16
        requires { j < self.width }
        ensures { (result ≡ beyond_of self.width x j) × (result ≤ j) }
    {
        if j == 0 {
            return 0;
        }
        if x == self.edge(j) { j - 1 } else { j }
    }

    // The level of stretch j.
    pub(crate) fn level(self, j: u16) -> i16
        requires { j < self.width }
        ensures { result ≡ level_in self.width j }
    {
        (2 * j + 1) as i16 - self.width as i16
    }

    // How far x is from the level of stretch j.
    pub(crate) fn off(self, x: u16, j: u16) -> u64
        requires { j < self.width }
        ensures { (result ≡ off_of self.width x j) × (result < 65536) }
    {
        u64::from(x.abs_diff(self.edge(j) + 64))
    }
}

// What came in, raised by 32768.
pub(crate) fn raised(x: i16) -> u16
    ensures { result ≡ raised x }
{
    if x < 0 {
        return 32767 - ((-1 - x) as u16);
    }
    32768 + x as u16
}

// +1 or -1, on the side of x.
pub(crate) fn unit(x: i16) -> i16
    ensures { result ≡ unit_of x }
{
    if x < 0 { -1 } else { 1 }
}

// Whether i is negative, and q is not.
pub(crate) fn opposite(i: i16, q: i16) -> bool
    ensures { result ≡ (is_negative i && not (is_negative q)) }
{
    i < 0 && 0 <= q
}
