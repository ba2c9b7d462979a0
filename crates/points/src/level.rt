// Levels, taken apart into sign and size and put together again: all signed arithmetic is here.
ghost use Rattle.std.specs.Prelude.{◌≡◌};
ghost use Rattle.points.specs.Lent.{parts_of, level_of};

// A level's sign, 1 where it is negative, and its size: n both for n and for -(n + 1).
#[derive(Clone, Copy)]
pub struct Parts {
    pub sign: u16,
    pub size: u16,
}

// A level, taken apart.
pub(crate) fn apart(x: i16) -> Parts
    ensures { result ≡ parts_of x }
{
    if x < 0 {
        return Parts {
            sign: 1,
            size: (-1 - x) as u16,
        };
    }
    Parts {
        sign: 0,
        size: x as u16,
    }
}

// The odd level 2h + 1, negated unless the sign is 0.
pub(crate) fn level(sign: u16, h: u8) -> i16
    ensures { result ≡ level_of sign h }
{
    let twice = 2 * u16::from(h);
    if sign == 0 {
        return (twice + 1) as i16;
    }
    -1 - (twice as i16)
}
