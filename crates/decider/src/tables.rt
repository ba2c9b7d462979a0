// Which point of an OFDM symbol is decided by which table: what the loops over points ask, and the two answers.
ghost use Rattle.std.specs.Prelude.{◌≡◌, [], ◌*◌, List, ℕ, ◌<◌, get_or};
ghost use Rattle.points.specs.declared.Point.{Point};
ghost use Rattle.nearest.specs.Nearest.{nearest};
ghost use Rattle.symbols.specs.Grid.{symbol_points};
ghost use Rattle.symbols.specs.Schemes.{repeated};
ghost use Rattle.decisions.specs.Decided.{phase_tables, scheme_tables};
ghost use Rattle.decider.specs.Tables.{Grows, phases_grow, scheme_grows};

use points::Point;
use symbols::scheme::Scheme;

// A table for each point of an OFDM symbol.
pub(crate) trait Tables: Copy {
    // Those of one OFDM symbol, and of so many.
    ghost one: { Self → List (List Point) };

    ghost all: { Self → ℕ → List (List Point) };

    // The nearest point of table s.
    fn nearest(self, s: usize, i: i16, q: i16) -> Point
        requires { s < symbol_points }
        ensures { result ≡ nearest (get_or (one self) s []) i q };

    // Those of one OFDM symbol more stand behind the others.
    ghost grows: { (x : Self) → Grows (one x) (all x) };
}

// The points of DQPSK, for every point.
#[derive(Clone, Copy)]
pub(crate) struct Dqpsk;

impl Tables for Dqpsk {
    ghost one = { λ x. phase_tables symbol_points };

    ghost all = { λ x n. phase_tables (symbol_points * n) };

    ghost grows = { λ x. phases_grow };

    fn nearest(self, _s: usize, i: i16, q: i16) -> Point {
        nearest::phase_point(i, q)
    }
}

// The constellation of so many bits, for each point by its entry of a scheme.
impl<'a> Tables for Scheme<'a> {
    ghost one = { λ x. scheme_tables x.entries.now };

    ghost all = { λ x n. scheme_tables (repeated n x.entries.now) };

    ghost grows = { λ x. scheme_grows x.entries.now x.long };

    fn nearest(self, s: usize, i: i16, q: i16) -> Point {
        nearest::point(self.entries()[s], i, q)
    }
}
