// One OFDM symbol decided: the points of its two halves, each sub-carrier's where it stands, and zeros between them.
ghost use Rattle.std.specs.Prelude.{◌≡◌, ◌+◌, ◌≤◌, [], map, ℕ, length, get_or};
ghost use Rattle.points.specs.Constellations.{level_i, level_q};
ghost use Rattle.symbols.specs.Grid.{symbol_points};
ghost use Rattle.symbols.specs.Grids.{points_from, spread};
ghost use Rattle.decisions.specs.Decided.{decided};
ghost use Rattle.decider.specs.Parts.{Symbol, Half, HalfDecided, Cleared};

use crate::tables::Tables;
use symbols::grid::POINTS;

// The points of half an OFDM symbol.
const HALF: usize = POINTS / 2;

// Decides its points, each by its own table.
pub(crate) fn decide<T: Tables>(tables: T, i: &[i16], q: &[i16], oi: &mut [i16], oq: &mut [i16])
    requires { Symbol i.now q.now oi.old oq.old }
    ensures { (oi.new ≡ spread (map level_i (decided (T.one tables) (points_from i.now q.now 1 symbol_points)))) × (oq.new ≡ spread (map level_q (decided (T.one tables) (points_from i.now q.now 1 symbol_points)))) }
{
    half(
        tables,
        0,
        &i[151..256],
        &q[151..256],
        &mut oi[151..256],
        &mut oq[151..256],
    );
    half(
        tables,
        HALF,
        &i[1..106],
        &q[1..106],
        &mut oi[1..106],
        &mut oq[1..106],
    );
    clear_between(oi);
    clear_between(oq);
}

// Makes the levels of the unavailable sub-carriers zero.
fn clear_between(out: &mut [i16])
    requires { length out.old ≡ 256 }
    ensures { Cleared out.old out.new }
{
    out[0..1].fill(0);
    out[106..151].fill(0);
}

// Decides 105 points by the tables from the first one on.
fn half<T: Tables>(tables: T, first: usize, i: &[i16], q: &[i16], oi: &mut [i16], oq: &mut [i16])
    requires { (first ≤ 105) × Half i.now q.now oi.old oq.old }
    ensures { HalfDecided (λ (s : ℕ). get_or (T.one tables) (first + s) []) i.now q.now oi.new oq.new }
{
    for s in 0..HALF {
        let point = tables.nearest(first + s, i[s], q[s]);
        oi[s] = points::level_i(point);
        oq[s] = points::level_q(point);
    }
}
