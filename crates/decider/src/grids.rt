// OFDM symbols decided one after the other. I and Q, read and written, are four slices: a struct that holds two lent for writing would have to be taken apart
// and lent anew for each part of an OFDM symbol, and the jobs are given four.
ghost use Rattle.std.specs.Prelude.{◌≡◌, ◌++◌, ◌*◌, drop};
ghost use Rattle.points.specs.Constellations.{level_i, level_q};
ghost use Rattle.symbols.specs.Grid.{sub_carriers};
ghost use Rattle.decisions.specs.Decided.{decided_levels};
ghost use Rattle.decider.specs.Parts.{Enough};

use crate::symbol;
use crate::tables::Tables;
use symbols::grid::SUB_CARRIERS;

// Decides m OFDM symbols.
pub(crate) fn decide<T: Tables>(
    tables: T,
    m: usize,
    i: &[i16],
    q: &[i16],
    oi: &mut [i16],
    oq: &mut [i16],
)
    requires { Enough m i.now q.now oi.old oq.old }
    ensures { (oi.new ≡ decided_levels level_i (T.all tables m) m i.now q.now ++ drop (sub_carriers * m) oi.old) × (oq.new ≡ decided_levels level_q (T.all tables m) m i.now q.now ++ drop (sub_carriers * m) oq.old) }
{
    for k in 0..m {
        let at = SUB_CARRIERS * k;
        let end = at + SUB_CARRIERS;
        symbol::decide(
            tables,
            &i[at..end],
            &q[at..end],
            &mut oi[at..end],
            &mut oq[at..end],
        );
    }
}
