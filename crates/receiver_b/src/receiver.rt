// One frame of Payload B received: the checks of points, all OFDM symbols, and the answer.
ghost use Rattle.payload_b.specs.PromiseB.{points_checked_b, bits_received, ReceivesB};
ghost use Rattle.payload_b.specs.ModesB.{number_of};
ghost use Rattle.receiver_b.specs.Steps.{Receivable};

use crate::stream;
use answers::{MendedB, Refusal};
use payload_b::plan::Plan;
use symbols::Fault;
use symbols::scheme::Scheme;

// Checks 7 and 8, and then symbol after symbol of those needed. Where a block cannot be mended, the frame's bytes are left all zero.
pub(crate) fn receive(
    size: usize,
    scheme: Scheme,
    plan: Plan,
    i: &[i16],
    q: &[i16],
    area: &mut [u8],
) -> Result<MendedB, Refusal>
    requires { Receivable (number_of plan.mode) size scheme.entries.now plan i.now q.now area.old }
    ensures { ReceivesB (points_checked_b plan.symbols scheme.entry.entries.now i.now q.now) (number_of plan.mode) size (bits_received (number_of plan.mode) size scheme.entry.entries.now i.now q.now) area.old result area.new }
{
    match scheme.first_fault(plan.symbols, i, q) {
        // Arm by arm: the crate of the faults does not know that of the refusals, so that no From can stand in either.
        Err(Fault::Occupied(at)) => Err(Refusal::Occupied(at)),
        Err(Fault::StrayPoint(at)) => Err(Refusal::StrayPoint(at)),
        Ok(()) => match stream::take_symbols(scheme, plan, stream::start(), i, q, area) {
            Ok(end) => Ok(MendedB {
                mended: end.tally.mended,
                worst: end.tally.worst,
            }),
            Err(block) => {
                area[0..size].fill(0);
                Err(Refusal::Uncorrectable(block))
            }
        },
    }
}
