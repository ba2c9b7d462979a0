// One block of Payload B received: mended, and its bytes written.
ghost use Rattle.std.specs.Prelude.{◌≡◌, ◌≢◌, length, take};
ghost use Rattle.packed.specs.Packed.{bits512};
ghost use Rattle.payload_b.specs.CodedB.{block_bytes, block_bits};
ghost use Rattle.payload_b.specs.ModesB.{number_of};
ghost use Rattle.receiver_b.specs.Steps.{Finishes};

use payload::scrambler;
use payload_b::mode::ModeB;

// A block that is done: the bits mended, and the scrambler's register after.
#[derive(Clone, Copy)]
pub struct Finished {
    pub count: usize,
    pub register: u16,
}

// Mends a coded block, the first of the bits that are packed, and writes its bytes. None is written where no codeword is near enough.
pub(crate) fn finish(
    mode: ModeB,
    block: [u64; 8],
    register: u16,
    out: &mut [u8],
) -> Option<Finished>
    requires { (number_of mode ≢ 0) × (length out.old ≡ block_bytes (number_of mode)) }
    ensures { Finishes (number_of mode) register (take (block_bits (number_of mode)) (bits512 block)) out.old result out.new }
{
    let decoded = decoder::decode_packed(mode.code(), block);
    let Ok(count) = decoded.told.answer else {
        return None;
    };
    let register = scrambler::write_bytes(register, &decoded.bits, out);
    Some(Finished { count, register })
}
