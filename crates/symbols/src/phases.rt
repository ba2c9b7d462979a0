// OFDM symbols by DQPSK, from the phase before them: what is wrong with them, checks 7 and 8; their bits, and the points of bits, one element a bit.
ghost use Rattle.std.specs.Prelude.{◌≡◌, ℕ, ◌*◌, ◌≤◌, ◌<◌, pos, length, get_or};
ghost use Rattle.bits.specs.Words.{lowest};
ghost use Rattle.points.specs.Constellations.{level_i, level_q, is_stray};
ghost use Rattle.points.specs.Dqpsk.{phase_of};
ghost use Rattle.points.specs.Lent.{phase_read};
ghost use Rattle.symbols.specs.Grid.{sub_carriers, symbol_points};
ghost use Rattle.symbols.specs.ByPhase.{phase_fault, dibits_between, bits_read, last_read, turned_on, turns_written, last_written};

use crate::checks::Reads;
use crate::grid::{POINTS, SUB_CARRIERS};
use crate::{Fault, checks, grid, quick};
use points::dqpsk;

// The bits of an OFDM symbol.
pub const BITS: usize = 420;

// The checks 7 and 8 of m OFDM symbols by DQPSK. Where they are more than 256, or the lists are too short for them, nothing is looked at.
pub fn first_fault(m: usize, i: &[i16], q: &[i16]) -> Result<(), Fault>
    ensures { result ≡ phase_fault m i.now q.now }
{
    checks::first_fault(FourPhases, m, i, q)
}

// The way of DQPSK: each point is one of the same four.
#[derive(Clone, Copy)]
struct FourPhases;

impl Reads for FourPhases {
    ghost strays = { λ way s i q. is_stray (phase_of i q) };

    fn is_stray(self, _s: usize, i: i16, q: i16) -> bool {
        dqpsk::phase(i, q).is_none()
    }

    fn passes(self, _from: usize, i: &[i16], q: &[i16]) -> bool {
        quick::beside(i, q) == 0
    }
}

// What reading an OFDM symbol gives: its bits, and the phase of its last point.
#[derive(Debug, Clone, Copy, PartialEq, Eq)]
pub struct Reading {
    pub bits: [u8; BITS],
    pub last: u16,
}

// The bits that the points of one OFDM symbol are read as. Where a list has not 256 elements, none are read.
pub fn read(phase: u16, i: &[i16], q: &[i16]) -> Reading
    ensures { (result.bits ≡ bits_read phase i.now q.now) × (result.last ≡ last_read phase i.now q.now) }
{
    if !grid::room(SUB_CARRIERS, i, q) {
        return Reading {
            bits: [0; BITS],
            last: phase,
        };
    }
    let mut phases = [0u16; POINTS];
    put_phases(&i[151..256], &q[151..256], &mut phases[0..105]);
    put_phases(&i[1..106], &q[1..106], &mut phases[105..210]);
    Reading {
        bits: dibits(phase, &phases),
        last: phases[209],
    }
}

// Puts the phases that points are read as.
fn put_phases(i: &[i16], q: &[i16], out: &mut [u16])
    requires { (length i.now ≡ length out.old) × (length q.now ≡ length out.old) }
    ensures { (length out.new ≡ length out.old) × ((s : ℕ) → s < length out.old → get_or out.new s 0 ≡ phase_read (get_or i.now s (pos 0)) (get_or q.now s (pos 0))) }
{
    for s in 0..out.len() {
        out[s] = dqpsk::read(i[s], q[s]);
    }
}

// The bits of the turns from a phase to the first of 210, from it to the next, and so on.
fn dibits(phase: u16, phases: &[u16; POINTS]) -> [u8; BITS]
    ensures { result ≡ dibits_between phase phases.now }
{
    let mut bits = [0u8; BITS];
    let mut last = phase;
    for s in 0..POINTS {
        let to = phases[s];
        let dibit = dqpsk::dibit(last, to);
        bits[2 * s] = dibit / 2;
        bits[2 * s + 1] = dibit % 2;
        last = to;
    }
    bits
}

// The levels of 210 points, in s order, and the phase of the last.
#[derive(Debug, Clone, Copy, PartialEq, Eq)]
pub struct Turned {
    pub is: [i16; POINTS],
    pub qs: [i16; POINTS],
    pub last: u16,
}

// Puts the points that 420 bits are turned into onto the 256 sub-carriers of one OFDM symbol, the first elements of i and q, and answers the phase of the last.
// An element counts as its lowest binary digit. Where there are not 420, or a list has not 256 elements, nothing is put, and the phase stays.
pub fn write(phase: u16, bits: &[u8], i: &mut [i16], q: &mut [i16]) -> u16
    ensures { (result ≡ last_written phase bits.now i.old q.old) × (i.new ≡ turns_written level_i phase bits.now i.old q.old i.old) × (q.new ≡ turns_written level_q phase bits.now i.old q.old q.old) }
{
    if bits.len() != BITS {
        return phase;
    }
    if !grid::room(SUB_CARRIERS, i, q) {
        return phase;
    }
    let turned = turn_bits(phase, bits);
    grid::put_levels(&turned.is, &mut i[0..SUB_CARRIERS]);
    grid::put_levels(&turned.qs, &mut q[0..SUB_CARRIERS]);
    turned.last
}

// The points that 420 bits are turned into.
fn turn_bits(phase: u16, bits: &[u8]) -> Turned
    requires { length bits.now ≡ 2 * symbol_points }
    ensures { result ≡ turned_on phase (lowest bits.now) }
{
    let mut is = [0i16; POINTS];
    let mut qs = [0i16; POINTS];
    let mut last = phase;
    for s in 0..POINTS {
        last = dqpsk::turned(last, 2 * (bits[2 * s] % 2) + bits[2 * s + 1] % 2);
        let point = dqpsk::point(last);
        is[s] = points::level_i(point);
        qs[s] = points::level_q(point);
    }
    Turned { is, qs, last }
}
