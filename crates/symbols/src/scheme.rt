// OFDM symbols by a scheme of bits per point: what is wrong with them, checks 7 and 8; their bits, packed, and the points of packed bits.
ghost use Rattle.std.specs.Prelude.{◌≡◌, false, ◌&&◌, ◌||◌, ◌++◌, ◌≤◌, ◌<◌, eqb, ltb, length, get_or, take, MatchResult};
ghost use Rattle.packed.specs.Packed.{bits_from, bits512, padded_to};
ghost use Rattle.points.specs.Constellations.{level_i, level_q, label_of, is_stray};
ghost use Rattle.symbols.specs.Grid.{symbol_points};
ghost use Rattle.symbols.specs.Schemes.{bad_entry};
ghost use Rattle.symbols.specs.ByScheme.{is_good, bad_place, fault_in, symbol_read, symbol_written, symbol_read_in, symbol_written_in};

use crate::checks::Reads;
use crate::grid::{POINTS, SUB_CARRIERS};
use crate::{Fault, checks, grid, growing, quick, spreading};
use packed::RUN;
use points::constellation;

// A scheme that was looked at: 210 entries, each from 2 to 10.
#[derive(Clone, Copy)]
pub struct Scheme<'a> {
    pub(crate) entries: &'a [u8],
    pub ghost long: { length entries.now ≡ symbol_points },
    pub ghost within: { bad_entry entries.now ≡ symbol_points },
}

// The bits of a point: an entry of a scheme.
#[derive(Clone, Copy)]
pub(crate) struct PointBits {
    pub n: u8,
    ghost least: { 2 ≤ n },
    ghost most: { n ≤ 10 },
}

impl<'a> Scheme<'a> {
    // The scheme of these entries. Where it is none, the place of the first entry outside 2 to 10, or 210 where there are not 210 entries.
    pub fn new(entries: &'a [u8]) -> Result<Scheme<'a>, usize>
        ensures { MatchResult result (λ scheme. scheme.entries.now ≡ entries.now) (λ place. (is_good entries.now ≡ false) × (place ≡ bad_place entries.now)) }
    {
        if !is_scheme(entries) {
            return Err(bad_place(entries));
        }
        Ok(Scheme { entries })
    }

    // The entries.
    pub fn entries(self) -> &'a [u8]
        ensures { result.now ≡ self.entry.entries.now }
    {
        self.entries
    }

    // The bits of the point s, of 210.
    pub(crate) fn bits(self, s: usize) -> PointBits
        requires { s < symbol_points }
        ensures { result.n ≡ get_or self.entry.entries.now s 0 }
    {
        PointBits { n: self.entries[s] }
    }

    // `first_fault`, below, by this scheme.
    pub fn first_fault(self, m: usize, i: &[i16], q: &[i16]) -> Result<(), Fault>
        ensures { result ≡ fault_in m self.entry.entries.now i.now q.now }
    {
        checks::first_fault(self, m, i, q)
    }

    // `read`, below, by this scheme.
    pub fn read(self, i: &[i16], q: &[i16], front: [u64; 8], count: usize) -> [u64; RUN]
        ensures { bits_from 41 0 result ≡ padded_to 2624 (take count (bits512 front) ++ symbol_read self.entry.entries.now i.now q.now) }
    {
        self.read_in(constellation::quadrant_table(), i, q, front, count)
    }

    // `read_in`, below, by this scheme.
    pub(crate) fn read_in(
        self,
        quadrants: &[u64; 128],
        i: &[i16],
        q: &[i16],
        front: [u64; 8],
        count: usize,
    ) -> [u64; RUN]
        ensures { bits_from 41 0 result ≡ padded_to 2624 (take count (bits512 front) ++ symbol_read_in quadrants.now self.entry.entries.now i.now q.now) }
    {
        let begun = packed::begun(packed::first(&front, count));
        if !grid::room(SUB_CARRIERS, i, q) {
            return begun;
        }
        growing::points_behind(quadrants, self, i, q, begun, count.min(512))
    }

    // `write`, below, by this scheme.
    pub fn write(self, bits: &[u64; RUN], i: &mut [i16], q: &mut [i16])
        ensures { (i.new ≡ symbol_written level_i self.entry.entries.now (bits_from 41 0 bits.now) i.old q.old i.old) × (q.new ≡ symbol_written level_q self.entry.entries.now (bits_from 41 0 bits.now) i.old q.old q.old) }
    {
        self.write_in(constellation::cell_table(), bits, i, q);
    }

    // `write_in`, below, by this scheme.
    pub(crate) fn write_in(self, cells: &[u64; 64], bits: &[u64; RUN], i: &mut [i16], q: &mut [i16])
        ensures { (i.new ≡ symbol_written_in level_i cells.now self.entry.entries.now (bits_from 41 0 bits.now) i.old q.old i.old) × (q.new ≡ symbol_written_in level_q cells.now self.entry.entries.now (bits_from 41 0 bits.now) i.old q.old q.old) }
    {
        if !grid::room(SUB_CARRIERS, i, q) {
            return;
        }
        spreading::put_points(
            cells,
            self,
            bits,
            &mut i[0..SUB_CARRIERS],
            &mut q[0..SUB_CARRIERS],
        );
    }
}

impl<'a> Reads for Scheme<'a> {
    ghost strays = { λ scheme s i q. is_stray (label_of (get_or scheme.entries.now s 0) i q) };

    fn is_stray(self, s: usize, i: i16, q: i16) -> bool {
        constellation::label(self.entries[s], i, q).is_none()
    }

    fn passes(self, from: usize, i: &[i16], q: &[i16]) -> bool {
        quick::amiss(self, from, i, q) == 0
    }
}

// The checks 7 and 8 of m OFDM symbols by a scheme. Where the scheme is none, or they are more than 256, or the lists are too short for them, nothing is looked
// at.
pub fn first_fault(scheme: &[u8], m: usize, i: &[i16], q: &[i16]) -> Result<(), Fault>
    ensures { result ≡ fault_in m scheme.now i.now q.now }
{
    match Scheme::new(scheme) {
        Ok(scheme) => scheme.first_fault(m, i, q),
        Err(_) => Ok(()),
    }
}

// The bits that the points of one OFDM symbol are read as, by a scheme, behind the first `count` bits of `front`, and zeros behind them. Where the scheme is
// none, or a list has not 256 elements, none are read.
pub fn read(scheme: &[u8], i: &[i16], q: &[i16], front: [u64; 8], count: usize) -> [u64; RUN]
    ensures { bits_from 41 0 result ≡ padded_to 2624 (take count (bits512 front) ++ symbol_read scheme.now i.now q.now) }
{
    read_in(constellation::quadrant_table(), scheme, i, q, front, count)
}

// The same by the table that is lent, such as points' `quadrant_table`.
pub fn read_in(
    quadrants: &[u64; 128],
    scheme: &[u8],
    i: &[i16],
    q: &[i16],
    front: [u64; 8],
    count: usize,
) -> [u64; RUN]
    ensures { bits_from 41 0 result ≡ padded_to 2624 (take count (bits512 front) ++ symbol_read_in quadrants.now scheme.now i.now q.now) }
{
    match Scheme::new(scheme) {
        Ok(scheme) => scheme.read_in(quadrants, i, q, front, count),
        Err(_) => packed::begun(packed::first(&front, count)),
    }
}

// Puts the points of one OFDM symbol's bits, by a scheme, onto its 256 sub-carriers, the first elements of i and q. Where the scheme is none, or a list has not
// 256 elements, nothing is put.
pub fn write(scheme: &[u8], bits: &[u64; RUN], i: &mut [i16], q: &mut [i16])
    ensures { (i.new ≡ symbol_written level_i scheme.now (bits_from 41 0 bits.now) i.old q.old i.old) × (q.new ≡ symbol_written level_q scheme.now (bits_from 41 0 bits.now) i.old q.old q.old) }
{
    write_in(constellation::cell_table(), scheme, bits, i, q);
}

// The same by the table that is lent, such as points' `cell_table`.
pub fn write_in(cells: &[u64; 64], scheme: &[u8], bits: &[u64; RUN], i: &mut [i16], q: &mut [i16])
    ensures { (i.new ≡ symbol_written_in level_i cells.now scheme.now (bits_from 41 0 bits.now) i.old q.old i.old) × (q.new ≡ symbol_written_in level_q cells.now scheme.now (bits_from 41 0 bits.now) i.old q.old q.old) }
{
    if let Ok(scheme) = Scheme::new(scheme) {
        scheme.write_in(cells, bits, i, q);
    }
}

// Whether a scheme has 210 entries, each from 2 to 10.
pub fn is_scheme(scheme: &[u8]) -> bool
    ensures { result ≡ (eqb (length scheme.now) symbol_points && eqb (bad_entry scheme.now) symbol_points) }
{
    if scheme.len() != POINTS {
        return false;
    }
    let mut outside = false;
    for s in 0..POINTS {
        outside |= is_outside(scheme[s]);
    }
    !outside
}

// Whether an entry is outside 2 to 10.
fn is_outside(n: u8) -> bool
    ensures { result ≡ (ltb n 2 || ltb 10 n) }
{
    (n < 2) | (10 < n)
}

// The place of the first entry outside 2 to 10; 210 where there is none, or there are not 210 entries: the place that a refusal of the scheme tells.
fn bad_place(entries: &[u8]) -> usize
    ensures { result ≡ bad_place entries.now }
{
    if entries.len() != POINTS {
        return POINTS;
    }
    for s in 0..POINTS {
        if is_outside(entries[s]) {
            return s;
        }
    }
    POINTS
}
