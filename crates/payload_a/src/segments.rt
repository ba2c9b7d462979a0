// Protected fields, and rows of bits one behind the other, clause 7.4.5 and Table 6.
ghost use Rattle.std.specs.Prelude.{◌≡◌, [], ◌++◌, get_or};
ghost use Rattle.payload_a.specs.Segments.{put_at};

// The bits of a segment, of a block, which are two segments, of two blocks, and of an OFDM symbol.
pub const SEGMENT: usize = 196;

pub const BLOCK: usize = 2 * SEGMENT;

pub const CARRIED: usize = 2 * BLOCK;

pub const SYMBOL: usize = 420;

// Protected fields 1, 2 and 3.
pub const FIELD1: [u8; 10] = [1, 1, 1, 1, 1, 1, 1, 1, 1, 0];

pub const FIELD2: [u8; 10] = [1, 1, 1, 1, 1, 1, 1, 1, 1, 1];

pub const FIELD3: [u8; 8] = [1, 1, 1, 1, 1, 1, 1, 1];

// At most so many of the 56 protected bits of a burst may differ (document 02, item 3).
pub const MOST_DIFFERING: usize = 12;

// Puts bits into out, from index at on, where there is room for them. (Of constant length at each call, so that the archive asks for no memmove.)
pub fn put(bits: &[u8], at: usize, out: &mut [u8])
    ensures { out.new ≡ put_at bits.now at out.old }
{
    if out.len() < at {
        return;
    }
    if out.len() - at < bits.len() {
        return;
    }
    let end = at + bits.len();
    out[at..end].copy_from_slice(bits);
}

// Two rows one behind the other.
pub fn flat(rows: [[u8; BLOCK]; 2]) -> [u8; CARRIED]
    ensures { result ≡ get_or rows 0 [] ++ get_or rows 1 [] }
{
    let mut out = [0u8; CARRIED];
    put(&rows[0], 0, &mut out);
    put(&rows[1], BLOCK, &mut out);
    out
}
