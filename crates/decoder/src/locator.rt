// The error locator: the shortest recurrence that makes the syndromes, by Berlekamp and Massey, without inverses.
// The state holds the locator, its length, the textbook's x^m B as one polynomial `other`, which is only ever shifted, and the
// discrepancy of the last change of length.
// A step takes two syndromes in. The word is binary, so each second syndrome is the square of an earlier one, and with Newton's identities
// each second discrepancy is 0 (algebra/proofs/Newtons): nothing is summed for it, and `other` moves two places up.
ghost use Rattle.std.specs.Prelude.{◌≡◌, List, ◌∷◌, ℕ, ◌+◌, ◌<◌, ◌≤◌, take};
ghost use Rattle.algebra.proofs.Series.{conv, mix};
ghost use Rattle.field.proofs.Elements.{gf512, element_of};
ghost use Rattle.field.proofs.Values.{series};
ghost use Rattle.decoder.specs.Locators.{Ends, Squared, After};

// The length is that of the recurrence, and may be greater than the polynomials' degrees: it does not count their coefficients.
#[derive(Clone, Copy)]
pub struct State {
    pub locator: [u16; 34],
    pub other: [u16; 34],
    pub len: usize,
    pub b: u16,
}

fn start() -> State
    ensures { (s : List ℕ) → After s 0 result }
{
    let mut locator = [0u16; 34];
    locator[0] = 1;
    let mut other = [0u16; 34];
    other[1] = 1;
    State {
        locator,
        other,
        len: 0,
        b: 1,
    }
}

// The sum of locator[j] s[r - j] over j up to r: the terms beyond the locator's length are 0.
fn discrepancy(s: &[u16; 32], state: &State, r: usize) -> u16
    requires { (r < 32) × (state.now.len ≤ r) × Ends state.now.locator state.now.len }
    ensures { (element_of result ≡ conv gf512 (series state.now.locator) (series s.now) r) × (result < 512) }
{
    let mut d: u16 = 0;
    for j in 0..state.len + 1 {
        d ^= field::product(state.locator[j], s[r - j]);
    }
    d
}

// b locator + d other, coefficient by coefficient up to `last`: behind it both are 0.
fn mixed(state: &State, d: u16, last: usize) -> [u16; 34]
    requires { (last < 34) × Ends state.now.locator last × Ends state.now.other last }
    ensures { (i : ℕ) → series result i ≡ mix gf512 (element_of state.now.b) (element_of d) (series state.now.locator) (series state.now.other) i }
{
    let mut out = [0u16; 34];
    for i in 0..last + 1 {
        out[i] = field::product(state.b, state.locator[i]) ^ field::product(d, state.other[i]);
    }
    out
}

// x^2 times the polynomial.
fn moved(p: &[u16; 34]) -> [u16; 34]
    ensures { result ≡ 0 ∷ 0 ∷ take 32 p.now }
{
    let mut out = [0u16; 34];
    // A copy by copy_from_slice was slower: it is read back at once, by other pieces than it was written by.
    for i in 2..34 {
        out[i] = p[i - 2];
    }
    out
}

// The pair m of syndromes taken in, s[2 m] and s[2 m + 1].
fn step(s: &[u16; 32], state: State, m: usize) -> State
    requires { (m < 16) × After s.now m state × Squared s.now (m + 1) }
    ensures { After s.now (m + 1) result }
{
    let r = m + m;
    let d = discrepancy(s, &state, r);
    if d == 0 {
        return State {
            other: moved(&state.other),
            ..state
        };
    }
    if r < state.len + state.len {
        return State {
            locator: mixed(&state, d, state.len),
            other: moved(&state.other),
            ..state
        };
    }
    let longer = r + 1 - state.len;
    State {
        locator: mixed(&state, d, longer),
        other: moved(&state.locator),
        len: longer,
        b: d,
    }
}

// The state after the first t pairs of syndromes.
pub(crate) fn shortest(s: &[u16; 32], t: usize) -> State
    requires { (t ≤ 16) × Squared s.now t }
    ensures { After s.now t result }
{
    let mut state = start();
    for m in 0..t {
        state = step(s, state, m);
    }
    state
}
