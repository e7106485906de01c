// Crests: the places of a row that are worth a verdict. Most values are at or under the floor, and are passed over eight at a time.
ghost use Rattle.std.specs.Prelude.{◌≡◌, Bool, ℕ, ◌+◌, ◌^◌, ◌≤◌, ◌<◌, length, unwrap_or, IfSome};
ghost use Rattle.grid.specs.Each.{count};
ghost use Rattle.grid.specs.Rect.{range};
ghost use Rattle.crests.specs.Crests.{over, longest, above_count, above_from, crest, worth, four, eight, Passed, Went, Next};
ghost use Rattle.crests.specs.Crests.{search_fits, Sought};

const LONGEST: usize = 4294967295;

// How many values are above the floor. No branch depends on another, so several are counted at once.
fn above_in(part: &[f32], floor: f32) -> u32
    requires { length part.now ≤ longest }
    ensures { result ≡ count (over floor part.now) (range 0 (length part.now)) }
{
    part.iter().map(|v| u32::from(*v > floor)).sum()
}

// How many values are above the floor. A slice that is too long for a u32 to count has none: 0, as `above_count` says, and no call fails.
pub fn count_above(s: &[f32], floor: f32) -> u32
    ensures { result ≡ above_count floor s.now }
{
    if s.len() <= LONGEST {
        return above_in(s, floor);
    }
    0
}

// Whether the test says yes of one of the four places from i on. All four are asked, so that no branch stands between them.
fn four<F: Fn(usize) -> bool>(test: F, i: usize) -> bool
    requires fits { i + 4 < 2 ^ 64 }
    requires callable { (k : ℕ) → i ≤ k → k < i + 4 → F.pre test k }
    ensures { (p : ℕ → Bool) → ((k : ℕ) (b : Bool) → i ≤ k → k < i + 4 → F.post test k b → b ≡ p k) → result ≡ four p i }
{
    test(i) | test(i + 1) | test(i + 2) | test(i + 3)
}

// The same of the eight from i on.
fn eight<F: Fn(usize) -> bool>(test: F, i: usize) -> bool
    requires fits { i + 8 < 2 ^ 64 }
    requires callable { (k : ℕ) → i ≤ k → k < i + 8 → F.pre test k }
    ensures { (p : ℕ → Bool) → ((k : ℕ) (b : Bool) → i ≤ k → k < i + 8 → F.post test k b → b ≡ p k) → result ≡ eight p i }
{
    four(&test, i) | four(&test, i + 4)
}

// Whether one of the eight values from i on is above the floor. All eight are compared, so that no branch stands between them.
// The maximum stands on this too.
pub fn eight_above(s: &[f32], i: usize, floor: f32) -> bool
    requires { i + 8 ≤ length s.now }
    ensures { result ≡ eight (over floor s.now) i }
{
    eight(|k| s[k] > floor, i)
}

// How far eights without a value above the floor go. By number: how far it came is the answer.
fn pass_eights(s: &[f32], floor: f32) -> usize
    ensures { Passed (over floor s.now) 0 (length s.now) result }
{
    let eights = s.len() / 8;
    for k in 0..eights {
        if eight_above(s, 8 * k, floor) {
            return 8 * k;
        }
    }
    8 * eights
}

// The first place whose value is above the floor; the slice's length where there is none, and no `Option`: no call fails.
pub fn first_above(s: &[f32], floor: f32) -> usize
    ensures { Next (over floor s.now) 0 (length s.now) result }
{
    find_above(s, floor).unwrap_or(s.len())
}

// The same, and none where there is none.
pub fn find_above(s: &[f32], floor: f32) -> Option<usize>
    ensures next { Next (over floor s.now) 0 (length s.now) (unwrap_or result (length s.now)) }
    ensures within { IfSome result (λ i. i < length s.now) }
{
    (pass_eights(s, floor)..s.len()).find(|i| s[*i] > floor)
}

// Whether the value at k is above the floor, and neither neighbour in the row is greater. No branch stands between the three.
fn is_crest(s: &[f32], k: usize, floor: f32) -> bool
    requires { (1 ≤ k) × (k + 1 < length s.now) }
    ensures { result ≡ crest floor s.now k }
{
    let v = s[k];
    (v > floor) & (!(s[k - 1] > v) & !(s[k + 1] > v))
}

// Whether one of the eight places from i on is such a crest.
fn eight_crests(s: &[f32], i: usize, floor: f32) -> bool
    requires { (1 ≤ i) × (i + 8 < length s.now) }
    ensures { result ≡ eight (crest floor s.now) i }
{
    eight(|k| is_crest(s, k, floor), i)
}

// Where a search along a row stands, and how many of the places that it passed are above the floor.
// No `Option`: where there is none, `end` is the range's own, and what was passed counts all the same (`Sought`).
#[derive(Clone, Copy)]
pub struct Stretch {
    pub end: usize,
    pub above: usize,
}

// A run of places of a row, from `from` on and before `to`, each with a neighbour to each side; and the floor.
#[derive(Clone, Copy)]
struct Run<'a> {
    s: &'a [f32],
    from: usize,
    to: usize,
    floor: f32,
    ghost inner: { (1 ≤ from) × (from ≤ to) × (to < length s.now) },
}

impl Run<'_> {
    // How far eights without a crest go, by number: the places beside the eight are asked too. Mostly none of the eight is above the floor:
    // no neighbour need be read, and there is none to count.
    fn pass_flat_eights(&self) -> Stretch
        ensures { Went self.now.floor self.now.s.now self.now.from self.now.to result.end result.above }
    {
        let (s, floor) = (self.s, self.floor);
        let eights = (self.to - self.from) / 8;
        let mut above: usize = 0;
        for k in 0..eights {
            let i = self.from + 8 * k;
            if eight_above(s, i, floor) {
                if eight_crests(s, i, floor) {
                    return Stretch { end: i, above };
                }
                above += above_in(&s[i..i + 8], floor) as usize;
            }
        }
        Stretch {
            end: self.from + 8 * eights,
            above,
        }
    }

    // The first crest; `to` where there is none. By number: a crest is asked with both its neighbours.
    fn next_crest(&self) -> Stretch
        ensures { Next (crest self.now.floor self.now.s.now) self.now.from self.now.to result.end × (result.above ≡ above_from self.now.floor self.now.s.now self.now.from result.end) }
    {
        let (s, floor) = (self.s, self.floor);
        let eights = self.pass_flat_eights();
        let mut above = eights.above;
        for k in eights.end..self.to {
            if s[k] > floor {
                if is_crest(s, k, floor) {
                    return Stretch { end: k, above };
                }
                above += 1;
            }
        }
        Stretch {
            end: self.to,
            above,
        }
    }

    // The same for what is worth a verdict: where the window of radius r is a single pixel, no neighbour is asked.
    fn search(&self, r: usize) -> Stretch
        ensures { Next (worth r self.now.floor self.now.s.now) self.now.from self.now.to result.end × (result.above ≡ above_from self.now.floor self.now.s.now self.now.from result.end) }
    {
        if 0 < r {
            return self.next_crest();
        }
        let part = &self.s[self.from..self.to];
        Stretch {
            end: self.from + first_above(part, self.floor),
            above: 0,
        }
    }
}

fn search_fits(from: usize, to: usize, n: usize) -> bool
    ensures { result ≡ search_fits from to n }
{
    (1 <= from) & ((from <= to) & (to < n))
}

// The next place of a row, from `from` on and before `to`, that is worth a verdict: above the floor and, where the window of radius r has
// them, no less than its two neighbours. `to` where there is none, or where a place between the two has not both neighbours.
pub fn next_candidate(s: &[f32], from: usize, to: usize, floor: f32, r: usize) -> Stretch
    ensures { Sought r floor s.now from to result.end result.above }
{
    if search_fits(from, to, s.len()) {
        let run = Run { s, from, to, floor };
        return run.search(r);
    }
    Stretch { end: to, above: 0 }
}
