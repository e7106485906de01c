// Along the records of a list: where the walk stands, and what was found so far.
ghost use Rattle.std.specs.Prelude.{◌≡◌, List, ℕ, false};
ghost use Rattle.replay.specs.Tallies.{counted, opened, onward, walked, Visited};

use vectors::{after_line, plus};

// More records than a list has: so that a walk ends where a record has no bytes.
const RECORDS: usize = 65536;

// How many records there were, how many disagree, and the number of the first of those, if there is one, counted from 0.
#[derive(Clone, Copy, Default)]
pub struct Tally {
    pub records: usize,
    pub wrong: usize,
    pub first: Option<usize>,
}

impl Tally {
    // One record more, in which that many things disagree.
    #[tactic(auto, unfolding(crate::specs::Tallies::counted))]
    fn with(self, wrong: usize) -> Tally
        ensures { result ≡ counted self wrong }
    {
        let records = plus(self.records, 1);
        if wrong == 0 {
            return Tally { records, ..self };
        }
        Tally {
            records,
            wrong: plus(self.wrong, 1),
            first: Some(self.first.unwrap_or(self.records)),
        }
    }
}

// What a replay does with the record that stands at a place of its list. `visits` says it of that list, what is kept before, the place, the answer, and
// what is kept after.
pub trait Visit {
    ghost visits: { List ℕ → Self → ℕ → ℕ → ℕ → Self → Type 0 };

    // Where the record ends, and how many things in it disagree.
    fn visit(&mut self, s: &[u8], at: usize) -> (usize, usize)
        ensures { visits s.now self.old at result.0 result.1 self.new };
}

// Where the next record stands, how many more may be read, and what was counted.
#[derive(Clone, Copy)]
pub struct Walk {
    pub next: usize,
    pub left: usize,
    pub tally: Tally,
}

impl Walk {
    // Before the first record, which stands after the list's line.
    pub fn start(s: &[u8]) -> Walk
        ensures { result ≡ opened s.now }
    {
        Walk {
            next: after_line(s),
            left: RECORDS,
            tally: Tally::default(),
        }
    }

    // Whether there is another record.
    #[tactic(auto, unfolding(crate::specs::Tallies::onward))]
    pub fn more(self, s: &[u8]) -> bool
        ensures { result ≡ onward s.now self }
    {
        self.left > 0 && self.next < s.len()
    }

    // After a record that ends before `next`, and in which that many things disagree.
    #[tactic(auto, unfolding(crate::specs::Tallies::walked))]
    pub fn after(self, next: usize, wrong: usize) -> Walk
        ensures { result ≡ walked self next wrong }
    {
        Walk {
            next,
            left: self.left.saturating_sub(1),
            tally: self.tally.with(wrong),
        }
    }

    // Along every record: each is visited once, where the one before it ends, and what its visit answers is what is counted.
    pub fn along<V: Visit>(s: &[u8], visitor: &mut V) -> Walk
        ensures ended { onward s.now result ≡ false }
        ensures visited { Visited V.visits s.now visitor.old (opened s.now) visitor.new result }
    {
        let mut walk = Walk::start(s);
        // No `for`: only a record says where the next one stands.
        while walk.more(s) {
            let (next, wrong) = visitor.visit(s, walk.next);
            walk = walk.after(next, wrong);
        }
        walk
    }
}
