// The scan: the candidates that are kept, in row order, stored as far as the list has room and counted in any case, as are the dropped ones.
//
// `scan_of` fixes what the whole scan goes by: the floor, one product of the map's maximum, and the saddle numbers of the ray radius.
// `find_peaks` goes through the rows inside the border from the top, and `find_in_row` walks a row from its first column inside to its
// last. `next_in_row` takes it from one place to the next that may be kept: a run of values at or under the floor, or less than a
// neighbour in the row, is passed over unjudged, since no such place is kept. Where it stops, `judge_and_list` judges the candidate by all
// rules and tallies its verdict; while the list has room, a kept one's three numbers are stored as the next of the list.
//
// The tally has every candidate that is above the floor: those that are passed over and above it are beaten, for a neighbour in the row is greater,
// and the search counts them as it goes. Who is left is not above: `by_subtraction`.
ghost use Rattle.std.specs.Prelude.{◌≡◌, ◌+◌, ◌*◌, ◌/◌, ◌<◌, ◌≤◌, [], ◌∷◌, length, unwrap_or, IfSome};
ghost use Rattle.std.proofs.lemmas.List.Edits.{sets};
ghost use Rattle.grid.specs.Rect.{place};
ghost use Rattle.detect.specs.Corners.{stride};
ghost use Rattle.verdict.specs.Room.{Cross};
ghost use Rattle.detect.specs.Scan.{scan_of, floor_in, fitted_at, numbers_in, Tally, plus, above_of, by_subtraction};
ghost use Rattle.detect.specs.Scan.{Judging, Candidate, Finding, NextInRow, Entered, RowFound, Found};

use crests::{max_response, next_candidate};
use params::{Input, RadonDetectorParams, Verdicts, Working};
use peak_fit::fit_peak_frac;
use saddle::new;
use verdict::{Scan, Verdict, judge_at};

// Along one axis, a peak of value v at entry c and pixel `at`, in the input image: its offset is fitted to the entries `step` before and after.
fn fitted(
    resp: &[f32],
    c: usize,
    step: usize,
    v: f32,
    params: RadonDetectorParams,
    at: usize,
) -> Input
    requires { (step ≤ c) × (c + step < length resp.now) × (at ≤ 8192) }
    ensures { result.0 ≡ fitted_at params resp.now c step v at }
{
    let mode = params.peak_fit;
    let offset = fit_peak_frac(resp[c - step], v, resp[c + step], mode);
    Working(at as f32 + offset).to_input(params.image_upsample)
}

// Three numbers as corner n of the list. Its place is in input pixels: a working coordinate is not taken.
fn store(list: &mut [f32], n: usize, x: Input, y: Input, strength: f32)
    requires { n < length list.old / stride }
    ensures { list.new ≡ sets list.old (stride * n) (x.0 ∷ y.0 ∷ strength ∷ []) }
{
    let i = 3 * n;
    list[i..i + 3].copy_from_slice(&[x.0, y.0, strength]);
}

// One more candidate with the verdict v.
// The bound stands in each contract and is no struct's invariant: a count that has reached it is still added to, and `find_in_row` bounds by row.
fn count(tally: &mut Verdicts, v: Verdict)
    requires { Tally tally.old (8192 * 8192) }
    ensures { tally.new ≡ plus tally.old v 1 }
{
    match v {
        Verdict::NotAbove => tally.not_above += 1,
        Verdict::Beaten => tally.beaten += 1,
        Verdict::TooFew => tally.too_few += 1,
        Verdict::TooFlat => tally.too_flat += 1,
        Verdict::WrongCurvature => tally.wrong_curvature += 1,
        Verdict::Kept => tally.kept += 1,
    }
}

// The six counts of `all` candidates: who is in no other count of the tally is not above the floor.
fn by_subtraction(all: usize, tally: Verdicts) -> Verdicts
    requires { (all ≤ 8192 * 8192) × (above_of tally ≤ all) }
    ensures { result ≡ by_subtraction all tally }
{
    let above = tally.beaten + tally.too_few + tally.too_flat + tally.wrong_curvature + tally.kept;
    Verdicts {
        not_above: all - above,
        ..tally
    }
}

// What the scan of a map goes by.
pub fn scan_of(resp: &[f32], w: usize, h: usize, params: RadonDetectorParams) -> Scan
    requires { (w * h ≤ length resp.now) × (params.ray_radius ≤ 7) }
    ensures { result ≡ scan_of params w h resp.now }
{
    let all = w * h;
    let floor = params.threshold_rel * max_response(&resp[..all]);
    let k = params.ray_radius_clamped() as usize;
    let t = new(k);
    Scan {
        w,
        h,
        params,
        test: t,
        floor,
    }
}

// A map over its working image, and what the scan of it goes by: sizes, settings and buffers fit, and there are candidates inside the border.
#[derive(Clone, Copy)]
pub struct ScannedMap<'a> {
    pub resp: &'a [f32],
    pub image: &'a [u8],
    pub scan: Scan,
    ghost judging: { Judging scan (length resp.now) (length image.now) },
}

impl<'a> ScannedMap<'a> {
    // The corner at (x, y) as the n-th of the list.
    fn put_corner(&self, list: &mut [f32], n: usize, x: usize, y: usize)
        requires { Cross self.now.scan.w x y (length self.now.resp.now) × (n < length list.old / stride) }
        ensures { list.new ≡ sets list.old (stride * n) (numbers_in self.now.scan self.now.resp.now (place x y)) }
    {
        let resp = self.resp;
        let w = self.scan.w;
        let c = y * w + x;
        let v = resp[c];
        let params = self.scan.params;
        let px = fitted(resp, c, 1, v, params, x);
        let py = fitted(resp, c, w, v, params, y);
        store(list, n, px, py, v);
    }

    // The candidate at (x, y): judged, stored where it is kept and there is room, and tallied.
    fn judge_and_list(&self, x: usize, y: usize, tally: &mut Verdicts, list: &mut [f32])
        requires { Candidate self.now.scan x y (length self.now.resp.now) (length self.now.image.now) × Tally tally.old (8192 * 8192) }
        ensures { Entered self.now.scan self.now.resp.now self.now.image.now x y list.old tally.old list.new tally.new }
    {
        let v = judge_at(self.resp, self.image, self.scan, x, y);
        let n = tally.kept;
        let room = list.len() / 3;
        if v.is_kept() && n < room {
            self.put_corner(list, n, x, y);
        }
        count(tally, v);
    }

    // The next place of row y from `from` on, and before `to`, that may be kept. What is passed over and above the floor is beaten: it is
    // tallied.
    fn next_in_row(&self, y: usize, from: usize, to: usize, tally: &mut Verdicts) -> Option<usize>
        requires within_row { (1 ≤ from) × (from ≤ to) × (to < self.now.scan.w) × (y < self.now.scan.h) }
        requires tally { Tally tally.old (8192 * 8192) }
        ensures passed { NextInRow self.now.scan self.now.resp.now y from to (unwrap_or result to) tally.old tally.new }
        ensures within { IfSome result (λ x. x < to) }
    {
        let scan = self.scan;
        let a = y * scan.w;
        let next = next_candidate(
            &self.resp[a..a + scan.w],
            from,
            to,
            scan.floor,
            scan.params.nms_radius as usize,
        );
        tally.beaten += next.above;
        (next.end < to).then_some(next.end)
    }

    // The candidates of row y, after those above it.
    fn find_in_row(&self, y: usize, tally: &mut Verdicts, list: &mut [f32])
        requires { Finding self.now.scan y tally.old (length self.now.resp.now) (length self.now.image.now) }
        ensures { RowFound self.now.scan self.now.resp.now self.now.image.now y list.old tally.old list.new tally.new }
    {
        let b = self.scan.params.border();
        let ex = self.scan.w - b;
        let mut from = b;
        while let Some(x) = self.next_in_row(y, from, ex, tally) {
            self.judge_and_list(x, y, tally, list);
            from = x + 1;
        }
    }

    // All corners, and how many candidates have each verdict.
    pub fn find_peaks(&self, list: &mut [f32]) -> Verdicts
        requires { self.now.scan.floor ≡ floor_in self.now.scan self.now.resp.now }
        ensures { Found self.now.scan self.now.resp.now self.now.image.now list.old result list.new }
    {
        let h = self.scan.h;
        let b = self.scan.params.border();
        let ey = h - b;
        let mut tally = Verdicts::none();
        for y in b..ey {
            self.find_in_row(y, &mut tally, list);
        }
        let all = (self.scan.w - 2 * b) * (ey - b);
        by_subtraction(all, tally)
    }
}
