// The finder, all cameras of an arch, the map and the list, corner records, the square root and the logarithm for a C or Rust program to call:
// numbers and slices, and every answer as its number. A slice is a pointer and a length there. The header in tools/steyrbunk/include explains each argument.
// An entry that takes more than before has a new name: what was built for the old one does not link, where it would be written through an argument that
// was never passed. That the parameters are many, each buffer and each setting one, and that answers are numbers: the C interface.
#![tactic(auto)]

ghost use Rattle.std.specs.Prelude.{◌≡◌, length};
ghost use Rattle.std.specs.Float.{nan};
ghost use Rattle.std.specs.Option.{unwrap_or};
ghost use Rattle.grid.specs.Each.{each};
ghost use Rattle.scalar.specs.Log.{log_of, terms, high};
ghost use Rattle.scalar.specs.Root.{root_of};
ghost use Rattle.params.specs.Answers.{number_of};
ghost use Rattle.response.specs.Map.{map_lent, mapped_of, map_buffers_of};
ghost use Rattle.radon.specs.Finder.{lent};
ghost use Rattle.arch.specs.Arch.{arch_outcome, arch_buffers};
ghost use Rattle.record.specs.Record.{version, stride, write_outcome, written, read_outcome, read_back};
ghost use Rattle.steyrbunk_c.specs.Called.{settings_of, map_settings, reported, told, map_reported, map_told, verdict_numbers, camera_numbers};
ghost use Rattle.steyrbunk_c.specs.Called.{called_outcome, called_buffers, called_peaks, called_list};

use arch::run_arch;
use params::{Answer, Outcome, PeakFitMode, RadonDetectorParams, Verdicts};
use radon::radon_corners_u8;
use record::{read_record, write_record};
use response::{WorkBuffers, radon_response_u8};

// The settings that a call's numbers give, or answer 14, where the number of the mode is above 1.
fn settings_of(
    ray: u32,
    up: u32,
    blur: u32,
    fit: u32,
    rel: f32,
    nms: u32,
    least: u32,
) -> Result<RadonDetectorParams, Answer>
    ensures { result ≡ settings_of ray up blur fit rel nms least }
{
    Ok(RadonDetectorParams {
        ray_radius: ray,
        image_upsample: up,
        response_blur_radius: blur,
        peak_fit: PeakFitMode::try_from(fit)?,
        threshold_rel: rel,
        nms_radius: nms,
        min_cluster_size: least,
    })
}

// An outcome as the caller sees it: three numbers through references, and the answer's.
fn tell(o: Outcome, count: &mut usize, w: &mut usize, h: &mut usize) -> u32
    ensures { reported result count.new w.new h.new ≡ told o }
{
    *count = o.count;
    *w = o.w;
    *h = o.h;
    o.answer.number()
}

// The six counts.
fn verdict_numbers(v: Verdicts) -> [usize; 6]
    ensures { result ≡ verdict_numbers v }
{
    <[usize; 6]>::from(v)
}

// The finder: map and list of an image in one call.
#[unsafe(no_mangle)]
pub extern "C" fn steyrbunk_corners(
    img: &[u8],
    w: usize,
    h: usize,
    ray: u32,
    up: u32,
    blur: u32,
    fit: u32,
    threshold: f32,
    nms: u32,
    least: u32,
    work: &mut [u8],
    row: &mut [u32],
    col: &mut [u32],
    fall: &mut [u32],
    rise: &mut [u32],
    resp: &mut [f32],
    scratch: &mut [f32],
    out: &mut [f32],
    count: &mut usize,
    ww: &mut usize,
    wh: &mut usize,
    verdicts: &mut [usize; 6],
) -> u32
    ensures told { reported result count.new ww.new wh.new
        ≡ told (called_outcome (settings_of ray up blur fit threshold nms least) img.now w h
        (lent work.old row.old col.old fall.old rise.old
        resp.old scratch.old out.old)) }
    ensures verdicts { verdicts.new
        ≡ verdict_numbers (called_outcome (settings_of ray up blur fit threshold nms least) img.now w h
        (lent work.old row.old col.old fall.old rise.old
        resp.old scratch.old out.old)).verdicts }
    ensures buffers { lent work.new row.new col.new fall.new rise.new
        resp.new scratch.new out.new
        ≡ called_buffers (settings_of ray up blur fit threshold nms least) img.now w h
        (lent work.old row.old col.old fall.old rise.old
        resp.old scratch.old out.old) }
{
    // Written out in each entry: of a struct that a function makes of the slices, what they hold afterwards was tried and stays open.
    let work = &mut WorkBuffers {
        working: work,
        row,
        col,
        falling: fall,
        rising: rise,
        response: resp,
        scratch,
    };
    let o = match settings_of(ray, up, blur, fit, threshold, nms, least) {
        Ok(p) => radon_corners_u8(img, w, h, p, work, out),
        Err(answer) => Outcome::refusal(answer),
    };
    *verdicts = verdict_numbers(o.verdicts);
    tell(o, count, ww, wh)
}

// What a camera is told: answer, count, W and H, and the six counts.
fn camera_numbers(o: Outcome) -> [usize; 10]
    ensures { result ≡ camera_numbers o }
{
    let head = [o.answer.number() as usize, o.count, o.w, o.h];
    let mut numbers = [0; 10];
    numbers[..4].copy_from_slice(&head);
    numbers[4..].copy_from_slice(&verdict_numbers(o.verdicts));
    numbers
}

// What the cameras of an arch are told, ten numbers each.
fn tell_cameras(cameras: [Outcome; 8], told: &mut [usize])
    requires { length told.old ≡ 80 }
    ensures { told.new ≡ each camera_numbers cameras }
{
    for (i, camera) in cameras.iter().enumerate() {
        let a = 10 * i;
        told[a..a + 10].copy_from_slice(&camera_numbers(*camera));
    }
}

// All cameras of an arch: frame files end to end, and as many equal shares of the list as there are cameras.
#[unsafe(no_mangle)]
pub extern "C" fn steyrbunk_run_arch(
    cameras: usize,
    frames: &[u8],
    work: &mut [u8],
    row: &mut [u32],
    col: &mut [u32],
    fall: &mut [u32],
    rise: &mut [u32],
    resp: &mut [f32],
    scratch: &mut [f32],
    out: &mut [f32],
    told: &mut [usize; 80],
) -> u32
    ensures answer { result ≡ number_of (arch_outcome cameras frames.now
        (lent work.old row.old col.old fall.old rise.old
        resp.old scratch.old out.old)).answer }
    ensures told { told.new ≡ each camera_numbers (arch_outcome cameras frames.now
        (lent work.old row.old col.old fall.old rise.old
        resp.old scratch.old out.old)).cameras }
    ensures buffers { lent work.new row.new col.new fall.new rise.new
        resp.new scratch.new out.new
        ≡ arch_buffers cameras frames.now
        (lent work.old row.old col.old fall.old rise.old
        resp.old scratch.old out.old) }
{
    let work = &mut WorkBuffers {
        working: work,
        row,
        col,
        falling: fall,
        rising: rise,
        response: resp,
        scratch,
    };
    let o = run_arch(cameras, frames, work, out);
    tell_cameras(o.cameras, told);
    o.answer.number()
}

// The settings for the map's own entry.
fn map_settings(ray: u32, up: u32, blur: u32) -> RadonDetectorParams
    ensures { result ≡ map_settings ray up blur }
{
    RadonDetectorParams {
        ray_radius: ray,
        image_upsample: up,
        response_blur_radius: blur,
        ..RadonDetectorParams::new()
    }
}

// The map alone.
#[unsafe(no_mangle)]
pub extern "C" fn steyrbunk_response(
    img: &[u8],
    w: usize,
    h: usize,
    ray: u32,
    up: u32,
    blur: u32,
    work: &mut [u8],
    row: &mut [u32],
    col: &mut [u32],
    fall: &mut [u32],
    rise: &mut [u32],
    resp: &mut [f32],
    scratch: &mut [f32],
    ww: &mut usize,
    wh: &mut usize,
) -> u32
    ensures told { map_reported result ww.new wh.new
        ≡ map_told (mapped_of img.now w h (map_settings ray up blur)
        (map_lent work.old row.old col.old fall.old rise.old
        resp.old scratch.old)) }
    ensures buffers { map_lent work.new row.new col.new fall.new rise.new
        resp.new scratch.new
        ≡ map_buffers_of img.now w h (map_settings ray up blur)
        (map_lent work.old row.old col.old fall.old rise.old
        resp.old scratch.old) }
{
    let p = map_settings(ray, up, blur);
    let work = &mut WorkBuffers {
        working: work,
        row,
        col,
        falling: fall,
        rising: rise,
        response: resp,
        scratch,
    };
    match radon_response_u8(img, w, h, p, work) {
        Ok(map) => {
            *ww = map.w;
            *wh = map.h;
            Answer::Complete.number()
        }
        Err(answer) => {
            *ww = 0;
            *wh = 0;
            answer.number()
        }
    }
}

// The list of a map over its work image, both w wide and h high.
#[unsafe(no_mangle)]
pub extern "C" fn steyrbunk_detect_peaks(
    response: &[f32],
    image: &[u8],
    w: usize,
    h: usize,
    ray: u32,
    up: u32,
    blur: u32,
    fit: u32,
    threshold: f32,
    nms: u32,
    least: u32,
    list: &mut [f32],
    count: &mut usize,
    verdicts: &mut [usize; 6],
) -> u32
    ensures answer { result ≡ number_of (called_peaks (settings_of ray up blur fit threshold nms least) w h
        response.now image.now (length list.old)).answer }
    ensures count { count.new ≡ (called_peaks (settings_of ray up blur fit threshold nms least) w h
        response.now image.now (length list.old)).count }
    ensures verdicts { verdicts.new ≡ verdict_numbers (called_peaks (settings_of ray up blur fit threshold nms least) w h
        response.now image.now (length list.old)).verdicts }
    ensures list { list.new ≡ called_list (settings_of ray up blur fit threshold nms least) w h
        response.now image.now list.old }
{
    let found = match settings_of(ray, up, blur, fit, threshold, nms, least) {
        Ok(p) => detect::detect_peaks_from_radon(response, image, w, h, p, list),
        Err(answer) => Outcome::refusal(answer),
    };
    *count = found.count;
    *verdicts = verdict_numbers(found.verdicts);
    found.answer.number()
}

// The record of a list, with the sides of its working image.
#[unsafe(no_mangle)]
pub extern "C" fn steyrbunk_write_record(
    w: u16,
    h: u16,
    list: &[f32],
    out: &mut [u8],
    count: &mut usize,
    ww: &mut usize,
    wh: &mut usize,
) -> u32
    ensures told { reported result count.new ww.new wh.new
        ≡ told (write_outcome stride w h list.now (length out.old)) }
    ensures output { out.new ≡ written version stride w h list.now out.old }
{
    tell(write_record(w, h, list, out), count, ww, wh)
}

// The list of a record, and its sides.
#[unsafe(no_mangle)]
pub extern "C" fn steyrbunk_read_record(
    file: &[u8],
    list: &mut [f32],
    count: &mut usize,
    ww: &mut usize,
    wh: &mut usize,
) -> u32
    ensures told { reported result count.new ww.new wh.new
        ≡ told (read_outcome version stride file.now (length list.old)) }
    ensures list { list.new ≡ read_back version stride file.now list.old }
{
    tell(read_record(file, list), count, ww, wh)
}

// The square root. NaN stands for none, here and below.
#[unsafe(no_mangle)]
pub extern "C" fn steyrbunk_sqrt(x: f32) -> f32
    ensures { result ≡ unwrap_or (root_of x) nan }
{
    scalar::sqrt(x).unwrap_or(f32::NAN)
}

// The logarithm.
#[unsafe(no_mangle)]
pub extern "C" fn steyrbunk_ln(x: f32) -> f32
    ensures { result ≡ unwrap_or (log_of terms high x) nan }
{
    scalar::ln(x).unwrap_or(f32::NAN)
}
