// The numbered answers, and what a call reports with one.
ghost use Rattle.std.specs.Prelude.{◌≡◌, [], ◌∷◌};
ghost use Rattle.params.specs.Answers.{number_of, no_verdicts, refused};

// What a call answers. The numbers are document 01's to 14, and document 02's from there on. All but the first two refuse.
// One enum for what accepts and what refuses: the documents number both in one list, which `number_of` says.
#[derive(Clone, Copy, PartialEq, Eq)]
pub enum Answer {
    // 0: accepted, all corners fit
    Complete,
    // 1: accepted, more corners than room
    ListFull,
    // 2: width or height over 4,096
    SideTooLong,
    // 3: image length differs from width times height
    ImageLength,
    // 4: more than 8,388,608 working pixels
    TooManyPixels,
    // 5: ray radius over 7
    RayRadius,
    // 6: blur radius over 3
    BlurRadius,
    // 7: suppression radius over 32
    SuppressionRadius,
    // 8: threshold NaN, below 0 or above 1
    Threshold,
    // 9: a lent buffer other than the list is too short
    BufferTooShort,
    // 10: a frame file longer than the program has room for
    FileTooLong,
    // 11: a frame file shorter than its fields
    FileTooShort,
    // 12: a version that is not known
    Version,
    // 13: the stated length is not the file's
    StatedLength,
    // 14: a mode above 1
    Mode,
    // 15: a working side of at most twice the border
    FrameTooSmall,
    // 16: a corner record shorter than its fields, or whose stated length is not its own
    RecordLength,
    // 17: a corner record of a version that is not known
    RecordVersion,
    // 18: a count that is not that of the record's length, or over 8,388,608 corners
    CornerCount,
    // 19: a number of a corner that is not finite
    NotFinite,
    // 20: an output too short for what is to be written into it
    OutputTooShort,
    // 21: a camera count that is not 2 to 8, or a list with less than one corner a camera
    Cameras,
}

impl Answer {
    // The answer's number.
    pub fn number(self) -> u32
        ensures { result ≡ number_of self }
    {
        self as u32
    }
}

// How many candidates have each verdict, in the order of the rules: the first that they fail, or kept.
#[derive(Clone, Copy, Default)]
pub struct Verdicts {
    pub not_above: usize,
    pub beaten: usize,
    pub too_few: usize,
    pub too_flat: usize,
    pub wrong_curvature: usize,
    pub kept: usize,
}

impl Verdicts {
    // A call that judges no candidate has six zeros.
    pub fn none() -> Self
        ensures { result ≡ no_verdicts }
    {
        Self::default()
    }
}

// The six in that order.
impl From<Verdicts> for [usize; 6] {
    fn from(v: Verdicts) -> [usize; 6]
        ensures { result ≡ v.not_above ∷ v.beaten ∷ v.too_few ∷ v.too_flat ∷ v.wrong_curvature ∷ v.kept ∷ [] }
    {
        [
            v.not_above,
            v.beaten,
            v.too_few,
            v.too_flat,
            v.wrong_curvature,
            v.kept,
        ]
    }
}

// What a call reports: its answer, how many corners it found, the working image's sides, and what became of the candidates.
// No `Result`: two answers accept, 0 and 1, and a refusal too has the numbers, as zeros (`outcome_of`, `refused`, and the C interface).
#[derive(Clone, Copy)]
pub struct Outcome {
    pub answer: Answer,
    pub count: usize,
    pub w: usize,
    pub h: usize,
    pub verdicts: Verdicts,
}

impl Outcome {
    // A refused call reports nothing but its answer.
    pub fn refusal(answer: Answer) -> Self
        ensures { result ≡ refused answer }
    {
        Self {
            answer,
            count: 0,
            w: 0,
            h: 0,
            verdicts: Verdicts::none(),
        }
    }
}
