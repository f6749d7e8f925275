// Why a call refuses, by name and by number.
ghost use Rattle.std.specs.Prelude.{◌≡◌};
ghost use Rattle.bits.specs.Says.{number_of};
ghost use Rattle.bits.specs.declared.refusals.FillError.TheVariants as F;

// Each refusal but 12, which has lengths with it. docs/REFUSALS.md has the numbers with their meaning.
#[derive(Clone, Copy, PartialEq, Eq)]
pub enum Refusal {
    Kind,
    PayloadTooLong,
    TooFewBytes,
    Version,
    CubeLayout,
    BoxSize,
    MeshCount,
    RunningNumber,
    Grid,
    Crop,
    RadiusOrFaceWidth,
    NotAMesh,
    CountTooLarge,
    Records,
    FieldWidth,
    NotFinite,
    ThirdMesh,
    ListOrNumber,
    NotShown,
    ListFull,
    Question,
    Shares,
}

impl Refusal {
    pub fn number(self) -> u8
        ensures { result ≡ number_of self }
    {
        match self {
            Refusal::Kind => 1,
            Refusal::PayloadTooLong => 2,
            Refusal::TooFewBytes => 3,
            Refusal::Version => 4,
            Refusal::CubeLayout => 5,
            Refusal::BoxSize => 6,
            Refusal::MeshCount => 7,
            Refusal::RunningNumber => 8,
            Refusal::Grid => 9,
            Refusal::Crop => 10,
            Refusal::RadiusOrFaceWidth => 11,
            Refusal::NotAMesh => 13,
            Refusal::CountTooLarge => 14,
            Refusal::Records => 15,
            Refusal::FieldWidth => 16,
            Refusal::NotFinite => 17,
            Refusal::ThirdMesh => 18,
            Refusal::ListOrNumber => 19,
            Refusal::NotShown => 20,
            Refusal::ListFull => 21,
            Refusal::Question => 24,
            Refusal::Shares => 26,
        }
    }
}

// Why a call does not fill what it is lent: that is too short, and this is what it needs (12); or it refuses.
#[derive(Clone, Copy)]
pub enum FillError<L> {
    Needs(L),
    Refused(Refusal),
}

impl<L> From<Refusal> for FillError<L> {
    ghost from_gives = { λ r e. e ≡ F.Refused r };

    fn from(refusal: Refusal) -> Self {
        FillError::Refused(refusal)
    }
}
