// Why a call says no: every refusal of the project, by name, with the number that its users know, and the layer that refused.
// Promise: `number` gives the number of the table, one for each name; `unless` refuses exactly where something is not fine. The table is specs/Table.antt, and in prose docs/REFUSALS.md.
#![tactic(auto)]

ghost use Rattle.std.specs.Prelude.{◌≡◌, true, false, MatchResult};
ghost use Rattle.refusal.specs.Table.{number_of, refusal_of, layer_of};

#[derive(Clone, Copy, PartialEq, Eq, Debug)]
pub enum Refusal {
    RegionLimits = 1,
    ChannelKinds = 2,
    StoreSize = 3,
    FrameLimits = 4,
    SlotNumber = 5,
    RecordCount = 6,
    ModeNumber = 7,
    MissingAlpha = 8,
    PictureChannels = 9,
    PictureLimits = 10,
    PatchRectangle = 11,
    PatchPlace = 12,
    NoRegion = 13,
    GridShape = 15,
    SampleDepth = 16,
    PlateHeader = 17,
    PlateFormula = 18,
    PlateCut = 19,
    PlateContent = 20,
    InputLength = 21,
    NotStarted = 31,
    AlreadyStarted = 32,
    FrameOpen = 33,
    NoFrameOpen = 34,
    WrongTicket = 35,
    FrameNumber = 36,
    OutsideStore = 37,
}

impl Refusal {
    // The number by which users know the refusal.
    pub fn number(self) -> u8
        ensures { result ≡ number_of self }
    {
        self as u8
    }

    // The refusal, unless all is fine.
    pub fn unless(self, fine: bool) -> Result<(), Refusal>
        ensures { MatchResult result (λ _. fine ≡ true) (λ refusal. (refusal ≡ self) × (fine ≡ false)) }
    {
        if fine { Ok(()) } else { Err(self) }
    }
}

// A refusal with the layer that met it.
#[derive(Clone, Copy, PartialEq, Eq, Debug)]
pub enum Fault {
    Input(Refusal),
    Plate(Refusal),
    Stage(Refusal),
}

impl Fault {
    // The refusal, whichever layer met it. This and `layer` are public words, of which a printed line is made.
    pub fn refusal(self) -> Refusal
        ensures { result ≡ refusal_of self }
    {
        match self {
            Fault::Input(refusal) | Fault::Plate(refusal) | Fault::Stage(refusal) => refusal,
        }
    }

    // The layer's name, as it is printed.
    pub fn layer(self) -> &'static str
        ensures { result.now ≡ layer_of self }
    {
        match self {
            Fault::Input(_) => "input",
            Fault::Plate(_) => "plate",
            Fault::Stage(_) => "stage",
        }
    }
}
