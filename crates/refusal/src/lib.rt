// What is turned away: the refusals of documents 01 and 02. A call answers a `Result` with a refusal for its error: one that fills a list
// answers how many elements it wrote, and checks alone answer nothing.
#![tactic(auto)]

ghost use Rattle.std.specs.Prelude.{◌≡◌};
ghost use Rattle.refusal.specs.Number.{number_of};

// The refusals, in the order of their numbers.
#[derive(Clone, Copy, Debug, PartialEq, Eq)]
pub enum Refusal {
    Alphabet,
    TextLength,
    TextByte,
    MisplacedSign,
    Depth,
    Count,
    Bracket,
    Foreign,
    Letters,
    FormMemory,
    BadForm,
    Matrix,
    Cost,
    OutputMemory,
    Work,
    NoReading,
    Label,
    Sheet,
    ClassName,
    WordList,
}

// The number of a refusal.
impl From<Refusal> for u32 {
    ghost from_gives = { λ r n. n ≡ number_of r };

    fn from(r: Refusal) -> u32 {
        match r {
            Refusal::Alphabet => 1,
            Refusal::TextLength => 2,
            Refusal::TextByte => 3,
            Refusal::MisplacedSign => 4,
            Refusal::Depth => 5,
            Refusal::Count => 6,
            Refusal::Bracket => 7,
            Refusal::Foreign => 8,
            Refusal::Letters => 9,
            Refusal::FormMemory => 10,
            Refusal::BadForm => 11,
            Refusal::Matrix => 12,
            Refusal::Cost => 13,
            Refusal::OutputMemory => 14,
            Refusal::Work => 15,
            Refusal::NoReading => 16,
            Refusal::Label => 17,
            Refusal::Sheet => 18,
            Refusal::ClassName => 19,
            Refusal::WordList => 21,
        }
    }
}
