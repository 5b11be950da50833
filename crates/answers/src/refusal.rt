// Refusals: why a call is not carried out at all, each with its number. A refused call has changed nothing.
ghost use Rattle.std.specs.Prelude.{◌≡◌};
ghost use Rattle.answers.specs.Refusal.{refusal_number, number_from11};

// Why a call is refused. 11 to 19 have the names that the Rust has for them; the others are for what the Rust never meets.
#[derive(Clone, Copy)]
pub enum Refusal {
    // More than 512 elements.
    TooManyElements,
    // More than 16 service codes.
    TooManyCodes,
    // The list's bytes end before the counted elements do, or run on.
    ListLength,
    // The staging lent to a write is too short.
    ShortStaging,
    // The output lent to a read, a directory or a message is too short.
    ShortOutput,
    // A malformed request line.
    MalformedRequest,
    // The arena is shorter than the blocks in use.
    ShortArena,
    // A card value that no accepted additions and limits produce.
    NotBuilt,
    InvalidAreaRange,
    InvalidRootAreaRange,
    NodeCodeOutOfRange,
    InvalidAreaAttribute,
    ChildAreaForbidden,
    UndefinedServiceAttribute,
    ServiceOutOfRange,
    AreaOutOfRange,
    OverlapKindMismatch,
    // All 64 records are taken.
    TableFull,
    // No parent at that depth, or depth 0 or over 8.
    NoParent,
    // Unused usable blocks are fewer than the new store needs.
    NoRoom,
    // No such block on the card.
    NoSuchBlock,
    // A store that would be joined has another count of blocks than the service.
    CountsDiffer,
    // A limit for a node that is no service.
    NotAService,
    // A malformed image line.
    MalformedImage,
    // The parent that a code list names is no area.
    ParentNoArea,
    // A packet of a code list past the last.
    PacketPastEnd,
    // More than 32 nodes asked.
    TooManyNodes,
    // Bytes that are no message.
    NotAMessage,
    // A buffer lent for a salvaged image, or for its report, is too short.
    OutputTooShort,
}

impl Refusal {
    // Gives the number of a refusal. Numbers that are left out are no refusal's, but 40 to 43, which are a board's.
    pub fn number(self) -> u8
        ensures { result ≡ refusal_number self }
    {
        match self {
            Refusal::TooManyElements => 1,
            Refusal::TooManyCodes => 2,
            Refusal::ListLength => 3,
            Refusal::ShortStaging => 4,
            Refusal::ShortOutput => 5,
            Refusal::MalformedRequest => 6,
            Refusal::ShortArena => 7,
            Refusal::NotBuilt => 8,
            _ => self.number_from_11(),
        }
    }

    // Gives the number of a refusal from 11 on, and 0 for one below: a card or an image that is not made, a question that is not answered.
    fn number_from_11(self) -> u8
        ensures { result ≡ number_from11 self }
    {
        match self {
            Refusal::InvalidAreaRange => 11,
            Refusal::InvalidRootAreaRange => 12,
            Refusal::NodeCodeOutOfRange => 13,
            Refusal::InvalidAreaAttribute => 14,
            Refusal::ChildAreaForbidden => 15,
            Refusal::UndefinedServiceAttribute => 16,
            Refusal::ServiceOutOfRange => 17,
            Refusal::AreaOutOfRange => 18,
            Refusal::OverlapKindMismatch => 19,
            Refusal::TableFull => 20,
            Refusal::NoParent => 21,
            Refusal::NoRoom => 22,
            Refusal::NoSuchBlock => 23,
            Refusal::CountsDiffer => 24,
            Refusal::NotAService => 28,
            Refusal::MalformedImage => 30,
            Refusal::ParentNoArea => 44,
            Refusal::PacketPastEnd => 45,
            Refusal::TooManyNodes => 46,
            Refusal::NotAMessage => 47,
            Refusal::OutputTooShort => 48,
            _ => 0,
        }
    }
}
