// What refuses a call: the refusals of documents 01 and 02, by the names of include/govlezna.h, with what the answer words say of them.
ghost use Rattle.std.specs.Prelude.{◌≡◌, [], ◌∷◌};
ghost use Rattle.text.specs.Refusals.{number_of, first_of, second_of};

#[derive(Clone, Copy)]
pub enum Refusal {
    // The text's length.
    TooLong(u64),
    DepthTooLarge,
    LimitTooLarge,
    // Of a level or a version.
    UnknownByte,
    // The end of the longest well-formed prefix.
    NotUtf8(u64),
    TableTooLong,
    // An offset in the list, as in the two below.
    MalformedList(u64),
    OutsidePool(u64),
    InvalidDefinition(u64),
    // The offset of `&`, and the text's length.
    UnterminatedEntity(u64, u64),
    // The name's start and end.
    UnrecognizedEntity(u64, u64),
    UnexpectedSign,
    InvalidNumber,
    // The number.
    InvalidCodepoint(u64),
    IllegalCharacter,
    TooDeep,
    // The offset of `&`.
    TooManyOpenings(u64),
    // The length that is needed, as in the one below.
    NoScratch(u64),
    NoRoom(u64),
    // The cursor or offset.
    CursorOutside(u64),
    // The offset of what departs from the form of declarations.
    MalformedDeclaration(u64),
    // The offset at which a name, a value or the number of declarations passes its limit.
    DeclarationTooLarge(u64),
    // The lengths of list and pool, for which there is no room or which are too long for a table.
    NoTableRoom(u64, u64),
    // A reference to a character that the version does not allow.
    ForbiddenReference,
    // The offset of a raw character that the version does not allow.
    ForbiddenCharacter(u64),
    // The offset of `&`.
    ExternalEntity(u64),
    DamagedRegister,
    AbsentForm,
    RegisterFull,
    // The index of the first span that leaves the text, or the most spans.
    SpanOutside(u64),
    NoDepth,
    // No refusal: there is no further piece.
    NoMore,
    // By a caller's own number and words: `put`, `check_arguments` and the like take any, as they did before this enum.
    Numbered(u32, u64, u64),
}

impl Refusal {
    // Its number there.
    pub fn number(self) -> u32
        ensures { result ≡ number_of self }
    {
        match self {
            Refusal::TooLong(_) => 1,
            Refusal::DepthTooLarge => 2,
            Refusal::LimitTooLarge => 3,
            Refusal::UnknownByte => 4,
            Refusal::NotUtf8(_) => 5,
            Refusal::TableTooLong => 6,
            Refusal::MalformedList(_) => 7,
            Refusal::OutsidePool(_) => 8,
            Refusal::InvalidDefinition(_) => 9,
            Refusal::UnterminatedEntity(_, _) => 10,
            Refusal::UnrecognizedEntity(_, _) => 11,
            Refusal::UnexpectedSign => 12,
            Refusal::InvalidNumber => 13,
            Refusal::InvalidCodepoint(_) => 14,
            Refusal::IllegalCharacter => 15,
            Refusal::TooDeep => 16,
            Refusal::TooManyOpenings(_) => 17,
            Refusal::NoScratch(_) => 18,
            Refusal::NoRoom(_) => 19,
            Refusal::CursorOutside(_) => 20,
            Refusal::MalformedDeclaration(_) => 21,
            Refusal::DeclarationTooLarge(_) => 22,
            Refusal::NoTableRoom(_, _) => 23,
            Refusal::ForbiddenReference => 25,
            Refusal::ForbiddenCharacter(_) => 26,
            Refusal::ExternalEntity(_) => 27,
            Refusal::DamagedRegister => 28,
            Refusal::AbsentForm => 29,
            Refusal::RegisterFull => 30,
            Refusal::SpanOutside(_) => 31,
            Refusal::NoDepth => 32,
            Refusal::NoMore => 255,
            Refusal::Numbered(number, _, _) => number,
        }
    }

    // Its two answer words.
    pub fn words(self) -> [u64; 2]
        ensures { result ≡ first_of self ∷ second_of self ∷ [] }
    {
        match self {
            Refusal::TooLong(first)
            | Refusal::NotUtf8(first)
            | Refusal::MalformedList(first)
            | Refusal::OutsidePool(first)
            | Refusal::InvalidDefinition(first)
            | Refusal::InvalidCodepoint(first)
            | Refusal::TooManyOpenings(first)
            | Refusal::NoScratch(first)
            | Refusal::NoRoom(first)
            | Refusal::CursorOutside(first)
            | Refusal::MalformedDeclaration(first)
            | Refusal::DeclarationTooLarge(first)
            | Refusal::ForbiddenCharacter(first)
            | Refusal::ExternalEntity(first)
            | Refusal::SpanOutside(first) => [first, 0],
            Refusal::UnterminatedEntity(first, second)
            | Refusal::UnrecognizedEntity(first, second)
            | Refusal::NoTableRoom(first, second)
            | Refusal::Numbered(_, first, second) => [first, second],
            _ => [0, 0],
        }
    }
}
