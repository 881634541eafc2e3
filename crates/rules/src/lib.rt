//! The types that the definitions of specs/ and the code of the crates above share.
#![tactic(auto)]

ghost use Rattle.std.specs.Prelude.{◌≡◌, ◌<◌, ◌≤◌, MatchResult};
ghost use Rattle.rules.specs.declared.Refusal.TheVariants.{BadCode};
ghost use Rattle.rules.specs.Layout.{quantifier_code, group_code, sort_code};
ghost use Rattle.rules.specs.Decode.{quantifier_of, group_of, sort_of};
ghost use Rattle.rules.specs.Kinds.{kind_by, kind_number};
ghost use Rattle.rules.specs.RowSorts.{row_number, read_sort};
ghost use Rattle.rules.specs.Codes.{IsCodeUpTo, IsGroupCode};
ghost use Rattle.rules.specs.Given.{refusal_number};

// What has the code that a call gives, of things with the codes from 0 to the last.
fn read_code<T: From<u8>>(last: u8, code: u32) -> Result<T, Refusal>
    ensures { MatchResult result (λ x. T.from_gives code x × (code ≤ last)) (λ e. (e ≡ BadCode) × (last < code)) }
{
    if code > u32::from(last) {
        return Err(Refusal::BadCode);
    }
    Ok(T::from(code as u8))
}

/// What an element of a definition has below it, besides its attributes' rows: nothing, one text, or elements by the
/// definition's model.
#[derive(Clone, Copy, Debug, PartialEq, Eq)]
pub enum Kind {
    Empty,
    Pcdata,
    Complex,
}

impl From<u8> for Kind {
    ghost from_gives = { λ code kind. kind ≡ kind_by code };

    /// The kind whose code this is in the store; every code above 1 is read as that of COMPLEX. Each of these enums has
    /// its own table: one reader of them all would be given the table as pairs, and is no plainer.
    fn from(code: u8) -> Kind {
        match code {
            0 => Kind::Empty,
            1 => Kind::Pcdata,
            _ => Kind::Complex,
        }
    }
}

impl From<Kind> for u8 {
    ghost from_gives = { λ kind code. code ≡ kind_number kind };

    /// The code in the store.
    fn from(content: Kind) -> u8 {
        content as u8
    }
}

impl TryFrom<u32> for Kind {
    type Error = Refusal;

    ghost try_from_gives = { IsCodeUpTo 2 kind_by };

    /// The kind whose code a call gives.
    fn try_from(code: u32) -> Result<Kind, Refusal> {
        read_code(Kind::Complex as u8, code)
    }
}

/// How often a particle may stand.
#[derive(Clone, Copy, Debug, PartialEq, Eq)]
pub enum Quantifier {
    None,
    Qmark,
    Star,
    Plus,
}

impl From<u8> for Quantifier {
    ghost from_gives = { λ code quantifier. quantifier ≡ quantifier_of code };

    /// The quantifier whose code this is in the store; every code above 3 is read as that of PLUS.
    fn from(code: u8) -> Quantifier {
        match code {
            0 => Quantifier::None,
            1 => Quantifier::Qmark,
            2 => Quantifier::Star,
            _ => Quantifier::Plus,
        }
    }
}

impl From<Quantifier> for u8 {
    ghost from_gives = { λ quantifier code. code ≡ quantifier_code quantifier };

    /// The code in the store.
    fn from(quantifier: Quantifier) -> u8 {
        quantifier as u8
    }
}

impl TryFrom<u32> for Quantifier {
    type Error = Refusal;

    ghost try_from_gives = { IsCodeUpTo 3 quantifier_of };

    /// The quantifier whose code a call gives.
    fn try_from(code: u32) -> Result<Quantifier, Refusal> {
        read_code(Quantifier::Plus as u8, code)
    }
}

/// The kind of a group: LIST is Sequence.
#[derive(Clone, Copy, Debug, PartialEq, Eq)]
pub enum GroupKind {
    Sequence = 1,
    Choice = 2,
}

impl From<u8> for GroupKind {
    ghost from_gives = { λ code kind. kind ≡ group_of code };

    /// The kind whose code this is in the store; every code above 1 is read as that of a CHOICE.
    fn from(code: u8) -> GroupKind {
        match code {
            0 => GroupKind::Sequence,
            1 => GroupKind::Sequence,
            _ => GroupKind::Choice,
        }
    }
}

impl From<GroupKind> for u8 {
    ghost from_gives = { λ kind code. code ≡ group_code kind };

    /// The code in the store.
    fn from(kind: GroupKind) -> u8 {
        kind as u8
    }
}

impl TryFrom<u32> for GroupKind {
    type Error = Refusal;

    ghost try_from_gives = { IsGroupCode };

    /// The kind whose code a call gives.
    fn try_from(code: u32) -> Result<GroupKind, Refusal> {
        match code {
            1 => Ok(GroupKind::Sequence),
            2 => Ok(GroupKind::Choice),
            _ => Err(Refusal::BadCode),
        }
    }
}

/// The sort of an attribute: IMPLIED, its rows may be left out; REQUIRED, each element has one; FIXED, its rows have
/// the attribute's own value.
#[derive(Clone, Copy, Debug, PartialEq, Eq)]
pub enum AttributeSort {
    Implied,
    Required,
    Fixed,
}

impl From<u8> for AttributeSort {
    ghost from_gives = { λ code sort. sort ≡ sort_of code };

    /// The sort whose code this is in the store; every code above 1 is read as that of FIXED.
    fn from(code: u8) -> AttributeSort {
        match code {
            0 => AttributeSort::Implied,
            1 => AttributeSort::Required,
            _ => AttributeSort::Fixed,
        }
    }
}

impl From<AttributeSort> for u8 {
    ghost from_gives = { λ sort code. code ≡ sort_code sort };

    /// The code in the store.
    fn from(sort: AttributeSort) -> u8 {
        sort as u8
    }
}

impl TryFrom<u32> for AttributeSort {
    type Error = Refusal;

    ghost try_from_gives = { IsCodeUpTo 2 sort_of };

    /// The sort whose code a call gives.
    fn try_from(code: u32) -> Result<AttributeSort, Refusal> {
        read_code(AttributeSort::Fixed as u8, code)
    }
}

/// The sort of a row.
#[derive(Clone, Copy, Debug, PartialEq, Eq)]
pub enum RowSort {
    Element = 1,
    Attribute = 2,
    Text = 3,
}

impl RowSort {
    /// The sort whose code this is in the store; none for a code that no sort has.
    pub fn read(code: u8) -> Option<RowSort>
        ensures { result ≡ read_sort code }
    {
        match code {
            1 => Some(RowSort::Element),
            2 => Some(RowSort::Attribute),
            3 => Some(RowSort::Text),
            _ => None,
        }
    }
}

impl From<RowSort> for u8 {
    ghost from_gives = { λ sort code. code ≡ row_number sort };

    /// The code in the store.
    fn from(sort: RowSort) -> u8 {
        sort as u8
    }
}

/// Of a part of a content model and two names x, y: it accepts nothing; y can be a word's first; x can be a word's
/// last; y can follow x directly.
#[derive(Clone, Copy)]
pub struct Facts {
    pub nothing: bool,
    pub first: bool,
    pub last: bool,
    pub follow: bool,
}

/// Why a call is refused: the rows of the refusal table, in the order of their numbers, and 19, a text that no store
/// prints.
#[derive(Clone, Copy, Debug, PartialEq, Eq)]
pub enum Refusal {
    BadStore = 1,
    BadName = 2,
    BadValue = 3,
    BadCode = 4,
    Taken = 5,
    Unknown = 6,
    NoRow = 7,
    NoPlace = 8,
    WrongKind = 9,
    InUse = 10,
    Round = 11,
    Default = 12,
    OffSpine = 13,
    Grouping = 14,
    NoMatch = 15,
    Ceiling = 16,
    Serials = 17,
    Buffer = 18,
    BadText = 19,
}

impl From<Refusal> for u32 {
    ghost from_gives = { λ refusal number. number ≡ refusal_number refusal };

    /// The number in the table.
    fn from(refusal: Refusal) -> u32 {
        refusal as u32
    }
}
