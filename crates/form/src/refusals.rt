// The refusals of document 01.
ghost use Rattle.std.specs.Prelude.{◌≡◌};
ghost use Rattle.form.specs.Answers.{number};

// Each with its number. A value read is refused by 1 to 5 and a type read by 6 to 10: by its length, by shape, by names, by level, by bytes left over.
#[derive(Clone, Copy, Debug, PartialEq, Eq, Hash)]
pub enum Refusal {
    ValueLength = 1,
    // Ends inside, unknown command, or an operand outside its list.
    ValueShape = 2,
    ValueNames = 3,
    ValueLevel = 4,
    ValueLeftOver = 5,
    TypeLength = 6,
    TypeShape = 7,
    TypeNames = 8,
    TypeLevel = 9,
    TypeLeftOver = 10,
    // A path of more than 31 names.
    PathLength = 11,
    // A context is wanted.
    NotContext = 12,
    // The least type is asked of a value that holds a function, a type value or an irrelevant mark.
    NotData = 13,
    // The scratch is too short.
    Scratch = 14,
    // Err of `get_value_checked`.
    NotRetrieved = 15,
    // Err of `apply_entries`.
    NotApplied = 16,
    // The result is longer or deeper than a value may be.
    ResultSize = 17,
    // The output is too short for the answer.
    Output = 18,
    // A table or parts are malformed.
    Texts = 19,
    // A name's number is not in the table.
    NoSuchName = 20,
    // A table of simple types: its length or a byte is wrong.
    Table = 26,
    // It is no order.
    NotOrdered = 27,
    // Two types lack a least common supertype.
    NoJoin = 28,
}

impl From<Refusal> for u8 {
    ghost from_gives = { λ refusal n. n ≡ number refusal };

    fn from(refusal: Refusal) -> u8 {
        refusal as u8
    }
}
