// The questions by their words.
ghost use Rattle.std.specs.Prelude.{◌≤◌};

/// A question, named as its word, in the order of include/feel.h.
#[derive(Clone, Copy, Debug, PartialEq, Eq, Hash)]
pub enum Question {
    CheckValue,
    CheckType,
    TypeConforms,
    InstanceOf,
    Supertype,
    Subtype,
    Reduced,
    IsSimpleBuiltInType,
    TypeIsNull,
    Conforms,
    Least,
    TypeOf,
    Retrieve,
    RetrieveConformant,
    Coerce,
    IsInvalidCoercion,
    IsValidRange,
    IsNull,
    IsTrue,
    IsFalse,
    IsNumber,
    IsString,
    IsList,
    IsRange,
    Opened,
    Closed,
    Undefined,
    BifType,
    GetEntry,
    Search,
    GetFirst,
    ContainsEntry,
    Contains,
    IsContext,
    IsEmpty,
    Len,
    Create,
    Apply,
    Zip,
    Overwrite,
    MoveEntry,
    SetEntry,
    RemoveEntry,
    SetNull,
    Display,
    FromStr,
    IsBuiltInTypeName,
    NameNew,
    Trim,
    StrictTypeConforms,
    StrictSupertype,
    StrictSubtype,
    StrictConforms,
    StrictLeast,
    TableCheck,
    TableTypeConforms,
    TableSupertype,
    TableSubtype,
    TableConforms,
    TableLeast,
}

// Their words.
static WORDS: [(&[u8], Question); 60] = [
    (b"check-value", Question::CheckValue),
    (b"check-type", Question::CheckType),
    (b"type-conforms", Question::TypeConforms),
    (b"instance-of", Question::InstanceOf),
    (b"supertype", Question::Supertype),
    (b"subtype", Question::Subtype),
    (b"reduced", Question::Reduced),
    (b"is-simple-built-in-type", Question::IsSimpleBuiltInType),
    (b"type-is-null", Question::TypeIsNull),
    (b"conforms", Question::Conforms),
    (b"least", Question::Least),
    (b"type-of", Question::TypeOf),
    (b"retrieve", Question::Retrieve),
    (b"retrieve-conformant", Question::RetrieveConformant),
    (b"coerce", Question::Coerce),
    (b"is-invalid-coercion", Question::IsInvalidCoercion),
    (b"is-valid-range", Question::IsValidRange),
    (b"is-null", Question::IsNull),
    (b"is-true", Question::IsTrue),
    (b"is-false", Question::IsFalse),
    (b"is-number", Question::IsNumber),
    (b"is-string", Question::IsString),
    (b"is-list", Question::IsList),
    (b"is-range", Question::IsRange),
    (b"opened", Question::Opened),
    (b"closed", Question::Closed),
    (b"undefined", Question::Undefined),
    (b"bif-type", Question::BifType),
    (b"get-entry", Question::GetEntry),
    (b"search", Question::Search),
    (b"get-first", Question::GetFirst),
    (b"contains-entry", Question::ContainsEntry),
    (b"contains", Question::Contains),
    (b"is-context", Question::IsContext),
    (b"is-empty", Question::IsEmpty),
    (b"len", Question::Len),
    (b"create", Question::Create),
    (b"apply", Question::Apply),
    (b"zip", Question::Zip),
    (b"overwrite", Question::Overwrite),
    (b"move-entry", Question::MoveEntry),
    (b"set-entry", Question::SetEntry),
    (b"remove-entry", Question::RemoveEntry),
    (b"set-null", Question::SetNull),
    (b"display", Question::Display),
    (b"from-str", Question::FromStr),
    (b"is-built-in-type-name", Question::IsBuiltInTypeName),
    (b"name-new", Question::NameNew),
    (b"trim", Question::Trim),
    (b"strict-type-conforms", Question::StrictTypeConforms),
    (b"strict-supertype", Question::StrictSupertype),
    (b"strict-subtype", Question::StrictSubtype),
    (b"strict-conforms", Question::StrictConforms),
    (b"strict-least", Question::StrictLeast),
    (b"table-check", Question::TableCheck),
    (b"table-type-conforms", Question::TableTypeConforms),
    (b"table-supertype", Question::TableSupertype),
    (b"table-subtype", Question::TableSubtype),
    (b"table-conforms", Question::TableConforms),
    (b"table-least", Question::TableLeast),
];

impl Question {
    // The question with this word.
    pub(crate) fn from_word(word: &[u8]) -> Option<Question> {
        WORDS
            .iter()
            .find(|entry| entry.0 == word)
            .map(|entry| entry.1)
    }

    /// How many arguments it wants.
    pub fn wanted(self) -> usize
        ensures at_least { 1 ≤ result }
        ensures at_most { result ≤ 3 }
    {
        match self {
            Question::CheckValue
            | Question::CheckType
            | Question::Reduced
            | Question::IsSimpleBuiltInType
            | Question::TypeIsNull
            | Question::Least
            | Question::TypeOf
            | Question::IsInvalidCoercion
            | Question::IsValidRange
            | Question::IsNull
            | Question::IsTrue
            | Question::IsFalse
            | Question::IsNumber
            | Question::IsString
            | Question::IsList
            | Question::IsRange
            | Question::Opened
            | Question::Closed
            | Question::Undefined
            | Question::BifType
            | Question::GetFirst
            | Question::IsEmpty
            | Question::Len
            | Question::FromStr
            | Question::IsBuiltInTypeName
            | Question::NameNew
            | Question::Trim
            | Question::StrictLeast
            | Question::TableCheck => 1,
            Question::Create
            | Question::Apply
            | Question::MoveEntry
            | Question::SetEntry
            | Question::TableTypeConforms
            | Question::TableSupertype
            | Question::TableSubtype
            | Question::TableConforms => 3,
            _ => 2,
        }
    }
}
