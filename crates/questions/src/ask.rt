// A question with its arguments: the call, and its answer.
ghost use Rattle.std.specs.Prelude.{◌≡◌};
ghost use Rattle.lines.specs.Line.{HasNoWord};

use arrayvec::ArrayVec;
use form::Refusal;
use lines::fault::Fault;
use lines::line::{Asked, Line};
use lines::text::{Answer, Unanswered};
use lines::words::Question;
use paths::Part;

// The most names of a path that are passed on: more than any path may have.
const NAMES: usize = 64;

// ---- bytes, names and paths

// The one byte of an argument.
fn byte_of(s: &[u8]) -> Result<u8, Fault> {
    match s {
        [byte] => Ok(*byte),
        _ => Err(Fault::NotAByte),
    }
}

// The name that two bytes say, the low one first.
fn name_of(s: &[u8]) -> Result<u16, Fault> {
    match s {
        [low, high] => Ok(u16::from_le_bytes([*low, *high])),
        _ => Err(Fault::NotAName),
    }
}

// The names of a path, as many as are passed on.
fn path_of(s: &[u8]) -> Result<ArrayVec<u16, NAMES>, Fault> {
    if s.len() % 2 != 0 {
        return Err(Fault::NotAPath);
    }
    let mut names = ArrayVec::new();
    for pair in s.chunks_exact(2) {
        if names
            .try_push(u16::from_le_bytes([pair[0], pair[1]]))
            .is_err()
        {
            break;
        }
    }
    Ok(names)
}

// ---- two calls that answer the same question

// Whether the part that one call lent is the one whose place another found.
fn is_at(part: &[u8], c: &[u8], place: &Part) -> bool {
    let lent = c.get(place.place..).and_then(|rest| rest.get(..place.size));
    lent == Some(part)
}

// The part of a context that a call lent, held to the place that another call found.
fn lent(
    part: Result<Option<&[u8]>, Refusal>,
    c: &[u8],
    place: Result<Option<Part>, Refusal>,
    out: &mut [u8],
) -> Result<Answer, Unanswered> {
    match (part, place) {
        (Ok(Some(part)), Ok(Some(place))) if is_at(part, c, &place) => {
            Ok(Answer::Bytes(output::give(part, out)?))
        }
        (Ok(None), Ok(None)) => Ok(Answer::None),
        (Err(refusal), Err(other)) if refusal == other => Err(Unanswered::Refused(refusal)),
        _ => Err(Unanswered::Apart),
    }
}

fn get_entry(c: &[u8], name: u16, out: &mut [u8]) -> Result<Answer, Unanswered> {
    let place = paths::entry_place(c, name);
    lent(paths::get_entry(c, name), c, place, out)
}

fn search(c: &[u8], path: &[u16], out: &mut [u8]) -> Result<Answer, Unanswered> {
    let place = paths::search_place(c, path);
    lent(paths::search_deep(c, path), c, place, out)
}

fn get_first(c: &[u8], out: &mut [u8]) -> Result<Answer, Unanswered> {
    let place = paths::first_place(c);
    lent(paths::get_first(c), c, place, out)
}

// The text without blanks at both ends: as it is written, held to the part that is lent.
fn trim(s: &[u8], out: &mut [u8]) -> Result<Answer, Unanswered> {
    let n = names::trim_into(s, out)?;
    if out.get(..n) == Some(names::trim(s)) {
        Ok(Answer::Bytes(n))
    } else {
        Err(Unanswered::Apart)
    }
}

// ---- calls

// The command of the type with this name.
fn from_str(s: &[u8], out: &mut [u8]) -> Result<Answer, Refusal> {
    match names::from_str(s) {
        Some(command) => output::give(&[command], out).map(Answer::Bytes),
        None => Ok(Answer::Unknown),
    }
}

// Asks a question.
fn ask(asked: Asked<'_>, scratch: &mut [u8], out: &mut [u8]) -> Result<Answer, Unanswered> {
    let Asked {
        question,
        first: a,
        second: b,
        third: c,
    } = asked;
    let answer = match question {
        Question::CheckValue => form::check_value(a).map(Answer::Number),
        Question::CheckType => form::check_type(a).map(Answer::Number),
        Question::TypeConforms => types::is_conformant(a, b).map(Answer::from),
        Question::InstanceOf => types::instance_of(a, b).map(Answer::from),
        Question::Supertype => bounds::common_supertype(a, b, scratch, out).map(Answer::Bytes),
        Question::Subtype => bounds::common_subtype(a, b, scratch, out).map(Answer::Bytes),
        Question::Reduced => bounds::reduced(a, out).map(Answer::Bytes),
        Question::IsSimpleBuiltInType => types::is_simple_built_in_type(a).map(Answer::from),
        Question::TypeIsNull => types::is_null(a).map(Answer::from),
        Question::Conforms => values::is_conformant(a, b).map(Answer::from),
        Question::Least => infer::least_type(a, scratch, out).map(Answer::Bytes),
        Question::TypeOf => infer::type_of(a, scratch, out).map(Answer::Bytes),
        Question::Retrieve => retrieval::get_value_checked(a, b, out).map(Answer::Bytes),
        Question::RetrieveConformant => retrieval::get_conformant_value(a, b, out).map(
            Answer::Bytes,
        ),
        Question::Coerce => coercion::coerced(a, b, out).map(Answer::Bytes),
        Question::IsInvalidCoercion => ranges::is_invalid_coercion(a).map(Answer::from),
        Question::IsValidRange => ranges::is_valid_range(a).map(Answer::from),
        Question::IsNull => ranges::is_null(a).map(Answer::from),
        Question::IsTrue => ranges::is_true(a).map(Answer::from),
        Question::IsFalse => ranges::is_false(a).map(Answer::from),
        Question::IsNumber => ranges::is_number(a).map(Answer::from),
        Question::IsString => ranges::is_string(a).map(Answer::from),
        Question::IsList => ranges::is_list(a).map(Answer::from),
        Question::IsRange => ranges::is_range(a).map(Answer::from),
        Question::Opened => ranges::opened(byte_of(a)?).map(Answer::from),
        Question::Closed => ranges::closed(byte_of(a)?).map(Answer::from),
        Question::Undefined => ranges::undefined(byte_of(a)?).map(Answer::from),
        Question::BifType => ranges::bif_feel_type(byte_of(a)?, out).map(Answer::Bytes),
        Question::GetEntry => return get_entry(a, name_of(b)?, out),
        Question::Search => return search(a, &path_of(b)?, out),
        Question::GetFirst => return get_first(a, out),
        Question::ContainsEntry => paths::contains_entry(a, name_of(b)?).map(Answer::from),
        Question::Contains => paths::contains_deep(a, &path_of(b)?).map(Answer::from),
        Question::IsContext => paths::is_context(a, name_of(b)?).map(Answer::from),
        Question::IsEmpty => paths::is_empty(a).map(Answer::from),
        Question::Len => paths::len(a).map(Answer::Number),
        Question::Create => context::create_entries(a, &path_of(b)?, c, out).map(Answer::Bytes),
        Question::Apply => context::apply_entries(a, &path_of(b)?, c, out).map(Answer::Bytes),
        Question::Zip => context::zip(a, b, out).map(Answer::Bytes),
        Question::Overwrite => context::overwrite(a, b, out).map(Answer::Bytes),
        Question::MoveEntry => context::move_entry(a, name_of(b)?, name_of(c)?, out).map(
            Answer::Bytes,
        ),
        Question::SetEntry => context::set_entry(a, name_of(b)?, c, out).map(Answer::Bytes),
        Question::RemoveEntry => context::remove_entry(a, name_of(b)?, out).map(Answer::Bytes),
        Question::SetNull => context::set_null(a, name_of(b)?, out).map(Answer::Bytes),
        Question::Display => display::display(a, b, out).map(Answer::Bytes),
        Question::FromStr => from_str(a, out),
        Question::IsBuiltInTypeName => Ok(Answer::from(names::is_built_in_type_name(a))),
        Question::NameNew => names::name_new(a, out).map(Answer::Bytes),
        Question::Trim => return trim(a, out),
        Question::StrictTypeConforms => types::strict_is_conformant(a, b).map(Answer::from),
        Question::StrictSupertype => bounds::strict_common_supertype(a, b, scratch, out).map(
            Answer::Bytes,
        ),
        Question::StrictSubtype => bounds::strict_common_subtype(a, b, scratch, out).map(
            Answer::Bytes,
        ),
        Question::StrictConforms => values::strict_is_conformant(a, b).map(Answer::from),
        Question::StrictLeast => infer::strict_least_type(a, scratch, out).map(Answer::Bytes),
        Question::TableCheck => tables::check_table(a).map(Answer::from),
        Question::TableTypeConforms => types::table_is_conformant(a, b, c).map(Answer::from),
        Question::TableSupertype => bounds::table_common_supertype(a, b, c, scratch, out).map(
            Answer::Bytes,
        ),
        Question::TableSubtype => bounds::table_common_subtype(a, b, c, scratch, out).map(
            Answer::Bytes,
        ),
        Question::TableConforms => values::table_is_conformant(a, b, c).map(Answer::from),
        Question::TableLeast => infer::table_least_type(a, b, scratch, out).map(Answer::Bytes),
    };
    Ok(answer?)
}

/// Asks what a line asks that is whole. Where no word stands, nothing is asked. What is built stands at the front of `out`.
pub fn ask_line(
    line: &mut Line,
    scratch: &mut [u8],
    out: &mut [u8],
) -> Result<Option<Answer>, Unanswered>
    ensures { HasNoWord line.old → result ≡ Ok None }
{
    line.end_word();
    let Some(asked) = line.asked()? else {
        return Ok(None);
    };
    ask(asked, scratch, out).map(Some)
}
