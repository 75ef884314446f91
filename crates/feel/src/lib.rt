// The exported C functions. Each answers one number: specs/Numbers.antt has the convention, include/feel.h the words for callers.
#![tactic(auto)]

ghost use Rattle.std.specs.Prelude.{◌≡◌, ◌+◌, length};
ghost use Rattle.form.specs.Answers.{number, outcome};
ghost use Rattle.form.specs.Read.{check_value, check_type};
ghost use Rattle.tables.specs.Calls.{check_table};
ghost use Rattle.types.specs.Calls.{is_conformant, strict_is_conformant, table_is_conformant, instance_of, is_simple_built_in_type, is_null};
ghost use Rattle.values.specs.Calls as values;
ghost use Rattle.infer.specs.Calls.{least_type_call, strict_least_type_call, table_least_type_call, type_of_call};
ghost use Rattle.retrieval.specs.Calls.{get_value_checked_call, get_conformant_value_call};
ghost use Rattle.coercion.specs.Calls.{coerced_call};
ghost use Rattle.ranges.specs.Calls.{is_invalid_coercion_call, is_valid_range_call, is_null_call, is_true_call, is_false_call, is_number_call, is_string_call, is_list_call, is_range_call};
ghost use Rattle.ranges.specs.Calls.{interval, opened_call, closed_call, undefined_call, bif_type_call};
ghost use Rattle.bounds.specs.Calls.{common_supertype, common_subtype, strict_common_supertype, strict_common_subtype, table_common_supertype, table_common_subtype, reduced_call};
ghost use Rattle.paths.specs.Places.{found, extent_of};
ghost use Rattle.paths.specs.Calls.{search_deep_call, get_entry_call, get_first_call, contains_deep_call, contains_entry_call, is_context_call, is_empty_call, len_call};
ghost use Rattle.context.specs.Calls.{create_entries_call, apply_entries_call, zip_call, overwrite_call, move_entry_call, set_entry_call, remove_entry_call, set_null_call};
ghost use Rattle.form.specs.Outcome.{done};
ghost use Rattle.names.specs.BuiltInNames.{is_built_in_type_name};
ghost use Rattle.names.specs.Calls.{name_new_call, trim_call, from_str_call, known};
ghost use Rattle.display.specs.Calls.{display_call};
ghost use Rattle.feel.specs.Numbers.{high, numbered, judged, parted, named, Halves, Exported, ExportedApart};

use form::Refusal;
use paths::Part;

// High word 1: refused.
const REFUSED: u64 = 0x1_0000_0000;

// High word 2: none.
const NONE: u64 = 0x2_0000_0000;

// The number of a level, a count or a length.
fn plain_number(answer: Result<usize, Refusal>) -> u64
    ensures { result ≡ numbered (outcome answer) }
{
    match answer {
        Ok(n) => n as u64,
        Err(refusal) => refused_number(refusal),
    }
}

// The number of a verdict.
fn verdict_number(answer: Result<bool, Refusal>) -> u64
    ensures { result ≡ judged (outcome answer) }
{
    match answer {
        Ok(yes) => u64::from(yes),
        Err(refusal) => refused_number(refusal),
    }
}

// The number of a refusal.
fn refused_number(refusal: Refusal) -> u64
    ensures { result ≡ high 1 + number refusal }
{
    REFUSED + u64::from(u8::from(refusal))
}

// The number of a question that refuses nothing.
fn yes_number(b: bool) -> u64
    ensures { result ≡ judged (done b) }
{
    u64::from(b)
}

// The number of a question on the interval type i, of which `yes` is the answer. A verdict between would cost more than the question: its three
// numbers become a table in memory.
fn interval_number(i: u8, yes: bool) -> u64
    ensures { result ≡ judged (interval (λ x. yes) i) }
{
    if 3 < i {
        return refused_number(Refusal::ValueShape);
    }
    yes_number(yes)
}

// The number of a part that was found.
fn part_number(answer: Result<Option<Part>, Refusal>) -> u64
    requires { Halves (found answer) }
    ensures { result ≡ parted (found answer) }
{
    match answer {
        Ok(Some(part)) => part.place as u64 * 65536 + part.size as u64,
        Ok(None) => NONE,
        Err(refusal) => refused_number(refusal),
    }
}

// The number of a name that is known, or not.
fn known_number(answer: Option<u8>) -> u64
    ensures { result ≡ named (known answer) }
{
    match answer {
        Some(c) => u64::from(c),
        None => NONE,
    }
}

// Is this a value? Its level, or refusal 1 to 5.
#[unsafe(no_mangle)]
pub extern "C" fn feel_check_value(v: &[u8]) -> u64
    ensures { result ≡ numbered (check_value v.now) }
{
    plain_number(form::check_value(v))
}

// Is this a type? Its level, or refusal 6 to 10.
#[unsafe(no_mangle)]
pub extern "C" fn feel_check_type(t: &[u8]) -> u64
    ensures { result ≡ numbered (check_type t.now) }
{
    plain_number(form::check_type(t))
}

// Does the type a conform to the type b?
#[unsafe(no_mangle)]
pub extern "C" fn feel_type_is_conformant(a: &[u8], b: &[u8]) -> u64
    ensures { result ≡ judged (is_conformant a.now b.now) }
{
    verdict_number(types::is_conformant(a, b))
}

// Is the type a an instance of the type b?
#[unsafe(no_mangle)]
pub extern "C" fn feel_type_instance_of(a: &[u8], b: &[u8]) -> u64
    ensures { result ≡ judged (instance_of a.now b.now) }
{
    verdict_number(types::instance_of(a, b))
}

// Is this one of the ten simple types?
#[unsafe(no_mangle)]
pub extern "C" fn feel_type_is_simple_built_in_type(t: &[u8]) -> u64
    ensures { result ≡ judged (is_simple_built_in_type t.now) }
{
    verdict_number(types::is_simple_built_in_type(t))
}

// Is this the type Null?
#[unsafe(no_mangle)]
pub extern "C" fn feel_type_is_null(t: &[u8]) -> u64
    ensures { result ≡ judged (is_null t.now) }
{
    verdict_number(types::is_null(t))
}

// The common supertype of two types.
#[unsafe(no_mangle)]
pub extern "C" fn feel_type_common_supertype(
    a: &[u8],
    b: &[u8],
    scratch: &mut [u8],
    out: &mut [u8],
) -> u64
    ensures { Exported (common_supertype a.now b.now (length scratch.old) (length out.old)) out.old out.new result }
{
    plain_number(bounds::common_supertype(a, b, scratch, out))
}

// The common subtype of two types.
#[unsafe(no_mangle)]
pub extern "C" fn feel_type_common_subtype(
    a: &[u8],
    b: &[u8],
    scratch: &mut [u8],
    out: &mut [u8],
) -> u64
    ensures { Exported (common_subtype a.now b.now (length scratch.old) (length out.old)) out.old out.new result }
{
    plain_number(bounds::common_subtype(a, b, scratch, out))
}

// The reduced form of a type.
#[unsafe(no_mangle)]
pub extern "C" fn feel_type_reduced(t: &[u8], out: &mut [u8]) -> u64
    ensures { Exported (reduced_call t.now (length out.old)) out.old out.new result }
{
    plain_number(bounds::reduced(t, out))
}

// Does the value conform to the type?
#[unsafe(no_mangle)]
pub extern "C" fn feel_value_is_conformant(v: &[u8], t: &[u8]) -> u64
    ensures { result ≡ judged (values.is_conformant v.now t.now) }
{
    verdict_number(values::is_conformant(v, t))
}

// The least type of a data value.
#[unsafe(no_mangle)]
pub extern "C" fn feel_value_least_type(v: &[u8], scratch: &mut [u8], out: &mut [u8]) -> u64
    ensures { Exported (least_type_call v.now (length scratch.old) (length out.old)) out.old out.new result }
{
    plain_number(infer::least_type(v, scratch, out))
}

// The type of a value as the Rust infers it.
#[unsafe(no_mangle)]
pub extern "C" fn feel_value_type_of(v: &[u8], scratch: &mut [u8], out: &mut [u8]) -> u64
    ensures { Exported (type_of_call v.now (length scratch.old) (length out.old)) out.old out.new result }
{
    plain_number(infer::type_of(v, scratch, out))
}

// The value, retrieved by the type.
#[unsafe(no_mangle)]
pub extern "C" fn feel_type_get_value_checked(t: &[u8], v: &[u8], out: &mut [u8]) -> u64
    ensures { Exported (get_value_checked_call t.now v.now (length out.old)) out.old out.new result }
{
    plain_number(retrieval::get_value_checked(t, v, out))
}

// The value, retrieved by the type where it conforms; otherwise null.
#[unsafe(no_mangle)]
pub extern "C" fn feel_type_get_conformant_value(t: &[u8], v: &[u8], out: &mut [u8]) -> u64
    ensures { Exported (get_conformant_value_call t.now v.now (length out.old)) out.old out.new result }
{
    plain_number(retrieval::get_conformant_value(t, v, out))
}

// The value, coerced to the type.
#[unsafe(no_mangle)]
pub extern "C" fn feel_value_coerced(v: &[u8], t: &[u8], out: &mut [u8]) -> u64
    ensures { Exported (coerced_call v.now t.now (length out.old)) out.old out.new result }
{
    plain_number(coercion::coerced(v, t, out))
}

// Is it the null of a coercion that failed?
#[unsafe(no_mangle)]
pub extern "C" fn feel_value_is_invalid_coercion(v: &[u8]) -> u64
    ensures { result ≡ judged (is_invalid_coercion_call v.now) }
{
    verdict_number(ranges::is_invalid_coercion(v))
}

// Is it a valid range?
#[unsafe(no_mangle)]
pub extern "C" fn feel_value_is_valid_range(v: &[u8]) -> u64
    ensures { result ≡ judged (is_valid_range_call v.now) }
{
    verdict_number(ranges::is_valid_range(v))
}

// Is the value null?
#[unsafe(no_mangle)]
pub extern "C" fn feel_value_is_null(v: &[u8]) -> u64
    ensures { result ≡ judged (is_null_call v.now) }
{
    verdict_number(ranges::is_null(v))
}

// Is it the Boolean true?
#[unsafe(no_mangle)]
pub extern "C" fn feel_value_is_true(v: &[u8]) -> u64
    ensures { result ≡ judged (is_true_call v.now) }
{
    verdict_number(ranges::is_true(v))
}

// Is it the Boolean false?
#[unsafe(no_mangle)]
pub extern "C" fn feel_value_is_false(v: &[u8]) -> u64
    ensures { result ≡ judged (is_false_call v.now) }
{
    verdict_number(ranges::is_false(v))
}

// Is it a number?
#[unsafe(no_mangle)]
pub extern "C" fn feel_value_is_number(v: &[u8]) -> u64
    ensures { result ≡ judged (is_number_call v.now) }
{
    verdict_number(ranges::is_number(v))
}

// Is it a string?
#[unsafe(no_mangle)]
pub extern "C" fn feel_value_is_string(v: &[u8]) -> u64
    ensures { result ≡ judged (is_string_call v.now) }
{
    verdict_number(ranges::is_string(v))
}

// Is it a list?
#[unsafe(no_mangle)]
pub extern "C" fn feel_value_is_list(v: &[u8]) -> u64
    ensures { result ≡ judged (is_list_call v.now) }
{
    verdict_number(ranges::is_list(v))
}

// Is it a range?
#[unsafe(no_mangle)]
pub extern "C" fn feel_value_is_range(v: &[u8]) -> u64
    ensures { result ≡ judged (is_range_call v.now) }
{
    verdict_number(ranges::is_range(v))
}

// Is the interval type opened?
#[unsafe(no_mangle)]
pub extern "C" fn feel_interval_opened(i: u8) -> u64
    ensures { result ≡ judged (opened_call i) }
{
    interval_number(i, i < 2)
}

// Is the interval type closed?
#[unsafe(no_mangle)]
pub extern "C" fn feel_interval_closed(i: u8) -> u64
    ensures { result ≡ judged (closed_call i) }
{
    interval_number(i, 2 <= i)
}

// Has the interval type no value?
#[unsafe(no_mangle)]
pub extern "C" fn feel_interval_undefined(i: u8) -> u64
    ensures { result ≡ judged (undefined_call i) }
{
    interval_number(i, i % 2 == 1)
}

// The type of the built-in function at position b.
#[unsafe(no_mangle)]
pub extern "C" fn feel_bif_feel_type(b: u8, out: &mut [u8]) -> u64
    ensures { Exported (bif_type_call b (length out.old)) out.old out.new result }
{
    plain_number(ranges::bif_feel_type(b, out))
}

// The value of the name: its place in the context and its length.
#[unsafe(no_mangle)]
pub extern "C" fn feel_context_get_entry(c: &[u8], name: u16) -> u64
    ensures { result ≡ parted (extent_of (get_entry_call c.now name)) }
{
    part_number(paths::entry_place(c, name))
}

// The value at the path: its place in the context and its length.
#[unsafe(no_mangle)]
pub extern "C" fn feel_context_search_deep(c: &[u8], path: &[u16]) -> u64
    ensures { result ≡ parted (extent_of (search_deep_call c.now path.now)) }
{
    part_number(paths::search_place(c, path))
}

// The first value: its place in the context and its length.
#[unsafe(no_mangle)]
pub extern "C" fn feel_context_get_first(c: &[u8]) -> u64
    ensures { result ≡ parted (extent_of (get_first_call c.now)) }
{
    part_number(paths::first_place(c))
}

// Has the context the name?
#[unsafe(no_mangle)]
pub extern "C" fn feel_context_contains_entry(c: &[u8], name: u16) -> u64
    ensures { result ≡ judged (contains_entry_call c.now name) }
{
    verdict_number(paths::contains_entry(c, name))
}

// Is there a value at the path?
#[unsafe(no_mangle)]
pub extern "C" fn feel_context_contains_deep(c: &[u8], path: &[u16]) -> u64
    ensures { result ≡ judged (contains_deep_call c.now path.now) }
{
    verdict_number(paths::contains_deep(c, path))
}

// Is the value of the name a context?
#[unsafe(no_mangle)]
pub extern "C" fn feel_context_is_context(c: &[u8], name: u16) -> u64
    ensures { result ≡ judged (is_context_call c.now name) }
{
    verdict_number(paths::is_context(c, name))
}

// Has the context no entries?
#[unsafe(no_mangle)]
pub extern "C" fn feel_context_is_empty(c: &[u8]) -> u64
    ensures { result ≡ judged (is_empty_call c.now) }
{
    verdict_number(paths::is_empty(c))
}

// How many entries has the context?
#[unsafe(no_mangle)]
pub extern "C" fn feel_context_len(c: &[u8]) -> u64
    ensures { result ≡ numbered (len_call c.now) }
{
    plain_number(paths::len(c))
}

// The context with the value at the path; contexts on the way are made where there are none.
#[unsafe(no_mangle)]
pub extern "C" fn feel_context_create_entries(
    c: &[u8],
    path: &[u16],
    v: &[u8],
    out: &mut [u8],
) -> u64
    ensures { Exported (create_entries_call c.now path.now v.now (length out.old)) out.old out.new result }
{
    plain_number(context::create_entries(c, path, v, out))
}

// The context with the value at the path; refused where a value on the way is no context.
#[unsafe(no_mangle)]
pub extern "C" fn feel_context_apply_entries(
    c: &[u8],
    path: &[u16],
    v: &[u8],
    out: &mut [u8],
) -> u64
    ensures { Exported (apply_entries_call c.now path.now v.now (length out.old)) out.old out.new result }
{
    plain_number(context::apply_entries(c, path, v, out))
}

// The context with all entries of the other one.
#[unsafe(no_mangle)]
pub extern "C" fn feel_context_zip(c: &[u8], other: &[u8], out: &mut [u8]) -> u64
    ensures { Exported (zip_call c.now other.now (length out.old)) out.old out.new result }
{
    plain_number(context::zip(c, other, out))
}

// The context with those entries of the other one whose names it has.
#[unsafe(no_mangle)]
pub extern "C" fn feel_context_overwrite(c: &[u8], other: &[u8], out: &mut [u8]) -> u64
    ensures { Exported (overwrite_call c.now other.now (length out.old)) out.old out.new result }
{
    plain_number(context::overwrite(c, other, out))
}

// The context with the entry of the name moved below the parent.
#[unsafe(no_mangle)]
pub extern "C" fn feel_context_move_entry(c: &[u8], name: u16, parent: u16, out: &mut [u8]) -> u64
    ensures { Exported (move_entry_call c.now name parent (length out.old)) out.old out.new result }
{
    plain_number(context::move_entry(c, name, parent, out))
}

// The context with the value at the name.
#[unsafe(no_mangle)]
pub extern "C" fn feel_context_set_entry(c: &[u8], name: u16, v: &[u8], out: &mut [u8]) -> u64
    ensures { Exported (set_entry_call c.now name v.now (length out.old)) out.old out.new result }
{
    plain_number(context::set_entry(c, name, v, out))
}

// The context without the entry of the name.
#[unsafe(no_mangle)]
pub extern "C" fn feel_context_remove_entry(c: &[u8], name: u16, out: &mut [u8]) -> u64
    ensures { Exported (remove_entry_call c.now name (length out.old)) out.old out.new result }
{
    plain_number(context::remove_entry(c, name, out))
}

// The context with null at the name.
#[unsafe(no_mangle)]
pub extern "C" fn feel_context_set_null(c: &[u8], name: u16, out: &mut [u8]) -> u64
    ensures { Exported (set_null_call c.now name (length out.old)) out.old out.new result }
{
    plain_number(context::set_null(c, name, out))
}

// The text of the type t with the names that the table gives.
#[unsafe(no_mangle)]
pub extern "C" fn feel_names_display(t: &[u8], table: &[u8], out: &mut [u8]) -> u64
    ensures { Exported (display_call t.now table.now (length out.old)) out.old out.new result }
{
    plain_number(display::display(t, table, out))
}

// The command of the type with this name, or unknown.
#[unsafe(no_mangle)]
pub extern "C" fn feel_names_from_str(s: &[u8]) -> u64
    ensures { result ≡ named (from_str_call s.now) }
{
    known_number(names::from_str(s))
}

// Is this the name of a simple type?
#[unsafe(no_mangle)]
pub extern "C" fn feel_names_is_built_in_type_name(s: &[u8]) -> u64
    ensures { result ≡ judged (done (is_built_in_type_name s.now)) }
{
    yes_number(names::is_built_in_type_name(s))
}

// The name made of the parts.
#[unsafe(no_mangle)]
pub extern "C" fn feel_names_name_new(parts: &[u8], out: &mut [u8]) -> u64
    ensures { Exported (name_new_call parts.now (length out.old)) out.old out.new result }
{
    plain_number(names::name_new(parts, out))
}

// The bytes without the blanks at both ends.
#[unsafe(no_mangle)]
pub extern "C" fn feel_names_trim(s: &[u8], out: &mut [u8]) -> u64
    ensures { Exported (trim_call s.now (length out.old)) out.old out.new result }
{
    plain_number(names::trim_into(s, out))
}

// Does the type a conform to the type b as DMN has it?
#[unsafe(no_mangle)]
pub extern "C" fn feel_strict_type_is_conformant(a: &[u8], b: &[u8]) -> u64
    ensures { result ≡ judged (strict_is_conformant a.now b.now) }
{
    verdict_number(types::strict_is_conformant(a, b))
}

// The common supertype of two types as DMN has it.
#[unsafe(no_mangle)]
pub extern "C" fn feel_strict_type_common_supertype(
    a: &[u8],
    b: &[u8],
    scratch: &mut [u8],
    out: &mut [u8],
) -> u64
    ensures { Exported (strict_common_supertype a.now b.now (length scratch.old) (length out.old)) out.old out.new result }
{
    plain_number(bounds::strict_common_supertype(a, b, scratch, out))
}

// The common subtype of two types as DMN has it.
#[unsafe(no_mangle)]
pub extern "C" fn feel_strict_type_common_subtype(
    a: &[u8],
    b: &[u8],
    scratch: &mut [u8],
    out: &mut [u8],
) -> u64
    ensures { Exported (strict_common_subtype a.now b.now (length scratch.old) (length out.old)) out.old out.new result }
{
    plain_number(bounds::strict_common_subtype(a, b, scratch, out))
}

// Does the value conform to the type as DMN has it?
#[unsafe(no_mangle)]
pub extern "C" fn feel_strict_value_is_conformant(v: &[u8], t: &[u8]) -> u64
    ensures { result ≡ judged (values.strict_is_conformant v.now t.now) }
{
    verdict_number(values::strict_is_conformant(v, t))
}

// The least type of a value as DMN has it.
#[unsafe(no_mangle)]
pub extern "C" fn feel_strict_value_least_type(v: &[u8], scratch: &mut [u8], out: &mut [u8]) -> u64
    ensures { Exported (strict_least_type_call v.now (length scratch.old) (length out.old)) out.old out.new result }
{
    plain_number(infer::strict_least_type(v, scratch, out))
}

// Does the table of simple types load? Yes, or refusal 26 to 28.
#[unsafe(no_mangle)]
pub extern "C" fn feel_table_check(table: &[u8]) -> u64
    ensures { result ≡ judged (check_table table.now) }
{
    verdict_number(tables::check_table(table))
}

// Does the type a conform to the type b over the table?
#[unsafe(no_mangle)]
pub extern "C" fn feel_table_type_is_conformant(table: &[u8], a: &[u8], b: &[u8]) -> u64
    ensures { result ≡ judged (table_is_conformant table.now a.now b.now) }
{
    verdict_number(types::table_is_conformant(table, a, b))
}

// The common supertype of two types over the table.
#[unsafe(no_mangle)]
pub extern "C" fn feel_table_type_common_supertype(
    table: &[u8],
    a: &[u8],
    b: &[u8],
    scratch: &mut [u8],
    out: &mut [u8],
) -> u64
    ensures { ExportedApart (table_common_supertype table.now a.now b.now) scratch.old out.old out.new result }
{
    plain_number(bounds::table_common_supertype(table, a, b, scratch, out))
}

// The common subtype of two types over the table.
#[unsafe(no_mangle)]
pub extern "C" fn feel_table_type_common_subtype(
    table: &[u8],
    a: &[u8],
    b: &[u8],
    scratch: &mut [u8],
    out: &mut [u8],
) -> u64
    ensures { ExportedApart (table_common_subtype table.now a.now b.now) scratch.old out.old out.new result }
{
    plain_number(bounds::table_common_subtype(table, a, b, scratch, out))
}

// Does the value conform to the type over the table?
#[unsafe(no_mangle)]
pub extern "C" fn feel_table_value_is_conformant(table: &[u8], v: &[u8], t: &[u8]) -> u64
    ensures { result ≡ judged (values.table_is_conformant table.now v.now t.now) }
{
    verdict_number(values::table_is_conformant(table, v, t))
}

// The least type of a data value over the table.
#[unsafe(no_mangle)]
pub extern "C" fn feel_table_value_least_type(
    table: &[u8],
    v: &[u8],
    scratch: &mut [u8],
    out: &mut [u8],
) -> u64
    ensures { ExportedApart (table_least_type_call table.now v.now) scratch.old out.old out.new result }
{
    plain_number(infer::table_least_type(table, v, scratch, out))
}
