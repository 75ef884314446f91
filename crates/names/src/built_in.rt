// The names of the built-in types: for `from_str`, and for the crate `display`.
ghost use Rattle.std.specs.Prelude.{◌≡◌, map};
ghost use Rattle.names.specs.BuiltInNames.{name_of, simples};

static NAMES: [&[u8]; 10] = [
    b"Any",
    b"boolean",
    b"number",
    b"string",
    b"date",
    b"time",
    b"date and time",
    b"days and time duration",
    b"years and months duration",
    b"Null",
];

// The names, in the order of their commands.
pub fn simple_names() -> &'static [&'static [u8]]
    ensures { map (λ name. name.now) result.now ≡ map name_of simples }
{
    &NAMES
}
