// How to ask.
use std::io::Result;

const HELP: &str = "\
verdicts [FILE ..] answers questions on FEEL types and values in their byte form: one line of answer for each question.
It reads the files in the order named, or standard input where none is named; - names standard input.

A question is a word and its arguments in hexadecimal, upper or lower case. # starts a comment to the end of the line.
A line without a question gets no answer. Blanks are free between bytes and around commas.
Where a comma stands, arguments are what stands between commas; an empty one is no bytes:
    zip 0B 00 00, 0B 01 00 05 00 01 01
Where none stands, each word is an argument, and . is no bytes:
    conforms 0A0000 2A22
Where none stands and one argument is wanted, all words are that one:
    check-value 0A 01 00 01 01

V          a value
T A B      a type
C D        a context, which is a value
NAME PARENT    a name: two bytes, the low one first
PATH       two bytes for each name, the outermost first; no bytes are an empty path
I          an interval: one byte, 00 to 03
F          a built-in function: one byte, 00 to 55
TABLE      texts: a 16-bit count, then for each text a length byte and its bytes; the first is that of name 0
PARTS      parts of a name: a count byte, then for each part a length byte and its bytes
S          a text: any bytes
ROWS       a table of the simple types: a hundred bytes, 00 or 01, row conforms to column, in the order 20 to 29
All arguments of a line have together at most 49216 bytes.

check-type T                  a number: the level
type-conforms A B             yes or no: A conforms to B
instance-of A B               yes or no
supertype A B                 bytes: the least type to which both conform
subtype A B                   bytes: the greatest type that conforms to both
reduced T                     bytes: the reduced form
is-simple-built-in-type T     yes or no
type-is-null T                yes or no
bif-type F                    bytes: the type of a built-in function
check-value V                 a number: the level
conforms V T                  yes or no: V conforms to T
least V                       bytes: the least type
type-of V                     bytes: the type as the Rust infers it
retrieve T V                  bytes: V retrieved by T
retrieve-conformant T V       bytes: V retrieved by T where it conforms, otherwise null with trace 2
coerce V T                    bytes: V coerced to T
is-invalid-coercion V         yes or no, and so up to undefined
is-valid-range V
is-null V
is-true V
is-false V
is-number V
is-string V
is-list V
is-range V
opened I
closed I
undefined I
get-entry C NAME              bytes: the value, or none
search C PATH                 bytes: the value, or none
get-first C                   bytes: the value, or none
contains-entry C NAME         yes or no
contains C PATH               yes or no
is-context C NAME             yes or no
is-empty C                    yes or no
len C                         a number: how many entries
create C PATH V               bytes: the context after the update, and so up to set-null
apply C PATH V
zip C D
overwrite C D
move-entry C NAME PARENT
set-entry C NAME V
remove-entry C NAME
set-null C NAME
display T TABLE               bytes: the text of T
from-str S                    a byte: the command of the type with this name, or unknown
is-built-in-type-name S       yes or no
name-new PARTS                bytes: the name
trim S                        bytes: S without the blanks at both ends
strict-type-conforms A B      yes or no: A conforms to B as DMN has it, also in the results of functions without parameters
strict-supertype A B          bytes: the least type to which both so conform
strict-subtype A B            bytes: the greatest type that so conforms to both
strict-conforms V T           yes or no: V conforms to T as DMN has it, a function definition as its function type
strict-least V                bytes: the least type as DMN has it; of a function definition its function type
table-check ROWS              yes where the table loads, otherwise refused
table-type-conforms ROWS A B  yes or no: A conforms to B over the table
table-supertype ROWS A B      bytes: the least type to which both so conform
table-subtype ROWS A B        bytes: the greatest type that so conforms to both
table-conforms ROWS V T       yes or no: V conforms to T over the table
table-least ROWS V            bytes: the least type over the table

An answer is yes or no, a number in decimal, bytes in upper-case hexadecimal (. where there are none), none, unknown,
or refused with the number of the refusal and its words.
A line that cannot be read gets its number and what is wrong with it, where files are named behind the file's name.
The last line tells how many questions were answered, refused and not read.
";

/// Writes it.
pub(crate) fn print(rt: HostRuntime) -> Result<()> {
    rt.write_all(HELP.as_bytes())
}
