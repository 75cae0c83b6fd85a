// What a program can call that is not here.

ghost use Rattle.std.specs.Prelude.{◌≡◌, ◌==◌, find, map};
ghost use Rattle.std.specs.Option.{option_map};
ghost use Rattle.one_run.specs.SystemNames as names;
ghost use Rattle.streams.specs.Pushing.{more};

use streams::Text;

/// The name of each entry of the BIOS's jump table, by its address, and of each call of CP/M 2.2 that is not here, by its number.
/// (CP/M 2.2 Alteration Guide, section 6, the jump vector; [Interface Guide 1979, system function summary])
const NAMES: [(u16, &str); 27] = [
    (0xff00, "cold start"),
    (0xff03, "warm start"),
    (0xff06, "console status"),
    (0xff09, "console input"),
    (0xff0c, "console output"),
    (0xff0f, "list output"),
    (0xff12, "punch output"),
    (0xff15, "reader input"),
    (0xff18, "move to track 0"),
    (0xff1b, "select disk"),
    (0xff1e, "set track"),
    (0xff21, "set sector"),
    (0xff24, "set DMA address"),
    (0xff27, "read sector"),
    (0xff2a, "write sector"),
    (0xff2d, "list status"),
    (0xff30, "sector translation"),
    (3, "reader input"),
    (4, "punch output"),
    (5, "list output"),
    (27, "address of the allocation vector"),
    (28, "write protect disk"),
    (29, "get read/only vector"),
    (30, "set file attributes"),
    (31, "address of the disk parameters"),
    (32, "set/get user code"),
    (37, "reset drive"),
];

// Returns the name at the first row of a table with this key.
fn first_name(rows: &[(u16, &'static str)], key: u16) -> Option<&'static str>
    ensures { result ≡ option_map (λ row. row.1) (find (λ row. row.0 == key) rows.now) }
{
    rows.iter().find(|row| row.0 == key).map(|row| row.1)
}

// Returns the name with this key in the table of all names.
fn name_in(rows: &[(u16, &'static str)], key: u16) -> Option<&'static str>
    requires { map names.row_of rows.now ≡ names.rows }
    ensures { option_map (λ name. name.now) result ≡ names.name_of key }
{
    first_name(rows, key)
}

/// Appends the name of the entry of the BIOS at this address, or of the call with this number, and what comes after it, or another text
/// if neither is there.
pub fn push_name<X: Text>(text: &mut X, key: u16, after: &[u8], other: &[u8])
    ensures { X.pushed text.new ≡ more (X.pushed text.old) (names.name_text key after.now other.now) }
{
    if let Some(name) = name_in(&NAMES, key) {
        text.push(name.as_bytes());
        text.push(after);
    } else {
        text.push(other);
    }
}
