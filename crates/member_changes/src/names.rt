//! The names that a member may be given.

ghost use Rattle.std.specs.Prelude.{◌≡◌};
ghost use Rattle.member_changes.specs.Names.{joins_names, has_joint, MakesMember};

use dasd_extract::member_name;
use volume_changes::new_set_name;

// Whether a character stands in names of data sets, but in none of members.
fn joins_names(character: u8) -> bool
    ensures { result ≡ joins_names character }
{
    character == b'.' || character == b'-'
}

// Whether one of these characters does.
fn has_joint(text: &[u8]) -> bool
    ensures { result ≡ has_joint text.now }
{
    text.iter().any(
        |character: &u8| -> bool
            ensures { result ≡ joins_names character.now }
        { joins_names(*character) },
    )
}

/// A name for a member in EBCDIC (code page 037), with blanks behind it: 1 to 8 capital letters, digits, `#`, `@` and `$`, of which the first
/// is no digit (IBM System/360 Operating System, Job Control Language Reference, GC28-6704, 'DSNAME'). None is a text of another form.
pub fn new_member_name(text: &str) -> Option<[u8; 8]>
    ensures { MakesMember text.now result }
{
    if new_set_name(text).is_none() || has_joint(text.as_bytes()) {
        return None;
    }
    member_name(text)
}
