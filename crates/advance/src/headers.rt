// What is known of a field before its body is read.
ghost use Rattle.std.specs.Prelude.{◌≡◌, not, eqb};
ghost use Rattle.model.specs.Run.{first_field, cut};
ghost use Rattle.fields.specs.Kinds.{tag_of};
ghost use Rattle.advance.specs.Header.{HeaderOf, Headed, Placed};

use crate::Header;
use fields::Kind;
use zonotope::Cause;

// Document 01's number of the last field that may follow the start set.
const LAST_FIELD: usize = 4096;

// The header of the first field.
pub fn read(rest: &[u8]) -> Header
    ensures { HeaderOf rest.now result }
{
    let n = rest.len();
    if n < 3 {
        return Header {
            bytes: n,
            whole: false,
        };
    }
    let end = 3 + words::short_at(rest, 1);
    if n < end {
        return Header {
            bytes: n,
            whole: false,
        };
    }
    Header {
        bytes: end,
        whole: true,
    }
}

// The kind of the first field, or the first cause that refuses it before its body is read: 12, 2, 1.
pub fn kind(count: usize, rest: &[u8], whole: bool) -> Result<Kind, Cause>
    requires { whole ≡ not (cut (first_field rest.now)) }
    ensures { Headed count rest.now result }
{
    if LAST_FIELD < count {
        return Err(Cause::TooManyFields);
    }
    if rest.is_empty() {
        return Err(Cause::Ended);
    }
    let kind = placed(count, rest[0])?;
    if whole {
        return Ok(kind);
    }
    Err(Cause::Ended)
}

// The kind with this tag, where it may stand here: the first field is a start set, and no later one is.
fn placed(count: usize, tag: u8) -> Result<Kind, Cause>
    ensures { Placed count tag result }
{
    let kind = Kind::try_from(tag)?;
    if starts(kind) != (count == 0) {
        return Err(Cause::Tag);
    }
    Ok(kind)
}

// Whether it is the kind of a first field.
fn starts(kind: Kind) -> bool
    ensures { result ≡ eqb (tag_of kind) 1 }
{
    matches!(kind, Kind::Start)
}
