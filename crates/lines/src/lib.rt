// The lines that a run prints, for any caller: each is written at the start of a lent slice that has room for it, and the answer is its
// length. Where there is no room the answer says so, and the slice stays as it was.
#![tactic(auto, using(crate::specs::Put::no_room, crate::specs::Put::has_room, crate::specs::Put::counted, crate::specs::Put::buffered))]

ghost use Rattle.std.specs.Prelude.{min};
ghost use Rattle.model.specs.Text.{box_line, verdict_line, refusal_line, folded_line, end_line};
ghost use Rattle.text.specs.Pieces.{firsts};
ghost use Rattle.lines.specs.Put.{Put};

use std::error::Error;
use std::fmt;

// The slice has no room for the whole line.
#[derive(Clone, Copy, Debug, PartialEq, Eq)]
pub struct NoRoom;

impl fmt::Display for NoRoom {
    ghost use Rattle.std.specs.Prelude.{Some, codes};

    ghost output = { λ _. Some (codes "no room for the line") };

    fn fmt<W: fmt::Write>(&self, f: &mut fmt::Formatter<W>) -> fmt::Result {
        f.write_str("no room for the line")
    }
}

impl Error for NoRoom {}

// The line of an accepted field that leaves a set: the ends of the first n coordinates of its box. An n above 6 counts as 6.
pub fn box_line(
    out: &mut [u8],
    field: usize,
    tag: u8,
    n: usize,
    low: &[i64; 6],
    high: &[i64; 6],
) -> Result<usize, NoRoom>
    ensures { Put result out.old out.new
        (box_line field tag (firsts (min n 6) low.now) (firsts (min n 6) high.now)) }
{
    let mut line = [0; text::LONGEST_LINE];
    let length = text::box_line(&mut line, 0, field, tag, n.min(6), low, high);
    put(out, &line[..length])
}

// The line of an accepted check.
pub fn verdict_line(out: &mut [u8], field: usize, tag: u8, safe: bool) -> Result<usize, NoRoom>
    ensures { Put result out.old out.new (verdict_line field tag safe) }
{
    let mut line = [0; text::LONGEST_LINE];
    let length = text::verdict_line(&mut line, 0, field, tag, safe);
    put(out, &line[..length])
}

// The line of a refused field whose first byte is at `place`.
pub fn refusal_line(out: &mut [u8], field: usize, number: u8, place: usize) -> Result<usize, NoRoom>
    ensures { Put result out.old out.new (refusal_line field number place) }
{
    let mut line = [0; text::LONGEST_LINE];
    let length = text::refusal_line(&mut line, 0, field, number, place);
    put(out, &line[..length])
}

// The line before the last: for each coordinate what folding added to its radius.
pub fn folded_line(out: &mut [u8], totals: &[u64; 6]) -> Result<usize, NoRoom>
    ensures { Put result out.old out.new (folded_line totals.now) }
{
    let mut line = [0; text::LONGEST_LINE];
    let length = text::folded_line(&mut line, 0, totals);
    put(out, &line[..length])
}

// The last line of a run in which no field was refused: the number of the last one.
pub fn end_line(out: &mut [u8], field: usize) -> Result<usize, NoRoom>
    ensures { Put result out.old out.new (end_line field) }
{
    let mut line = [0; text::LONGEST_LINE];
    let length = text::end_line(&mut line, 0, field);
    put(out, &line[..length])
}

// A line that stands elsewhere.
fn put(out: &mut [u8], line: &[u8]) -> Result<usize, NoRoom>
    ensures { Put result out.old out.new line.now }
{
    if out.len() < line.len() {
        return Err(NoRoom);
    }
    Ok(text::appending::append(out, 0, line))
}
