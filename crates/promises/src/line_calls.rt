// The calls that write a line.
ghost use Rattle.std.specs.Prelude.{min};
ghost use Rattle.model.specs.Text.{box_line, verdict_line, refusal_line, folded_line, end_line};
ghost use Rattle.text.specs.Pieces.{firsts};
ghost use Rattle.lines.specs.Put.{Put};

use lines::NoRoom;

pub fn box_line(
    out: &mut [u8],
    field: usize,
    tag: u8,
    n: usize,
    low: &[i64; 6],
    high: &[i64; 6],
) -> Result<usize, NoRoom>
    ensures { Put result out.old out.new
        (box_line field tag (firsts (min n 6) low.now) (firsts (min n 6) high.now)) }
{
    lines::box_line(out, field, tag, n, low, high)
}

pub fn verdict_line(out: &mut [u8], field: usize, tag: u8, safe: bool) -> Result<usize, NoRoom>
    ensures { Put result out.old out.new (verdict_line field tag safe) }
{
    lines::verdict_line(out, field, tag, safe)
}

pub fn refusal_line(out: &mut [u8], field: usize, number: u8, place: usize) -> Result<usize, NoRoom>
    ensures { Put result out.old out.new (refusal_line field number place) }
{
    lines::refusal_line(out, field, number, place)
}

pub fn folded_line(out: &mut [u8], totals: &[u64; 6]) -> Result<usize, NoRoom>
    ensures { Put result out.old out.new (folded_line totals.now) }
{
    lines::folded_line(out, totals)
}

pub fn end_line(out: &mut [u8], field: usize) -> Result<usize, NoRoom>
    ensures { Put result out.old out.new (end_line field) }
{
    lines::end_line(out, field)
}
